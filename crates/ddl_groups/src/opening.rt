//! A declaration that the search comes to stands at the end of its path.
ghost use Rattle.std.specs.Prelude.{◌-◌, ◌^◌, ◌<◌, ◌≤◌, length, OnOk};
ghost use Rattle.ddl_groups.specs.Placing.{lists_of};
ghost use Rattle.ddl_groups.specs.Searching.{ComesTo, Holds, IsOpened};

use crate::marks::{Mark, Search};
use crate::steps::add_steps;
use ddl_base::NoMemory;

/// Puts a declaration at the end of the path, as a group of its own, with a step for each of its uses.
pub(crate) fn open(
    search: &mut Search,
    needs: &[Vec<u32>],
    declaration: u32,
) -> Result<(), NoMemory>
    requires few { length needs.now < 2 ^ 32 - 1 }
    requires comes { ComesTo (lists_of needs.now) search.old declaration }
    ensures holds { OnOk result (Holds (lists_of needs.now) search.new) }
    ensures opened { OnOk result (IsOpened search.old.marks.items declaration search.new.marks.items) }
{
    let place = search.path.len();
    search.path.push(declaration)?;
    search.heads.push(place)?;
    search.marks[declaration as usize] = Mark::Open(place);
    add_steps(&mut search.pending, place, &needs[declaration as usize])?;
    Ok(())
}
