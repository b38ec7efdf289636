//! Lists of numbers, one for each group.
ghost use Rattle.std.specs.Prelude.{◌≡◌, ◌<◌, length, IfOk, OnOk};
ghost use Rattle.ddl_groups.specs.Numbered.{AreEmpty, added};
ghost use Rattle.ddl_groups.specs.Placing.{lists_of};

use ddl_base::NoMemory;
use std::alloc::Global;

/// So many lists, which are empty.
pub(crate) fn empty_lists(alloc: Global, count: usize) -> Result<Vec<Vec<u32>>, NoMemory>
    ensures { IfOk result (λ lists. AreEmpty count (lists_of lists.items)) }
{
    let mut lists = Vec::new(alloc);
    for _made in 0..count {
        lists.push(Vec::new(alloc))?;
    }
    Ok(lists)
}

/// Adds a number to the list at a place.
pub(crate) fn add_to(lists: &mut Vec<Vec<u32>>, at: usize, value: u32) -> Result<(), NoMemory>
    requires { at < length lists.old.items }
    ensures { OnOk result (lists_of lists.new.items ≡ added (lists_of lists.old.items) at value) }
{
    lists[at].push(value)?;
    Ok(())
}
