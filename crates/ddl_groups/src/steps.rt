//! The steps of a search: the uses of what stands on its path.
ghost use Rattle.std.specs.Prelude.{◌≡◌, ◌-◌, ◌^◌, ℕ, ◌<◌, ◌≤◌, ◌⊎◌, Contains, List, length, OnOk, MatchOption};
ghost use Rattle.ddl_groups.specs.declared.marks.Step.{Step};
ghost use Rattle.ddl_groups.specs.Ordered.{AreDeclared};
ghost use Rattle.ddl_groups.specs.Placing.{lists_of};
ghost use Rattle.ddl_groups.specs.Searching.{AreSorted, ComesTo, Holds, KeepsSeen, StepsMore};

use crate::closing::close_from;
use crate::joining::join;
use crate::marks::{Mark, Search, Step};
use ddl_base::NoMemory;

/// Adds a step for each declaration that the one at a place uses.
pub(crate) fn add_steps(pending: &mut Vec<Step>, from: usize, used: &[u32]) -> Result<(), NoMemory>
    requires sorted { AreSorted pending.old.items }
    requires later { (s : Step) → Contains pending.old.items s → s.from ≤ from }
    ensures { OnOk result (StepsMore pending.old.items from used.now pending.new.items) }
{
    for declaration in used {
        pending.push(Step {
            from,
            to: *declaration,
        })?;
    }
    Ok(())
}

/// Takes the last step, once the groups behind it are closed, and answers what it comes to if that is unseen.
fn take_step(search: &mut Search, needs: &[Vec<u32>]) -> Option<u32>
    requires few { length needs.now < 2 ^ 32 - 1 }
    requires declared { AreDeclared (lists_of needs.now) }
    requires holds { Holds (lists_of needs.now) search.old }
    requires some { 0 < length search.old.pending.items }
    ensures step { MatchOption result (Holds (lists_of needs.now) search.new) (λ w.
        ComesTo (lists_of needs.now) search.new w) }
    ensures seen { KeepsSeen search.old.marks.items search.new.marks.items }
    ensures fewer { length search.new.pending.items < length search.old.pending.items }
{
    let step = search.pending[search.pending.len() - 1];
    close_from(search, needs, step.from + 1);
    search.pending.pop();
    match search.marks[step.to as usize] {
        Mark::Unseen => Some(step.to),
        Mark::Open(place) => {
            join(&mut search.heads, place);
            None
        }
        Mark::Closed => None,
    }
}

/// Takes steps up to one that comes to what is unseen.
pub(crate) fn next_unseen(search: &mut Search, needs: &[Vec<u32>]) -> Option<u32>
    requires few { length needs.now < 2 ^ 32 - 1 }
    requires declared { AreDeclared (lists_of needs.now) }
    requires holds { Holds (lists_of needs.now) search.old }
    ensures next { MatchOption result (Holds (lists_of needs.now) search.new × (length search.new.pending.items ≡ 0))
        (λ w. ComesTo (lists_of needs.now) search.new w) }
    ensures seen { KeepsSeen search.old.marks.items search.new.marks.items }
{
    while !search.pending.is_empty() {
        if let Some(declaration) = take_step(search, needs) {
            return Some(declaration);
        }
    }
    None
}
