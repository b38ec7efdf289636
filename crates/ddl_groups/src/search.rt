//! The search for the groups, along a path of declarations that use one another.
ghost use Rattle.std.specs.Prelude.{◌≡◌, ◌≢◌, ◌<◌, ◌^◌, ◌-◌, ◌↔◌, ℕ, IsTrue, length, IfOk, OnOk};
ghost use Rattle.ddl_groups.specs.declared.marks.Mark.TheVariants.{Unseen};
ghost use Rattle.ddl_groups.specs.Ordered.{AreCounted, AreDeclared};
ghost use Rattle.ddl_groups.specs.Placing.{lists_of};
ghost use Rattle.ddl_groups.specs.Searching.{IsIdle, IsStart, mark_at};

use crate::closing::close_from;
use crate::marks::{Mark, Search};
use crate::opening::open;
use crate::steps::next_unseen;
use ddl_base::NoMemory;
use std::alloc::Global;

/// A label for each declaration: two have one label exactly where each reaches the other.
#[derive(Drop)]
pub(crate) struct Labelling {
    pub(crate) of: Vec<u32>,
    pub(crate) count: u32,
}

/// A search that has seen nothing.
fn start(alloc: Global, count: usize) -> Result<Search, NoMemory>
    ensures { IfOk result (IsStart count) }
{
    let mut marks = Vec::new(alloc);
    let mut labels = Vec::new(alloc);
    for _made in 0..count {
        marks.push(Mark::Unseen)?;
        labels.push(0)?;
    }
    Ok(Search {
        path: Vec::new(alloc),
        heads: Vec::new(alloc),
        pending: Vec::new(alloc),
        marks,
        labels,
        count: 0,
    })
}

/// Whether the search has not come to a declaration.
fn is_unseen(marks: &[Mark], declaration: u32) -> bool
    requires { declaration < length marks.now }
    ensures { IsTrue result ↔ (mark_at marks.now declaration ≡ Unseen) }
{
    match marks[declaration as usize] {
        Mark::Unseen => true,
        Mark::Open(_) => false,
        Mark::Closed => false,
    }
}

/// Closes all that a declaration reaches.
fn explore(search: &mut Search, needs: &[Vec<u32>], root: u32) -> Result<(), NoMemory>
    requires few { length needs.now < 2 ^ 32 - 1 }
    requires declared { AreDeclared (lists_of needs.now) }
    requires idle { IsIdle (lists_of needs.now) search.old }
    requires within { root < length needs.now }
    requires new { mark_at search.old.marks.items root ≡ Unseen }
    ensures idle { OnOk result (IsIdle (lists_of needs.now) search.new) }
    ensures seen { OnOk result ((v : ℕ) → mark_at search.old.marks.items v ≢ Unseen
        → mark_at search.new.marks.items v ≢ Unseen) }
    ensures root_seen { OnOk result (mark_at search.new.marks.items root ≢ Unseen) }
{
    open(search, needs, root)?;
    while let Some(next) = next_unseen(search, needs) {
        open(search, needs, next)?;
    }
    close_from(search, needs, 0);
    Ok(())
}

/// Labels that tell the groups.
pub(crate) fn labels(alloc: Global, needs: &[Vec<u32>]) -> Result<Labelling, NoMemory>
    requires few { length needs.now < 2 ^ 32 - 1 }
    requires known { AreDeclared (lists_of needs.now) }
    ensures { IfOk result (λ labels. AreCounted (lists_of needs.now) labels.of.items labels.count) }
{
    let mut search = start(alloc, needs.len())?;
    for root in 0..needs.len() as u32 {
        if is_unseen(&search.marks, root) {
            explore(&mut search, needs, root)?;
        }
    }
    Ok(Labelling {
        of: search.labels,
        count: search.count,
    })
}
