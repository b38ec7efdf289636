//! Groups of declarations in the order of need and of text.
ghost use Rattle.std.specs.Prelude.{◌<◌, ◌^◌, ◌-◌, length, IfOk};
ghost use Rattle.ddl_groups.specs.Groups.{AreGroups};
ghost use Rattle.ddl_groups.specs.Ordered.{AreDeclared};
ghost use Rattle.ddl_groups.specs.Placing.{lists_of};

use crate::members::{firsts, in_order, members};
use crate::placing::group_order;
use crate::search::labels;
use crate::uses::group_uses;
use ddl_base::NoMemory;
use std::alloc::Global;

/// The groups of declarations of which `needs` has the uses: those that reach each other are in one, members stand in
/// text order, and at each place stands, of the groups of which all needs are placed, the one of the least first member.
pub fn ordered(alloc: Global, needs: &[Vec<u32>]) -> Result<Vec<Vec<u32>>, NoMemory>
    requires few { length needs.now < 2 ^ 32 - 1 }
    requires known { AreDeclared (lists_of needs.now) }
    ensures { IfOk result (λ groups. AreGroups (lists_of needs.now) (lists_of groups.items)) }
{
    let found = labels(alloc, needs)?;
    let count = found.count as usize;
    let by_label = members(alloc, &found.of, count)?;
    let first = firsts(alloc, &by_label)?;
    let uses = group_uses(alloc, needs, &found.of, count)?;
    let order = group_order(alloc, &uses.needs, &uses.users, &first, &found.of)?;
    let groups = in_order(alloc, &by_label, &order)?;
    Ok(groups)
}
