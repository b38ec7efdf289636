//! The members of each group, and the first of them.
ghost use Rattle.std.specs.Prelude.{◌≡◌, ℕ, ◌^◌, ◌<◌, ◌≤◌, length, slice_index, IfOk};
ghost use Rattle.std.specs.List.{All};
ghost use Rattle.ddl_groups.specs.Groups.{first_member, group_at};
ghost use Rattle.ddl_groups.specs.Numbered.{AreMembers};
ghost use Rattle.ddl_groups.specs.Placing.{lists_of};

use crate::lists::{add_to, empty_lists};
use ddl_base::NoMemory;
use std::alloc::Global;

/// The declarations of each label, in text order.
pub(crate) fn members(
    alloc: Global,
    labels: &[u32],
    count: usize,
) -> Result<Vec<Vec<u32>>, NoMemory>
    requires few { length labels.now < 2 ^ 32 }
    requires known { All (λ l. l < count) labels.now }
    ensures { IfOk result (λ lists. (length lists.items ≡ count)
        × AreMembers labels.now (length labels.now) (lists_of lists.items)) }
{
    let mut lists = empty_lists(alloc, count)?;
    for declaration in 0..labels.len() as u32 {
        let label = labels[declaration as usize];
        add_to(&mut lists, label as usize, declaration)?;
    }
    Ok(lists)
}

/// The first member of each group.
pub(crate) fn firsts(alloc: Global, members: &[Vec<u32>]) -> Result<Vec<u32>, NoMemory>
    requires { (l : ℕ) → l < length members.now → 0 < length (group_at (lists_of members.now) l) }
    ensures { IfOk result (λ firsts. (length firsts.items ≡ length members.now)
        × ((l : ℕ) → l < length members.now → slice_index firsts.items l ≡ first_member (lists_of members.now) l)) }
{
    let mut firsts = Vec::new(alloc);
    for group in members {
        firsts.push(group[0])?;
    }
    Ok(firsts)
}

/// The members of the groups in an order.
pub(crate) fn in_order(
    alloc: Global,
    members: &[Vec<u32>],
    order: &[u32],
) -> Result<Vec<Vec<u32>>, NoMemory>
    requires { All (λ l. l < length members.now) order.now }
    ensures { IfOk result (λ groups. (length groups.items ≡ length order.now)
        × ((k : ℕ) → k < length order.now → group_at (lists_of groups.items) k
        ≡ group_at (lists_of members.now) (slice_index order.now k))) }
{
    let mut groups = Vec::new(alloc);
    for group in order {
        groups.push(Vec::from_slice(alloc, &members[*group as usize])?)?;
    }
    Ok(groups)
}
