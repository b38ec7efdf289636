//! The order of the groups, which have numbers here: each after its needs, and else by first member.
ghost use Rattle.std.specs.Prelude.{◌≡◌, ℕ, ◌^◌, ◌<◌, ◌≤◌, false, length, replicate, IfOk};
ghost use Rattle.ddl_groups.specs.Placing.{AreLengths, AreNumbers, AreUsers, IsNumbered, IsOrder, lists_of};

use crate::ready::take_least;
use crate::settling::settle;
use ddl_base::NoMemory;
use std::alloc::Global;
use std::collections::BTreeSet;

/// How many needs each group has.
fn lengths(alloc: Global, needs: &[Vec<u32>]) -> Result<Vec<usize>, NoMemory>
    ensures { IfOk result (λ counts. AreLengths (lists_of needs.now) counts.items) }
{
    let mut counts = Vec::new(alloc);
    for need in needs {
        counts.push(need.len())?;
    }
    Ok(counts)
}

/// All numbers below the count, each at its place.
fn numbers(alloc: Global, count: u32) -> Result<Vec<u32>, NoMemory>
    ensures { IfOk result (λ all. AreNumbers count all.items) }
{
    let mut all = Vec::new(alloc);
    for number in 0..count {
        all.push(number)?;
    }
    Ok(all)
}

/// No group is placed.
fn none_placed(alloc: Global, count: usize) -> Result<Vec<bool>, NoMemory>
    ensures { IfOk result (λ placed. placed.items ≡ replicate count false) }
{
    Ok(vec![in alloc; false; count]?)
}

/// The numbers of the groups, in the order in which the groups stand.
pub(crate) fn group_order(
    alloc: Global,
    needs: &[Vec<u32>],
    users: &[Vec<u32>],
    firsts: &[u32],
    labels: &[u32],
) -> Result<Vec<u32>, NoMemory>
    requires few { length needs.now < 2 ^ 32 }
    requires numbered { IsNumbered (lists_of needs.now) firsts.now labels.now }
    requires used { AreUsers (lists_of needs.now) (lists_of users.now) }
    ensures { IfOk result (λ order. IsOrder (lists_of needs.now) firsts.now order.items) }
{
    let mut placed = none_placed(alloc, needs.len())?;
    let mut left = lengths(alloc, needs)?;
    let mut ready = BTreeSet::new(alloc);
    let mut order = Vec::new(alloc);
    let every = numbers(alloc, needs.len() as u32)?;
    settle(
        &every, needs, firsts, labels, &placed, &mut left, &mut ready,
    )?;
    while let Some(first) = take_least(&mut ready) {
        let group = labels[first as usize];
        placed[group as usize] = true;
        order.push(group)?;
        let hand = &users[group as usize];
        settle(hand, needs, firsts, labels, &placed, &mut left, &mut ready)?;
    }
    Ok(order)
}
