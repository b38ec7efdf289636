//! Which groups are ready: those of which all needs are placed.
ghost use Rattle.std.specs.Prelude.{◌≡◌, ℕ, ◌-◌, ◌<◌, ◌≤◌, [], length, slice_index, OnOk};
ghost use Rattle.std.specs.List.{All};
ghost use Rattle.ddl_groups.specs.Placing.{IsNumbered, IsOpen, IsPlaced, IsWaiting, lists_of};

use crate::ready::add;
use ddl_base::NoMemory;
use std::collections::BTreeSet;

/// How many of the needs are left once those that stand behind the last open one are passed over.
fn open_needs(needs: &[u32], placed: &[bool], from: usize) -> usize
    requires within { from ≤ length needs.now }
    requires known { All (λ h. h < length placed.now) needs.now }
    ensures fewer { result ≤ from }
    ensures passed { (k : ℕ) → result ≤ k → k < from → IsPlaced placed.now (slice_index needs.now k) }
    ensures open_one { 0 < result → IsOpen placed.now (slice_index needs.now (result - 1)) }
{
    let mut left = from;
    while left > 0 {
        if !placed[needs[left - 1] as usize] {
            return left;
        }
        left -= 1;
    }
    0
}

/// Looks at each group in hand: one of which all needs are placed is ready.
pub(crate) fn settle(
    hand: &[u32],
    needs: &[Vec<u32>],
    firsts: &[u32],
    labels: &[u32],
    placed: &[bool],
    left: &mut Vec<usize>,
    ready: &mut BTreeSet<u32>,
) -> Result<(), NoMemory>
    requires graph { IsNumbered (lists_of needs.now) firsts.now labels.now }
    requires marks { length placed.now ≡ length needs.now }
    requires in_hand { All (λ l. (l < length needs.now) × IsOpen placed.now l) hand.now }
    requires waiting { IsWaiting (lists_of needs.now) firsts.now labels.now placed.now left.old.items ready.old.keys
        hand.now 0 }
    ensures { OnOk result (IsWaiting (lists_of needs.now) firsts.now labels.now placed.now left.new.items ready.new.keys
        [] 0) }
{
    for group in hand {
        let group = *group as usize;
        let rest = open_needs(&needs[group], placed, left[group]);
        left[group] = rest;
        if rest == 0 {
            add(ready, firsts[group])?;
        }
    }
    Ok(())
}
