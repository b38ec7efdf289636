ghost use Rattle.ddl_bits.specs.Accepted.{ConsAccepted, PartsAccepted};
ghost use Rattle.ddl_bits.specs.Overlaps.{parts_both, HasNoneWith, HasNoOverlap, IsFirstOverlap, IsFirstWith};
ghost use Rattle.ddl_bits.specs.Overlaps.{IsLeastIfAny};
ghost use Rattle.ddl_bits.specs.Tree.{parts_width};
ghost use Rattle.ddl_bits.specs.View.{con_view, cons_view};
ghost use Rattle.std.specs.Prelude.{◌≡◌, ◌<◌, ◌≤◌, length, MatchOption};

use crate::common::least_common;
use crate::layout::LayoutCon;
use std::alloc::Global;

/// Two constructors, by their places, and the least number that fits both.
#[derive(Drop)]
pub(crate) struct Shared {
    pub first: usize,
    pub second: usize,
    pub number: u128,
}

/// The first pair of constructors that a number fits.
pub(crate) fn first_overlap(alloc: Global, cons: &[LayoutCon], width: u32) -> Option<Shared>
    requires accepted { ConsAccepted (cons_view cons.now) width }
    requires at_most_128 { width ≤ 128 }
    ensures { MatchOption result (HasNoOverlap (cons_view cons.now)) (λ o.
        IsFirstOverlap (cons_view cons.now) o.first o.second o.number) }
{
    for first in 0..cons.len() {
        if let Some(shared) = overlap_with(alloc, cons, width, first) {
            return Some(shared);
        }
    }
    None
}

/// The first constructor behind this one that has a number in common with it.
fn overlap_with(alloc: Global, cons: &[LayoutCon], width: u32, first: usize) -> Option<Shared>
    requires accepted { ConsAccepted (cons_view cons.now) width }
    requires at_most_128 { width ≤ 128 }
    requires inside { first < length cons.now }
    ensures { MatchOption result (HasNoneWith (cons_view cons.now) first) (λ o. (o.first ≡ first)
        × IsFirstWith (cons_view cons.now) first o.second o.number) }
{
    for second in first + 1..cons.len() {
        if let Some(number) = cons_common(alloc, &cons[first], &cons[second], width) {
            return Some(Shared {
                first,
                second,
                number,
            });
        }
    }
    None
}

/// The least number that fits both of two constructors of this width.
#[tactic(auto, using(crate::proofs::Layers::layers))]
fn cons_common(alloc: Global, a: &LayoutCon, b: &LayoutCon, width: u32) -> Option<u128>
    requires a_accepted { PartsAccepted (con_view a.now) }
    requires b_accepted { PartsAccepted (con_view b.now) }
    requires a_width { parts_width (con_view a.now) ≡ width }
    requires b_width { parts_width (con_view b.now) ≡ width }
    requires at_most_128 { width ≤ 128 }
    ensures { IsLeastIfAny (parts_both (con_view a.now) (con_view b.now)) result }
{
    least_common(alloc, &a.parts, &b.parts, width)
}
