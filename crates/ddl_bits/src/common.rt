ghost use Rattle.ddl_bits.specs.Accepted.{PartsAccepted};
ghost use Rattle.ddl_bits.specs.Cuts.{parts_cut};
ghost use Rattle.ddl_bits.specs.Overlaps.{parts_both, HasNone, IsLeastIfAny, IsSearched};
ghost use Rattle.ddl_bits.specs.Tree.{parts_fit, parts_width, PartsSized};
ghost use Rattle.ddl_bits.specs.View.{parts_view};
ghost use Rattle.std.specs.Prelude.{◌≡◌, ℕ, ◌+◌, ◌*◌, ◌≤◌, ◌^◌, ◌&&◌};

use crate::below::parts_below;
use crate::clash::are_told_apart;
use crate::cuts::parts_cut;
use crate::fitting::parts_fit;
use crate::layout::LayoutPart;
use crate::meeting::may_share;
use std::alloc::Global;

/// What a search for the least number in a range came to.
#[derive(Clone, Copy)]
pub(crate) enum Search {
    /// The least number of the range that fits both.
    Number(u128),
    /// None in the range.
    NoneHere,
    /// None at all.
    NoneAtAll,
}

/// The least number that fits both of two lists of parts of this width.
pub(crate) fn least_common(
    alloc: Global,
    a: &[LayoutPart],
    b: &[LayoutPart],
    width: u32,
) -> Option<u128>
    requires a_accepted { PartsAccepted (parts_view a.now) }
    requires b_accepted { PartsAccepted (parts_view b.now) }
    requires a_width { parts_width (parts_view a.now) ≡ width }
    requires b_width { parts_width (parts_view b.now) ≡ width }
    requires at_most_128 { width ≤ 128 }
    ensures { IsLeastIfAny (parts_both (parts_view a.now) (parts_view b.now)) result }
{
    if are_told_apart(a, b, width) {
        return None;
    }
    match search_range(alloc, a, b, width, 0, width) {
        Search::Number(number) => Some(number),
        Search::NoneHere => None,
        Search::NoneAtAll => None,
    }
}

/// The least among the numbers that have all but their lowest `bits` as `from` has them. Where both
/// have numbers there, but none in common, and both are cut there, other upper bits bring none either.
fn search_range(
    alloc: Global,
    a: &[LayoutPart],
    b: &[LayoutPart],
    width: u32,
    from: u128,
    bits: u32,
) -> Search
    requires a_accepted { PartsAccepted (parts_view a.now) }
    requires b_accepted { PartsAccepted (parts_view b.now) }
    requires a_width { parts_width (parts_view a.now) ≡ width }
    requires b_width { parts_width (parts_view b.now) ≡ width }
    requires at_most_128 { width ≤ 128 }
    requires fewer { bits ≤ width }
    requires within { from + 2 ^ bits ≤ 2 ^ width }
    requires aligned { (p : ℕ) × (from ≡ p * 2 ^ bits) }
    ensures { IsSearched (parts_both (parts_view a.now) (parts_view b.now)) from (from + 2 ^ bits) result }
{
    if has_none(a, width, from, bits) || has_none(b, width, from, bits) {
        return Search::NoneHere;
    }
    if bits == 0 {
        return Search::Number(from);
    }
    let is_cut = both_cut(a, b, width, bits);
    if !is_cut && !may_share(alloc, a, b, from, bits) {
        return Search::NoneHere;
    }
    let half = bits - 1;
    match search_range(alloc, a, b, width, from, half) {
        Search::Number(number) => Search::Number(number),
        Search::NoneAtAll => Search::NoneAtAll,
        Search::NoneHere => match search_range(alloc, a, b, width, from + (1 << half), half) {
            Search::Number(number) => Search::Number(number),
            Search::NoneAtAll => Search::NoneAtAll,
            Search::NoneHere => if is_cut {
                Search::NoneAtAll
            } else {
                Search::NoneHere
            },
        },
    }
}

/// Whether both lists of parts are cut at the lower end of such a range.
fn both_cut(a: &[LayoutPart], b: &[LayoutPart], width: u32, bits: u32) -> bool
    requires a_sized { PartsSized (parts_view a.now) }
    requires b_sized { PartsSized (parts_view b.now) }
    requires a_width { parts_width (parts_view a.now) ≡ width }
    requires b_width { parts_width (parts_view b.now) ≡ width }
    requires at_most_128 { width ≤ 128 }
    ensures { result ≡ (parts_cut (parts_view a.now) bits && parts_cut (parts_view b.now) bits) }
{
    parts_cut(a, width, bits) && parts_cut(b, width, bits)
}

/// Whether parts have no number among those that have all but their lowest `bits` as `from` has them.
fn has_none(parts: &[LayoutPart], width: u32, from: u128, bits: u32) -> bool
    requires accepted { PartsAccepted (parts_view parts.now) }
    requires has_width { parts_width (parts_view parts.now) ≡ width }
    requires at_most_128 { width ≤ 128 }
    requires fewer { bits ≤ width }
    requires within { from + 2 ^ bits ≤ 2 ^ width }
    ensures { HasNone (parts_fit (parts_view parts.now)) from (from + 2 ^ bits) result }
{
    let last = from + last_of(bits);
    parts_below(parts, width, from) == parts_below(parts, width, last)
        && !parts_fit(parts, width, last)
}

/// The greatest number of so many bits.
fn last_of(bits: u32) -> u128
    requires { bits ≤ 128 }
    ensures { result + 1 ≡ 2 ^ bits }
{
    if bits == 128 {
        u128::MAX
    } else {
        (1 << bits) - 1
    }
}
