ghost use Rattle.ddl_bits.specs.FixedBits.{differ, part_bit, parts_bit};
ghost use Rattle.ddl_bits.specs.Overlaps.{parts_both};
ghost use Rattle.ddl_bits.specs.Tree.{parts_width, PartsSized};
ghost use Rattle.ddl_bits.specs.View.{part_view, parts_view};
ghost use Rattle.std.specs.Prelude.{◌≡◌, ℕ, ◌<◌, ◌≤◌, true, false};

use crate::layout::LayoutPart;
use crate::widths::part_bits;

/// Whether two lists of parts of this width are told apart by a bit that both give. Then no number
/// fits both.
pub(crate) fn are_told_apart(a: &[LayoutPart], b: &[LayoutPart], width: u32) -> bool
    requires a_sized { PartsSized (parts_view a.now) }
    requires b_sized { PartsSized (parts_view b.now) }
    requires a_width { parts_width (parts_view a.now) ≡ width }
    requires b_width { parts_width (parts_view b.now) ≡ width }
    requires at_most_128 { width ≤ 128 }
    ensures { result ≡ true → (n : ℕ) → parts_both (parts_view a.now) (parts_view b.now) n ≡ false }
{
    for place in 0..width {
        if are_different(given_bit(a, width, place), given_bit(b, width, place)) {
            return true;
        }
    }
    false
}

/// Whether both bits are given, and they differ.
pub(crate) fn are_different(a: Option<u128>, b: Option<u128>) -> bool
    ensures { result ≡ differ a b }
{
    match a {
        None => false,
        Some(one) => match b {
            None => false,
            Some(other) => one != other,
        },
    }
}

/// The bit at this place, counted from the lowest, where the parts give it.
#[tactic(auto, using(crate::proofs::Layers::layers))]
pub(crate) fn given_bit(parts: &[LayoutPart], width: u32, place: u32) -> Option<u128>
    requires sized { PartsSized (parts_view parts.now) }
    requires has_width { parts_width (parts_view parts.now) ≡ width }
    requires at_most_128 { width ≤ 128 }
    requires inside { place < width }
    ensures { result ≡ parts_bit (parts_view parts.now) place }
{
    let mut left = width;
    for part in parts {
        left -= part_bits(part);
        if left <= place {
            return part_bit_at(part, place - left);
        }
    }
    None
}

/// The same of one part.
#[tactic(auto, using(crate::proofs::Layers::layers))]
pub(crate) fn part_bit_at(part: &LayoutPart, place: u32) -> Option<u128>
    requires { place < 128 }
    ensures { result ≡ part_bit (part_view part.now) place }
{
    match part {
        LayoutPart::Fixed { bits, .. } => Some((*bits >> place) & 1),
        LayoutPart::Any { .. } | LayoutPart::Inner { .. } => None,
    }
}
