ghost use Rattle.ddl_bits.specs.Tree.{cons_width, cons_fit, parts_fit, parts_width, part_fits, part_width, place_of};
ghost use Rattle.ddl_bits.specs.Tree.{ConsSized, PartSized, PartsSized};
ghost use Rattle.ddl_bits.specs.View.{layout_view, con_view, cons_view, part_view, parts_view};
ghost use Rattle.std.specs.Prelude.{◌≡◌, ◌≤◌, ◌^◌, nat_lt};

use crate::layout::{Layout, LayoutCon, LayoutPart};
use crate::widths::part_bits;

/// Whether a number fits some constructor of a layout of this width.
#[cycle(fits)]
#[tactic(auto, using(crate::proofs::Layers::layers))]
pub(crate) fn layout_fits(layout: &Layout, width: u32, number: u128) -> bool
    requires sized { ConsSized (layout_view layout.now) width }
    requires at_most_128 { width ≤ 128 }
    ensures { result ≡ cons_fit (layout_view layout.now) number }
{
    for con in &layout.cons {
        if parts_fit(&con.parts, width, number) {
            return true;
        }
    }
    false
}

/// Whether a number fits parts that have this width together.
#[cycle(fits)]
#[tactic(auto, using(crate::proofs::Layers::layers))]
pub(crate) fn parts_fit(parts: &[LayoutPart], width: u32, number: u128) -> bool
    requires sized { PartsSized (parts_view parts.now) }
    requires has_width { parts_width (parts_view parts.now) ≡ width }
    requires at_most_128 { width ≤ 128 }
    ensures { result ≡ parts_fit (parts_view parts.now) number }
{
    let mut left = width;
    let mut low = number;
    for part in parts {
        left -= part_bits(part);
        if !part_fits(part, low >> left) {
            return false;
        }
        low &= (1 << left) - 1;
    }
    low == 0
}

/// Whether a number fits a part.
#[cycle(fits)]
#[tactic(auto, using(crate::proofs::Layers::layers))]
pub(crate) fn part_fits(part: &LayoutPart, number: u128) -> bool
    requires sized { PartSized (part_view part.now) }
    requires at_most_128 { part_width (part_view part.now) ≤ 128 }
    ensures { result ≡ part_fits (part_view part.now) number }
{
    match part {
        LayoutPart::Fixed { bits, width } => number == *bits && is_below_power(number, *width),
        LayoutPart::Any { width, .. } => is_below_power(number, *width),
        LayoutPart::Inner { layout, .. } => layout_fits(layout, part_bits(part), number),
    }
}

/// Whether a number has no bit beside its lowest `width`.
pub(crate) fn is_below_power(number: u128, width: u32) -> bool
    requires { width ≤ 128 }
    ensures { result ≡ nat_lt number (2 ^ width) }
{
    width == 128 || number >> width == 0
}
