ghost use Rattle.ddl_bits.specs.Accepted.{IsAccepted, PartAccepted, PartsAccepted};
ghost use Rattle.ddl_bits.specs.Counts.{tally};
ghost use Rattle.ddl_bits.specs.Tree.{cons_fit, part_fits, part_width, parts_fit, parts_width};
ghost use Rattle.ddl_bits.specs.View.{layout_view, part_view, parts_view};
ghost use Rattle.std.specs.Prelude.{◌≡◌, ◌<◌, ◌≤◌, ◌^◌};

use crate::counts::parts_count;
use crate::fitting::part_fits;
use crate::layout::{Layout, LayoutPart};
use crate::widths::part_bits;

/// How many numbers below a number fit a layout of this width.
#[cycle(below)]
#[tactic(auto, using(crate::proofs::Layers::layers))]
pub(crate) fn layout_below(layout: &Layout, width: u32, number: u128) -> u128
    requires accepted { IsAccepted (layout_view layout.now) width }
    requires within { number < 2 ^ width }
    ensures { result ≡ tally (cons_fit (layout_view layout.now)) number }
{
    let mut below = 0;
    for con in &layout.cons {
        below += parts_below(&con.parts, width, number);
    }
    below
}

/// How many numbers below a number fit parts that have this width together.
#[cycle(below)]
#[tactic(auto, using(crate::proofs::Layers::layers))]
pub(crate) fn parts_below(parts: &[LayoutPart], width: u32, number: u128) -> u128
    requires accepted { PartsAccepted (parts_view parts.now) }
    requires has_width { parts_width (parts_view parts.now) ≡ width }
    requires at_most_128 { width ≤ 128 }
    requires within { number < 2 ^ width }
    ensures { result ≡ tally (parts_fit (parts_view parts.now)) number }
{
    let mut left = width;
    let mut low = number;
    let mut below = 0;
    for (place, part) in parts.iter().enumerate() {
        left -= part_bits(part);
        let high = low >> left;
        below += part_below(part, high) * parts_count(&parts[place + 1..], left);
        if !part_fits(part, high) {
            return below;
        }
        low &= (1 << left) - 1;
    }
    below
}

/// How many numbers below a number fit a part.
#[cycle(below)]
#[tactic(auto, using(crate::proofs::Layers::layers))]
fn part_below(part: &LayoutPart, number: u128) -> u128
    requires accepted { PartAccepted (part_view part.now) }
    requires at_most_128 { part_width (part_view part.now) ≤ 128 }
    requires within { number < 2 ^ part_width (part_view part.now) }
    ensures { result ≡ tally (part_fits (part_view part.now)) number }
{
    match part {
        LayoutPart::Fixed { bits, .. } => { if *bits < number { 1 } else { 0 } }
        LayoutPart::Any { .. } => number,
        LayoutPart::Inner { layout, .. } => layout_below(layout, part_bits(part), number),
    }
}
