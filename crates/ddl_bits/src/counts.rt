ghost use Rattle.ddl_bits.specs.Accepted.{IsAccepted, PartAccepted, PartsAccepted};
ghost use Rattle.ddl_bits.specs.Counts.{tally};
ghost use Rattle.ddl_bits.specs.Tree.{cons_fit, part_fits, part_width, parts_fit, parts_width};
ghost use Rattle.ddl_bits.specs.View.{layout_view, part_view, parts_view};
ghost use Rattle.std.specs.Prelude.{◌≡◌, ◌<◌, ◌^◌};

use crate::fitting::is_below_power;
use crate::layout::{Layout, LayoutPart};
use crate::widths::part_bits;

/// How many numbers fit a layout of this width.
#[cycle(count)]
#[tactic(auto, using(crate::proofs::Layers::layers))]
fn layout_count(layout: &Layout, width: u32) -> u128
    requires accepted { IsAccepted (layout_view layout.now) width }
    requires below_128 { width < 128 }
    ensures { result ≡ tally (cons_fit (layout_view layout.now)) (2 ^ width) }
{
    let mut count = 0;
    for con in &layout.cons {
        count += parts_count(&con.parts, width);
    }
    count
}

/// How many numbers fit parts that have this width together.
#[cycle(count)]
#[tactic(auto, using(crate::proofs::Layers::layers))]
pub(crate) fn parts_count(parts: &[LayoutPart], width: u32) -> u128
    requires accepted { PartsAccepted (parts_view parts.now) }
    requires has_width { parts_width (parts_view parts.now) ≡ width }
    requires below_128 { width < 128 }
    ensures { result ≡ tally (parts_fit (parts_view parts.now)) (2 ^ width) }
{
    let mut count = 1;
    for part in parts {
        count *= part_count(part);
    }
    count
}

/// How many numbers fit a part.
#[cycle(count)]
#[tactic(auto, using(crate::proofs::Layers::layers))]
fn part_count(part: &LayoutPart) -> u128
    requires accepted { PartAccepted (part_view part.now) }
    requires below_128 { part_width (part_view part.now) < 128 }
    ensures { result ≡ tally (part_fits (part_view part.now)) (2 ^ part_width (part_view part.now)) }
{
    match part {
        LayoutPart::Fixed { bits, width } => { if is_below_power(*bits, *width) { 1 } else { 0 } }
        LayoutPart::Any { width, .. } => 1 << *width,
        LayoutPart::Inner { layout, .. } => layout_count(layout, part_bits(part)),
    }
}
