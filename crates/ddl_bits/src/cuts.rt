ghost use Rattle.ddl_bits.specs.Cuts.{part_cut, parts_cut, cons_cut};
ghost use Rattle.ddl_bits.specs.Tree.{part_width, parts_width, ConsSized, PartSized, PartsSized};
ghost use Rattle.ddl_bits.specs.View.{layout_view, part_view, parts_view};
ghost use Rattle.std.specs.Prelude.{◌≡◌, ◌≤◌};

use crate::layout::{Layout, LayoutPart};
use crate::widths::part_bits;

/// Whether a layout of this width has one constructor at most, which is cut at this place.
#[cycle(cut)]
#[tactic(auto, using(crate::proofs::Layers::layers))]
fn layout_cut(layout: &Layout, width: u32, place: u32) -> bool
    requires sized { ConsSized (layout_view layout.now) width }
    requires at_most_128 { width ≤ 128 }
    ensures { result ≡ cons_cut (layout_view layout.now) place }
{
    match layout.cons.as_slice() {
        [] => true,
        [con] => parts_cut(&con.parts, width, place),
        [_, _, ..] => false,
    }
}

/// Whether parts that have this width together are cut at this place, counted from the lowest bit.
#[cycle(cut)]
#[tactic(auto, using(crate::proofs::Layers::layers))]
pub(crate) fn parts_cut(parts: &[LayoutPart], width: u32, place: u32) -> bool
    requires sized { PartsSized (parts_view parts.now) }
    requires has_width { parts_width (parts_view parts.now) ≡ width }
    requires at_most_128 { width ≤ 128 }
    ensures { result ≡ parts_cut (parts_view parts.now) place }
{
    let mut left = width;
    for part in parts {
        left -= part_bits(part);
        if left == place {
            return true;
        }
        if left < place {
            return part_cut(part, place - left);
        }
    }
    true
}

/// Whether a part is cut at this place.
#[cycle(cut)]
#[tactic(auto, using(crate::proofs::Layers::layers))]
fn part_cut(part: &LayoutPart, place: u32) -> bool
    requires sized { PartSized (part_view part.now) }
    requires at_most_128 { part_width (part_view part.now) ≤ 128 }
    ensures { result ≡ part_cut (part_view part.now) place }
{
    match part {
        LayoutPart::Fixed { .. } | LayoutPart::Any { .. } => true,
        LayoutPart::Inner { layout, .. } => layout_cut(layout, part_bits(part), place),
    }
}
