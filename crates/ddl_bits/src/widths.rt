ghost use Rattle.ddl_bits.specs.Tree.{cons_width, part_width, parts_width};
ghost use Rattle.ddl_bits.specs.View.{layout_view, part_view, parts_view};
ghost use Rattle.std.specs.Prelude.{◌≡◌, min};

use crate::layout::{Layout, LayoutPart};

/// One more bit than a layout may have: widths are counted up to it.
pub(crate) const TOO_WIDE: u32 = 129;

/// How many bits a layout has, which is as many as its first constructor.
#[cycle(width)]
#[tactic(auto, using(crate::proofs::Layers::layers))]
pub(crate) fn layout_bits(layout: &Layout) -> u32
    ensures { result ≡ min (cons_width (layout_view layout.now)) 129 }
{
    match layout.cons.as_slice() {
        [] => 0,
        [con, ..] => parts_bits(&con.parts),
    }
}

/// How many bits these parts have together.
#[cycle(width)]
#[tactic(auto, using(crate::proofs::Layers::layers))]
pub(crate) fn parts_bits(parts: &[LayoutPart]) -> u32
    ensures { result ≡ min (parts_width (parts_view parts.now)) 129 }
{
    let mut bits = 0;
    for part in parts {
        bits = (bits + part_bits(part)).min(TOO_WIDE);
    }
    bits
}

/// How many bits a part has.
#[cycle(width)]
#[tactic(auto, using(crate::proofs::Layers::layers))]
pub(crate) fn part_bits(part: &LayoutPart) -> u32
    ensures { result ≡ min (part_width (part_view part.now)) 129 }
{
    match part {
        LayoutPart::Fixed { width, .. } | LayoutPart::Any { width, .. } => (*width).min(TOO_WIDE),
        LayoutPart::Inner { layout, .. } => layout_bits(layout),
    }
}
