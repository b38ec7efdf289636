ghost use Rattle.ddl_bits.specs.Flows.{cons_leaves, part_leaves, parts_leaves};
ghost use Rattle.ddl_bits.specs.View.{layout_view, part_view, parts_view};
ghost use Rattle.std.specs.Prelude.{◌≡◌, ◌-◌, ◌^◌, min};

use crate::layout::{Layout, LayoutPart};

/// How many leaves a layout has, or the greatest number where there are more.
#[cycle(leaves)]
#[tactic(auto, using(crate::proofs::Layers::layers))]
fn layout_leaves(layout: &Layout) -> usize
    ensures { result ≡ min (cons_leaves (layout_view layout.now)) (2 ^ 64 - 1) }
{
    let mut leaves = 0_usize;
    for con in &layout.cons {
        leaves = leaves.saturating_add(parts_leaves(&con.parts));
    }
    leaves
}

/// How many leaves these parts have together.
#[cycle(leaves)]
#[tactic(auto, using(crate::proofs::Layers::layers))]
pub(crate) fn parts_leaves(parts: &[LayoutPart]) -> usize
    ensures { result ≡ min (parts_leaves (parts_view parts.now)) (2 ^ 64 - 1) }
{
    let mut leaves = 0_usize;
    for part in parts {
        leaves = leaves.saturating_add(part_leaves(part));
    }
    leaves
}

/// How many leaves a part has: one, where it holds no layout.
#[cycle(leaves)]
#[tactic(auto, using(crate::proofs::Layers::layers))]
pub(crate) fn part_leaves(part: &LayoutPart) -> usize
    ensures { result ≡ min (part_leaves (part_view part.now)) (2 ^ 64 - 1) }
{
    match part {
        LayoutPart::Fixed { .. } | LayoutPart::Any { .. } => 1,
        LayoutPart::Inner { layout, .. } => layout_leaves(layout),
    }
}
