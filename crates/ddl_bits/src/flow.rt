ghost use Rattle.ddl_bits.specs.Flows.{parts_leaves, HasLeaf, IsFlow, ReadsCons, ReadsPart, ReadsParts};
ghost use Rattle.ddl_bits.specs.Tree.{cons_width, part_width, parts_width, ConsSized, PartSized, PartsSized};
ghost use Rattle.ddl_bits.specs.View.{layout_view, part_view, parts_view};
ghost use Rattle.std.specs.Prelude.{◌≡◌, ◌+◌, ◌≤◌, length, OnOk};

use crate::clash::part_bit_at;
use crate::layout::{Layout, LayoutPart};
use crate::marks::{add_marks, copied};
use crate::ranges::{Range, shared_bit};
use crate::stepping::{Bit, is_possible, whole_step};
use crate::widths::{part_bits, parts_bits};
use ddl_base::NoMemory;
use std::alloc::Global;

/// Reads all bits of a part in `other`, a whole constructor, as far as numbers of a range have them.
#[cycle(flow)]
#[tactic(auto, using(crate::proofs::Layers::layers))]
fn part_flow(
    alloc: Global,
    part: &LayoutPart,
    low: u32,
    other: &[LayoutPart],
    range: Range,
    marks: &mut [bool],
) -> Result<(), NoMemory>
    requires sized { PartSized (part_view part.now) }
    requires within { low + part_width (part_view part.now) ≤ 128 }
    requires other_sized { PartsSized (parts_view other.now) }
    requires other_within { parts_width (parts_view other.now) ≤ 128 }
    requires marked { length marks.old ≡ parts_leaves (parts_view other.now) + 1 }
    ensures { OnOk result (IsFlow (ReadsPart (part_view part.now) low) low (part_width (part_view part.now))
        (parts_view other.now) range marks.old marks.new) }
{
    match part {
        LayoutPart::Fixed { .. } | LayoutPart::Any { .. } => {
            leaf_flow(part, low, other, range, marks);
            Ok(())
        }
        LayoutPart::Inner { layout, .. } => { layout_flow(alloc, layout, low, other, range, marks) }
    }
}

/// The same of parts, one after the other.
#[cycle(flow)]
#[tactic(auto, using(crate::proofs::Layers::layers))]
pub(crate) fn parts_flow(
    alloc: Global,
    parts: &[LayoutPart],
    low: u32,
    other: &[LayoutPart],
    range: Range,
    marks: &mut [bool],
) -> Result<(), NoMemory>
    requires sized { PartsSized (parts_view parts.now) }
    requires within { low + parts_width (parts_view parts.now) ≤ 128 }
    requires other_sized { PartsSized (parts_view other.now) }
    requires other_within { parts_width (parts_view other.now) ≤ 128 }
    requires marked { length marks.old ≡ parts_leaves (parts_view other.now) + 1 }
    ensures { OnOk result (IsFlow (ReadsParts (parts_view parts.now) low) low (parts_width (parts_view parts.now))
        (parts_view other.now) range marks.old marks.new) }
{
    let mut left = parts_bits(parts);
    for part in parts {
        left -= part_bits(part);
        part_flow(alloc, part, low + left, other, range, marks)?;
    }
    Ok(())
}

/// The same of a layout: each of its constructors is read with the marks of before, and all that are
/// set then are.
#[cycle(flow)]
#[tactic(auto, using(crate::proofs::Layers::layers))]
fn layout_flow(
    alloc: Global,
    layout: &Layout,
    low: u32,
    other: &[LayoutPart],
    range: Range,
    marks: &mut [bool],
) -> Result<(), NoMemory>
    requires sized { ConsSized (layout_view layout.now) (cons_width (layout_view layout.now)) }
    requires within { low + cons_width (layout_view layout.now) ≤ 128 }
    requires other_sized { PartsSized (parts_view other.now) }
    requires other_within { parts_width (parts_view other.now) ≤ 128 }
    requires marked { length marks.old ≡ parts_leaves (parts_view other.now) + 1 }
    ensures { OnOk result (IsFlow (ReadsCons (layout_view layout.now) low) low (cons_width (layout_view layout.now))
        (parts_view other.now) range marks.old marks.new) }
{
    let before = copied(alloc, marks)?;
    marks.fill(false);
    for con in &layout.cons {
        let mut after = copied(alloc, &before)?;
        parts_flow(alloc, &con.parts, low, other, range, &mut after)?;
        add_marks(marks, &after);
    }
    Ok(())
}

/// The same of a leaf, bit by bit.
fn leaf_flow(leaf: &LayoutPart, low: u32, other: &[LayoutPart], range: Range, marks: &mut [bool])
    requires within { low + part_width (part_view leaf.now) ≤ 128 }
    requires other_sized { PartsSized (parts_view other.now) }
    requires other_within { parts_width (parts_view other.now) ≤ 128 }
    requires marked { length marks.old ≡ parts_leaves (parts_view other.now) + 1 }
    ensures { IsFlow (HasLeaf (part_view leaf.now) low) low (part_width (part_view leaf.now)) (parts_view other.now)
        range marks.old marks.new }
{
    if !is_possible(leaf) {
        marks.fill(false);
        return;
    }
    for place in (0..part_bits(leaf)).rev() {
        let bit = Bit {
            place: low + place,
            given: part_bit_at(leaf, place),
            shared: shared_bit(range, low + place),
        };
        whole_step(other, marks, bit);
    }
}
