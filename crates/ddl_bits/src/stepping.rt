ghost use Rattle.ddl_bits.specs.Flows.{cons_leaves, is_possible, part_leaves, parts_leaves, some_differ, HasBit};
ghost use Rattle.ddl_bits.specs.Flows.{HasLeaf, IsStep, RunsCons, RunsLeaf, RunsPart, RunsParts, RunsWhole};
ghost use Rattle.ddl_bits.specs.Tree.{part_width, parts_width, ConsSized, PartSized, PartsSized};
ghost use Rattle.ddl_bits.specs.View.{layout_view, part_view, parts_view};
ghost use Rattle.std.specs.Prelude.{◌≡◌, ℕ, ◌+◌, ◌<◌, ◌≤◌, true, length};

use crate::clash::{are_different, part_bit_at};
use crate::fitting::is_below_power;
use crate::layout::{Layout, LayoutPart};
use crate::leaves::{part_leaves, parts_leaves};
use crate::widths::{part_bits, parts_bits};

/// A bit that is read: its place, counted from the lowest, what the leaf gives that it is read by, and
/// what all numbers of a range have there.
#[derive(Clone, Copy)]
pub(crate) struct Bit {
    pub place: u32,
    pub given: Option<u128>,
    pub shared: Option<u128>,
}

/// Whether some two of three bits are given and differ.
fn some_differ(a: Option<u128>, b: Option<u128>, c: Option<u128>) -> bool
    ensures { result ≡ some_differ a b c }
{
    are_different(a, b) || are_different(a, c) || are_different(b, c)
}

/// Reads a bit in a part. A leaf is marked while it is read, and from when what stands before it was
/// `entered`: read to its end. The answer says whether the part itself has now been.
#[cycle(step)]
#[tactic(auto, using(crate::proofs::Layers::layers))]
fn part_step(part: &LayoutPart, low: u32, marks: &mut [bool], bit: Bit, entered: bool) -> bool
    requires sized { PartSized (part_view part.now) }
    requires within { low + part_width (part_view part.now) ≤ 128 }
    requires marked { length marks.old ≡ part_leaves (part_view part.now) }
    ensures { IsStep (RunsPart (part_view part.now) low) low (part_width (part_view part.now)) bit entered marks.old
        marks.new result }
{
    match part {
        LayoutPart::Fixed { .. } | LayoutPart::Any { .. } => {
            leaf_step(part, low, marks, bit, entered)
        }
        LayoutPart::Inner { layout, .. } => {
            layout_step(layout, part_bits(part), low, marks, bit, entered)
        }
    }
}

/// The same of parts that have this width together, each of which stands before the next.
#[cycle(step)]
#[tactic(auto, using(crate::proofs::Layers::layers))]
pub(crate) fn parts_step(
    parts: &[LayoutPart],
    width: u32,
    low: u32,
    marks: &mut [bool],
    bit: Bit,
    entered: bool,
) -> bool
    requires sized { PartsSized (parts_view parts.now) }
    requires has_width { parts_width (parts_view parts.now) ≡ width }
    requires within { low + width ≤ 128 }
    requires marked { length marks.old ≡ parts_leaves (parts_view parts.now) }
    ensures { IsStep (RunsParts (parts_view parts.now) low) low width bit entered marks.old marks.new result }
{
    let mut left = width;
    let mut start = 0;
    let mut done = entered;
    for part in parts {
        left -= part_bits(part);
        let end = start + part_leaves(part);
        done = part_step(part, low + left, &mut marks[start..end], bit, done);
        start = end;
    }
    done
}

/// The same of a layout, which is read by any of its constructors.
#[cycle(step)]
#[tactic(auto, using(crate::proofs::Layers::layers))]
fn layout_step(
    layout: &Layout,
    width: u32,
    low: u32,
    marks: &mut [bool],
    bit: Bit,
    entered: bool,
) -> bool
    requires sized { ConsSized (layout_view layout.now) width }
    requires within { low + width ≤ 128 }
    requires marked { length marks.old ≡ cons_leaves (layout_view layout.now) }
    ensures { IsStep (RunsCons (layout_view layout.now) low) low width bit entered marks.old marks.new result }
{
    let mut start = 0;
    let mut done = false;
    for con in &layout.cons {
        let end = start + parts_leaves(&con.parts);
        done |= parts_step(&con.parts, width, low, &mut marks[start..end], bit, entered);
        start = end;
    }
    done
}

/// The same of all of a constructor. The mark behind those of its leaves is that of its end.
pub(crate) fn whole_step(parts: &[LayoutPart], marks: &mut [bool], bit: Bit)
    requires sized { PartsSized (parts_view parts.now) }
    requires within { parts_width (parts_view parts.now) ≤ 128 }
    requires marked { length marks.old ≡ parts_leaves (parts_view parts.now) + 1 }
    ensures { (n : ℕ) → HasBit bit n → RunsWhole (parts_view parts.now) marks.old (bit.place + 1) n
        → RunsWhole (parts_view parts.now) marks.new bit.place n }
{
    let width = parts_bits(parts);
    let last = marks.len() - 1;
    let done = parts_step(parts, width, 0, &mut marks[..last], bit, bit.place == width);
    marks[last] = done;
}

/// The same of a leaf, whose mark is the first.
#[tactic(auto, using(crate::proofs::Steps::has_a_bit))]
fn leaf_step(leaf: &LayoutPart, low: u32, marks: &mut [bool], bit: Bit, entered: bool) -> bool
    requires sized { PartSized (part_view leaf.now) }
    requires within { low + part_width (part_view leaf.now) ≤ 128 }
    requires marked { 1 ≤ length marks.old }
    ensures { IsStep (RunsLeaf (part_view leaf.now) low) low (part_width (part_view leaf.now)) bit entered marks.old
        marks.new result }
{
    if bit.place == low + part_bits(leaf) {
        marks[0] = entered;
        return false;
    }
    let goes = marks[0] && goes_on(leaf, low, bit);
    marks[0] = goes && low < bit.place;
    goes && low == bit.place
}

/// Whether a bit that is read may be one of a leaf.
fn goes_on(leaf: &LayoutPart, low: u32, bit: Bit) -> bool
    requires { low + part_width (part_view leaf.now) ≤ 128 }
    ensures { (n : ℕ) → HasBit bit n → HasLeaf (part_view leaf.now) low n → low ≤ bit.place
        → bit.place < low + part_width (part_view leaf.now) → result ≡ true }
{
    let is_inside = low <= bit.place && bit.place < low + part_bits(leaf);
    is_inside
        && is_possible(leaf)
        && !some_differ(part_bit_at(leaf, bit.place - low), bit.given, bit.shared)
}

/// Whether some number fits a leaf: given bits may be too many for their width.
#[tactic(auto, using(crate::proofs::Layers::layers))]
pub(crate) fn is_possible(leaf: &LayoutPart) -> bool
    requires { part_width (part_view leaf.now) ≤ 128 }
    ensures { result ≡ is_possible (part_view leaf.now) }
{
    match leaf {
        LayoutPart::Fixed { bits, width } => is_below_power(*bits, *width),
        LayoutPart::Any { .. } | LayoutPart::Inner { .. } => true,
    }
}
