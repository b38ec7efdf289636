ghost use Rattle.ddl_bits.specs.Flows.{parts_leaves, IsIn, ReadsParts, RunsWhole};
ghost use Rattle.ddl_bits.specs.Overlaps.{parts_both, IsLeastBetween};
ghost use Rattle.ddl_bits.specs.Tree.{parts_width, PartsSized};
ghost use Rattle.ddl_bits.specs.View.{parts_view};
ghost use Rattle.std.specs.Prelude.{◌≡◌, ℕ, ◌+◌, ◌*◌, ◌≤◌, ◌^◌, false, length, IfOk};

use crate::flow::parts_flow;
use crate::layout::LayoutPart;
use crate::leaves::parts_leaves;
use crate::ranges::Range;
use crate::stepping::{Bit, whole_step};
use crate::widths::parts_bits;
use ddl_base::NoMemory;
use std::alloc::Global;

/// Whether two lists of parts may have a number of a range in common. Where not, they have none. For
/// want of memory the answer is that they may.
pub(crate) fn may_share(
    alloc: Global,
    a: &[LayoutPart],
    b: &[LayoutPart],
    from: u128,
    bits: u32,
) -> bool
    requires a_sized { PartsSized (parts_view a.now) }
    requires b_sized { PartsSized (parts_view b.now) }
    requires one_width { parts_width (parts_view a.now) ≡ parts_width (parts_view b.now) }
    requires at_most_128 { parts_width (parts_view b.now) ≤ 128 }
    requires aligned { (p : ℕ) × (from ≡ p * 2 ^ bits) }
    ensures { result ≡ false → IsLeastBetween (parts_both (parts_view a.now) (parts_view b.now)) from (from + 2 ^ bits)
        None }
{
    match can_be_read_by_both(alloc, a, b, Range { from, bits }) {
        Ok(can) => can,
        Err(NoMemory) => true,
    }
}

/// Whether all bits of `a`, read in `b`, can come to the end of that too.
fn can_be_read_by_both(
    alloc: Global,
    a: &[LayoutPart],
    b: &[LayoutPart],
    range: Range,
) -> Result<bool, NoMemory>
    requires a_sized { PartsSized (parts_view a.now) }
    requires b_sized { PartsSized (parts_view b.now) }
    requires one_width { parts_width (parts_view a.now) ≡ parts_width (parts_view b.now) }
    requires at_most_128 { parts_width (parts_view b.now) ≤ 128 }
    ensures { IfOk result (λ can. can ≡ false → (n : ℕ) → IsIn range.from range.bits n
        → ReadsParts (parts_view a.now) 0 n → ReadsParts (parts_view b.now) 0 n → ⊥) }
{
    let mut marks = first_marks(alloc, b)?;
    parts_flow(alloc, a, 0, b, range, &mut marks)?;
    Ok(marks[marks.len() - 1])
}

/// The marks of a constructor before any bit is read.
fn first_marks(alloc: Global, parts: &[LayoutPart]) -> Result<Vec<bool>, NoMemory>
    requires sized { PartsSized (parts_view parts.now) }
    requires within { parts_width (parts_view parts.now) ≤ 128 }
    ensures size { IfOk result (λ marks. length marks.items ≡ parts_leaves (parts_view parts.now) + 1) }
    ensures start { IfOk result (λ marks. (n : ℕ) → ReadsParts (parts_view parts.now) 0 n
        → RunsWhole (parts_view parts.now) marks.items (parts_width (parts_view parts.now)) n) }
{
    let size = parts_leaves(parts).checked_add(1).ok_or(NoMemory)?;
    let mut marks = vec![in alloc; false; size]?;
    let start = Bit {
        place: parts_bits(parts),
        given: None,
        shared: None,
    };
    whole_step(parts, &mut marks, start);
    Ok(marks)
}
