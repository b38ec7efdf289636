ghost use Rattle.ddl_bits.specs.Verdict.{HasAcceptedParts, IsVerdict};
ghost use Rattle.ddl_bits.specs.View.{layout_view};

use crate::checked::Checked;
use crate::error::BitError;
use crate::layout::Layout;
use crate::one_width::one_width;
use crate::overlap::first_overlap;
use std::alloc::Global;

/// Keeps a layout whose constructors have one width of at most 128 bits, where no number fits two.
/// Its inner layouts are to be accepted. Of several errors too great a width is the first, then
/// another width, then an overlap. The memory that it takes makes the search for an overlap short;
/// where there is none it takes longer, and comes to the same answer.
#[tactic(auto, using(crate::proofs::Layers::layers))]
pub fn check(alloc: Global, layout: Layout) -> Result<Checked, BitError>
    requires { HasAcceptedParts (layout_view layout) }
    ensures { IsVerdict layout result }
{
    match one_width(&layout) {
        Err(error) => Err(error),
        Ok(width) => match first_overlap(alloc, &layout.cons, width) {
            Some(shared) => Err(BitError::Overlap(shared.first, shared.second, shared.number)),
            None => Ok(Checked { layout, width }),
        },
    }
}
