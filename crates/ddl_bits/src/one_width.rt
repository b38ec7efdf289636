ghost use Rattle.ddl_bits.specs.View.{layout_view};
ghost use Rattle.ddl_bits.specs.Widths.{one_width_of};
ghost use Rattle.std.specs.Prelude.{◌≡◌};

use crate::error::BitError;
use crate::layout::Layout;
use crate::places::{first_of_another_width, first_too_wide};
use crate::widths::layout_bits;

/// The one width that all constructors of a layout have.
#[tactic(auto, using(crate::proofs::Layers::layers))]
pub(crate) fn one_width(layout: &Layout) -> Result<u32, BitError>
    ensures { result ≡ one_width_of (layout_view layout.now) }
{
    match first_too_wide(&layout.cons) {
        Some(place) => Err(BitError::TooWide(place)),
        None => {
            let width = layout_bits(layout);
            match first_of_another_width(&layout.cons, width) {
                Some(place) => Err(BitError::Widths(0, place)),
                None => Ok(width),
            }
        }
    }
}
