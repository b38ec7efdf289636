ghost use Rattle.ddl_bits.specs.Tree.{other_width_from, place_of, too_wide_from, ConsSized};
ghost use Rattle.ddl_bits.specs.View.{cons_view};
ghost use Rattle.std.specs.Prelude.{◌≡◌, ◌≤◌};

use crate::fitting::parts_fit;
use crate::layout::LayoutCon;
use crate::widths::{TOO_WIDE, parts_bits};

/// The place of the first constructor that a number fits, where all have this width.
#[tactic(auto, using(crate::proofs::Layers::layers))]
pub(crate) fn first_that_fits(cons: &[LayoutCon], width: u32, number: u128) -> Option<usize>
    requires sized { ConsSized (cons_view cons.now) width }
    requires at_most_128 { width ≤ 128 }
    ensures { result ≡ place_of (cons_view cons.now) number }
{
    for (place, con) in cons.iter().enumerate() {
        if parts_fit(&con.parts, width, number) {
            return Some(place);
        }
    }
    None
}

/// The place of the first constructor of more than 128 bits.
#[tactic(auto, using(crate::proofs::Layers::layers))]
pub(crate) fn first_too_wide(cons: &[LayoutCon]) -> Option<usize>
    ensures { result ≡ too_wide_from 0 (cons_view cons.now) }
{
    for (place, con) in cons.iter().enumerate() {
        if parts_bits(&con.parts) == TOO_WIDE {
            return Some(place);
        }
    }
    None
}

/// The place of the first constructor of another width, where none has more than 128 bits.
#[tactic(auto, using(crate::proofs::Layers::layers))]
pub(crate) fn first_of_another_width(cons: &[LayoutCon], width: u32) -> Option<usize>
    requires { width ≤ 128 }
    ensures { result ≡ other_width_from width 0 (cons_view cons.now) }
{
    for (place, con) in cons.iter().enumerate() {
        if parts_bits(&con.parts) != width {
            return Some(place);
        }
    }
    None
}
