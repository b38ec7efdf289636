ghost use Rattle.ddl_bits.specs.Accepted.{IsAccepted, IsAccepted-prop};
ghost use Rattle.ddl_bits.specs.Tree.{place_of};
ghost use Rattle.ddl_bits.specs.View.{layout_view};
ghost use Rattle.std.specs.Prelude.{◌≡◌};

use crate::layout::Layout;
use crate::places::first_that_fits;

/// A layout whose constructors have this one width, of at most 128 bits, of which no number fits two.
#[derive(Drop)]
pub struct Checked {
    pub layout: Layout,
    pub width: u32,
    pub ghost accepted: { IsAccepted (layout_view layout) width } by { IsAccepted-prop (layout_view layout) width },
}

/// The place of the constructor that a number fits. None fits a number of 2^width or more.
pub fn fits(checked: &Checked, number: u128) -> Option<usize>
    ensures { result ≡ place_of (layout_view checked.now.layout) number }
{
    first_that_fits(&checked.layout.cons, checked.width, number)
}
