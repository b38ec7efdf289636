ghost use Rattle.ddl_bits.specs.Accepted.{IsAccepted};
ghost use Rattle.ddl_bits.specs.Covered.{IsCoverage};
ghost use Rattle.ddl_bits.specs.Tree.{cons_fit};
ghost use Rattle.ddl_bits.specs.View.{layout_view};
ghost use Rattle.std.specs.Prelude.{◌≡◌, ℕ, ◌+◌, ◌<◌, ◌^◌, true};

use crate::below::layout_below;
use crate::checked::Checked;
use crate::error::Gap;
use crate::fitting::layout_fits;
use crate::layout::Layout;

/// Whether each number below 2^width fits a constructor, or the least one that fits none.
pub fn covered(checked: &Checked) -> Result<(), Gap>
    ensures { IsCoverage (layout_view checked.now.layout) checked.now.width result }
{
    let number = first_left_out(&checked.layout, checked.width);
    if layout_fits(&checked.layout, checked.width, number) {
        Ok(())
    } else {
        Err(Gap::Number(number))
    }
}

/// The least number that fits none, or the greatest of this width where each fits. Up to the least
/// one and no further there are as many numbers that fit as there are numbers.
fn first_left_out(layout: &Layout, width: u32) -> u128
    requires accepted { IsAccepted (layout_view layout.now) width }
    ensures within { result < 2 ^ width }
    ensures before { (k : ℕ) → k < result → cons_fit (layout_view layout.now) k ≡ true }
    ensures last { cons_fit (layout_view layout.now) result ≡ true → result + 1 ≡ 2 ^ width }
{
    let mut number = 0;
    let mut bits = width;
    while bits > 0 {
        bits -= 1;
        let next = number + (1 << bits);
        if layout_below(layout, width, next) == next {
            number = next;
        }
    }
    number
}
