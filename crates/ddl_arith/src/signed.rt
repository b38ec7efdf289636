ghost use Rattle.ddl_arith.specs.Exact.{has_op, op_of, right_type, settled};
ghost use Rattle.ddl_types.specs.Num.{is_of_type};
ghost use Rattle.std.specs.Int.{w128};
ghost use Rattle.std.specs.Option.{SomeIff};
ghost use Rattle.std.specs.Prelude.{◌≡◌, ◌≤◌, ◌<◌, ◌^◌, pos, ◌*ℤ◌, FitsSigned, IsTrue, IfNone, IfSome};
ghost use Rattle.ddl_types.specs.declared.num.NumType.TheVariants as Ty;

use crate::bits::is_sint;
use crate::{Fault, Op};
use ddl_types::Num;

/// An operation of `sint width`, or of `int` at 128, but for the shifts.
pub(crate) fn signed(what: Op, width: u8, left: i128, right: i128) -> Result<Num, Fault>
    requires at_least_one { 1 ≤ width }
    requires at_most_128 { width ≤ 128 }
    requires the_types_own { IsTrue (has_op (Ty.Sint width) what) }
    requires right_in { IsTrue (is_of_type (right_type what (Ty.Sint width)) (Num.Sint right)) }
    ensures { result ≡ op_of what (Ty.Sint width) left right }
{
    match what {
        Op::Add => settle(width, left.checked_add(right)),
        Op::Sub => settle(width, left.checked_sub(right)),
        Op::Mul => settle(width, left.checked_mul(right)),
        Op::Div => {
            if right == 0 {
                Err(Fault::DivZero)
            } else {
                settle(width, left.checked_div(right))
            }
        }
        Op::Rem => {
            if right == 0 {
                Err(Fault::DivZero)
            } else {
                settle(width, Some(left.wrapping_rem(right)))
            }
        }
        Op::Shl | Op::Shr | Op::And | Op::Or | Op::Xor => unreachable!(),
    }
}

/// A shift of `sint width`, or of `int` at 128.
pub(crate) fn signed_shift(what: Op, width: u8, left: i128, places: u128) -> Result<Num, Fault>
    requires at_least_one { 1 ≤ width }
    requires at_most_128 { width ≤ 128 }
    requires the_types_own { IsTrue (has_op (Ty.Sint width) what) }
    requires right_in { IsTrue (is_of_type (right_type what (Ty.Sint width)) (Num.Uint places)) }
    ensures { result ≡ op_of what (Ty.Sint width) left (pos places) }
{
    if places >= u128::from(width) {
        return Err(Fault::Shift);
    }
    match what {
        Op::Shl => settle(width, times_power(left, places as u8)),
        Op::Shr => settle(width, Some(left >> places)),
        _ => unreachable!(),
    }
}

// The answer of a true result, which is absent where it does not fit an `i128`.
fn settle(width: u8, whole: Option<i128>) -> Result<Num, Fault>
    requires at_least_one { 1 ≤ width }
    requires at_most_128 { width ≤ 128 }
    ensures over { IfNone whole (result ≡ Err Fault.Overflow) }
    ensures exact { IfSome whole (λ z. result ≡ settled (Ty.Sint width) z) }
{
    match whole {
        Some(z) if is_sint(z, width) => Ok(Num::Sint(z)),
        _ => Err(Fault::Overflow),
    }
}

// A number times 2^places, where the product fits.
fn times_power(left: i128, places: u8) -> Option<i128>
    requires { places < 128 }
    ensures { SomeIff result (FitsSigned w128 (left *ℤ pos (2 ^ places))) (left *ℤ pos (2 ^ places)) }
{
    if is_sint(left, 128 - places) {
        Some(left << places)
    } else {
        None
    }
}
