ghost use Rattle.ddl_arith.specs.Exact.{op_of, settled};
ghost use Rattle.std.specs.Prelude.{◌≡◌, ◌≤◌, pos};
ghost use Rattle.ddl_types.specs.declared.num.NumType.TheVariants as Ty;

use crate::bits::lowest_bits;
use crate::{Fault, Op};
use ddl_types::Num;

/// An operation of `uint width`. Results are exact modulo 2^128, so the last step makes them exact.
pub(crate) fn unsigned(what: Op, width: u8, left: u128, right: u128) -> Result<Num, Fault>
    requires { width ≤ 128 }
    ensures { result ≡ op_of what (Ty.Uint width) (pos left) (pos right) }
{
    match what {
        Op::Add => settle(width, left.wrapping_add(right)),
        Op::Sub => settle(width, left.wrapping_sub(right)),
        Op::Mul => settle(width, left.wrapping_mul(right)),
        Op::Div => {
            if right == 0 {
                Err(Fault::DivZero)
            } else {
                settle(width, left / right)
            }
        }
        Op::Rem => {
            if right == 0 {
                Err(Fault::DivZero)
            } else {
                settle(width, left % right)
            }
        }
        Op::Shl => {
            if right >= u128::from(width) {
                Err(Fault::Shift)
            } else {
                settle(width, left << right)
            }
        }
        Op::Shr => {
            if right >= u128::from(width) {
                Err(Fault::Shift)
            } else {
                settle(width, left >> right)
            }
        }
        Op::And => settle(width, left & right),
        Op::Or => settle(width, left | right),
        Op::Xor => settle(width, left ^ right),
    }
}

fn settle(width: u8, whole: u128) -> Result<Num, Fault>
    requires { width ≤ 128 }
    ensures { result ≡ settled (Ty.Uint width) (pos whole) }
{
    Ok(Num::Uint(lowest_bits(whole, width)))
}
