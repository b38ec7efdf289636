ghost use Rattle.ddl_arith.specs.Exact.{has_op, op_of, right_type};
ghost use Rattle.ddl_types.specs.Num.{is_of_type, whole, IsNumType};
ghost use Rattle.std.specs.Prelude.{◌≡◌, IsTrue};

use crate::signed::{signed, signed_shift};
use crate::unsigned::unsigned;
use crate::{Fault, Op};
use ddl_types::{Num, NumType};

/// The exact result of an operation, over whole numbers.
///
/// A result of `uint n` is taken modulo 2^n. Beyond the range of `int` or `sint n` it is
/// `Overflow`, by zero `DivZero`, and by a shift of the width or more `Shift`, which stands before
/// `Overflow`. Division and remainder go toward zero; a shift to the right rounds down.
pub fn op(what: Op, ty: NumType, left: Num, right: Num) -> Result<Num, Fault>
    requires a_type { IsNumType ty }
    requires the_types_own { IsTrue (has_op ty what) }
    requires left_in { IsTrue (is_of_type ty left) }
    requires right_in { IsTrue (is_of_type (right_type what ty) right) }
    ensures { result ≡ op_of what ty (whole left) (whole right) }
{
    match (ty, left, right) {
        (NumType::Uint(width), Num::Uint(x), Num::Uint(y)) => unsigned(what, width, x, y),
        (NumType::Sint(width), Num::Sint(x), Num::Sint(y)) => signed(what, width, x, y),
        (NumType::Sint(width), Num::Sint(x), Num::Uint(y)) => signed_shift(what, width, x, y),
        (NumType::Int, Num::Sint(x), Num::Sint(y)) => signed(what, 128, x, y),
        (NumType::Int, Num::Sint(x), Num::Uint(y)) => signed_shift(what, 128, x, y),
        _ => unreachable!(),
    }
}
