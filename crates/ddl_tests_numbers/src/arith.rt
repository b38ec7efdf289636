mod signed_rows;
mod unsigned_rows;

ghost use Rattle.ddl_arith.specs.Exact.{has_op, right_type};
ghost use Rattle.ddl_types.specs.Num.{IsNumType};
ghost use Rattle.std.specs.Prelude.{◌≡◌};

use ddl_arith::{Fault, Op, cut, join, keep, op};
use ddl_types::{Num, NumType};
use std::process::Abort;

// The answer, where the type has the operation and the numbers.
fn answer(what: Op, ty: NumType, left: Num, right: Num) -> Option<Result<Num, Fault>>
    requires { IsNumType ty }
{
    let left = keep(left, ty)?;
    let right = keep(right, right_type_of(what, ty))?;
    if has(ty, what) {
        Some(op(what, ty, left, right))
    } else {
        None
    }
}

fn right_type_of(what: Op, ty: NumType) -> NumType
    ensures { result ≡ right_type what ty }
{
    match what {
        Op::Shl | Op::Shr => NumType::Uint(64),
        _ => ty,
    }
}

fn has(ty: NumType, what: Op) -> bool
    ensures { result ≡ has_op ty what }
{
    match ty {
        NumType::Uint(_) => true,
        _ => !matches!(what, Op::And | Op::Or | Op::Xor),
    }
}

/// What a row of the tables says.
fn expect(
    rt: &impl Abort,
    row: usize,
    what: Op,
    ty: NumType,
    left: Num,
    right: Num,
    wanted: Result<Num, Fault>,
)
    requires { IsNumType ty }
{
    let given = answer(what, ty, left, right);
    assert!(rt; given == Some(wanted), "row {row}");
}

#[test]
fn unsigned_operations_at_both_ends(rt: HostRuntime) {
    for (row, &(width, what, left, right, wanted)) in unsigned_rows::rows().iter().enumerate() {
        assert!(rt; 1 <= width && width <= 128);
        let (left, right, wanted) = (Num::Uint(left), Num::Uint(right), wanted.map(Num::Uint));
        expect(&rt, row, what, NumType::Uint(width), left, right, wanted);
    }
}

#[test]
fn signed_operations_at_both_ends(rt: HostRuntime) {
    for (row, &(width, what, left, right, wanted)) in signed_rows::rows().iter().enumerate() {
        assert!(rt; 1 <= width && width <= 128);
        let (left, right, wanted) = (Num::Sint(left), Num::Sint(right), wanted.map(Num::Sint));
        expect(&rt, row, what, NumType::Sint(width), left, right, wanted);
        if width == 128 {
            expect(&rt, row, what, NumType::Int, left, right, wanted);
        }
    }
}

#[test]
fn numbers_are_kept_in_another_type(rt: HostRuntime) {
    let least = Num::Sint(i128::MIN);
    assert!(rt; keep(Num::Uint(255), NumType::Sint(8)) == None);
    assert!(rt; keep(Num::Uint(127), NumType::Sint(8)) == Some(Num::Sint(127)));
    assert!(rt; keep(Num::Sint(-1), NumType::Uint(128)) == None);
    assert!(rt; keep(least, NumType::Int) == Some(least));
    assert!(rt; keep(Num::Uint(u128::MAX), NumType::Int) == None);
}

#[test]
fn numbers_are_cut_and_joined(rt: HostRuntime) {
    let least = Num::Sint(i128::MIN);
    assert!(rt; cut(Num::Sint(-1), NumType::Uint(8)) == Num::Uint(255));
    assert!(rt; cut(Num::Sint(200), NumType::Sint(8)) == Num::Sint(-56));
    assert!(rt; cut(Num::Uint(u128::MAX), NumType::Int) == Num::Sint(-1));
    assert!(rt; cut(least, NumType::Uint(128)) == Num::Uint(1 << 127));
    assert!(rt; cut(least, NumType::Sint(1)) == Num::Sint(0));
    assert_eq!(rt; join(0xab, 8, 0xc, 4), 0xabc);
    assert_eq!(rt; join(0, 0, u128::MAX, 128), u128::MAX);
}
