//! Operators.

ghost use Rattle.std.specs.Prelude.{◌≡◌};
ghost use Rattle.ddl_rules.specs.Operators.{typing};

use ddl_arith::Op;
use ddl_ops::{Comparison, Infix};
use ddl_tree::InfixOp;
use ddl_typed::Choice;

/// How the sides of an infix operator are typed.
#[derive(Clone, Copy, PartialEq, Eq)]
pub enum Typing {
    /// Numbers of one type, which is that of the form.
    Numbers(Op),
    /// A number, whose type is that of the form, and by how many bits.
    Shifts(Op),
    /// Words of one type, which is that of the form.
    Words(Op),
    /// Keys of one type.
    Compares(Comparison),
    Truths(Infix),
    /// `#`: words whose bits stand side by side.
    Joins,
    /// `<#`: words, of which the right one is shifted into the left one, whose type is that of the form.
    ShiftsIn,
    /// Grammars of one type, which is that of the form.
    Alternatives(Choice),
}

/// How the sides of an operator are typed.
pub fn typing_of(operator: InfixOp) -> Typing
    ensures { result ≡ typing operator }
{
    match operator {
        InfixOp::Either => Typing::Alternatives(Choice::Unbiased),
        InfixOp::OrElse => Typing::Alternatives(Choice::Biased),
        InfixOp::Or => Typing::Truths(Infix::Or),
        InfixOp::And => Typing::Truths(Infix::And),
        InfixOp::Equal => Typing::Compares(Comparison::Equal),
        InfixOp::NotEqual => Typing::Compares(Comparison::Unequal),
        InfixOp::Less => Typing::Compares(Comparison::Less),
        InfixOp::LessEqual => Typing::Compares(Comparison::AtMost),
        InfixOp::Greater => Typing::Compares(Comparison::Greater),
        InfixOp::GreaterEqual => Typing::Compares(Comparison::AtLeast),
        InfixOp::BitOr => Typing::Words(Op::Or),
        InfixOp::BitXor => Typing::Words(Op::Xor),
        InfixOp::BitAnd => Typing::Words(Op::And),
        InfixOp::ShiftLeft => Typing::Shifts(Op::Shl),
        InfixOp::ShiftRight => Typing::Shifts(Op::Shr),
        InfixOp::Append => Typing::Joins,
        InfixOp::AppendWithin => Typing::ShiftsIn,
        InfixOp::Add => Typing::Numbers(Op::Add),
        InfixOp::Subtract => Typing::Numbers(Op::Sub),
        InfixOp::Multiply => Typing::Numbers(Op::Mul),
        InfixOp::Divide => Typing::Numbers(Op::Div),
        InfixOp::Remainder => Typing::Numbers(Op::Rem),
    }
}
