#![tactic(auto, using(ddl_tree::proofs::Layers::layers))]

ghost use Rattle.std.specs.Prelude.{◌≡◌, ◌∷◌};
ghost use Rattle.std.specs.Option.{option_map};
ghost use Rattle.ddl_tree.specs.View.{view};
ghost use Rattle.ddl_states.specs.FrameView.{frame_view, found_view};
ghost use Rattle.ddl_reader.specs.Frames as m;
ghost use Rattle.ddl_states.specs.Gives.{Gives};
ghost use Rattle.ddl_states.specs.StackView.{forms};
ghost use Rattle.ddl_reader.specs.StepExpr as step;

use crate::first_step::begin;
use ddl_base::Span;
use ddl_states::level::{left_level, level};
use ddl_states::part::open;
use ddl_states::{
    FieldFocus, Focus, Found, Frame, LastFrame, Refusal, Stack, TypeFocus, TypeFrame,
};
use ddl_token::{Mark, Tok, Word};
use ddl_tree::{CastOp, Expr, InfixOp};
use std::alloc::Global;

/// The call that a name begins.
fn called(alloc: Global, expr: Expr) -> Option<Frame>
    ensures { option_map frame_view result ≡ step.called (view expr) }
{
    match expr {
        Expr::Upper(name) => Some(Frame::Last(LastFrame::CallGrammar {
            name,
            args: Vec::new(alloc),
            deep: 0,
        })),
        Expr::Lower(name) => Some(Frame::Last(LastFrame::CallValue {
            name,
            args: Vec::new(alloc),
            deep: 0,
        })),
        _other => None,
    }
}

/// An argument after a name.
fn apply(
    alloc: Global,
    stack: &mut Stack,
    kind: &Tok,
    at: Span,
    part: Found,
) -> Result<Focus, Refusal>
    ensures { Gives (step.apply kind.now at (found_view part) (forms stack.old)) result stack.new }
{
    match called(alloc, Box::into_inner(part.expr)) {
        Some(frame) => {
            stack.push(frame)?;
            begin(alloc, stack, kind, at)
        }
        None => Err(Refusal::Unexpected),
    }
}

/// An operator after an expression that may be its left side.
fn infix_with(stack: &mut Stack, op: InfixOp, left: Found) -> Result<Focus, Refusal>
    ensures { Gives (step.infix_with op (found_view left) (forms stack.old)) result stack.new }
{
    if level(&left.expr) >= left_level(op) {
        Ok(open(stack, Frame::Last(LastFrame::Infix { op, left }))?)
    } else {
        Err(Refusal::Unexpected)
    }
}

/// `as`, `as!` or `as?`.
fn cast_with(stack: &mut Stack, op: CastOp, value: Found) -> Result<Focus, Refusal>
    ensures { Gives (step.if_above 15 (found_view value) (
      m.in_cast op (found_view value) ∷ forms stack.old,
      m.want_type,
    )) result stack.new }
{
    if level(&value.expr) >= 15 {
        stack.push(Frame::Type(TypeFrame::Cast { op, value }))?;
        Ok(Focus::Type(TypeFocus::Want))
    } else {
        Err(Refusal::Unexpected)
    }
}

/// `is`
fn is_with(stack: &Stack, value: Found) -> Result<Focus, Refusal>
    ensures { Gives (step.if_above 4 (found_view value) (forms stack.now, m.want_shape (found_view value))) result
        stack.now }
{
    if level(&value.expr) >= 4 {
        Ok(Focus::Field(FieldFocus::Shape(value)))
    } else {
        Err(Refusal::Unexpected)
    }
}

/// `.`
fn dot_with(stack: &Stack, value: Found) -> Result<Focus, Refusal>
    ensures { Gives (step.if_above 17 (found_view value) (forms stack.now, m.want_field (found_view value))) result
        stack.now }
{
    if level(&value.expr) >= 17 {
        Ok(Focus::Field(FieldFocus::Select(value)))
    } else {
        Err(Refusal::Unexpected)
    }
}

fn extend_word(
    alloc: Global,
    stack: &mut Stack,
    word: Word,
    at: Span,
    part: Found,
) -> Result<Focus, Refusal>
    ensures { Gives (step.extend_word word at (found_view part) (forms stack.old)) result stack.new }
{
    match word {
        Word::Is => is_with(stack, part),
        Word::As => cast_with(stack, CastOp::Lossless, part),
        Word::AsCut => cast_with(stack, CastOp::Cut, part),
        Word::AsFit => cast_with(stack, CastOp::Fit, part),
        _ => apply(alloc, stack, &Tok::Word(word), at, part),
    }
}

fn extend_mark(
    alloc: Global,
    stack: &mut Stack,
    mark: Mark,
    at: Span,
    part: Found,
) -> Result<Focus, Refusal>
    ensures { Gives (step.extend_mark mark at (found_view part) (forms stack.old)) result stack.new }
{
    match mark {
        Mark::Bar => infix_with(stack, InfixOp::Either, part),
        Mark::OrElse => infix_with(stack, InfixOp::OrElse, part),
        Mark::OrOr => infix_with(stack, InfixOp::Or, part),
        Mark::AndAnd => infix_with(stack, InfixOp::And, part),
        Mark::EqualEqual => infix_with(stack, InfixOp::Equal, part),
        Mark::NotEqual => infix_with(stack, InfixOp::NotEqual, part),
        Mark::Less => infix_with(stack, InfixOp::Less, part),
        Mark::LessEqual => infix_with(stack, InfixOp::LessEqual, part),
        Mark::Greater => infix_with(stack, InfixOp::Greater, part),
        Mark::GreaterEqual => infix_with(stack, InfixOp::GreaterEqual, part),
        Mark::BitOr => infix_with(stack, InfixOp::BitOr, part),
        Mark::BitXor => infix_with(stack, InfixOp::BitXor, part),
        Mark::BitAnd => infix_with(stack, InfixOp::BitAnd, part),
        Mark::ShiftLeft => infix_with(stack, InfixOp::ShiftLeft, part),
        Mark::ShiftRight => infix_with(stack, InfixOp::ShiftRight, part),
        Mark::Hash => infix_with(stack, InfixOp::Append, part),
        Mark::LessHash => infix_with(stack, InfixOp::AppendWithin, part),
        Mark::Plus => infix_with(stack, InfixOp::Add, part),
        Mark::Minus => infix_with(stack, InfixOp::Subtract, part),
        Mark::Star => infix_with(stack, InfixOp::Multiply, part),
        Mark::Slash => infix_with(stack, InfixOp::Divide, part),
        Mark::Percent => infix_with(stack, InfixOp::Remainder, part),
        Mark::Dot => dot_with(stack, part),
        _ => apply(alloc, stack, &Tok::Mark(mark), at, part),
    }
}

/// An operator or an argument after an expression.
pub fn extend(
    alloc: Global,
    stack: &mut Stack,
    kind: &Tok,
    at: Span,
    part: Found,
) -> Result<Focus, Refusal>
    ensures { Gives (step.extend kind.now at (found_view part) (forms stack.old)) result stack.new }
{
    match kind {
        Tok::Word(word) => extend_word(alloc, stack, *word, at, part),
        Tok::Mark(mark) => extend_mark(alloc, stack, *mark, at, part),
        _ => apply(alloc, stack, kind, at, part),
    }
}
