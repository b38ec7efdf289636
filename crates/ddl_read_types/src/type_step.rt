ghost use Rattle.std.specs.Prelude.{◌≡◌, ◌≤◌, ◌+◌, max, IfOk};
ghost use Rattle.ddl_tree.specs.View.{type_view};
ghost use Rattle.ddl_reader.specs.Depths.{around};
ghost use Rattle.ddl_states.specs.Heights.{height};
ghost use Rattle.ddl_states.specs.Ends.{TypeCloses};
ghost use Rattle.ddl_states.specs.FrameView.{frame_view, type_frame_view, found_view, found_type_view};
ghost use Rattle.ddl_states.specs.Gives.{Gives, Comes};
ghost use Rattle.ddl_states.specs.StackView.{forms};
ghost use Rattle.ddl_reader.specs.StepType as step;
ghost use Rattle.ddl_reader.specs.Frames as m;
ghost use Rattle.ddl_token.specs.declared.token.Tok.TheVariants as k;

use ddl_base::{NoMemory, Span};
use ddl_states::part::{boxed, found, joined, name_at, number_at};
use ddl_states::{
    ClosedType, Focus, Found, FoundType, Frame, Refusal, Stack, TypeFocus, TypeFrame,
};
use ddl_token::{Mark, Tok};
use ddl_tree::{CastOp, Expr, TypeExpr};
use std::alloc::Global;

/// `maybe t`
#[tactic(auto, using(ddl_tree::proofs::Layers::layers))]
fn close_maybe(alloc: Global, from: Span, part: FoundType) -> Result<ClosedType, NoMemory>
    requires { 1 + part.deep ≤ 400 }
    ensures { IfOk result (TypeCloses (m.in_maybe from) (found_type_view part)) }
{
    let span = joined(from, part.of.span());
    Ok(ClosedType::Type(FoundType {
        of: TypeExpr::Maybe {
            content: boxed(alloc, part.of)?,
            span,
        },
        deep: 1 + part.deep,
    }))
}

/// `e as t`
#[tactic(auto, using(ddl_tree::proofs::Layers::layers))]
fn close_cast(
    alloc: Global,
    op: CastOp,
    value: Found,
    part: FoundType,
) -> Result<ClosedType, NoMemory>
    requires { 1 + max value.deep part.deep ≤ 400 }
    ensures { IfOk result (TypeCloses (m.in_cast op (found_view value)) (found_type_view part)) }
{
    let span = joined(value.expr.span(), part.of.span());
    let deep = 1 + value.deep.max(part.deep);
    let cast = Expr::Cast {
        op,
        value: value.expr,
        target: part.of,
        span,
    };
    Ok(ClosedType::Expr(found(alloc, cast, deep)?))
}

fn close_in_type(alloc: Global, frame: TypeFrame, part: FoundType) -> Result<ClosedType, NoMemory>
    requires { around (type_frame_view frame) part.deep ≤ 400 }
    ensures { IfOk result (TypeCloses (type_frame_view frame) (found_type_view part)) }
{
    match frame {
        TypeFrame::Maybe(from) => close_maybe(alloc, from, part),
        TypeFrame::Cast { op, value } => close_cast(alloc, op, value, part),
        other => Ok(ClosedType::Open(Frame::Type(other), part)),
    }
}

/// What a form makes of a type at its hole.
#[tactic(auto, using(crate::proofs::TypeStays::type_stays))]
fn close_type(alloc: Global, frame: Frame, part: FoundType) -> Result<ClosedType, NoMemory>
    requires { around (frame_view frame) part.deep ≤ 400 }
    ensures { IfOk result (TypeCloses (frame_view frame) (found_type_view part)) }
{
    match frame {
        Frame::Type(frame) => close_in_type(alloc, frame, part),
        other => Ok(ClosedType::Open(other, part)),
    }
}

/// A type that has been read whole ends the forms whose last part it is.
pub fn type_done(
    alloc: Global,
    stack: &mut Stack,
    of: TypeExpr,
    deep: u32,
) -> Result<Focus, NoMemory>
    requires { height (forms stack.old) deep ≤ 400 }
    ensures { Comes (step.type_done (forms stack.old) (type_view of) deep) result stack.new }
{
    let mut part = FoundType { of, deep };
    while let Some(frame) = stack.pop() {
        match close_type(alloc, frame, part)? {
            ClosedType::Type(wider) => part = wider,
            ClosedType::Expr(whole) => return Ok(Focus::Have(whole)),
            ClosedType::Open(frame, part) => {
                stack.push(frame)?;
                return Ok(Focus::Type(TypeFocus::Have(part)));
            }
        }
    }
    Ok(Focus::Type(TypeFocus::Have(part)))
}

/// The first token of a type.
#[tactic(auto, using(ddl_tree::proofs::Layers::layers, ddl_states::proofs::HeightsOf::height_most))]
pub fn begin_type(alloc: Global, stack: &mut Stack, kind: &Tok, at: Span) -> Result<Focus, Refusal>
    requires { height (forms stack.old) 1 ≤ 400 }
    ensures { Gives (step.begin_type kind.now at (forms stack.old)) result stack.new }
{
    match kind {
        Tok::Lower(name) => type_word(alloc, stack, name.get(), at),
        Tok::Upper(name) => {
            let name = name_at(alloc, name, at)?;
            Ok(type_done(alloc, stack, TypeExpr::Named(name), 1)?)
        }
        Tok::Mark(mark) => begin_bracket(stack, *mark, at),
        _ => Err(Refusal::Unexpected),
    }
}

fn begin_bracket(stack: &mut Stack, mark: Mark, at: Span) -> Result<Focus, Refusal>
    ensures { Gives (step.begin_type (k.Mark mark) at (forms stack.old)) result stack.new }
{
    match mark {
        Mark::OpenBracket => {
            stack.push(Frame::Type(TypeFrame::Bracket(at)))?;
            Ok(Focus::Type(TypeFocus::Want))
        }
        Mark::OpenBrace => Ok(Focus::Type(TypeFocus::Empty(at))),
        Mark::OpenParen => {
            stack.push(Frame::Type(TypeFrame::Within(at)))?;
            Ok(Focus::Type(TypeFocus::Want))
        }
        _ => Err(Refusal::Unexpected),
    }
}

/// The words of types are names elsewhere.
#[tactic(auto, using(ddl_tree::proofs::Layers::layers, ddl_states::proofs::HeightsOf::height_most))]
fn type_word(alloc: Global, stack: &mut Stack, name: &[u8], at: Span) -> Result<Focus, Refusal>
    requires { height (forms stack.old) 1 ≤ 400 }
    ensures { Gives (step.type_word name.now at (forms stack.old)) result stack.new }
{
    if name == b"int".as_slice() {
        Ok(type_done(alloc, stack, TypeExpr::Int(at), 1)?)
    } else if name == b"uint".as_slice() {
        Ok(Focus::Type(TypeFocus::Uint(at)))
    } else if name == b"sint".as_slice() {
        Ok(Focus::Type(TypeFocus::Sint(at)))
    } else if name == b"bool".as_slice() {
        Ok(type_done(alloc, stack, TypeExpr::Bool(at), 1)?)
    } else if name == b"stream".as_slice() {
        Ok(type_done(alloc, stack, TypeExpr::Stream(at), 1)?)
    } else if name == b"float".as_slice() {
        Ok(type_done(alloc, stack, TypeExpr::Float(at), 1)?)
    } else if name == b"double".as_slice() {
        Ok(type_done(alloc, stack, TypeExpr::Double(at), 1)?)
    } else if name == b"maybe".as_slice() {
        stack.push(Frame::Type(TypeFrame::Maybe(at)))?;
        Ok(Focus::Type(TypeFocus::Want))
    } else {
        Err(Refusal::Unexpected)
    }
}

/// The width after `uint`.
#[tactic(auto, using(ddl_tree::proofs::Layers::layers, ddl_states::proofs::HeightsOf::height_most))]
pub fn width_uint(
    alloc: Global,
    stack: &mut Stack,
    kind: &Tok,
    at: Span,
    from: Span,
) -> Result<Focus, Refusal>
    requires { height (forms stack.old) 1 ≤ 400 }
    ensures { Gives (step.width_uint kind.now at from (forms stack.old)) result stack.new }
{
    match kind {
        Tok::Number {
            value,
            base,
            digits,
        } => {
            let of = TypeExpr::Uint {
                width: number_at(*value, *base, *digits, at),
                span: joined(from, at),
            };
            Ok(type_done(alloc, stack, of, 1)?)
        }
        _ => Err(Refusal::Unexpected),
    }
}

/// The width after `sint`.
#[tactic(auto, using(ddl_tree::proofs::Layers::layers, ddl_states::proofs::HeightsOf::height_most))]
pub fn width_sint(
    alloc: Global,
    stack: &mut Stack,
    kind: &Tok,
    at: Span,
    from: Span,
) -> Result<Focus, Refusal>
    requires { height (forms stack.old) 1 ≤ 400 }
    ensures { Gives (step.width_sint kind.now at from (forms stack.old)) result stack.new }
{
    match kind {
        Tok::Number {
            value,
            base,
            digits,
        } => {
            let of = TypeExpr::Sint {
                width: number_at(*value, *base, *digits, at),
                span: joined(from, at),
            };
            Ok(type_done(alloc, stack, of, 1)?)
        }
        _ => Err(Refusal::Unexpected),
    }
}

/// The second brace of `{}`.
#[tactic(auto, using(ddl_tree::proofs::Layers::layers, ddl_states::proofs::HeightsOf::height_most))]
pub fn close_empty(
    alloc: Global,
    stack: &mut Stack,
    kind: &Tok,
    at: Span,
    from: Span,
) -> Result<Focus, Refusal>
    requires { height (forms stack.old) 1 ≤ 400 }
    ensures { Gives (step.close_empty kind.now at from (forms stack.old)) result stack.new }
{
    match kind {
        Tok::Mark(Mark::CloseBrace) => {
            Ok(type_done(alloc, stack, TypeExpr::Empty(joined(from, at)), 1)?)
        }
        _ => Err(Refusal::Unexpected),
    }
}

/// After the type behind `[`.
#[tactic(auto, using(ddl_tree::proofs::Layers::layers, ddl_states::proofs::HeightsOf::height_most))]
pub fn after_element(
    alloc: Global,
    stack: &mut Stack,
    kind: &Tok,
    at: Span,
    from: Span,
    part: FoundType,
) -> Result<Focus, Refusal>
    requires { height (forms stack.old) (1 + part.deep) ≤ 400 }
    ensures { Gives (step.after_element kind.now at from (found_type_view part) (forms stack.old)) result stack.new }
{
    match kind {
        Tok::Mark(Mark::CloseBracket) => {
            let deep = 1 + part.deep;
            let of = TypeExpr::ArrayOf {
                element: boxed(alloc, part.of)?,
                span: joined(from, at),
            };
            Ok(type_done(alloc, stack, of, deep)?)
        }
        Tok::Mark(Mark::Arrow) => {
            stack.push(Frame::Type(TypeFrame::MapValue { from, key: part }))?;
            Ok(Focus::Type(TypeFocus::Want))
        }
        _ => Err(Refusal::Unexpected),
    }
}

/// After the second type in brackets.
#[tactic(auto, using(ddl_tree::proofs::Layers::layers, ddl_states::proofs::HeightsOf::height_most))]
pub fn after_map_value(
    alloc: Global,
    stack: &mut Stack,
    kind: &Tok,
    at: Span,
    from: Span,
    key: FoundType,
    part: FoundType,
) -> Result<Focus, Refusal>
    requires { height (forms stack.old) (1 + max key.deep part.deep) ≤ 400 }
    ensures { Gives (step.after_map_value kind.now at from (found_type_view key) (found_type_view part)
        (forms stack.old)) result stack.new }
{
    match kind {
        Tok::Mark(Mark::CloseBracket) => {
            let deep = 1 + key.deep.max(part.deep);
            let of = TypeExpr::MapOf {
                key: boxed(alloc, key.of)?,
                value: boxed(alloc, part.of)?,
                span: joined(from, at),
            };
            Ok(type_done(alloc, stack, of, deep)?)
        }
        _ => Err(Refusal::Unexpected),
    }
}

/// After the type in parentheses.
#[tactic(auto, using(ddl_tree::proofs::Layers::layers, ddl_states::proofs::HeightsOf::height_most))]
pub fn after_within(
    alloc: Global,
    stack: &mut Stack,
    kind: &Tok,
    at: Span,
    from: Span,
    part: FoundType,
) -> Result<Focus, Refusal>
    requires { height (forms stack.old) (1 + part.deep) ≤ 400 }
    ensures { Gives (step.after_within kind.now at from (found_type_view part) (forms stack.old)) result stack.new }
{
    match kind {
        Tok::Mark(Mark::CloseParen) => {
            let deep = 1 + part.deep;
            let of = TypeExpr::Within {
                inner: boxed(alloc, part.of)?,
                span: joined(from, at),
            };
            Ok(type_done(alloc, stack, of, deep)?)
        }
        _ => Err(Refusal::Unexpected),
    }
}
