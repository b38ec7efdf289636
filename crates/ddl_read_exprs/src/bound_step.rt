#![tactic(auto, using(ddl_tree::proofs::Layers::layers))]

ghost use Rattle.std.specs.Prelude.{◌≡◌, ◌≤◌, ◌+◌, ◌∷◌, max};
ghost use Rattle.ddl_states.specs.FrameView.{found_view, found_type_view, last_frame_view, repeat_view};
ghost use Rattle.ddl_states.specs.Gives.{Gives};
ghost use Rattle.ddl_states.specs.StackView.{forms};
ghost use Rattle.ddl_reader.specs.StepParts as step;

use ddl_base::Span;
use ddl_states::part::{found, joined, open};
use ddl_states::{
    Focus, Found, FoundType, Frame, InnerFrame, LastFrame, Refusal, Repeat, Stack, TypeFocus,
    TypeFrame,
};
use ddl_token::{Mark, Tok};
use ddl_tree::{Bound, Expr};
use std::alloc::Global;

/// `..` after `Many (e`.
#[tactic(auto, using(crate::proofs::NoHigh::no_low))]
fn bound_low(stack: &mut Stack, from: Span, low: Found) -> Result<Focus, Refusal>
    ensures { Gives (step.bound_low from (found_view low) (forms stack.old)) result stack.new }
{
    match stack.pop() {
        Some(Frame::Last(frame)) => bound_low_in(stack, frame, from, low),
        Some(_other) => Err(Refusal::Unexpected),
        None => Err(Refusal::Unexpected),
    }
}

fn bound_low_in(
    stack: &mut Stack,
    frame: LastFrame,
    from: Span,
    low: Found,
) -> Result<Focus, Refusal>
    ensures { Gives (step.bound_low from (found_view low) (last_frame_view frame ∷ forms stack.old)) result stack.new }
{
    match frame {
        LastFrame::Many { repeat, bound, .. } => match bound {
            Bound::Free => {
                Ok(open(
                    stack,
                    Frame::Inner(InnerFrame::Between { repeat, from, low }),
                )?)
            }
            Bound::Exactly(_)
            | Bound::AtLeast { .. }
            | Bound::AtMost { .. }
            | Bound::Between { .. } => Err(Refusal::Unexpected),
        },
        _other => Err(Refusal::Unexpected),
    }
}

/// After an expression in parentheses.
pub fn after_paren(
    alloc: Global,
    stack: &mut Stack,
    kind: &Tok,
    at: Span,
    from: Span,
    inner: Found,
) -> Result<Focus, Refusal>
    requires { 1 + inner.deep ≤ 400 }
    ensures { Gives (step.after_paren kind.now at from (found_view inner) (forms stack.old)) result stack.new }
{
    match kind {
        Tok::Mark(Mark::CloseParen) => {
            let deep = 1 + inner.deep;
            let paren = Expr::Paren {
                inner: inner.expr,
                typed: None,
                span: joined(from, at),
            };
            Ok(Focus::Have(found(alloc, paren, deep)?))
        }
        Tok::Mark(Mark::Colon) => {
            stack.push(Frame::Type(TypeFrame::Paren { from, inner }))?;
            Ok(Focus::Type(TypeFocus::Want))
        }
        Tok::Mark(Mark::DotDot) => bound_low(stack, from, inner),
        _ => Err(Refusal::Unexpected),
    }
}

/// After the type of an expression in parentheses.
pub fn after_paren_type(
    alloc: Global,
    stack: &Stack,
    kind: &Tok,
    at: Span,
    from: Span,
    inner: Found,
    of: FoundType,
) -> Result<Focus, Refusal>
    requires { 1 + max inner.deep of.deep ≤ 400 }
    ensures { Gives (step.after_paren_type kind.now at from (found_view inner) (found_type_view of) (forms stack.now))
        result stack.now }
{
    match kind {
        Tok::Mark(Mark::CloseParen) => {
            let deep = 1 + inner.deep.max(of.deep);
            let paren = Expr::Paren {
                inner: inner.expr,
                typed: Some(of.of),
                span: joined(from, at),
            };
            Ok(Focus::Have(found(alloc, paren, deep)?))
        }
        _ => Err(Refusal::Unexpected),
    }
}

/// `)` after `Many (.. e`.
pub fn after_high(
    stack: &mut Stack,
    kind: &Tok,
    at: Span,
    repeat: Repeat,
    from: Span,
    high: Found,
) -> Result<Focus, Refusal>
    ensures { Gives (step.after_high kind.now at (repeat_view repeat) from (found_view high) (forms stack.old)) result
        stack.new }
{
    match kind {
        Tok::Mark(Mark::CloseParen) => {
            let frame = LastFrame::Many {
                repeat,
                bound: Bound::AtMost {
                    high: high.expr,
                    span: joined(from, at),
                },
                deep: high.deep,
            };
            Ok(open(stack, Frame::Last(frame))?)
        }
        _ => Err(Refusal::Unexpected),
    }
}

/// `)` after `Many (e .. f`.
pub fn after_between(
    stack: &mut Stack,
    kind: &Tok,
    at: Span,
    repeat: Repeat,
    from: Span,
    low: Found,
    high: Found,
) -> Result<Focus, Refusal>
    ensures { Gives (step.after_between kind.now at (repeat_view repeat) from (found_view low) (found_view high)
        (forms stack.old)) result stack.new }
{
    match kind {
        Tok::Mark(Mark::CloseParen) => {
            let deep = low.deep.max(high.deep);
            let frame = LastFrame::Many {
                repeat,
                bound: Bound::Between {
                    low: low.expr,
                    high: high.expr,
                    span: joined(from, at),
                },
                deep,
            };
            Ok(open(stack, Frame::Last(frame))?)
        }
        _ => Err(Refusal::Unexpected),
    }
}
