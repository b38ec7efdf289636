#![tactic(auto, using(ddl_tree::proofs::Layers::layers))]

ghost use Rattle.std.specs.Prelude.{◌≡◌, ◌≤◌, ◌+◌, max, map, IfOk};
ghost use Rattle.ddl_tree.specs.View.{view, bound_view};
ghost use Rattle.ddl_reader.specs.Depths.{around};
ghost use Rattle.ddl_states.specs.Ends.{Closes, ClosesTo};
ghost use Rattle.ddl_states.specs.FrameView.{frame_view, last_frame_view, found_view, repeat_view};
ghost use Rattle.ddl_reader.specs.Frames as m;

use ddl_base::{NoMemory, Span};
use ddl_states::append::with_expr;
use ddl_states::part::{found, joined};
use ddl_states::{Closed, Found, Frame, LastFrame, Repeat};
use ddl_tree::{Bound, Expr, InfixOp, Name, Names, PrefixOp};
use std::alloc::Global;

/// `a + b`
fn close_infix(alloc: Global, op: InfixOp, left: Found, right: Found) -> Result<Found, NoMemory>
    requires { 1 + max left.deep right.deep ≤ 400 }
    ensures { IfOk result (ClosesTo (m.in_infix op (found_view left)) (found_view right)) }
{
    let deep = 1 + left.deep.max(right.deep);
    let infix = Expr::Infix {
        op,
        span: joined(left.expr.span(), right.expr.span()),
        left: left.expr,
        right: right.expr,
    };
    found(alloc, infix, deep)
}

/// `^ e`
fn close_pure(alloc: Global, from: Span, value: Found) -> Result<Found, NoMemory>
    requires { 1 + value.deep ≤ 400 }
    ensures { IfOk result (ClosesTo (m.in_pure from) (found_view value)) }
{
    let pure = Expr::Pure {
        span: joined(from, value.expr.span()),
        value: value.expr,
    };
    found(alloc, pure, 1 + value.deep)
}

/// `if c then a else b`
fn close_else(
    alloc: Global,
    from: Span,
    condition: Found,
    then: Found,
    otherwise: Found,
) -> Result<Found, NoMemory>
    requires { 1 + max condition.deep (max then.deep otherwise.deep) ≤ 400 }
    ensures { IfOk result (ClosesTo (m.in_else from (found_view condition) (found_view then)) (found_view otherwise)) }
{
    let deep = 1 + condition.deep.max(then.deep.max(otherwise.deep));
    let choice = Expr::If {
        span: joined(from, otherwise.expr.span()),
        condition: condition.expr,
        then: then.expr,
        otherwise: otherwise.expr,
    };
    found(alloc, choice, deep)
}

/// `for (state = start; x in list) body`
fn close_for(
    alloc: Global,
    from: Span,
    state: Name,
    start: Found,
    names: Names,
    list: Found,
    body: Found,
) -> Result<Found, NoMemory>
    requires { 1 + max start.deep (max list.deep body.deep) ≤ 400 }
    ensures { IfOk result (ClosesTo (m.in_for_body from state (found_view start) names (found_view list))
        (found_view body)) }
{
    let deep = 1 + start.deep.max(list.deep.max(body.deep));
    let repeated = Expr::For {
        state,
        span: joined(from, body.expr.span()),
        start: start.expr,
        names,
        list: list.expr,
        body: body.expr,
    };
    found(alloc, repeated, deep)
}

/// `map (x in list) body`
fn close_map(
    alloc: Global,
    from: Span,
    names: Names,
    list: Found,
    body: Found,
) -> Result<Found, NoMemory>
    requires { 1 + max list.deep body.deep ≤ 400 }
    ensures { IfOk result (ClosesTo (m.in_map_body from names (found_view list)) (found_view body)) }
{
    let deep = 1 + list.deep.max(body.deep);
    let map = Expr::Map {
        names,
        span: joined(from, body.expr.span()),
        list: list.expr,
        body: body.expr,
    };
    found(alloc, map, deep)
}

/// `- e`
fn close_prefix(alloc: Global, op: PrefixOp, from: Span, operand: Found) -> Result<Found, NoMemory>
    requires { 1 + operand.deep ≤ 400 }
    ensures { IfOk result (ClosesTo (m.in_prefix op from) (found_view operand)) }
{
    let prefix = Expr::Prefix {
        op,
        span: joined(from, operand.expr.span()),
        operand: operand.expr,
    };
    found(alloc, prefix, 1 + operand.deep)
}

/// `P a b`
fn close_call_grammar(
    alloc: Global,
    name: Name,
    args: Vec<Expr>,
    deep: u32,
    last: Found,
) -> Result<Found, NoMemory>
    requires { 1 + max deep last.deep ≤ 400 }
    ensures { IfOk result (ClosesTo (m.in_call_grammar name (map view args.items) deep) (found_view last)) }
{
    let deep = 1 + deep.max(last.deep);
    let span = joined(name.span, last.expr.span());
    let args = with_expr(args, last.expr)?;
    found(alloc, Expr::CallGrammar { name, args, span }, deep)
}

/// `f a b`
fn close_call_value(
    alloc: Global,
    name: Name,
    args: Vec<Expr>,
    deep: u32,
    last: Found,
) -> Result<Found, NoMemory>
    requires { 1 + max deep last.deep ≤ 400 }
    ensures { IfOk result (ClosesTo (m.in_call_value name (map view args.items) deep) (found_view last)) }
{
    let deep = 1 + deep.max(last.deep);
    let span = joined(name.span, last.expr.span());
    let args = with_expr(args, last.expr)?;
    found(alloc, Expr::CallValue { name, args, span }, deep)
}

/// `just e`
fn close_just(alloc: Global, from: Span, content: Found) -> Result<Found, NoMemory>
    requires { 1 + content.deep ≤ 400 }
    ensures { IfOk result (ClosesTo (m.in_just from) (found_view content)) }
{
    let just = Expr::Just {
        span: joined(from, content.expr.span()),
        content: content.expr,
    };
    found(alloc, just, 1 + content.deep)
}

/// `Many bound p`
fn close_many(
    alloc: Global,
    repeat: Repeat,
    bound: Bound,
    deep: u32,
    body: Found,
) -> Result<Found, NoMemory>
    requires { 1 + max deep body.deep ≤ 400 }
    ensures { IfOk result (ClosesTo (m.in_many (repeat_view repeat) (bound_view bound) deep) (found_view body)) }
{
    let deep = 1 + deep.max(body.deep);
    let many = Expr::Many {
        bias: repeat.bias,
        bound,
        span: joined(repeat.from, body.expr.span()),
        body: body.expr,
    };
    found(alloc, many, deep)
}

/// `Optional p`
fn close_optional(alloc: Global, repeat: Repeat, body: Found) -> Result<Found, NoMemory>
    requires { 1 + body.deep ≤ 400 }
    ensures { IfOk result (ClosesTo (m.in_optional (repeat_view repeat)) (found_view body)) }
{
    let optional = Expr::Optional {
        bias: repeat.bias,
        span: joined(repeat.from, body.expr.span()),
        body: body.expr,
    };
    found(alloc, optional, 1 + body.deep)
}

/// The form whose last part this is.
fn close_last(alloc: Global, frame: LastFrame, last: Found) -> Result<Found, NoMemory>
    requires { around (last_frame_view frame) last.deep ≤ 400 }
    ensures { IfOk result (ClosesTo (last_frame_view frame) (found_view last)) }
{
    match frame {
        LastFrame::Infix { op, left } => close_infix(alloc, op, left, last),
        LastFrame::Pure(from) => close_pure(alloc, from, last),
        LastFrame::Else {
            from,
            condition,
            then,
        } => close_else(alloc, from, condition, then, last),
        LastFrame::For {
            from,
            state,
            start,
            names,
            list,
        } => close_for(alloc, from, state, start, names, list, last),
        LastFrame::Map { from, names, list } => close_map(alloc, from, names, list, last),
        LastFrame::Prefix { op, from } => close_prefix(alloc, op, from, last),
        LastFrame::CallGrammar { name, args, deep } => {
            close_call_grammar(alloc, name, args, deep, last)
        }
        LastFrame::CallValue { name, args, deep } => {
            close_call_value(alloc, name, args, deep, last)
        }
        LastFrame::Just(from) => close_just(alloc, from, last),
        LastFrame::Many {
            repeat,
            bound,
            deep,
        } => close_many(alloc, repeat, bound, deep, last),
        LastFrame::Optional(repeat) => close_optional(alloc, repeat, last),
    }
}

/// What a form makes of an expression at its hole that is its last part.
#[tactic(auto, using(crate::proofs::StillOpen::still_open))]
pub fn close(alloc: Global, frame: Frame, part: Found) -> Result<Closed, NoMemory>
    requires { around (frame_view frame) part.deep ≤ 400 }
    ensures { IfOk result (Closes (frame_view frame) (found_view part)) }
{
    match frame {
        Frame::Last(frame) => Ok(Closed::Whole(close_last(alloc, frame, part)?)),
        other => Ok(Closed::Open(other, part)),
    }
}
