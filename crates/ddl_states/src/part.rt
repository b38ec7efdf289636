ghost use Rattle.std.specs.Prelude.{◌≡◌, ◌∷◌, IfOk};
ghost use Rattle.ddl_tree.specs.View.{view};
ghost use Rattle.ddl_states.specs.FrameView.{found_class_view, found_view, frame_view};
ghost use Rattle.ddl_reader.specs.Frames as m;
ghost use Rattle.ddl_states.specs.Gives.{Comes};
ghost use Rattle.ddl_states.specs.StackView.{forms};
ghost use Rattle.ddl_reader.specs.StepType as step_type;
ghost use Rattle.ddl_reader.specs.StepExpr as step_expr;

use crate::focus::{ClassFocus, Focus};
use crate::frame::{ClassFrame, Found, FoundClass, Frame};
use crate::stack::Stack;
use ddl_base::{Bytes, NoMemory, Span};
use ddl_token::Base;
use ddl_tree::{Expr, Name, Number};
use std::alloc::Global;

/// From the beginning of one part to the end of another.
pub fn joined(from: Span, to: Span) -> Span
    ensures { result ≡ step_type.joined from to }
{
    Span {
        module: from.module,
        from: from.from,
        to: to.to,
    }
}

/// The name that a token spells.
pub fn name_at(alloc: Global, text: &Bytes, at: Span) -> Result<Name, NoMemory>
    ensures { IfOk result (λ name. name ≡ step_expr.name_at text.now at) }
{
    Ok(Name {
        text: Bytes::of(alloc, text.get())?,
        span: at,
    })
}

/// An expression and its depth.
pub fn found(alloc: Global, expr: Expr, deep: u32) -> Result<Found, NoMemory>
    ensures { IfOk result (λ found. found_view found ≡ step_type.found (view expr) deep) }
{
    Ok(Found {
        expr: Box::new(alloc, expr)?,
        deep,
    })
}

/// The number that a token spells.
pub fn number_at(value: u128, base: Base, digits: u32, at: Span) -> Number
    ensures { result ≡ step_type.number_at value base digits at }
{
    Number {
        value,
        base,
        digits,
        span: at,
    }
}

/// A value in a box.
pub fn boxed<T: Drop>(alloc: Global, value: T) -> Result<Box<T>, NoMemory>
    ensures { IfOk result (λ boxed. boxed.value ≡ value) }
{
    Ok(Box::new(alloc, value)?)
}

/// Opens a form.
pub fn open(stack: &mut Stack, frame: Frame) -> Result<Focus, NoMemory>
    ensures { Comes (frame_view frame ∷ forms stack.old, m.want) result stack.new }
{
    stack.push(frame)?;
    Ok(Focus::Want)
}

/// Opens the right side of `|`, in the form around it.
pub fn open_union(stack: &mut Stack, around: Frame, left: FoundClass) -> Result<Focus, NoMemory>
    ensures { Comes (m.in_union (found_class_view left) ∷ frame_view around ∷ forms stack.old, m.want_class) result
        stack.new }
{
    stack.push(around)?;
    stack.push(Frame::Class(ClassFrame::Union(left)))?;
    Ok(Focus::Class(ClassFocus::Want))
}
