ghost use Rattle.std.specs.Prelude.{◌≡◌, ◌≤◌, ◌+◌, ◌∷◌, max, IfOk};
ghost use Rattle.ddl_token.specs.declared.token.Tok.TheVariants as k;
ghost use Rattle.ddl_tree.specs.View.{class_view};
ghost use Rattle.ddl_reader.specs.Depths.{around};
ghost use Rattle.ddl_states.specs.Heights.{height};
ghost use Rattle.ddl_states.specs.Ends.{ClassCloses};
ghost use Rattle.ddl_states.specs.FrameView.{frame_view, class_frame_view, found_class_view};
ghost use Rattle.ddl_reader.specs.Frames as m;
ghost use Rattle.ddl_states.specs.Gives.{Gives, Comes};
ghost use Rattle.ddl_states.specs.StackView.{forms};
ghost use Rattle.ddl_reader.specs.StepClass as step;
ghost use Rattle.ddl_reader.specs.StepParts as step_part;
ghost use Rattle.ddl_tree.specs.ClassTree as cls;

use ddl_base::{NoMemory, Span};
use ddl_states::part::{boxed, found, joined, name_at, number_at, open_union};
use ddl_states::{ClassFocus, ClassFrame, ClosedClass, Focus, FoundClass, Frame, Refusal, Stack};
use ddl_token::{Mark, Tok};
use ddl_tree::{ByteLit, Cls, Expr};
use std::alloc::Global;

/// `! c`
#[tactic(auto, using(ddl_tree::proofs::Layers::layers))]
fn close_other(alloc: Global, from: Span, part: FoundClass) -> Result<ClosedClass, NoMemory>
    requires { 1 + part.deep ≤ 400 }
    ensures { IfOk result (ClassCloses (m.in_other from) (found_class_view part)) }
{
    let span = joined(from, part.class.span());
    let deep = 1 + part.deep;
    let inner = boxed(alloc, part.class)?;
    Ok(ClosedClass::Other(FoundClass {
        class: Cls::Other { inner, span },
        deep,
    }))
}

/// `c | d`
#[tactic(auto, using(ddl_tree::proofs::Layers::layers))]
fn close_union(alloc: Global, left: FoundClass, part: FoundClass) -> Result<ClosedClass, NoMemory>
    requires { 1 + max left.deep part.deep ≤ 400 }
    ensures { IfOk result (ClassCloses (m.in_union (found_class_view left)) (found_class_view part)) }
{
    let span = joined(left.class.span(), part.class.span());
    let deep = 1 + left.deep.max(part.deep);
    let left = boxed(alloc, left.class)?;
    let right = boxed(alloc, part.class)?;
    Ok(ClosedClass::Union(FoundClass {
        class: Cls::Union { left, right, span },
        deep,
    }))
}

fn close_in_class(
    alloc: Global,
    frame: ClassFrame,
    part: FoundClass,
) -> Result<ClosedClass, NoMemory>
    requires { around (class_frame_view frame) part.deep ≤ 400 }
    ensures { IfOk result (ClassCloses (class_frame_view frame) (found_class_view part)) }
{
    match frame {
        ClassFrame::Other(from) => close_other(alloc, from, part),
        ClassFrame::Union(left) => close_union(alloc, left, part),
        other => Ok(ClosedClass::Open(Frame::Class(other), part)),
    }
}

/// What a form makes of a factor of a class at its hole.
#[tactic(auto, using(crate::proofs::ClassAlone::class_alone))]
fn close_class(alloc: Global, frame: Frame, part: FoundClass) -> Result<ClosedClass, NoMemory>
    requires { around (frame_view frame) part.deep ≤ 400 }
    ensures { IfOk result (ClassCloses (frame_view frame) (found_class_view part)) }
{
    match frame {
        Frame::Class(frame) => close_in_class(alloc, frame, part),
        other => Ok(ClosedClass::Open(other, part)),
    }
}

/// A whole factor of a class ends the complements around it, and then a union.
pub fn class_done(
    alloc: Global,
    stack: &mut Stack,
    class: Cls,
    deep: u32,
) -> Result<FoundClass, NoMemory>
    requires { height (forms stack.old) deep ≤ 400 }
    ensures { IfOk result (λ whole. step.class_done (forms stack.old) (class_view class) deep
        ≡ (forms stack.new, m.have_class (found_class_view whole))) }
{
    let mut part = FoundClass { class, deep };
    while let Some(frame) = stack.pop() {
        match close_class(alloc, frame, part)? {
            ClosedClass::Other(other) => part = other,
            ClosedClass::Union(whole) => return Ok(whole),
            ClosedClass::Open(frame, part) => {
                stack.push(frame)?;
                return Ok(part);
            }
        }
    }
    Ok(part)
}

/// After a whole factor of a class.
fn have_class(alloc: Global, stack: &mut Stack, class: Cls, deep: u32) -> Result<Focus, NoMemory>
    requires { height (forms stack.old) deep ≤ 400 }
    ensures { Comes (step.class_done (forms stack.old) (class_view class) deep) result stack.new }
{
    let whole = class_done(alloc, stack, class, deep)?;
    Ok(Focus::Class(ClassFocus::Have(whole)))
}

/// The first token of a class.
#[tactic(auto, using(ddl_tree::proofs::Layers::layers, ddl_states::proofs::HeightsOf::height_most))]
pub fn begin_class(alloc: Global, stack: &mut Stack, kind: &Tok, at: Span) -> Result<Focus, Refusal>
    requires { height (forms stack.old) 1 ≤ 400 }
    ensures { Gives (step.begin_class kind.now at (forms stack.old)) result stack.new }
{
    match kind {
        Tok::Number {
            value,
            base,
            digits,
        } => {
            let number = number_at(*value, *base, *digits, at);
            Ok(Focus::Class(ClassFocus::Byte(ByteLit::Code(number))))
        }
        Tok::Char(value) => Ok(Focus::Class(ClassFocus::Byte(ByteLit::Quoted {
            value: *value,
            span: at,
        }))),
        Tok::Class(name) => {
            let name = name_at(alloc, name, at)?;
            Ok(have_class(alloc, stack, Cls::Known(name), 1)?)
        }
        Tok::Mark(mark) => begin_mark(stack, *mark, at),
        _ => Err(Refusal::Unexpected),
    }
}

fn begin_mark(stack: &mut Stack, mark: Mark, at: Span) -> Result<Focus, Refusal>
    ensures { Gives (step.begin_class (k.Mark mark) at (forms stack.old)) result stack.new }
{
    let frame = match mark {
        Mark::Bang => ClassFrame::Other(at),
        Mark::OpenParen => ClassFrame::Grouped(at),
        Mark::DollarBracket => ClassFrame::Set(at),
        _ => return Err(Refusal::Unexpected),
    };
    stack.push(Frame::Class(frame))?;
    Ok(Focus::Class(ClassFocus::Want))
}

/// A byte of a class that begins no range.
#[tactic(auto, using(ddl_tree::proofs::Layers::layers, ddl_states::proofs::HeightsOf::height_most))]
pub fn byte_done(alloc: Global, stack: &mut Stack, byte: ByteLit) -> Result<FoundClass, NoMemory>
    requires { height (forms stack.old) 1 ≤ 400 }
    ensures { IfOk result (λ whole. step.class_done (forms stack.old) (cls.One byte) 1
        ≡ (forms stack.new, m.have_class (found_class_view whole))) }
{
    class_done(alloc, stack, Cls::One(byte), 1)
}

/// The last byte of a range.
#[tactic(auto, using(ddl_tree::proofs::Layers::layers, ddl_states::proofs::HeightsOf::height_most))]
pub fn last_byte(
    alloc: Global,
    stack: &mut Stack,
    kind: &Tok,
    at: Span,
    first: ByteLit,
) -> Result<Focus, Refusal>
    requires { height (forms stack.old) 1 ≤ 400 }
    ensures { Gives (step.last_byte kind.now at first (forms stack.old)) result stack.new }
{
    let last = match kind {
        Tok::Number {
            value,
            base,
            digits,
        } => ByteLit::Code(number_at(*value, *base, *digits, at)),
        Tok::Char(value) => ByteLit::Quoted {
            value: *value,
            span: at,
        },
        _ => return Err(Refusal::Unexpected),
    };
    let span = joined(first.span(), at);
    Ok(have_class(alloc, stack, Cls::Range { first, last, span }, 1)?)
}

/// After a class in parentheses.
#[tactic(auto, using(ddl_tree::proofs::Layers::layers, ddl_states::proofs::HeightsOf::height_most))]
pub fn after_grouped(
    alloc: Global,
    stack: &mut Stack,
    kind: &Tok,
    at: Span,
    from: Span,
    part: FoundClass,
) -> Result<Focus, Refusal>
    requires { height (forms stack.old) (1 + part.deep) ≤ 400 }
    ensures { Gives (step.after_grouped kind.now at from (found_class_view part) (forms stack.old)) result stack.new }
{
    match kind {
        Tok::Mark(Mark::CloseParen) => {
            let deep = 1 + part.deep;
            let class = Cls::Grouped {
                inner: boxed(alloc, part.class)?,
                span: joined(from, at),
            };
            Ok(have_class(alloc, stack, class, deep)?)
        }
        Tok::Mark(Mark::Bar) => {
            Ok(open_union(stack, Frame::Class(ClassFrame::Grouped(from)), part)?)
        }
        _ => Err(Refusal::Unexpected),
    }
}

/// After a class in `$[..]` in a class.
#[tactic(auto, using(ddl_tree::proofs::Layers::layers, ddl_states::proofs::HeightsOf::height_most))]
pub fn after_class_set(
    alloc: Global,
    stack: &mut Stack,
    kind: &Tok,
    at: Span,
    from: Span,
    part: FoundClass,
) -> Result<Focus, Refusal>
    requires { height (forms stack.old) (1 + part.deep) ≤ 400 }
    ensures { Gives (step.after_class_set kind.now at from (found_class_view part) (forms stack.old)) result stack.new }
{
    match kind {
        Tok::Mark(Mark::CloseBracket) => {
            let deep = 1 + part.deep;
            let class = Cls::Set {
                inner: boxed(alloc, part.class)?,
                span: joined(from, at),
            };
            Ok(have_class(alloc, stack, class, deep)?)
        }
        Tok::Mark(Mark::Bar) => {
            Ok(open_union(stack, Frame::Class(ClassFrame::Set(from)), part)?)
        }
        _ => Err(Refusal::Unexpected),
    }
}

/// After a class in `$[..]` in an expression.
#[tactic(auto, using(ddl_tree::proofs::Layers::layers, ddl_states::proofs::HeightsOf::height_most))]
pub fn after_set(
    alloc: Global,
    stack: &mut Stack,
    kind: &Tok,
    at: Span,
    from: Span,
    part: FoundClass,
) -> Result<Focus, Refusal>
    requires { 1 + part.deep ≤ 400 }
    ensures { Gives (step_part.after_set kind.now at from (found_class_view part) (forms stack.old)) result stack.new }
{
    match kind {
        Tok::Mark(Mark::CloseBracket) => {
            let deep = 1 + part.deep;
            let set = Expr::Set {
                class: part.class,
                span: joined(from, at),
            };
            Ok(Focus::Have(found(alloc, set, deep)?))
        }
        Tok::Mark(Mark::Bar) => {
            Ok(open_union(stack, Frame::Class(ClassFrame::Atom(from)), part)?)
        }
        _ => Err(Refusal::Unexpected),
    }
}
