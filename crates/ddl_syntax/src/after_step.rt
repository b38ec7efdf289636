ghost use Rattle.std.specs.Prelude.{◌≤◌, ◌∷◌};
ghost use Rattle.ddl_reader.specs.Depths.{around};
ghost use Rattle.ddl_states.specs.Heights.{height};
ghost use Rattle.ddl_states.specs.FrameView.{type_frame_view, class_frame_view, decl_frame_view, found_type_view};
ghost use Rattle.ddl_states.specs.FrameView.{found_class_view};
ghost use Rattle.ddl_states.specs.Gives.{Gives};
ghost use Rattle.ddl_states.specs.StackView.{forms};
ghost use Rattle.ddl_reader.specs.Step as machine;

use ddl_base::Span;
use ddl_read_decls::{bits_step, decl_step};
use ddl_read_exprs::bound_step::after_paren_type;
use ddl_read_types::{class_step, type_step};
use ddl_states::{
    ClassFocus, ClassFrame, DeclFrame, Focus, FoundClass, FoundType, Frame, Refusal, Stack,
    TypeFrame,
};
use ddl_token::{Mark, Tok};
use ddl_tree::ByteLit;
use std::alloc::Global;

/// The token after a type in a type or in an expression.
fn after_type_part(
    alloc: Global,
    stack: &mut Stack,
    frame: TypeFrame,
    kind: &Tok,
    at: Span,
    part: FoundType,
) -> Result<Focus, Refusal>
    requires { height (forms stack.old) (around (type_frame_view frame) part.deep) ≤ 400 }
    ensures { Gives (machine.step_type (type_frame_view frame ∷ forms stack.old) (found_type_view part) kind.now at)
        result stack.new }
{
    match frame {
        TypeFrame::Bracket(from) => type_step::after_element(alloc, stack, kind, at, from, part),
        TypeFrame::MapValue { from, key } => {
            type_step::after_map_value(alloc, stack, kind, at, from, key, part)
        }
        TypeFrame::Within(from) => type_step::after_within(alloc, stack, kind, at, from, part),
        TypeFrame::Paren { from, inner } => {
            after_paren_type(alloc, stack, kind, at, from, inner, part)
        }
        TypeFrame::Maybe(_) | TypeFrame::Cast { .. } => Err(Refusal::Unexpected),
    }
}

/// The token after a type in a declaration.
fn after_type_decl(
    stack: &mut Stack,
    frame: DeclFrame,
    kind: &Tok,
    at: Span,
    part: FoundType,
) -> Result<Focus, Refusal>
    ensures { Gives (machine.step_type (decl_frame_view frame ∷ forms stack.old) (found_type_view part) kind.now at)
        result stack.new }
{
    match frame {
        DeclFrame::Param {
            head,
            from,
            sort,
            name,
        } => decl_step::after_param_type(stack, kind, at, head, from, sort, name, part),
        DeclFrame::Result(head) => decl_step::after_result(stack, kind, head, part),
        DeclFrame::Part { parted, start } => {
            bits_step::after_part_type(stack, kind, at, parted, start, part)
        }
        DeclFrame::Module { .. } | DeclFrame::Body { .. } | DeclFrame::ClassBody { .. } => {
            Err(Refusal::Unexpected)
        }
    }
}

/// The token after a type.
#[tactic(auto, using(crate::proofs::NoType::no_type_here))]
pub fn step_type(
    alloc: Global,
    stack: &mut Stack,
    kind: &Tok,
    at: Span,
    part: FoundType,
) -> Result<Focus, Refusal>
    requires { height (forms stack.old) part.deep ≤ 400 }
    ensures { Gives (machine.step_type (forms stack.old) (found_type_view part) kind.now at) result stack.new }
{
    match stack.pop() {
        Some(Frame::Type(frame)) => after_type_part(alloc, stack, frame, kind, at, part),
        Some(Frame::Decl(frame)) => after_type_decl(stack, frame, kind, at, part),
        Some(_other) => Err(Refusal::Unexpected),
        None => Err(Refusal::Unexpected),
    }
}

/// The token after a class in a class or in an expression.
fn after_class_part(
    alloc: Global,
    stack: &mut Stack,
    frame: ClassFrame,
    kind: &Tok,
    at: Span,
    part: FoundClass,
) -> Result<Focus, Refusal>
    requires { height (forms stack.old) (around (class_frame_view frame) part.deep) ≤ 400 }
    ensures { Gives (machine.step_class (class_frame_view frame ∷ forms stack.old) (found_class_view part) kind.now at)
        result stack.new }
{
    match frame {
        ClassFrame::Grouped(from) => class_step::after_grouped(alloc, stack, kind, at, from, part),
        ClassFrame::Set(from) => class_step::after_class_set(alloc, stack, kind, at, from, part),
        ClassFrame::Atom(from) => class_step::after_set(alloc, stack, kind, at, from, part),
        ClassFrame::Union(_) | ClassFrame::Other(_) => Err(Refusal::Unexpected),
    }
}

/// The token after the class that a name is declared to be.
fn after_class_decl(
    stack: &mut Stack,
    frame: DeclFrame,
    kind: &Tok,
    at: Span,
    part: FoundClass,
) -> Result<Focus, Refusal>
    ensures { Gives (machine.step_class (decl_frame_view frame ∷ forms stack.old) (found_class_view part) kind.now at)
        result stack.new }
{
    match frame {
        DeclFrame::ClassBody { from, name } => {
            decl_step::after_class_body(stack, kind, at, from, name, part)
        }
        DeclFrame::Module { .. }
        | DeclFrame::Param { .. }
        | DeclFrame::Result(_)
        | DeclFrame::Body { .. }
        | DeclFrame::Part { .. } => Err(Refusal::Unexpected),
    }
}

/// The token after a class.
#[tactic(auto, using(crate::proofs::NoClass::no_class_here))]
pub fn step_class(
    alloc: Global,
    stack: &mut Stack,
    kind: &Tok,
    at: Span,
    part: FoundClass,
) -> Result<Focus, Refusal>
    requires { height (forms stack.old) part.deep ≤ 400 }
    ensures { Gives (machine.step_class (forms stack.old) (found_class_view part) kind.now at) result stack.new }
{
    match stack.pop() {
        Some(Frame::Class(frame)) => after_class_part(alloc, stack, frame, kind, at, part),
        Some(Frame::Decl(frame)) => after_class_decl(stack, frame, kind, at, part),
        Some(_other) => Err(Refusal::Unexpected),
        None => Err(Refusal::Unexpected),
    }
}

/// The token after a byte of a class.
pub fn step_byte(
    alloc: Global,
    stack: &mut Stack,
    kind: &Tok,
    at: Span,
    byte: ByteLit,
) -> Result<Focus, Refusal>
    requires { height (forms stack.old) 1 ≤ 400 }
    ensures { Gives (machine.step_byte (forms stack.old) byte kind.now at) result stack.new }
{
    if let Tok::Mark(Mark::DotDot) = kind {
        return Ok(Focus::Class(ClassFocus::Last(byte)));
    }
    let part = class_step::byte_done(alloc, stack, byte)?;
    step_class(alloc, stack, kind, at, part)
}
