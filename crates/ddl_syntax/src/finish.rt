ghost use Rattle.std.specs.Prelude.{◌≤◌, ◌∷◌};
ghost use Rattle.ddl_states.specs.Heights.{height, coming};
ghost use Rattle.ddl_syntax.specs.Finishes.{Finishes};
ghost use Rattle.ddl_states.specs.FocusView.{class_focus_view, focus_view};
ghost use Rattle.ddl_states.specs.FrameView.{frame_view, decl_frame_view, found_view, found_class_view};
ghost use Rattle.ddl_states.specs.StackView.{forms};
ghost use Rattle.ddl_reader.specs.Step as machine;

use ddl_read_decls::decl_step::{close_body, close_class_body};
use ddl_read_exprs::close_step::close;
use ddl_read_types::class_step::byte_done;
use ddl_states::{ClassFocus, Closed, DeclFrame, Focus, Found, FoundClass, Frame, Refusal, Stack};
use ddl_tree::Module;
use std::alloc::Global;

/// The module, where nothing else is open.
#[tactic(auto, using(crate::proofs::NoWhole::no_whole))]
fn whole(mut stack: Stack) -> Result<Module, Refusal>
    ensures { Finishes (machine.whole (forms stack)) result }
{
    match stack.pop() {
        Some(Frame::Decl(frame)) => whole_in(stack, frame),
        Some(_other) => Err(Refusal::Unexpected),
        None => Err(Refusal::Unexpected),
    }
}

fn whole_in(mut stack: Stack, frame: DeclFrame) -> Result<Module, Refusal>
    ensures { Finishes (machine.whole (decl_frame_view frame ∷ forms stack)) result }
{
    match frame {
        DeclFrame::Module { tree, .. } => match stack.pop() {
            None => Ok(tree),
            Some(_) => Err(Refusal::Unexpected),
        },
        _other => Err(Refusal::Unexpected),
    }
}

/// The module that ends with a class.
#[tactic(auto, using(crate::proofs::NoWhole::no_class_end))]
fn finish_class(mut stack: Stack, class: FoundClass) -> Result<Module, Refusal>
    ensures { Finishes (machine.finish_class (forms stack) (found_class_view class)) result }
{
    match stack.pop() {
        Some(Frame::Decl(frame)) => finish_class_in(stack, frame, class),
        Some(_other) => Err(Refusal::Unexpected),
        None => Err(Refusal::Unexpected),
    }
}

fn finish_class_in(mut stack: Stack, frame: DeclFrame, class: FoundClass) -> Result<Module, Refusal>
    ensures { Finishes (machine.finish_class (decl_frame_view frame ∷ forms stack) (found_class_view class)) result }
{
    match frame {
        DeclFrame::ClassBody { from, name } => {
            close_class_body(&mut stack, from, name, class)?;
            whole(stack)
        }
        _other => Err(Refusal::Unexpected),
    }
}

/// The module that ends with the body of a declaration.
#[tactic(auto, using(crate::proofs::NoWhole::no_body_end))]
fn finish_body(stack: Stack, frame: Frame, part: Found) -> Result<Module, Refusal>
    ensures { Finishes (machine.finish_body (frame_view frame) (found_view part) (forms stack)) result }
{
    match frame {
        Frame::Decl(frame) => finish_body_in(stack, frame, part),
        _other => Err(Refusal::Unexpected),
    }
}

fn finish_body_in(mut stack: Stack, frame: DeclFrame, part: Found) -> Result<Module, Refusal>
    ensures { Finishes (machine.finish_body (decl_frame_view frame) (found_view part) (forms stack)) result }
{
    match frame {
        DeclFrame::Body { head, result, deep } => {
            close_body(&mut stack, head, result, deep, part)?;
            whole(stack)
        }
        _other => Err(Refusal::Unexpected),
    }
}

/// The module that ends with an expression.
fn finish_have(alloc: Global, mut stack: Stack, part: Found) -> Result<Module, Refusal>
    requires { height (forms stack) part.deep ≤ 400 }
    ensures { Finishes (machine.finish_have (forms stack) (found_view part)) result }
{
    let mut part = part;
    while let Some(frame) = stack.pop() {
        match close(alloc, frame, part)? {
            Closed::Whole(whole) => part = whole,
            Closed::Open(frame, part) => return finish_body(stack, frame, part),
        }
    }
    Err(Refusal::Unexpected)
}

fn finish_in_class(alloc: Global, mut stack: Stack, focus: ClassFocus) -> Result<Module, Refusal>
    requires { height (forms stack) (coming (class_focus_view focus)) ≤ 400 }
    ensures { Finishes (machine.finish (class_focus_view focus) (forms stack)) result }
{
    match focus {
        ClassFocus::Have(class) => finish_class(stack, class),
        ClassFocus::Byte(byte) => {
            let class = byte_done(alloc, &mut stack, byte)?;
            finish_class(stack, class)
        }
        _other => Err(Refusal::Unexpected),
    }
}

/// The module, at the end of the tokens.
#[tactic(auto, using(crate::proofs::NoWhole::no_end))]
pub fn finish(alloc: Global, mut stack: Stack, focus: Focus) -> Result<Module, Refusal>
    requires { height (forms stack) (coming (focus_view focus)) ≤ 400 }
    ensures { Finishes (machine.finish (focus_view focus) (forms stack)) result }
{
    match focus {
        Focus::Import | Focus::Decl => whole(stack),
        Focus::Have(part) => finish_have(alloc, stack, part),
        Focus::Class(focus) => finish_in_class(alloc, stack, focus),
        _other => Err(Refusal::Unexpected),
    }
}
