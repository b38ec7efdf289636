ghost use Rattle.std.specs.Prelude.{◌≡◌, ◌≤◌, IfOk};
ghost use Rattle.std.specs.Option.{option_map};
ghost use Rattle.ddl_tree.specs.View.{bound_view};
ghost use Rattle.ddl_reader.specs.Frames as m;
ghost use Rattle.ddl_reader.specs.Depths.{around};
ghost use Rattle.ddl_states.specs.Heights.{height};
ghost use Rattle.ddl_states.specs.FrameView.{frame_view, decl_frame_view, inner_frame_view, list_frame_view};
ghost use Rattle.ddl_states.specs.FrameView.{last_frame_view, found_view, repeat_view};
ghost use Rattle.ddl_states.specs.Gives.{Gives};
ghost use Rattle.ddl_states.specs.StackView.{forms};
ghost use Rattle.ddl_reader.specs.Step as step;
ghost use Rattle.ddl_reader.specs.StepExpr as step_expr;

use ddl_base::{NoMemory, Span};
use ddl_read_decls::decl_step::close_body;
use ddl_read_decls::module_step::begin_decl;
use ddl_read_exprs::bound_step::{after_between, after_high, after_paren};
use ddl_read_exprs::close_step::close;
use ddl_read_exprs::extend_step::extend;
use ddl_read_exprs::first_step::begin;
use ddl_read_forms::case_step::{after_alt, after_subject};
use ddl_read_forms::field_step::{after_array, after_field, after_tagged};
use ddl_read_forms::list_step::{after_item, after_untagged, after_with_tags};
use ddl_read_forms::loop_step::{
    after_condition, after_for_list, after_map_list, after_start, after_then,
};
use ddl_states::append::with_expr;
use ddl_states::level::binds;
use ddl_states::{
    Cases, Closed, DeclFrame, Focus, Found, Frame, InnerFrame, LastFrame, ListFrame, Refusal,
    Repeat, Stack,
};
use ddl_token::Tok;
use ddl_tree::Bound;
use std::alloc::Global;

/// The token after a part that stands before a certain mark or word.
fn pass_inner(
    alloc: Global,
    stack: &mut Stack,
    frame: InnerFrame,
    kind: &Tok,
    at: Span,
    part: Found,
) -> Result<Focus, Refusal>
    requires { around (inner_frame_view frame) part.deep ≤ 400 }
    ensures { Gives (step.passes (inner_frame_view frame) kind.now at (found_view part) (forms stack.old)) result
        stack.new }
{
    match frame {
        InnerFrame::If(from) => after_condition(stack, kind, from, part),
        InnerFrame::Then { from, condition } => after_then(stack, kind, from, condition, part),
        InnerFrame::ForStart { from, state } => after_start(stack, kind, from, state, part),
        InnerFrame::ForList {
            from,
            state,
            start,
            names,
        } => after_for_list(stack, kind, from, state, start, names, part),
        InnerFrame::MapList { from, names } => after_map_list(stack, kind, from, names, part),
        InnerFrame::AtMost { repeat, from } => after_high(stack, kind, at, repeat, from, part),
        InnerFrame::Between { repeat, from, low } => {
            after_between(stack, kind, at, repeat, from, low, part)
        }
        InnerFrame::Paren(from) => after_paren(alloc, stack, kind, at, from, part),
        InnerFrame::Tagged { from, tag } => after_tagged(alloc, stack, kind, at, from, tag, part),
        InnerFrame::Subject(from) => after_subject(stack, kind, from, part),
    }
}

/// The token after an element of a list.
fn pass_list(
    alloc: Global,
    stack: &mut Stack,
    frame: ListFrame,
    kind: &Tok,
    at: Span,
    part: Found,
) -> Result<Focus, Refusal>
    requires { around (list_frame_view frame) part.deep ≤ 400 }
    ensures { Gives (step.passes (list_frame_view frame) kind.now at (found_view part) (forms stack.old)) result
        stack.new }
{
    match frame {
        ListFrame::Array {
            from,
            elements,
            deep,
        } => after_array(alloc, stack, kind, at, from, elements, deep, part),
        ListFrame::Record {
            from,
            fields,
            deep,
            name,
        } => after_field(alloc, stack, kind, at, from, fields, deep, name, part),
        ListFrame::Block {
            from,
            items,
            deep,
            start,
        } => after_item(alloc, stack, kind, at, from, items, deep, start, part),
        ListFrame::Untagged {
            repeat,
            alternatives,
            deep,
        } => after_untagged(alloc, stack, kind, at, repeat, alternatives, deep, part),
        ListFrame::WithTags {
            repeat,
            alternatives,
            deep,
            tag,
        } => after_with_tags(
            alloc,
            stack,
            kind,
            at,
            repeat,
            alternatives,
            deep,
            tag,
            part,
        ),
        ListFrame::Alt {
            from,
            subject,
            alts,
            deep,
            pattern,
        } => {
            let cases = Cases {
                from,
                subject,
                alts,
                deep,
            };
            after_alt(alloc, stack, kind, at, cases, pattern, part)
        }
    }
}

/// The token after the body of a declaration.
fn pass_decl(
    stack: &mut Stack,
    frame: DeclFrame,
    kind: &Tok,
    at: Span,
    part: Found,
) -> Result<Focus, Refusal>
    ensures { Gives (step.passes (decl_frame_view frame) kind.now at (found_view part) (forms stack.old)) result
        stack.new }
{
    match frame {
        DeclFrame::Body { head, result, deep } => {
            close_body(stack, head, result, deep, part)?;
            begin_decl(stack, kind, at)
        }
        DeclFrame::Module { .. }
        | DeclFrame::Param { .. }
        | DeclFrame::Result(_)
        | DeclFrame::ClassBody { .. }
        | DeclFrame::Part { .. } => Err(Refusal::Unexpected),
    }
}

/// The token after a part that is not the last of its form.
#[tactic(auto, using(crate::proofs::NoPass::no_pass_here))]
fn pass(
    alloc: Global,
    stack: &mut Stack,
    frame: Frame,
    kind: &Tok,
    at: Span,
    part: Found,
) -> Result<Focus, Refusal>
    requires { around (frame_view frame) part.deep ≤ 400 }
    ensures { Gives (step.passes (frame_view frame) kind.now at (found_view part) (forms stack.old)) result stack.new }
{
    match frame {
        Frame::Inner(frame) => pass_inner(alloc, stack, frame, kind, at, part),
        Frame::List(frame) => pass_list(alloc, stack, frame, kind, at, part),
        Frame::Decl(frame) => pass_decl(stack, frame, kind, at, part),
        Frame::Type(_) | Frame::Class(_) | Frame::Last(_) => Err(Refusal::Unexpected),
    }
}

/// `Many` with what was its last part as the bound.
#[tactic(auto, using(ddl_tree::proofs::Layers::layers))]
fn with_bound(repeat: Repeat, bound: Bound, deep: u32, part: Found) -> Option<LastFrame>
    ensures { option_map last_frame_view result
        ≡ step_expr.with_argument (m.in_many (repeat_view repeat) (bound_view bound) deep) (found_view part) }
{
    match bound {
        Bound::Free => Some(LastFrame::Many {
            repeat,
            bound: Bound::Exactly(part.expr),
            deep: part.deep,
        }),
        Bound::Exactly(_) | Bound::AtLeast { .. } | Bound::AtMost { .. } | Bound::Between { .. } =>
            None,
    }
}

/// The form with one more argument, or with what was its last part as a bound.
fn with_argument(frame: LastFrame, part: Found) -> Result<Option<LastFrame>, NoMemory>
    ensures { IfOk result (λ next. option_map last_frame_view next
        ≡ step_expr.with_argument (last_frame_view frame) (found_view part)) }
{
    match frame {
        LastFrame::CallGrammar { name, args, deep } => {
            let deep = deep.max(part.deep);
            let args = with_expr(args, part.expr)?;
            Ok(Some(LastFrame::CallGrammar { name, args, deep }))
        }
        LastFrame::CallValue { name, args, deep } => {
            let deep = deep.max(part.deep);
            let args = with_expr(args, part.expr)?;
            Ok(Some(LastFrame::CallValue { name, args, deep }))
        }
        LastFrame::Many {
            repeat,
            bound,
            deep,
        } => Ok(with_bound(repeat, bound, deep, part)),
        _other => Ok(None),
    }
}

/// An atom after an argument begins another.
#[tactic(auto, using(crate::proofs::NoArgument::no_argument_here))]
fn argue(
    alloc: Global,
    stack: &mut Stack,
    frame: Frame,
    kind: &Tok,
    at: Span,
    part: Found,
) -> Result<Focus, Refusal>
    ensures { Gives (step.argue (frame_view frame) kind.now at (found_view part) (forms stack.old)) result stack.new }
{
    let Frame::Last(frame) = frame else {
        return Err(Refusal::Unexpected);
    };
    match with_argument(frame, part)? {
        Some(frame) => {
            stack.push(Frame::Last(frame))?;
            begin(alloc, stack, kind, at)
        }
        None => Err(Refusal::Unexpected),
    }
}

/// The token after an expression.
#[tactic(auto, using(crate::proofs::HaveSteps::have_steps))]
pub fn step_have(
    alloc: Global,
    stack: &mut Stack,
    kind: &Tok,
    at: Span,
    part: Found,
) -> Result<Focus, Refusal>
    requires { height (forms stack.old) part.deep ≤ 400 }
    ensures { Gives (step.step_have (forms stack.old) (found_view part) kind.now at) result stack.new }
{
    let mut part = part;
    loop {
        if stack.least() <= binds(kind) {
            return extend(alloc, stack, kind, at, part);
        }
        let Some(frame) = stack.pop() else {
            return Err(Refusal::Unexpected);
        };
        if binds(kind) == 16 {
            return argue(alloc, stack, frame, kind, at, part);
        }
        match close(alloc, frame, part)? {
            Closed::Whole(whole) => part = whole,
            Closed::Open(frame, part) => return pass(alloc, stack, frame, kind, at, part),
        }
    }
}
