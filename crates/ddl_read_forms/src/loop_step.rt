ghost use Rattle.std.specs.Prelude.{◌≡◌};
ghost use Rattle.ddl_states.specs.FocusView.{loop_view};
ghost use Rattle.ddl_states.specs.FrameView.{found_view};
ghost use Rattle.ddl_states.specs.Gives.{Gives, Comes};
ghost use Rattle.ddl_states.specs.StackView.{forms};
ghost use Rattle.ddl_reader.specs.StepExpr as step_expr;
ghost use Rattle.ddl_reader.specs.StepParts as step;

use ddl_base::{NoMemory, Span};
use ddl_states::part::{joined, name_at, open};
use ddl_states::{Focus, Found, Frame, InnerFrame, LastFrame, Loop, LoopFocus, Refusal, Stack};
use ddl_token::{Mark, Tok, Word};
use ddl_tree::{Name, Names};
use std::alloc::Global;

/// The parenthesis after `for`.
pub fn open_for(stack: &Stack, kind: &Tok, from: Span) -> Result<Focus, Refusal>
    ensures { Gives (step.open_for_with kind.now from (forms stack.now)) result stack.now }
{
    match kind {
        Tok::Mark(Mark::OpenParen) => Ok(Focus::Loop(LoopFocus::State(from))),
        _ => Err(Refusal::Unexpected),
    }
}

/// The name of a loop's state.
pub fn for_name(
    alloc: Global,
    stack: &Stack,
    kind: &Tok,
    at: Span,
    from: Span,
) -> Result<Focus, Refusal>
    ensures { Gives (step.for_name_with kind.now at from (forms stack.now)) result stack.now }
{
    match kind {
        Tok::Lower(name) => {
            let state = name_at(alloc, name, at)?;
            Ok(Focus::Loop(LoopFocus::Equals { from, state }))
        }
        _ => Err(Refusal::Unexpected),
    }
}

/// `=` after the name of a loop's state.
pub fn for_equals(stack: &mut Stack, kind: &Tok, from: Span, state: Name) -> Result<Focus, Refusal>
    ensures { Gives (step.for_equals_with kind.now from state (forms stack.old)) result stack.new }
{
    match kind {
        Tok::Mark(Mark::Equals) => {
            Ok(open(stack, Frame::Inner(InnerFrame::ForStart { from, state }))?)
        }
        _ => Err(Refusal::Unexpected),
    }
}

/// The parenthesis after `map`.
pub fn open_map(stack: &Stack, kind: &Tok, from: Span) -> Result<Focus, Refusal>
    ensures { Gives (step.open_map_with kind.now from (forms stack.now)) result stack.now }
{
    match kind {
        Tok::Mark(Mark::OpenParen) => Ok(Focus::Loop(LoopFocus::First(Loop::Map(from)))),
        _ => Err(Refusal::Unexpected),
    }
}

fn one_name(first: Name) -> Names
    ensures { result ≡ step.one_name first }
{
    let span = first.span;
    Names {
        first,
        second: None,
        span,
    }
}

fn two_names(first: Name, second: Name) -> Names
    ensures { result ≡ step.two_names first second }
{
    let span = joined(first.span, second.span);
    Names {
        first,
        second: Some(second),
        span,
    }
}

/// The list of a loop comes after its names.
fn loop_list(stack: &mut Stack, before: Loop, names: Names) -> Result<Focus, NoMemory>
    ensures { Comes (step.loop_list (loop_view before) names (forms stack.old)) result stack.new }
{
    match before {
        Loop::For { from, state, start } => open(
            stack,
            Frame::Inner(InnerFrame::ForList {
                from,
                state,
                start,
                names,
            }),
        ),
        Loop::Map(from) => open(stack, Frame::Inner(InnerFrame::MapList { from, names })),
    }
}

/// The first name of a loop.
pub fn first_name(
    alloc: Global,
    stack: &Stack,
    kind: &Tok,
    at: Span,
    before: Loop,
) -> Result<Focus, Refusal>
    ensures { Gives (step.first_name kind.now at (loop_view before) (forms stack.now)) result stack.now }
{
    match kind {
        Tok::Lower(name) => {
            let first = name_at(alloc, name, at)?;
            Ok(Focus::Loop(LoopFocus::AfterFirst { before, first }))
        }
        _ => Err(Refusal::Unexpected),
    }
}

/// `,` or `in` after the first name of a loop.
pub fn after_first_name(
    stack: &mut Stack,
    kind: &Tok,
    before: Loop,
    first: Name,
) -> Result<Focus, Refusal>
    ensures { Gives (step.after_first_name kind.now (loop_view before) first (forms stack.old)) result stack.new }
{
    match kind {
        Tok::Mark(Mark::Comma) => Ok(Focus::Loop(LoopFocus::Second { before, first })),
        Tok::Word(Word::In) => Ok(loop_list(stack, before, one_name(first))?),
        _ => Err(Refusal::Unexpected),
    }
}

/// The second name of a loop.
pub fn second_name(
    alloc: Global,
    stack: &Stack,
    kind: &Tok,
    at: Span,
    before: Loop,
    first: Name,
) -> Result<Focus, Refusal>
    ensures { Gives (step.second_name kind.now at (loop_view before) first (forms stack.now)) result stack.now }
{
    match kind {
        Tok::Lower(name) => {
            let second = name_at(alloc, name, at)?;
            let names = two_names(first, second);
            Ok(Focus::Loop(LoopFocus::In { before, names }))
        }
        _ => Err(Refusal::Unexpected),
    }
}

/// `in` after two names of a loop.
pub fn in_list(stack: &mut Stack, kind: &Tok, before: Loop, names: Names) -> Result<Focus, Refusal>
    ensures { Gives (step.in_with kind.now (loop_view before) names (forms stack.old)) result stack.new }
{
    match kind {
        Tok::Word(Word::In) => Ok(loop_list(stack, before, names)?),
        _ => Err(Refusal::Unexpected),
    }
}

/// `then` after a condition.
pub fn after_condition(
    stack: &mut Stack,
    kind: &Tok,
    from: Span,
    condition: Found,
) -> Result<Focus, Refusal>
    ensures { Gives (step.after_condition kind.now from (found_view condition) (forms stack.old)) result stack.new }
{
    match kind {
        Tok::Word(Word::Then) => {
            Ok(open(stack, Frame::Inner(InnerFrame::Then { from, condition }))?)
        }
        _ => Err(Refusal::Unexpected),
    }
}

/// `else` after what is done where the condition holds.
pub fn after_then(
    stack: &mut Stack,
    kind: &Tok,
    from: Span,
    condition: Found,
    then: Found,
) -> Result<Focus, Refusal>
    ensures { Gives (step.after_then kind.now from (found_view condition) (found_view then) (forms stack.old)) result
        stack.new }
{
    match kind {
        Tok::Word(Word::Else) => {
            let frame = LastFrame::Else {
                from,
                condition,
                then,
            };
            Ok(open(stack, Frame::Last(frame))?)
        }
        _ => Err(Refusal::Unexpected),
    }
}

/// `;` after the start of a loop's state.
pub fn after_start(
    stack: &Stack,
    kind: &Tok,
    from: Span,
    state: Name,
    start: Found,
) -> Result<Focus, Refusal>
    ensures { Gives (step.after_start kind.now from state (found_view start) (forms stack.now)) result stack.now }
{
    match kind {
        Tok::Mark(Mark::Semicolon) => Ok(Focus::Loop(LoopFocus::First(Loop::For {
            from,
            state,
            start,
        }))),
        _ => Err(Refusal::Unexpected),
    }
}

/// `)` after the list of `for`.
pub fn after_for_list(
    stack: &mut Stack,
    kind: &Tok,
    from: Span,
    state: Name,
    start: Found,
    names: Names,
    list: Found,
) -> Result<Focus, Refusal>
    ensures { Gives (step.after_for_list kind.now from state (found_view start) names (found_view list)
        (forms stack.old)) result stack.new }
{
    match kind {
        Tok::Mark(Mark::CloseParen) => {
            let frame = LastFrame::For {
                from,
                state,
                start,
                names,
                list,
            };
            Ok(open(stack, Frame::Last(frame))?)
        }
        _ => Err(Refusal::Unexpected),
    }
}

/// `)` after the list of `map`.
pub fn after_map_list(
    stack: &mut Stack,
    kind: &Tok,
    from: Span,
    names: Names,
    list: Found,
) -> Result<Focus, Refusal>
    ensures { Gives (step.after_map_list kind.now from names (found_view list) (forms stack.old)) result stack.new }
{
    match kind {
        Tok::Mark(Mark::CloseParen) => {
            Ok(open(stack, Frame::Last(LastFrame::Map { from, names, list }))?)
        }
        _ => Err(Refusal::Unexpected),
    }
}
