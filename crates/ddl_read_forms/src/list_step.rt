#![tactic(auto, using(ddl_tree::proofs::Layers::layers))]

ghost use Rattle.std.specs.Prelude.{◌≡◌, ◌≤◌, ◌+◌, max, map};
ghost use Rattle.ddl_tree.specs.View.{view, binding_view, item_view};
ghost use Rattle.ddl_states.specs.Ends.{named};
ghost use Rattle.ddl_states.specs.FrameView.{found_view, start_view, repeat_view};
ghost use Rattle.ddl_states.specs.Gives.{Gives};
ghost use Rattle.ddl_states.specs.StackView.{forms};
ghost use Rattle.ddl_reader.specs.StepLists as step;

use ddl_base::Span;
use ddl_states::append::{with_binding, with_expr, with_item};
use ddl_states::part::{found, joined, name_at, open};
use ddl_states::{Focus, Found, Frame, ListFocus, ListFrame, Refusal, Repeat, Stack, Start};
use ddl_token::{Mark, Tok};
use ddl_tree::{Alternatives, Binding, Expr, Item, Name};
use std::alloc::Global;

/// The brace after `block`.
pub fn open_block(
    alloc: Global,
    stack: &mut Stack,
    kind: &Tok,
    from: Span,
) -> Result<Focus, Refusal>
    ensures { Gives (step.open_block_with kind.now from (forms stack.old)) result stack.new }
{
    match kind {
        Tok::Mark(Mark::OpenBrace) => {
            let frame = ListFrame::Block {
                from,
                items: Vec::new(alloc),
                deep: 0,
                start: Start::Plainly,
            };
            Ok(open(stack, Frame::List(frame))?)
        }
        _ => Err(Refusal::Unexpected),
    }
}

/// The name after `let`.
pub fn let_name(
    alloc: Global,
    stack: &Stack,
    kind: &Tok,
    at: Span,
    from: Span,
    items: Vec<Item>,
    deep: u32,
    let_at: Span,
) -> Result<Focus, Refusal>
    ensures { Gives (step.let_name_with kind.now at from (map item_view items.items) deep let_at (forms stack.now))
        result stack.now }
{
    match kind {
        Tok::Lower(name) => {
            let start = Start::Let(let_at, name_at(alloc, name, at)?);
            Ok(Focus::List(ListFocus::ItemEquals {
                from,
                items,
                deep,
                start,
            }))
        }
        _ => Err(Refusal::Unexpected),
    }
}

/// `=` after what begins a part of a block.
pub fn item_equals(
    stack: &mut Stack,
    kind: &Tok,
    from: Span,
    items: Vec<Item>,
    deep: u32,
    start: Start,
) -> Result<Focus, Refusal>
    ensures { Gives (step.item_equals_with kind.now from (map item_view items.items) deep (start_view start)
        (forms stack.old)) result stack.new }
{
    match kind {
        Tok::Mark(Mark::Equals) => {
            let frame = ListFrame::Block {
                from,
                items,
                deep,
                start,
            };
            Ok(open(stack, Frame::List(frame))?)
        }
        _ => Err(Refusal::Unexpected),
    }
}

/// The name that an expression is, if it is one alone.
fn name_of(expr: Expr) -> Option<Name>
    ensures { result ≡ named (view expr) }
{
    match expr {
        Expr::Lower(name) => Some(name),
        _other => None,
    }
}

/// `=` after an expression of a block that is a name.
#[tactic(auto, using(crate::proofs::NamedParts::named_parts))]
fn field_of_block(
    stack: &mut Stack,
    from: Span,
    items: Vec<Item>,
    deep: u32,
    start: Start,
    part: Expr,
) -> Result<Focus, Refusal>
    ensures { Gives (step.field_of_block from (map item_view items.items) deep (start_view start) (view part)
        (forms stack.old)) result stack.new }
{
    let Some(name) = name_of(part) else {
        return Err(Refusal::Unexpected);
    };
    match start {
        Start::Plainly => {
            let frame = ListFrame::Block {
                from,
                items,
                deep,
                start: Start::Field(name),
            };
            Ok(open(stack, Frame::List(frame))?)
        }
        Start::Result(_) | Start::Let(..) | Start::Field(_) => Err(Refusal::Unexpected),
    }
}

/// After the expression of a part of a block.
pub fn after_item(
    alloc: Global,
    stack: &mut Stack,
    kind: &Tok,
    at: Span,
    from: Span,
    items: Vec<Item>,
    deep: u32,
    start: Start,
    part: Found,
) -> Result<Focus, Refusal>
    requires { 1 + max deep part.deep ≤ 400 }
    ensures { Gives (step.after_item kind.now at from (map item_view items.items) deep (start_view start)
        (found_view part) (forms stack.old)) result stack.new }
{
    match kind {
        Tok::Mark(Mark::Semicolon) => {
            let deep = deep.max(part.deep);
            let frame = ListFrame::Block {
                from,
                items: with_item(items, start, part)?,
                deep,
                start: Start::Plainly,
            };
            Ok(open(stack, Frame::List(frame))?)
        }
        Tok::Mark(Mark::CloseBrace) => {
            let deep = 1 + deep.max(part.deep);
            let items = with_item(items, start, part)?;
            let span = joined(from, at);
            Ok(Focus::Have(found(alloc, Expr::Block { items, span }, deep)?))
        }
        Tok::Mark(Mark::Equals) => {
            field_of_block(stack, from, items, deep, start, Box::into_inner(part.expr))
        }
        _ => Err(Refusal::Unexpected),
    }
}

/// The brace after `First` or `Choose`.
pub fn open_choice(
    alloc: Global,
    stack: &mut Stack,
    kind: &Tok,
    repeat: Repeat,
) -> Result<Focus, Refusal>
    ensures { Gives (step.open_choice_with kind.now (repeat_view repeat) (forms stack.old)) result stack.new }
{
    match kind {
        Tok::Mark(Mark::OpenBrace) => {
            let frame = ListFrame::Untagged {
                repeat,
                alternatives: Vec::new(alloc),
                deep: 0,
            };
            Ok(open(stack, Frame::List(frame))?)
        }
        _ => Err(Refusal::Unexpected),
    }
}

/// `=` after a first alternative that is a name: it is a tag.
#[tactic(auto, using(crate::proofs::NamedParts::named_parts))]
fn first_tag(
    alloc: Global,
    stack: &mut Stack,
    repeat: Repeat,
    alternatives: Vec<Expr>,
    part: Expr,
) -> Result<Focus, Refusal>
    ensures { Gives (step.first_tag (repeat_view repeat) (map view alternatives.items) (view part) (forms stack.old))
        result stack.new }
{
    let Some(tag) = name_of(part) else {
        return Err(Refusal::Unexpected);
    };
    if alternatives.is_empty() {
        let frame = ListFrame::WithTags {
            repeat,
            alternatives: Vec::new(alloc),
            deep: 0,
            tag,
        };
        Ok(open(stack, Frame::List(frame))?)
    } else {
        Err(Refusal::Unexpected)
    }
}

/// After an alternative without a tag.
pub fn after_untagged(
    alloc: Global,
    stack: &mut Stack,
    kind: &Tok,
    at: Span,
    repeat: Repeat,
    alternatives: Vec<Expr>,
    deep: u32,
    part: Found,
) -> Result<Focus, Refusal>
    requires { 1 + max deep part.deep ≤ 400 }
    ensures { Gives (step.after_untagged kind.now at (repeat_view repeat) (map view alternatives.items) deep
        (found_view part) (forms stack.old)) result stack.new }
{
    match kind {
        Tok::Mark(Mark::Semicolon) => {
            let deep = deep.max(part.deep);
            let frame = ListFrame::Untagged {
                repeat,
                alternatives: with_expr(alternatives, part.expr)?,
                deep,
            };
            Ok(open(stack, Frame::List(frame))?)
        }
        Tok::Mark(Mark::CloseBrace) => {
            let deep = 1 + deep.max(part.deep);
            let choice = Expr::Choice {
                bias: repeat.bias,
                alternatives: Alternatives::Untagged(with_expr(alternatives, part.expr)?),
                span: joined(repeat.from, at),
            };
            Ok(Focus::Have(found(alloc, choice, deep)?))
        }
        Tok::Mark(Mark::Equals) => first_tag(
            alloc,
            stack,
            repeat,
            alternatives,
            Box::into_inner(part.expr),
        ),
        _ => Err(Refusal::Unexpected),
    }
}

/// The tag of an alternative after others with tags.
pub fn want_tag(
    alloc: Global,
    stack: &Stack,
    kind: &Tok,
    at: Span,
    repeat: Repeat,
    alternatives: Vec<Binding>,
    deep: u32,
) -> Result<Focus, Refusal>
    ensures { Gives (step.want_tag_with kind.now at (repeat_view repeat) (map binding_view alternatives.items) deep
        (forms stack.now)) result stack.now }
{
    match kind {
        Tok::Lower(name) => {
            let tag = name_at(alloc, name, at)?;
            Ok(Focus::List(ListFocus::TagEquals {
                repeat,
                alternatives,
                deep,
                tag,
            }))
        }
        _ => Err(Refusal::Unexpected),
    }
}

/// `=` after a tag.
pub fn tag_equals(
    stack: &mut Stack,
    kind: &Tok,
    repeat: Repeat,
    alternatives: Vec<Binding>,
    deep: u32,
    tag: Name,
) -> Result<Focus, Refusal>
    ensures { Gives (step.tag_equals_with kind.now (repeat_view repeat) (map binding_view alternatives.items) deep tag
        (forms stack.old)) result stack.new }
{
    match kind {
        Tok::Mark(Mark::Equals) => {
            let frame = ListFrame::WithTags {
                repeat,
                alternatives,
                deep,
                tag,
            };
            Ok(open(stack, Frame::List(frame))?)
        }
        _ => Err(Refusal::Unexpected),
    }
}

/// After an alternative with a tag.
pub fn after_with_tags(
    alloc: Global,
    stack: &Stack,
    kind: &Tok,
    at: Span,
    repeat: Repeat,
    alternatives: Vec<Binding>,
    deep: u32,
    tag: Name,
    part: Found,
) -> Result<Focus, Refusal>
    requires { 1 + max deep part.deep ≤ 400 }
    ensures { Gives (step.after_with_tags kind.now at (repeat_view repeat) (map binding_view alternatives.items) deep
        tag (found_view part) (forms stack.now)) result stack.now }
{
    match kind {
        Tok::Mark(Mark::Semicolon) => {
            let deep = deep.max(part.deep);
            let alternatives = with_binding(alternatives, tag, part)?;
            Ok(Focus::List(ListFocus::WantTag {
                repeat,
                alternatives,
                deep,
            }))
        }
        Tok::Mark(Mark::CloseBrace) => {
            let deep = 1 + deep.max(part.deep);
            let choice = Expr::Choice {
                bias: repeat.bias,
                alternatives: Alternatives::WithTags(with_binding(alternatives, tag, part)?),
                span: joined(repeat.from, at),
            };
            Ok(Focus::Have(found(alloc, choice, deep)?))
        }
        _ => Err(Refusal::Unexpected),
    }
}
