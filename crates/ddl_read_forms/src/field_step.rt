#![tactic(auto, using(ddl_tree::proofs::Layers::layers))]

ghost use Rattle.std.specs.Prelude.{◌≡◌, ◌≤◌, ◌+◌, max, map};
ghost use Rattle.ddl_tree.specs.View.{view, binding_view};
ghost use Rattle.ddl_states.specs.FrameView.{found_view};
ghost use Rattle.ddl_states.specs.Gives.{Gives};
ghost use Rattle.ddl_states.specs.StackView.{forms};
ghost use Rattle.ddl_reader.specs.StepParts as step;

use ddl_base::Span;
use ddl_states::append::{with_binding, with_expr};
use ddl_states::part::{found, joined, name_at, open};
use ddl_states::{FieldFocus, Focus, Found, Frame, InnerFrame, ListFrame, Refusal, Stack};
use ddl_token::{Mark, Tok, Word};
use ddl_tree::{Binding, Expr, Name, Shape};
use std::alloc::Global;

/// After `is`.
pub fn shape(
    alloc: Global,
    stack: &Stack,
    kind: &Tok,
    at: Span,
    value: Found,
) -> Result<Focus, Refusal>
    requires { 1 + value.deep ≤ 400 }
    ensures { Gives (step.shape_with kind.now at (found_view value) (forms stack.now)) result stack.now }
{
    let shape = match kind {
        Tok::Lower(name) => Shape::IsTag(name_at(alloc, name, at)?),
        Tok::Word(Word::True) => Shape::IsTrue(at),
        Tok::Word(Word::False) => Shape::IsFalse(at),
        Tok::Word(Word::Just) => Shape::IsJust(at),
        Tok::Word(Word::Nothing) => Shape::IsNothing(at),
        _ => return Err(Refusal::Unexpected),
    };
    let deep = 1 + value.deep;
    let is = Expr::Is {
        span: joined(value.expr.span(), at),
        value: value.expr,
        shape,
    };
    Ok(Focus::Have(found(alloc, is, deep)?))
}

/// After `.`.
pub fn select(
    alloc: Global,
    stack: &Stack,
    kind: &Tok,
    at: Span,
    value: Found,
) -> Result<Focus, Refusal>
    requires { 1 + value.deep ≤ 400 }
    ensures { Gives (step.field_with kind.now at (found_view value) (forms stack.now)) result stack.now }
{
    match kind {
        Tok::Lower(name) => {
            let deep = 1 + value.deep;
            let span = joined(value.expr.span(), at);
            let select = Expr::Select {
                value: value.expr,
                field: name_at(alloc, name, at)?,
                span,
            };
            Ok(Focus::Have(found(alloc, select, deep)?))
        }
        _ => Err(Refusal::Unexpected),
    }
}

/// After an element of an array.
pub fn after_array(
    alloc: Global,
    stack: &mut Stack,
    kind: &Tok,
    at: Span,
    from: Span,
    elements: Vec<Expr>,
    deep: u32,
    last: Found,
) -> Result<Focus, Refusal>
    requires { 1 + max deep last.deep ≤ 400 }
    ensures { Gives (step.after_array kind.now at from (map view elements.items) deep (found_view last)
        (forms stack.old)) result stack.new }
{
    match kind {
        Tok::Mark(Mark::Comma) => {
            let deep = deep.max(last.deep);
            let elements = with_expr(elements, last.expr)?;
            let frame = ListFrame::Array {
                from,
                elements,
                deep,
            };
            Ok(open(stack, Frame::List(frame))?)
        }
        Tok::Mark(Mark::CloseBracket) => {
            let deep = 1 + deep.max(last.deep);
            let elements = with_expr(elements, last.expr)?;
            let span = joined(from, at);
            let array = found(alloc, Expr::Array { elements, span }, deep)?;
            Ok(Focus::Have(array))
        }
        _ => Err(Refusal::Unexpected),
    }
}

/// After `{`.
pub fn first_field(
    alloc: Global,
    stack: &Stack,
    kind: &Tok,
    at: Span,
    from: Span,
) -> Result<Focus, Refusal>
    ensures { Gives (step.first_field kind.now at from (forms stack.now)) result stack.now }
{
    match kind {
        Tok::Mark(Mark::CloseBrace) => {
            let empty = Expr::RecordOf {
                fields: Vec::new(alloc),
                span: joined(from, at),
            };
            Ok(Focus::Have(found(alloc, empty, 1)?))
        }
        Tok::Lower(name) => Ok(Focus::Field(FieldFocus::RecordEquals {
            from,
            fields: Vec::new(alloc),
            deep: 0,
            name: name_at(alloc, name, at)?,
        })),
        _ => Err(Refusal::Unexpected),
    }
}

/// After `,` in a record.
pub fn next_field(
    alloc: Global,
    stack: &Stack,
    kind: &Tok,
    at: Span,
    from: Span,
    fields: Vec<Binding>,
    deep: u32,
) -> Result<Focus, Refusal>
    ensures { Gives (step.next_field kind.now at from (map binding_view fields.items) deep (forms stack.now)) result
        stack.now }
{
    match kind {
        Tok::Lower(name) => {
            let name = name_at(alloc, name, at)?;
            Ok(Focus::Field(FieldFocus::RecordEquals {
                from,
                fields,
                deep,
                name,
            }))
        }
        _ => Err(Refusal::Unexpected),
    }
}

/// `=` after the name of a field.
pub fn record_equals(
    stack: &mut Stack,
    kind: &Tok,
    from: Span,
    fields: Vec<Binding>,
    deep: u32,
    name: Name,
) -> Result<Focus, Refusal>
    ensures { Gives (step.record_equals_with kind.now from (map binding_view fields.items) deep name (forms stack.old))
        result stack.new }
{
    match kind {
        Tok::Mark(Mark::Equals) => {
            let frame = ListFrame::Record {
                from,
                fields,
                deep,
                name,
            };
            Ok(open(stack, Frame::List(frame))?)
        }
        _ => Err(Refusal::Unexpected),
    }
}

/// After the value of a field.
pub fn after_field(
    alloc: Global,
    stack: &Stack,
    kind: &Tok,
    at: Span,
    from: Span,
    fields: Vec<Binding>,
    deep: u32,
    name: Name,
    value: Found,
) -> Result<Focus, Refusal>
    requires { 1 + max deep value.deep ≤ 400 }
    ensures { Gives (step.after_field kind.now at from (map binding_view fields.items) deep name (found_view value)
        (forms stack.now)) result stack.now }
{
    match kind {
        Tok::Mark(Mark::Comma) => {
            let deep = deep.max(value.deep);
            let fields = with_binding(fields, name, value)?;
            Ok(Focus::Field(FieldFocus::NextOfRecord { from, fields, deep }))
        }
        Tok::Mark(Mark::CloseBrace) => {
            let deep = 1 + deep.max(value.deep);
            let fields = with_binding(fields, name, value)?;
            let span = joined(from, at);
            let record = found(alloc, Expr::RecordOf { fields, span }, deep)?;
            Ok(Focus::Have(record))
        }
        _ => Err(Refusal::Unexpected),
    }
}

/// After `{|`.
pub fn tag_name(
    alloc: Global,
    stack: &Stack,
    kind: &Tok,
    at: Span,
    from: Span,
) -> Result<Focus, Refusal>
    ensures { Gives (step.tag_name_with kind.now at from (forms stack.now)) result stack.now }
{
    match kind {
        Tok::Lower(name) => {
            let tag = name_at(alloc, name, at)?;
            Ok(Focus::Field(FieldFocus::AfterTag { from, tag }))
        }
        _ => Err(Refusal::Unexpected),
    }
}

/// `|}` or `=` after a tag.
#[tactic(auto, using(crate::proofs::Tagged::tagged))]
pub fn after_tag(
    alloc: Global,
    stack: &mut Stack,
    kind: &Tok,
    at: Span,
    from: Span,
    tag: Name,
) -> Result<Focus, Refusal>
    ensures { Gives (step.after_tag_with kind.now at from tag (forms stack.old)) result stack.new }
{
    match kind {
        Tok::Mark(Mark::CloseUnion) => {
            let tagged = Expr::Tagged {
                tag,
                content: None,
                span: joined(from, at),
            };
            Ok(Focus::Have(found(alloc, tagged, 1)?))
        }
        Tok::Mark(Mark::Equals) => {
            Ok(open(stack, Frame::Inner(InnerFrame::Tagged { from, tag }))?)
        }
        _ => Err(Refusal::Unexpected),
    }
}

/// After the value behind a tag.
#[tactic(auto, using(crate::proofs::Tagged::tagged))]
pub fn after_tagged(
    alloc: Global,
    stack: &Stack,
    kind: &Tok,
    at: Span,
    from: Span,
    tag: Name,
    value: Found,
) -> Result<Focus, Refusal>
    requires { 1 + value.deep ≤ 400 }
    ensures { Gives (step.after_tagged kind.now at from tag (found_view value) (forms stack.now)) result stack.now }
{
    match kind {
        Tok::Mark(Mark::CloseUnion) => {
            let deep = 1 + value.deep;
            let tagged = Expr::Tagged {
                tag,
                content: Some(value.expr),
                span: joined(from, at),
            };
            Ok(Focus::Have(found(alloc, tagged, deep)?))
        }
        _ => Err(Refusal::Unexpected),
    }
}
