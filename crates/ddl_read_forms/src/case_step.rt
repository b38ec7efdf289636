#![tactic(auto, using(ddl_tree::proofs::Layers::layers))]

ghost use Rattle.std.specs.Prelude.{◌≡◌, ◌≤◌, ◌+◌, max, map};
ghost use Rattle.ddl_tree.specs.View.{alt_view};
ghost use Rattle.ddl_states.specs.FocusView.{cases_view};
ghost use Rattle.ddl_states.specs.FrameView.{found_view};
ghost use Rattle.ddl_states.specs.Gives.{Gives, Comes};
ghost use Rattle.ddl_states.specs.StackView.{forms};
ghost use Rattle.ddl_reader.specs.StepLists as step;

use ddl_base::{NoMemory, Span};
use ddl_states::append::with_alt;
use ddl_states::part::{found, joined, name_at, number_at, open};
use ddl_states::{CaseFocus, Cases, Focus, Found, Frame, ListFrame, Refusal, Stack};
use ddl_token::{Mark, Tok, Word};
use ddl_tree::{Alt, Binder, Expr, Name, Pat};
use std::alloc::Global;

/// `of` after the subject of a `case`.
pub fn after_subject(
    stack: &Stack,
    kind: &Tok,
    from: Span,
    subject: Found,
) -> Result<Focus, Refusal>
    ensures { Gives (step.after_subject kind.now from (found_view subject) (forms stack.now)) result stack.now }
{
    match kind {
        Tok::Word(Word::Of) => Ok(Focus::Case(CaseFocus::Open { from, subject })),
        _ => Err(Refusal::Unexpected),
    }
}

/// The brace after `of`.
pub fn open_case(
    alloc: Global,
    stack: &Stack,
    kind: &Tok,
    from: Span,
    subject: Found,
) -> Result<Focus, Refusal>
    ensures { Gives (step.open_case_with kind.now from (found_view subject) (forms stack.now)) result stack.now }
{
    match kind {
        Tok::Mark(Mark::OpenBrace) => Ok(Focus::Case(CaseFocus::Pattern(Cases {
            from,
            subject,
            alts: Vec::new(alloc),
            deep: 0,
        }))),
        _ => Err(Refusal::Unexpected),
    }
}

/// The first token of a pattern.
pub fn pattern(
    alloc: Global,
    stack: &Stack,
    kind: &Tok,
    at: Span,
    cases: Cases,
) -> Result<Focus, Refusal>
    ensures { Gives (step.pattern_with kind.now at (cases_view cases) (forms stack.now)) result stack.now }
{
    let pattern = match kind {
        Tok::Mark(Mark::Underscore) => Pat::Any(at),
        Tok::Number {
            value,
            base,
            digits,
        } => Pat::Num(number_at(*value, *base, *digits, at)),
        Tok::Char(value) => Pat::Char {
            value: *value,
            span: at,
        },
        Tok::Word(Word::True) => Pat::True(at),
        Tok::Word(Word::False) => Pat::False(at),
        Tok::Word(Word::Nothing) => Pat::Nothing(at),
        Tok::Word(Word::Just) => return Ok(Focus::Case(CaseFocus::Just { cases, from: at })),
        Tok::Lower(name) => {
            let tag = name_at(alloc, name, at)?;
            return Ok(Focus::Case(CaseFocus::Tag { cases, tag }));
        }
        _ => return Err(Refusal::Unexpected),
    };
    Ok(Focus::Case(CaseFocus::Arrow { cases, pattern }))
}

/// What the content behind `just` is called.
pub fn just(
    alloc: Global,
    stack: &Stack,
    kind: &Tok,
    at: Span,
    cases: Cases,
    from: Span,
) -> Result<Focus, Refusal>
    ensures { Gives (step.just_with kind.now at (cases_view cases) from (forms stack.now)) result stack.now }
{
    let content = match kind {
        Tok::Lower(name) => Binder::Called(name_at(alloc, name, at)?),
        Tok::Mark(Mark::Underscore) => Binder::Ignored(at),
        _ => return Err(Refusal::Unexpected),
    };
    let span = joined(from, at);
    let pattern = Pat::Just { content, span };
    Ok(Focus::Case(CaseFocus::Arrow { cases, pattern }))
}

/// Opens an alternative.
fn in_alt(stack: &mut Stack, cases: Cases, pattern: Pat) -> Result<Focus, NoMemory>
    ensures { Comes (step.in_alt_of (cases_view cases) pattern (forms stack.old)) result stack.new }
{
    let frame = ListFrame::Alt {
        from: cases.from,
        subject: cases.subject,
        alts: cases.alts,
        deep: cases.deep,
        pattern,
    };
    open(stack, Frame::List(frame))
}

/// What the content behind a tag is called, or `->` at once.
pub fn tag(
    alloc: Global,
    stack: &mut Stack,
    kind: &Tok,
    at: Span,
    cases: Cases,
    tag: Name,
) -> Result<Focus, Refusal>
    ensures { Gives (step.tag_with kind.now at (cases_view cases) tag (forms stack.old)) result stack.new }
{
    let content = match kind {
        Tok::Lower(name) => Binder::Called(name_at(alloc, name, at)?),
        Tok::Mark(Mark::Underscore) => Binder::Ignored(at),
        Tok::Mark(Mark::Arrow) => {
            let span = tag.span;
            let pattern = Pat::Tag {
                tag,
                content: None,
                span,
            };
            return Ok(in_alt(stack, cases, pattern)?);
        }
        _ => return Err(Refusal::Unexpected),
    };
    let span = joined(tag.span, at);
    let pattern = Pat::Tag {
        tag,
        content: Some(content),
        span,
    };
    Ok(Focus::Case(CaseFocus::Arrow { cases, pattern }))
}

/// `->` after a pattern.
pub fn arrow(stack: &mut Stack, kind: &Tok, cases: Cases, pattern: Pat) -> Result<Focus, Refusal>
    ensures { Gives (step.arrow_with kind.now (cases_view cases) pattern (forms stack.old)) result stack.new }
{
    match kind {
        Tok::Mark(Mark::Arrow) => Ok(in_alt(stack, cases, pattern)?),
        _ => Err(Refusal::Unexpected),
    }
}

/// After the expression of an alternative.
pub fn after_alt(
    alloc: Global,
    stack: &Stack,
    kind: &Tok,
    at: Span,
    cases: Cases,
    pattern: Pat,
    body: Found,
) -> Result<Focus, Refusal>
    requires { 1 + max cases.subject.deep (max cases.deep body.deep) ≤ 400 }
    ensures { Gives (step.after_alt kind.now at cases.from (found_view cases.subject) (map alt_view cases.alts.items)
        cases.deep pattern (found_view body) (forms stack.now)) result stack.now }
{
    let Cases {
        from,
        subject,
        alts,
        deep,
    } = cases;
    let deep = deep.max(body.deep);
    match kind {
        Tok::Mark(Mark::Semicolon) => {
            let alts = with_alt(alts, pattern, body)?;
            Ok(Focus::Case(CaseFocus::Pattern(Cases {
                from,
                subject,
                alts,
                deep,
            })))
        }
        Tok::Mark(Mark::CloseBrace) => {
            let case = Expr::Case {
                subject: subject.expr,
                alts: with_alt(alts, pattern, body)?,
                span: joined(from, at),
            };
            Ok(Focus::Have(found(alloc, case, 1 + subject.deep.max(deep))?))
        }
        _ => Err(Refusal::Unexpected),
    }
}
