//! The first `case` of values of which something is left, over the forms of a body.

ghost use Rattle.ddl_closing.specs.Left.{Finds, bounds_left, content_left, left};
ghost use Rattle.ddl_judging.specs.Views.{shapes_view};
ghost use Rattle.ddl_typed.specs.View.{bounds_view, cases_view, content_view, view};
ghost use Rattle.ddl_typing.specs.Gaps.{first_gap, own_gap};

use crate::error::{CaseError, Gap};
use crate::lists::{
    check_all, check_alternatives, check_arguments, check_bodies, check_fields, check_items,
};
use crate::untaken::untaken;
use ddl_base::Span;
use ddl_judging::Shapes;
use ddl_typed::{TBounds, TCase, TContent, TExpr, TForm};
use std::alloc::Global;

/// Checks that each `case` that is a value has an alternative for each form of its subject, in a body that is a
/// value or a grammar.
///
/// The refusal is the first that has none, in text order and outer before inner, with the first such form. It costs
/// a look at each alternative for each form of the subject.
#[tactic(auto, using(crate::proofs::Steps::steps))]
pub fn check_cases(
    alloc: Global,
    shapes: &Shapes,
    is_value: bool,
    body: &TExpr,
) -> Result<(), CaseError>
    ensures { Finds (first_gap is_value (shapes_view shapes.now) (view body.now)) result }
{
    check(alloc, shapes, is_value, body)
}

/// The first gap in a form that is a value, or else a grammar.
#[cycle(cases)]
#[tactic(auto, using(ddl_typed::proofs::Layers::layers, crate::proofs::Steps::steps))]
pub(crate) fn check(
    alloc: Global,
    shapes: &Shapes,
    is_value: bool,
    expr: &TExpr,
) -> Result<(), CaseError>
    ensures { Finds (left is_value (shapes_view shapes.now) (view expr.now)) result }
{
    match &expr.form {
        TForm::Text(_) => Ok(()),
        TForm::Local(_) => Ok(()),
        TForm::Number(_) => Ok(()),
        TForm::Truth(_) => Ok(()),
        TForm::Nothing => Ok(()),
        TForm::Just(value) => check(alloc, shapes, true, value),
        TForm::List(elements) => check_all(alloc, shapes, elements),
        TForm::Record(fields) => check_fields(alloc, shapes, fields),
        TForm::Union { content, .. } => check_content(alloc, shapes, content),
        TForm::Select { of, .. } => check(alloc, shapes, true, of),
        TForm::Infix { left, right, .. } => {
            check(alloc, shapes, true, left)?;
            check(alloc, shapes, true, right)
        }
        TForm::Prefix { operand, .. } => check(alloc, shapes, true, operand),
        TForm::Cast { value, .. } => check(alloc, shapes, true, value),
        TForm::Builtin { arguments, .. } => check_all(alloc, shapes, arguments),
        TForm::ValueCall { arguments, .. } => check_arguments(alloc, shapes, arguments),
        TForm::Paren(inner) => check(alloc, shapes, is_value, inner),
        TForm::If {
            condition,
            then,
            other,
        } => {
            check(alloc, shapes, true, condition)?;
            check(alloc, shapes, is_value, then)?;
            check(alloc, shapes, is_value, other)
        }
        TForm::Case { subject, cases } => {
            check_own(alloc, shapes, is_value, subject, cases, expr.span)?;
            check(alloc, shapes, true, subject)?;
            check_bodies(alloc, shapes, is_value, cases)
        }
        TForm::For {
            start,
            over,
            body,
            ..
        } => {
            check(alloc, shapes, true, start)?;
            check(alloc, shapes, true, over)?;
            check(alloc, shapes, is_value, body)
        }
        TForm::Map { over, body, .. } => {
            check(alloc, shapes, true, over)?;
            check(alloc, shapes, is_value, body)
        }
        TForm::Pure(value) => check(alloc, shapes, true, value),
        TForm::UInt8 => Ok(()),
        TForm::Match(bytes) => check(alloc, shapes, true, bytes),
        TForm::End => Ok(()),
        TForm::Class(_) => Ok(()),
        TForm::Fail(_) => Ok(()),
        TForm::Primitive { arguments, .. } => check_all(alloc, shapes, arguments),
        TForm::Is { value, .. } => check(alloc, shapes, true, value),
        TForm::Fits(value) => check(alloc, shapes, true, value),
        TForm::Block(items) => check_items(alloc, shapes, items),
        TForm::First(alternatives) => check_alternatives(alloc, shapes, alternatives),
        TForm::Choose(alternatives) => check_alternatives(alloc, shapes, alternatives),
        TForm::Many { bounds, body, .. } => {
            check_bounds(alloc, shapes, bounds)?;
            check(alloc, shapes, false, body)
        }
        TForm::Optional { body, .. } => check(alloc, shapes, false, body),
        TForm::Call { arguments, .. } => check_arguments(alloc, shapes, arguments),
        TForm::Parameter(_) => Ok(()),
    }
}

/// The content of a union.
#[cycle(cases)]
#[tactic(auto, using(ddl_typed::proofs::Layers::layers, crate::proofs::Steps::steps))]
fn check_content(alloc: Global, shapes: &Shapes, content: &TContent) -> Result<(), CaseError>
    ensures { Finds (content_left (shapes_view shapes.now) (content_view content.now)) result }
{
    match content {
        TContent::Absent => Ok(()),
        TContent::Given(value) => check(alloc, shapes, true, value),
    }
}

/// How often a form repeats.
#[cycle(cases)]
#[tactic(auto, using(ddl_typed::proofs::Layers::layers, crate::proofs::Steps::steps))]
fn check_bounds(alloc: Global, shapes: &Shapes, bounds: &TBounds) -> Result<(), CaseError>
    ensures { Finds (bounds_left (shapes_view shapes.now) (bounds_view bounds.now)) result }
{
    match bounds {
        TBounds::Unbounded => Ok(()),
        TBounds::Exactly(count) => check(alloc, shapes, true, count),
        TBounds::AtLeast(count) => check(alloc, shapes, true, count),
        TBounds::AtMost(count) => check(alloc, shapes, true, count),
        TBounds::Between { low, high } => {
            check(alloc, shapes, true, low)?;
            check(alloc, shapes, true, high)
        }
    }
}

/// What is left of a `case` itself, where it is a value.
#[tactic(auto, using(ddl_typed::proofs::Layers::layers, crate::proofs::Steps::steps))]
fn check_own(
    alloc: Global,
    shapes: &Shapes,
    is_value: bool,
    subject: &TExpr,
    cases: &[TCase],
    span: Span,
) -> Result<(), CaseError>
    ensures { Finds (own_gap is_value (shapes_view shapes.now) (view subject.now) (cases_view cases.now) span) result }
{
    if !is_value {
        return Ok(());
    }
    match untaken(alloc, shapes, &subject.of, cases)? {
        None => Ok(()),
        Some(form) => Err(CaseError::Gap(Gap { span, form })),
    }
}
