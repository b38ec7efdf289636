//! The same over the lists of a form.

ghost use Rattle.ddl_closing.specs.Left.{Finds, all_left, alts_left, argument_left, args_left};
ghost use Rattle.ddl_closing.specs.Left.{cases_left, item_left, items_left, named_left};
ghost use Rattle.ddl_judging.specs.Views.{shapes_view};
ghost use Rattle.ddl_typed.specs.View.{alts_view, args_view, argument_view, cases_view, exprs_view};
ghost use Rattle.ddl_typed.specs.View.{fields_view, item_view, items_view};

use crate::cases::check;
use crate::error::CaseError;
use ddl_judging::Shapes;
use ddl_typed::{TAlternative, TArgument, TCase, TExpr, TField, TItem};
use std::alloc::Global;

/// Values, one after the other.
#[cycle(cases)]
#[tactic(auto, using(ddl_typed::proofs::Layers::layers, crate::proofs::Steps::lists, crate::proofs::Turns::turns))]
pub(crate) fn check_all(alloc: Global, shapes: &Shapes, exprs: &[TExpr]) -> Result<(), CaseError>
    ensures { Finds (all_left (shapes_view shapes.now) (exprs_view exprs.now)) result }
{
    for expr in exprs {
        check(alloc, shapes, true, expr)?;
    }
    Ok(())
}

/// The fields of a record.
#[cycle(cases)]
#[tactic(auto, using(ddl_typed::proofs::Layers::layers, crate::proofs::Steps::lists, crate::proofs::Turns::turns))]
pub(crate) fn check_fields(
    alloc: Global,
    shapes: &Shapes,
    fields: &[TField],
) -> Result<(), CaseError>
    ensures { Finds (named_left (shapes_view shapes.now) (fields_view fields.now)) result }
{
    for field in fields {
        check(alloc, shapes, true, &field.value)?;
    }
    Ok(())
}

/// The bodies of the alternatives of a `case`.
#[cycle(cases)]
#[tactic(auto, using(ddl_typed::proofs::Layers::layers, crate::proofs::Steps::lists, crate::proofs::Turns::turns))]
pub(crate) fn check_bodies(
    alloc: Global,
    shapes: &Shapes,
    is_value: bool,
    cases: &[TCase],
) -> Result<(), CaseError>
    ensures { Finds (cases_left is_value (shapes_view shapes.now) (cases_view cases.now)) result }
{
    for case in cases {
        check(alloc, shapes, is_value, &case.body)?;
    }
    Ok(())
}

/// The alternatives of a choice.
#[cycle(cases)]
#[tactic(auto, using(ddl_typed::proofs::Layers::layers, crate::proofs::Steps::lists, crate::proofs::Turns::turns))]
pub(crate) fn check_alternatives(
    alloc: Global,
    shapes: &Shapes,
    alternatives: &[TAlternative],
) -> Result<(), CaseError>
    ensures { Finds (alts_left (shapes_view shapes.now) (alts_view alternatives.now)) result }
{
    for alternative in alternatives {
        check(alloc, shapes, false, &alternative.body)?;
    }
    Ok(())
}

/// What a call hands on.
#[cycle(cases)]
#[tactic(auto, using(ddl_typed::proofs::Layers::layers, crate::proofs::Steps::lists, crate::proofs::Turns::turns))]
pub(crate) fn check_arguments(
    alloc: Global,
    shapes: &Shapes,
    arguments: &[TArgument],
) -> Result<(), CaseError>
    ensures { Finds (args_left (shapes_view shapes.now) (args_view arguments.now)) result }
{
    for argument in arguments {
        check_argument(alloc, shapes, argument)?;
    }
    Ok(())
}

#[cycle(cases)]
#[tactic(auto, using(ddl_typed::proofs::Layers::layers, crate::proofs::Steps::lists, crate::proofs::Turns::turns))]
fn check_argument(alloc: Global, shapes: &Shapes, argument: &TArgument) -> Result<(), CaseError>
    ensures { Finds (argument_left (shapes_view shapes.now) (argument_view argument.now)) result }
{
    match argument {
        TArgument::Value { value, .. } => check(alloc, shapes, true, value),
        TArgument::Grammar { grammar, .. } => check(alloc, shapes, false, grammar),
        TArgument::ClassOf { .. } => Ok(()),
        TArgument::TypeOf { .. } => Ok(()),
        TArgument::ByHand { .. } => Ok(()),
    }
}

/// The items of a block.
#[cycle(cases)]
#[tactic(auto, using(ddl_typed::proofs::Layers::layers, crate::proofs::Steps::lists, crate::proofs::Turns::turns))]
pub(crate) fn check_items(alloc: Global, shapes: &Shapes, items: &[TItem]) -> Result<(), CaseError>
    ensures { Finds (items_left (shapes_view shapes.now) (items_view items.now)) result }
{
    for item in items {
        check_item(alloc, shapes, item)?;
    }
    Ok(())
}

#[cycle(cases)]
#[tactic(auto, using(ddl_typed::proofs::Layers::layers, crate::proofs::Steps::lists, crate::proofs::Turns::turns))]
fn check_item(alloc: Global, shapes: &Shapes, item: &TItem) -> Result<(), CaseError>
    ensures { Finds (item_left (shapes_view shapes.now) (item_view item.now)) result }
{
    match item {
        TItem::Plain(body) => check(alloc, shapes, false, body),
        TItem::Let { body, .. } => check(alloc, shapes, false, body),
        TItem::Field { body, .. } => check(alloc, shapes, false, body),
        TItem::Result(body) => check(alloc, shapes, false, body),
    }
}
