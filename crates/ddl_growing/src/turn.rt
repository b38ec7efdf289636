//! The turn of one demand: it adds its equations once the heads of its subjects are known.

ghost use Rattle.std.specs.Prelude.{MatchResult};
ghost use Rattle.ddl_types.specs.CondView.{cond_view};
ghost use Rattle.ddl_types.specs.Conditions.{ConditionBelow};
ghost use Rattle.ddl_unify.specs.Equations.{MostGeneral};
ghost use Rattle.ddl_unify.specs.State.{accepted, solution, variables};
ghost use Rattle.ddl_growing.specs.Carrying.{IsTaken, asking};
ghost use Rattle.ddl_judging.specs.Demands.{DemandBelow, condition};
ghost use Rattle.ddl_growing.specs.Turns.{AreShapes, IsNoTurn, IsTurn};
ghost use Rattle.ddl_growing.specs.SolverView.{solved};
ghost use Rattle.ddl_judging.specs.Views.{asked_view, demand_view, shapes_view};

use crate::gathering::take_gather;
use crate::heads::{wait_for, wait_for_both};
use crate::joining::take_join;
use crate::keys::take_key;
use crate::loops::{Looped, take_loop};
use crate::members::{Sought, take_make, take_member};
use crate::refusal::SettleError;
use ddl_base::Span;
use ddl_judging::{Asked, Demand, Shapes};
use ddl_types::Cond;
use ddl_unify::Solver;
use std::alloc::Global;

/// What came of a turn.
#[derive(Clone, Copy, PartialEq, Eq)]
pub enum Turn {
    /// The head of a subject is not known.
    Waits,
    /// All are known, and there is nothing to add.
    Silent,
    Adds,
}

/// Adds the equations of a demand, where the heads of its subjects are known.
pub fn take_turn(
    alloc: Global,
    solver: &mut Solver,
    shapes: &Shapes,
    asked: &Asked,
) -> Result<Turn, SettleError>
    requires below { DemandBelow (variables solver.old) (demand_view asked.now.what) }
    requires shapes { AreShapes (variables solver.old) (shapes_view shapes.now) }
    ensures most { MostGeneral (accepted solver.new) (solution solver.new) }
    ensures turn { MatchResult result (IsTurn (shapes_view shapes.now) (asked_view asked.now) (solved solver.old)
        (solved solver.new)) (IsNoTurn (shapes_view shapes.now) (asked_view asked.now) (solved solver.old)
        (solved solver.new)) }
{
    let span = asked.span;
    match &asked.what {
        Demand::Cond(cond) => take_condition(alloc, solver, shapes, span, cond),
        Demand::Make { of, tag, content } => {
            let sought = Sought {
                of,
                name: tag.get(),
                result: content,
            };
            take_make(alloc, solver, shapes, span, sought)
        }
        Demand::Gather {
            over,
            key,
            value,
            body,
            result,
        } => {
            let form = Looped { over, key, value };
            take_gather(alloc, solver, span, form, body, result)
        }
    }
}

/// The turn of a condition.
fn take_condition(
    alloc: Global,
    solver: &mut Solver,
    shapes: &Shapes,
    span: Span,
    cond: &Cond,
) -> Result<Turn, SettleError>
    requires below { ConditionBelow (variables solver.old) (cond_view cond.now) }
    requires shapes { AreShapes (variables solver.old) (shapes_view shapes.now) }
    ensures most { MostGeneral (accepted solver.new) (solution solver.new) }
    ensures taken { IsTaken (shapes_view shapes.now) (asking (condition (cond_view cond.now)) span) (solved solver.old)
        (solved solver.new) result }
{
    match cond {
        Cond::Num(of) => Ok(wait_for(solver, of)),
        Cond::Word(of) => Ok(wait_for(solver, of)),
        Cond::Lit { number: _, of } => Ok(wait_for(solver, of)),
        Cond::Lossless { from, to } => Ok(wait_for_both(solver, from, to)),
        Cond::Cut { from, to } => Ok(wait_for_both(solver, from, to)),
        Cond::Fit { from, to } => Ok(wait_for_both(solver, from, to)),
        Cond::Key(of) => take_key(alloc, solver, span, of),
        Cond::Cat {
            left,
            right,
            result,
        } => take_join(solver, span, left, right, result),
        Cond::Field { of, name, result } => {
            let sought = Sought {
                of,
                name: name.get(),
                result,
            };
            take_member(alloc, solver, shapes, span, false, sought)
        }
        Cond::Tag { of, name, result } => {
            let sought = Sought {
                of,
                name: name.get(),
                result,
            };
            take_member(alloc, solver, shapes, span, true, sought)
        }
        Cond::Loop { over, key, value } => {
            let form = Looped { over, key, value };
            take_loop(alloc, solver, span, form)
        }
    }
}
