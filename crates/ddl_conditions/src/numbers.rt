//! Types of numbers that nothing tells: which of them become `int`.

ghost use Rattle.std.specs.Prelude.{◌≡◌, IfOk, MatchOption, Option, Some, None, true};
ghost use Rattle.ddl_types.specs.CondView.{cond_view};
ghost use Rattle.ddl_types.specs.TyView.{ty_view};
ghost use Rattle.ddl_unify.specs.Occurs.{is_var};
ghost use Rattle.ddl_unify.specs.State.{solution};
ghost use Rattle.ddl_conditions.specs.Closing.{Says};
ghost use Rattle.ddl_judging.specs.Demands.{condition, numbered};
ghost use Rattle.ddl_conditions.specs.Growing.{IsFree};
ghost use Rattle.ddl_conditions.specs.GroupView.{group_view};
ghost use Rattle.ddl_conditions.specs.Standing.{Stands};
ghost use Rattle.ddl_judging.specs.Views.{asked_view, demand_view};
ghost use Rattle.ddl_conditions.specs.Walking.{IsFreeAt, MayBecomeInt};

use crate::group::Group;
use crate::standing::stands;
use ddl_base::NoMemory;
use ddl_judging::{Asked, Demand};
use ddl_types::{Cond, Ty};
use ddl_unify::Solver;
use std::alloc::Global;

/// The type of a demand that has to be of numbers, where its variable may become `int`.
pub(crate) fn free_number<'a>(
    alloc: Global,
    solver: &Solver,
    group: &Group<'_>,
    asked: &'a Asked,
) -> Result<Option<&'a Ty>, NoMemory>
    ensures { IfOk result (λ o. MatchOption o
        (IsFree (group_view group.now) (solution solver.now) (asked_view asked.now)
        → ⊥) (λ t. IsFreeAt (group_view group.now) (solution solver.now) (asked_view asked.now) (ty_view t.now))) }
{
    let Some(of) = numbered(&asked.what) else {
        return Ok(None);
    };
    if may_become_int(alloc, solver, group, of)? {
        Ok(Some(of))
    } else {
        Ok(None)
    }
}

/// The type of a demand that has to be of numbers.
fn numbered(what: &Demand) -> Option<&Ty>
    ensures { MatchOption result (numbered (demand_view what.now) ≡ None) (λ t.
        numbered (demand_view what.now) ≡ Some (ty_view t.now)) }
{
    match what {
        Demand::Cond(cond) => numbered_by(cond),
        Demand::Make { .. } => None,
        Demand::Gather { .. } => None,
    }
}

/// The type of a condition that has to be of numbers.
fn numbered_by(cond: &Cond) -> Option<&Ty>
    ensures { MatchOption result (numbered (condition (cond_view cond.now)) ≡ None) (λ t.
        numbered (condition (cond_view cond.now)) ≡ Some (ty_view t.now)) }
{
    match cond {
        Cond::Num(of) => Some(of),
        Cond::Word(of) => Some(of),
        Cond::Lit { of, .. } => Some(of),
        _ => None,
    }
}

/// Whether a type is a variable that is not kept for the uses of the group's declarations.
fn may_become_int(
    alloc: Global,
    solver: &Solver,
    group: &Group<'_>,
    of: &Ty,
) -> Result<bool, NoMemory>
    ensures { IfOk result (λ b. Says b (MayBecomeInt (group_view group.now) (solution solver.now) (ty_view of.now))) }
{
    match variable(solver.head(of)) {
        Some(variable) => {
            let kept = is_kept(alloc, solver, group, variable)?;
            Ok(!kept)
        }
        None => Ok(false),
    }
}

/// The variable that a type is.
#[tactic(auto, using(ddl_types::proofs::TyLayers::layers))]
fn variable(of: &Ty) -> Option<u32>
    ensures { result ≡ is_var (ty_view of.now) }
{
    match of {
        Ty::Var(variable) => Some(*variable),
        _ => None,
    }
}

/// Whether a variable is kept for the uses of the group's declarations.
fn is_kept(
    alloc: Global,
    solver: &Solver,
    group: &Group<'_>,
    variable: u32,
) -> Result<bool, NoMemory>
    ensures { IfOk result (λ b. Says b ((group.now.with_parameters ≡ true)
        × Stands (group_view group.now).shapes (group_view group.now).roots (solution solver.now) variable)) }
{
    if !group.with_parameters {
        return Ok(false);
    }
    let there = stands(alloc, solver, group.shapes, group.roots, variable)?;
    Ok(there)
}
