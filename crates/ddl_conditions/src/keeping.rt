//! Whether a demand that is neither true nor false is kept for the uses of a declaration.

ghost use Rattle.std.specs.Prelude.{IfOk, map};
ghost use Rattle.ddl_types.specs.Types.{on, tys_of};
ghost use Rattle.ddl_types.specs.TyView.{ty_view};
ghost use Rattle.ddl_types.specs.CondView.{cond_view};
ghost use Rattle.ddl_unify.specs.Occurs.{has, has_all};
ghost use Rattle.ddl_unify.specs.State.{solution};
ghost use Rattle.ddl_conditions.specs.Closing.{Says};
ghost use Rattle.ddl_judging.specs.Demands.{condition, on_demand};
ghost use Rattle.ddl_conditions.specs.GroupView.{group_view};
ghost use Rattle.ddl_judging.specs.Judging.{Judged, undecided};
ghost use Rattle.ddl_conditions.specs.Keeping.{AllStand, IsKeptForm};
ghost use Rattle.ddl_conditions.specs.Settled.{IsKept};
ghost use Rattle.ddl_judging.specs.Views.{asked_view, demand_view};

use crate::group::Group;
use crate::standing::stands;
use ddl_base::NoMemory;
use ddl_judging::{Asked, Demand};
use ddl_types::{Cond, Ty};
use ddl_unify::Solver;
use std::alloc::Global;

/// Whether a demand is kept: its form may be, each declaration has parameters, and each variable of
/// its types stands in the types of the group.
pub(crate) fn is_kept(
    alloc: Global,
    solver: &Solver,
    group: &Group<'_>,
    asked: &Asked,
) -> Result<bool, NoMemory>
    requires { Judged (group_view group.now).shapes (on_demand (solution solver.now) (demand_view asked.now.what))
        undecided }
    ensures { IfOk result (λ b. Says b (IsKept (group_view group.now) (solution solver.now) (asked_view asked.now))) }
{
    if !group.with_parameters {
        return Ok(false);
    }
    match &asked.what {
        Demand::Cond(cond) => {
            let kept = may_keep(alloc, solver, group, cond)?;
            Ok(kept)
        }
        _ => Ok(false),
    }
}

/// Whether the form of a condition may be kept, and each variable of its types stands.
fn may_keep(
    alloc: Global,
    solver: &Solver,
    group: &Group<'_>,
    cond: &Cond,
) -> Result<bool, NoMemory>
    ensures { IfOk result (λ b. Says b (IsKeptForm (group_view group.now) (solution solver.now)
        (condition (cond_view cond.now)))) }
{
    match cond {
        Cond::Num(of) | Cond::Word(of) | Cond::Key(of) | Cond::Lit { of, .. } => {
            let kept = all_stand(alloc, solver, group, of)?;
            Ok(kept)
        }
        Cond::Lossless { from, to } | Cond::Cut { from, to } | Cond::Fit { from, to } => {
            let kept = both_stand(alloc, solver, group, from, to)?;
            Ok(kept)
        }
        _ => Ok(false),
    }
}

/// Whether each variable of two types stands in the types of the group.
fn both_stand(
    alloc: Global,
    solver: &Solver,
    group: &Group<'_>,
    from: &Ty,
    to: &Ty,
) -> Result<bool, NoMemory>
    ensures { IfOk result (λ b. Says b (AllStand (group_view group.now) (solution solver.now)
        (has (on (ty_view from.now) (solution solver.now)))
        × AllStand (group_view group.now) (solution solver.now) (has (on (ty_view to.now) (solution solver.now))))) }
{
    if !all_stand(alloc, solver, group, from)? {
        return Ok(false);
    }
    let stand = all_stand(alloc, solver, group, to)?;
    Ok(stand)
}

/// Whether each variable of a type, as it is solved, stands in the types of the group.
fn all_stand(alloc: Global, solver: &Solver, group: &Group<'_>, t: &Ty) -> Result<bool, NoMemory>
    ensures { IfOk result (λ b. Says b (AllStand (group_view group.now) (solution solver.now)
        (has (on (ty_view t.now) (solution solver.now))))) }
{
    let read = solver.read(t)?;
    let stand = each_stands(alloc, solver, group, &read)?;
    Ok(stand)
}

/// Whether each variable of a type, as it is written, stands in the types of the group.
#[cycle(each_stands)]
#[tactic(auto, using(ddl_types::proofs::TyLayers::layers))]
fn each_stands(alloc: Global, solver: &Solver, group: &Group<'_>, t: &Ty) -> Result<bool, NoMemory>
    ensures { IfOk result (λ b. Says b (AllStand (group_view group.now) (solution solver.now) (has (ty_view t.now)))) }
{
    match t {
        Ty::Var(v) => {
            let stand = stands(alloc, solver, group.shapes, group.roots, *v)?;
            Ok(stand)
        }
        Ty::Maybe(inner) => {
            let stand = each_stands(alloc, solver, group, inner)?;
            Ok(stand)
        }
        Ty::Array(element) => {
            let stand = each_stands(alloc, solver, group, element)?;
            Ok(stand)
        }
        Ty::Map(key, value) => {
            if !each_stands(alloc, solver, group, key)? {
                return Ok(false);
            }
            let stand = each_stands(alloc, solver, group, value)?;
            Ok(stand)
        }
        Ty::Place(_, ts) => {
            let stand = each_stands_in(alloc, solver, group, ts)?;
            Ok(stand)
        }
        _ => Ok(true),
    }
}

#[cycle(each_stands)]
#[tactic(auto, using(ddl_types::proofs::TyLayers::layers))]
fn each_stands_in(
    alloc: Global,
    solver: &Solver,
    group: &Group<'_>,
    ts: &[Ty],
) -> Result<bool, NoMemory>
    ensures { IfOk result (λ b. Says b (AllStand (group_view group.now) (solution solver.now)
        (has_all (tys_of (map ty_view ts.now))))) }
{
    for t in ts {
        if !each_stands(alloc, solver, group, t)? {
            return Ok(false);
        }
    }
    Ok(true)
}
