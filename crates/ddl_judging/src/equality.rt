//! Whether two types are equal, or some map makes them equal.

ghost use Rattle.std.specs.Prelude.{◌≡◌, ◌≤◌, [], IfOk, map, true, false};
ghost use Rattle.ddl_types.specs.Types.{Below, BelowAll, tys_of};
ghost use Rattle.ddl_types.specs.TyView.{ty_view};
ghost use Rattle.ddl_unify.specs.State.{accepted, variables};
ghost use Rattle.ddl_judging.specs.Judging.{IsEqual};
ghost use Rattle.ddl_judging.specs.Refuting.{IsMeeting, is_refuting};
ghost use Rattle.ddl_judging.specs.VerdictView.{verdict_view};

use crate::judging::Verdict;
use crate::refusal::Wrong;
use crate::same::same;
use ddl_base::NoMemory;
use ddl_types::Ty;
use ddl_unify::{EquateError, Solver};
use std::alloc::Global;

/// A number that is no less, and above each variable of a type.
#[cycle(above)]
#[tactic(auto, using(ddl_types::proofs::TyLayers::layers, crate::proofs::Meeting::belows))]
fn above(t: &Ty, least: u64) -> u64
    ensures below { Below (ty_view t.now) result }
    ensures least { least ≤ result }
{
    match t {
        Ty::Var(v) => least.max(u64::from(*v) + 1),
        Ty::Maybe(inner) => above(inner, least),
        Ty::Array(element) => above(element, least),
        Ty::Map(key, value) => above(value, above(key, least)),
        Ty::Place(_, ts) => above_all(ts, least),
        _ => least,
    }
}

#[cycle(above)]
#[tactic(auto, using(crate::proofs::Meeting::below_next))]
fn above_all(ts: &[Ty], least: u64) -> u64
    ensures below { BelowAll (tys_of (map ty_view ts.now)) result }
    ensures least { least ≤ result }
{
    let mut bound = least;
    for t in ts {
        bound = above(t, bound);
    }
    bound
}

/// A solver with so many variables and no equation. It runs out of memory where there are too many.
fn with_variables(alloc: Global, count: u64) -> Result<Solver, NoMemory>
    ensures accepted { IfOk result (λ s. accepted s ≡ []) }
    ensures variables { IfOk result (λ s. variables s ≡ count) }
{
    let mut solver = Solver::new(alloc);
    for made in 0..count {
        if solver.is_full() {
            return Err(NoMemory);
        }
        solver.fresh()?;
    }
    Ok(solver)
}

/// An equation that is refused has no solution, if there was memory to find that out.
fn refuted(error: EquateError) -> Result<bool, NoMemory>
    ensures { IfOk result (λ b. (b ≡ false) × (is_refuting error ≡ true)) }
{
    match error {
        EquateError::NoMemory => Err(NoMemory),
        _ => Ok(false),
    }
}

/// Whether some map makes two types equal.
fn can_be_equal(alloc: Global, left: &Ty, right: &Ty) -> Result<bool, NoMemory>
    ensures { IfOk result (IsMeeting (ty_view left.now) (ty_view right.now)) }
{
    let count = above(right, above(left, 0));
    let mut solver = with_variables(alloc, count)?;
    match solver.equate(left, right) {
        Ok(()) => Ok(true),
        Err(error) => refuted(error),
    }
}

/// Two types are equal, or may become so, or never do.
pub(crate) fn equality(alloc: Global, from: Ty, to: Ty) -> Result<Verdict, NoMemory>
    ensures { IfOk result (λ v. IsEqual (ty_view from) (ty_view to) (verdict_view v)) }
{
    if same(&from, &to) {
        return Ok(Verdict::Holds);
    }
    if can_be_equal(alloc, &from, &to)? {
        return Ok(Verdict::Undecided);
    }
    Ok(Verdict::False(Wrong::NotLossless { from, to }))
}
