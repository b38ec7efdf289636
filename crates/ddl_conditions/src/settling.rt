//! A group of declarations, from the equations of its forms to the demands that are kept.

ghost use Rattle.std.specs.Prelude.{All, IfOk, MatchResult};
ghost use Rattle.ddl_types.specs.Types.{Below};
ghost use Rattle.ddl_unify.specs.Equations.{MostGeneral};
ghost use Rattle.ddl_unify.specs.State.{accepted, solution, variables};
ghost use Rattle.ddl_conditions.specs.Answer.{IsSettled, IsUnsettled};
ghost use Rattle.ddl_conditions.specs.Gave.{HaveGiven};
ghost use Rattle.ddl_judging.specs.Demands.{DemandBelow};
ghost use Rattle.ddl_conditions.specs.GroupView.{group_view};
ghost use Rattle.ddl_growing.specs.SolverView.{solved};
ghost use Rattle.ddl_growing.specs.Turns.{AreShapes};
ghost use Rattle.ddl_conditions.specs.Walking.{HasGrown, IsCut};

use crate::closing::close;
use crate::group::Group;
use crate::walk::Walk;
use ddl_growing::SettleError;
use ddl_types::Ty;
use ddl_unify::Solver;
use std::alloc::Global;

/// Lets the demands of a group add their equations to those of the solver, until none adds any more,
/// and answers the places of the demands that are kept for the uses of its declarations.
pub fn settle(
    alloc: Global,
    solver: &mut Solver,
    group: &Group<'_>,
) -> Result<Vec<usize>, SettleError>
    requires below { All (λ a. DemandBelow (variables solver.old) a.what) (group_view group.now).asked }
    requires shapes { AreShapes (variables solver.old) (group_view group.now).shapes }
    ensures most { MostGeneral (accepted solver.new) (solution solver.new) }
    ensures settled { MatchResult result (λ ks.
        IsSettled (group_view group.now) (accepted solver.old) (variables solver.old) (accepted solver.new)
        (solution solver.new) ks.items) (IsUnsettled (group_view group.now) (accepted solver.old) (variables solver.old)
        (accepted solver.new) (solution solver.new)) }
    ensures given { IfOk result (λ _. HaveGiven (group_view group.now) (solution solver.new)) }
{
    is_solved(solver);
    grow(alloc, solver, group)?;
    let kept = close(alloc, solver, group)?;
    Ok(kept)
}

/// Lets the list of equations grow to its end.
fn grow(alloc: Global, solver: &mut Solver, group: &Group<'_>) -> Result<(), SettleError>
    requires most { MostGeneral (accepted solver.old) (solution solver.old) }
    requires below { All (λ a. DemandBelow (variables solver.old) a.what) (group_view group.now).asked }
    requires shapes { AreShapes (variables solver.old) (group_view group.now).shapes }
    ensures most { MostGeneral (accepted solver.new) (solution solver.new) }
    ensures below { IfOk result (λ _. All (λ a. DemandBelow (variables solver.new) a.what) (group_view group.now).asked) }
    ensures grown { MatchResult result (λ _.
        HasGrown (group_view group.now) (accepted solver.old) (variables solver.old) (solved solver.new))
        (IsCut (group_view group.now) (accepted solver.old) (variables solver.old) (accepted solver.new)
        (solution solver.new)) }
{
    let mut walk = Walk::over(alloc, group.asked);
    loop {
        let going = walk.step(alloc, solver, group)?;
        if !going {
            return Ok(());
        }
    }
}

/// Tells that the solution of a solver is most general: each of its answers says so.
fn is_solved(solver: &Solver)
    ensures { MostGeneral (accepted solver.now) (solution solver.now) }
{
    let _head = solver.head(&Ty::Int);
}
