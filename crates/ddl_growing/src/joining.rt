//! The turn of words that are joined.

ghost use Rattle.std.specs.Prelude.{◌≡◌, Some};
ghost use Rattle.ddl_types.specs.Conditions.{cat};
ghost use Rattle.ddl_types.specs.Types.{Below, Head.uint, on};
ghost use Rattle.ddl_types.specs.Types as s;
ghost use Rattle.ddl_types.specs.TyView.{ty_view};
ghost use Rattle.ddl_unify.specs.Equations.{MostGeneral};
ghost use Rattle.ddl_unify.specs.State.{accepted, solution, variables};
ghost use Rattle.ddl_growing.specs.Carrying.{Carries, IsTaken, asking};
ghost use Rattle.ddl_judging.specs.Demands.{condition};
ghost use Rattle.ddl_growing.specs.Giving.{joined};
ghost use Rattle.ddl_growing.specs.Heads.{head};
ghost use Rattle.ddl_judging.specs.Shapes.{Shapes};
ghost use Rattle.ddl_growing.specs.SolverView.{solved};

use crate::adding::{Sides, add};
use crate::heads::{Known, known_head, wait_for};
use crate::refusal::SettleError;
use crate::turn::Turn;
use ddl_base::Span;
use ddl_types::Ty;
use ddl_unify::Solver;

/// The turn of two words that are joined to one of a type.
pub(crate) fn take_join(
    solver: &mut Solver,
    span: Span,
    left: &Ty,
    right: &Ty,
    whole: &Ty,
) -> Result<Turn, SettleError>
    requires below { Below (ty_view whole.now) (variables solver.old) }
    ensures most { MostGeneral (accepted solver.new) (solution solver.new) }
    ensures taken { (ss : Shapes) → IsTaken ss
        (asking (condition (cat (ty_view left.now) (ty_view right.now) (ty_view whole.now))) span) (solved solver.old)
        (solved solver.new) result }
{
    match known_head(solver, left) {
        Known::Unknown => Ok(Turn::Waits),
        Known::Uint(width) => take_join_to(solver, span, width, right, whole),
        _ => Ok(wait_for(solver, right)),
    }
}

/// The same where the left one is known to be a word of this width.
fn take_join_to(
    solver: &mut Solver,
    span: Span,
    width: u8,
    right: &Ty,
    whole: &Ty,
) -> Result<Turn, SettleError>
    requires below { Below (ty_view whole.now) (variables solver.old) }
    ensures most { MostGeneral (accepted solver.new) (solution solver.new) }
    ensures taken { (ss : Shapes) (left : s.Ty) → head (on left (solution solver.old)) ≡ Some (uint width)
        → IsTaken ss (asking (condition (cat left (ty_view right.now) (ty_view whole.now))) span) (solved solver.old)
        (solved solver.new) result }
{
    match known_head(solver, right) {
        Known::Unknown => Ok(Turn::Waits),
        Known::Uint(other) => add_joined(solver, span, width, other, whole),
        _ => Ok(Turn::Silent),
    }
}

/// Adds the type of two words that are joined, where it is not too wide.
#[tactic(auto, using(ddl_types::proofs::TyLayers::layers))]
fn add_joined(
    solver: &mut Solver,
    span: Span,
    left: u8,
    right: u8,
    whole: &Ty,
) -> Result<Turn, SettleError>
    requires most { MostGeneral (accepted solver.old) (solution solver.old) }
    requires below { Below (ty_view whole.now) (variables solver.old) }
    ensures most { MostGeneral (accepted solver.new) (solution solver.new) }
    ensures added { Carries (joined left right (ty_view whole.now)) span (solved solver.old) (solved solver.new) result }
{
    let width = u32::from(left) + u32::from(right);
    if width > 128 {
        return Ok(Turn::Silent);
    }
    let joined = Ty::Uint(width as u8);
    let sides = Sides {
        left: &joined,
        right: whole,
    };
    add(solver, span, sides)
}
