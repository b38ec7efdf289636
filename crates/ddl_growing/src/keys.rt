//! The turn of a type that is to be a key.

ghost use Rattle.ddl_types.specs.Conditions.{key};
ghost use Rattle.ddl_types.specs.Types.{Below};
ghost use Rattle.ddl_types.specs.TyView.{ty_view};
ghost use Rattle.ddl_unify.specs.Equations.{MostGeneral};
ghost use Rattle.ddl_unify.specs.State.{accepted, solution, variables};
ghost use Rattle.ddl_growing.specs.Carrying.{Carries, IsTaken, asking, byte_array};
ghost use Rattle.ddl_judging.specs.Demands.{condition};
ghost use Rattle.ddl_judging.specs.Shapes.{Shapes};
ghost use Rattle.ddl_growing.specs.SolverView.{solved};

use crate::adding::{Sides, add_two, array_type, fresh_variable};
use crate::heads::{Known, known_head};
use crate::refusal::SettleError;
use crate::turn::Turn;
use ddl_base::Span;
use ddl_types::Ty;
use ddl_unify::Solver;
use std::alloc::Global;

/// The turn of a key: an array has bytes for elements.
pub(crate) fn take_key(
    alloc: Global,
    solver: &mut Solver,
    span: Span,
    of: &Ty,
) -> Result<Turn, SettleError>
    requires below { Below (ty_view of.now) (variables solver.old) }
    ensures most { MostGeneral (accepted solver.new) (solution solver.new) }
    ensures taken { (ss : Shapes) → IsTaken ss (asking (condition (key (ty_view of.now))) span) (solved solver.old)
        (solved solver.new) result }
{
    match known_head(solver, of) {
        Known::Unknown => Ok(Turn::Waits),
        Known::Array => add_byte_array(alloc, solver, span, of),
        _ => Ok(Turn::Silent),
    }
}

/// Adds that a type is an array of bytes.
#[tactic(auto, using(ddl_types::proofs::TyLayers::layers))]
fn add_byte_array(
    alloc: Global,
    solver: &mut Solver,
    span: Span,
    of: &Ty,
) -> Result<Turn, SettleError>
    requires most { MostGeneral (accepted solver.old) (solution solver.old) }
    requires below { Below (ty_view of.now) (variables solver.old) }
    ensures most { MostGeneral (accepted solver.new) (solution solver.new) }
    ensures added { Carries (byte_array (ty_view of.now) (variables solver.old)) span (solved solver.old)
        (solved solver.new) result }
{
    let variable = fresh_variable(solver)?;
    let element = Ty::Var(variable);
    let array = array_type(alloc, Ty::Var(variable))?;
    let arrays = Sides {
        left: &array,
        right: of,
    };
    let bytes = Sides {
        left: &Ty::Uint(8),
        right: &element,
    };
    add_two(solver, span, arrays, bytes)
}
