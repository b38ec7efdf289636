//! The turns of loops.

ghost use Rattle.ddl_types.specs.Conditions.{loops};
ghost use Rattle.ddl_types.specs.Types.{Below, Head.array_of, Head.map_of};
ghost use Rattle.ddl_types.specs.TyView.{ty_view};
ghost use Rattle.ddl_unify.specs.Equations.{MostGeneral};
ghost use Rattle.ddl_unify.specs.State.{accepted, solution, variables};
ghost use Rattle.ddl_growing.specs.Carrying.{Carries, IsTaken, asking};
ghost use Rattle.ddl_judging.specs.Demands.{condition};
ghost use Rattle.ddl_growing.specs.Giving.{turns};
ghost use Rattle.ddl_judging.specs.Shapes.{Shapes};
ghost use Rattle.ddl_growing.specs.SolverView.{solved};

use crate::adding::{Sides, add_three, array_type, fresh_variable, map_type};
use crate::heads::{Known, known_head};
use crate::refusal::SettleError;
use crate::turn::Turn;
use ddl_base::Span;
use ddl_types::Ty;
use ddl_unify::Solver;
use std::alloc::Global;

/// What a form goes over, and the key and the value of each of its turns.
#[derive(Clone, Copy)]
pub(crate) struct Looped<'a> {
    pub over: &'a Ty,
    pub key: &'a Ty,
    pub value: &'a Ty,
}

/// The turn of a loop.
pub(crate) fn take_loop(
    alloc: Global,
    solver: &mut Solver,
    span: Span,
    form: Looped<'_>,
) -> Result<Turn, SettleError>
    requires over_below { Below (ty_view form.over.now) (variables solver.old) }
    requires key_below { Below (ty_view form.key.now) (variables solver.old) }
    requires value_below { Below (ty_view form.value.now) (variables solver.old) }
    ensures most { MostGeneral (accepted solver.new) (solution solver.new) }
    ensures taken { (ss : Shapes) → IsTaken ss
        (asking (condition (loops (ty_view form.entry.over.now) (ty_view form.entry.key.now)
        (ty_view form.entry.value.now))) span) (solved solver.old) (solved solver.new) result }
{
    match known_head(solver, form.over) {
        Known::Unknown => Ok(Turn::Waits),
        Known::Array => add_array_turns(alloc, solver, span, form),
        Known::Map => add_map_turns(alloc, solver, span, form),
        _ => Ok(Turn::Silent),
    }
}

/// Adds the key and the value of the turns over an array.
#[tactic(auto, using(ddl_types::proofs::TyLayers::layers))]
fn add_array_turns(
    alloc: Global,
    solver: &mut Solver,
    span: Span,
    form: Looped<'_>,
) -> Result<Turn, SettleError>
    requires most { MostGeneral (accepted solver.old) (solution solver.old) }
    requires over_below { Below (ty_view form.over.now) (variables solver.old) }
    requires key_below { Below (ty_view form.key.now) (variables solver.old) }
    requires value_below { Below (ty_view form.value.now) (variables solver.old) }
    ensures most { MostGeneral (accepted solver.new) (solution solver.new) }
    ensures added { Carries (turns array_of (ty_view form.entry.over.now) (ty_view form.entry.key.now)
        (ty_view form.entry.value.now) (variables solver.old)) span (solved solver.old) (solved solver.new) result }
{
    let variable = fresh_variable(solver)?;
    let element = Ty::Var(variable);
    let array = array_type(alloc, Ty::Var(variable))?;
    let arrays = Sides {
        left: &array,
        right: form.over,
    };
    let keys = Sides {
        left: &Ty::Uint(64),
        right: form.key,
    };
    let values = Sides {
        left: &element,
        right: form.value,
    };
    add_three(solver, span, arrays, keys, values)
}

/// Adds the key and the value of the turns over a map.
#[tactic(auto, using(ddl_types::proofs::TyLayers::layers))]
fn add_map_turns(
    alloc: Global,
    solver: &mut Solver,
    span: Span,
    form: Looped<'_>,
) -> Result<Turn, SettleError>
    requires most { MostGeneral (accepted solver.old) (solution solver.old) }
    requires over_below { Below (ty_view form.over.now) (variables solver.old) }
    requires key_below { Below (ty_view form.key.now) (variables solver.old) }
    requires value_below { Below (ty_view form.value.now) (variables solver.old) }
    ensures most { MostGeneral (accepted solver.new) (solution solver.new) }
    ensures added { Carries (turns map_of (ty_view form.entry.over.now) (ty_view form.entry.key.now)
        (ty_view form.entry.value.now) (variables solver.old)) span (solved solver.old) (solved solver.new) result }
{
    let of_key = fresh_variable(solver)?;
    let of_value = fresh_variable(solver)?;
    let key = Ty::Var(of_key);
    let value = Ty::Var(of_value);
    let map = map_type(alloc, Ty::Var(of_key), Ty::Var(of_value))?;
    let maps = Sides {
        left: &map,
        right: form.over,
    };
    let keys = Sides {
        left: &key,
        right: form.key,
    };
    let values = Sides {
        left: &value,
        right: form.value,
    };
    add_three(solver, span, maps, keys, values)
}
