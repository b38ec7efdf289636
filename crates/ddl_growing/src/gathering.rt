//! The turns of `map`s.

ghost use Rattle.ddl_types.specs.Types.{Below, Head.array_of, Head.map_of};
ghost use Rattle.ddl_types.specs.TyView.{ty_view};
ghost use Rattle.ddl_unify.specs.Equations.{MostGeneral};
ghost use Rattle.ddl_unify.specs.State.{accepted, solution, variables};
ghost use Rattle.ddl_growing.specs.Carrying.{Carries, IsTaken, asking, gathering};
ghost use Rattle.ddl_judging.specs.Demands.{gather};
ghost use Rattle.ddl_judging.specs.Shapes.{Shapes};
ghost use Rattle.ddl_growing.specs.SolverView.{solved};

use crate::adding::{Sides, add_four, array_type, fresh_variable, map_type};
use crate::heads::{Known, known_head};
use crate::loops::Looped;
use crate::refusal::SettleError;
use crate::turn::Turn;
use ddl_base::Span;
use ddl_types::Ty;
use ddl_unify::Solver;
use std::alloc::Global;

/// The turn of a `map`: what it goes over, and the type of all bodies.
pub(crate) fn take_gather(
    alloc: Global,
    solver: &mut Solver,
    span: Span,
    form: Looped<'_>,
    body: &Ty,
    whole: &Ty,
) -> Result<Turn, SettleError>
    requires over_below { Below (ty_view form.over.now) (variables solver.old) }
    requires key_below { Below (ty_view form.key.now) (variables solver.old) }
    requires value_below { Below (ty_view form.value.now) (variables solver.old) }
    requires body_below { Below (ty_view body.now) (variables solver.old) }
    requires whole_below { Below (ty_view whole.now) (variables solver.old) }
    ensures most { MostGeneral (accepted solver.new) (solution solver.new) }
    ensures taken { (ss : Shapes) → IsTaken ss
        (asking (gather (ty_view form.entry.over.now) (ty_view form.entry.key.now) (ty_view form.entry.value.now)
        (ty_view body.now) (ty_view whole.now)) span) (solved solver.old) (solved solver.new) result }
{
    match known_head(solver, form.over) {
        Known::Unknown => Ok(Turn::Waits),
        Known::Array => gather_array(alloc, solver, span, form, body, whole),
        Known::Map => gather_map(alloc, solver, span, form, body, whole),
        _ => Ok(Turn::Silent),
    }
}

/// Adds the key and the value of the turns over an array, and the array that they make.
#[tactic(auto, using(ddl_types::proofs::TyLayers::layers))]
fn gather_array(
    alloc: Global,
    solver: &mut Solver,
    span: Span,
    form: Looped<'_>,
    body: &Ty,
    whole: &Ty,
) -> Result<Turn, SettleError>
    requires most { MostGeneral (accepted solver.old) (solution solver.old) }
    requires over_below { Below (ty_view form.over.now) (variables solver.old) }
    requires key_below { Below (ty_view form.key.now) (variables solver.old) }
    requires value_below { Below (ty_view form.value.now) (variables solver.old) }
    requires body_below { Below (ty_view body.now) (variables solver.old) }
    requires whole_below { Below (ty_view whole.now) (variables solver.old) }
    ensures most { MostGeneral (accepted solver.new) (solution solver.new) }
    ensures added { Carries (gathering array_of (ty_view form.entry.over.now) (ty_view form.entry.key.now)
        (ty_view form.entry.value.now) (ty_view body.now) (ty_view whole.now) (variables solver.old)) span
        (solved solver.old) (solved solver.new) result }
{
    let variable = fresh_variable(solver)?;
    let element = Ty::Var(variable);
    let array = array_type(alloc, Ty::Var(variable))?;
    let copied = body.copy(alloc)?;
    let made = array_type(alloc, copied)?;
    let arrays = Sides {
        left: &array,
        right: form.over,
    };
    let keys = Sides {
        left: &Ty::Uint(64),
        right: form.key,
    };
    let values = Sides {
        left: &element,
        right: form.value,
    };
    let wholes = Sides {
        left: &made,
        right: whole,
    };
    add_four(solver, span, arrays, keys, values, wholes)
}

/// Adds the key and the value of the turns over a map, and the map that they make.
#[tactic(auto, using(ddl_types::proofs::TyLayers::layers))]
fn gather_map(
    alloc: Global,
    solver: &mut Solver,
    span: Span,
    form: Looped<'_>,
    body: &Ty,
    whole: &Ty,
) -> Result<Turn, SettleError>
    requires most { MostGeneral (accepted solver.old) (solution solver.old) }
    requires over_below { Below (ty_view form.over.now) (variables solver.old) }
    requires key_below { Below (ty_view form.key.now) (variables solver.old) }
    requires value_below { Below (ty_view form.value.now) (variables solver.old) }
    requires body_below { Below (ty_view body.now) (variables solver.old) }
    requires whole_below { Below (ty_view whole.now) (variables solver.old) }
    ensures most { MostGeneral (accepted solver.new) (solution solver.new) }
    ensures added { Carries (gathering map_of (ty_view form.entry.over.now) (ty_view form.entry.key.now)
        (ty_view form.entry.value.now) (ty_view body.now) (ty_view whole.now) (variables solver.old)) span
        (solved solver.old) (solved solver.new) result }
{
    let of_key = fresh_variable(solver)?;
    let of_value = fresh_variable(solver)?;
    let key = Ty::Var(of_key);
    let value = Ty::Var(of_value);
    let map = map_type(alloc, Ty::Var(of_key), Ty::Var(of_value))?;
    let copied = body.copy(alloc)?;
    let made = map_type(alloc, Ty::Var(of_key), copied)?;
    let maps = Sides {
        left: &map,
        right: form.over,
    };
    let keys = Sides {
        left: &key,
        right: form.key,
    };
    let values = Sides {
        left: &value,
        right: form.value,
    };
    let wholes = Sides {
        left: &made,
        right: whole,
    };
    add_four(solver, span, maps, keys, values, wholes)
}
