//! What is known of the head of a type.

ghost use Rattle.std.specs.Prelude.{◌∷◌, []};
ghost use Rattle.ddl_types.specs.Types.{on};
ghost use Rattle.ddl_types.specs.TyView.{ty_view};
ghost use Rattle.ddl_unify.specs.Equations.{MostGeneral};
ghost use Rattle.ddl_unify.specs.State.{accepted, solution};
ghost use Rattle.ddl_growing.specs.Carrying.{IsHeard, IsKnown};
ghost use Rattle.ddl_growing.specs.Heads.{head};

use crate::turn::Turn;
use ddl_types::Ty;
use ddl_unify::Solver;

/// What is known of a head: those by which a demand adds something are told apart.
#[derive(Clone, Copy, PartialEq, Eq)]
pub(crate) enum Known {
    Unknown,
    Array,
    Map,
    Uint(u8),
    Bits(u32),
    Place(u32),
    Other,
}

/// What the solution knows of the head of a type.
#[tactic(auto, using(ddl_types::proofs::TyLayers::layers, crate::proofs::Knowing::heads))]
pub(crate) fn known_head(solver: &Solver, t: &Ty) -> Known
    ensures most { MostGeneral (accepted solver.now) (solution solver.now) }
    ensures head { IsKnown result (head (on (ty_view t.now) (solution solver.now))) }
{
    match solver.head(t) {
        Ty::Var(_) => Known::Unknown,
        Ty::Array(_) => Known::Array,
        Ty::Map(_, _) => Known::Map,
        Ty::Uint(width) => Known::Uint(*width),
        Ty::Bits(number) => Known::Bits(*number),
        Ty::Place(number, _) => Known::Place(*number),
        Ty::Int | Ty::Sint(_) | Ty::Bool | Ty::Unit | Ty::Stream | Ty::Maybe(_) => Known::Other,
    }
}

/// The turn of a demand that adds nothing.
#[tactic(auto, using(crate::proofs::Knowing::hears))]
pub(crate) fn wait_for(solver: &Solver, t: &Ty) -> Turn
    ensures most { MostGeneral (accepted solver.now) (solution solver.now) }
    ensures heard { IsHeard result (ty_view t.now ∷ []) (solution solver.now) }
{
    match known_head(solver, t) {
        Known::Unknown => Turn::Waits,
        _ => Turn::Silent,
    }
}

/// The turn of a demand that has two subjects and adds nothing.
#[tactic(auto, using(crate::proofs::Knowing::hears))]
pub(crate) fn wait_for_both(solver: &Solver, first: &Ty, second: &Ty) -> Turn
    ensures most { MostGeneral (accepted solver.now) (solution solver.now) }
    ensures heard { IsHeard result (ty_view first.now ∷ ty_view second.now ∷ []) (solution solver.now) }
{
    match known_head(solver, first) {
        Known::Unknown => Turn::Waits,
        _ => wait_for(solver, second),
    }
}
