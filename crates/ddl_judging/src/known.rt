//! Whether the head of a type is known.

ghost use Rattle.std.specs.Prelude.{◌≡◌};
ghost use Rattle.ddl_types.specs.Types.{on};
ghost use Rattle.ddl_types.specs.TyView.{ty_view};
ghost use Rattle.ddl_unify.specs.State.{solution};
ghost use Rattle.ddl_judging.specs.Known.{is_known};

use ddl_types::Ty;
use ddl_unify::Solver;

/// Whether the solution gives a type a head.
#[tactic(auto, using(ddl_types::proofs::TyLayers::layers))]
pub(crate) fn is_known(solver: &Solver, t: &Ty) -> bool
    ensures { result ≡ is_known (on (ty_view t.now) (solution solver.now)) }
{
    match solver.head(t) {
        Ty::Var(_) => false,
        _ => true,
    }
}
