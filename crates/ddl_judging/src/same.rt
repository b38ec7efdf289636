//! Whether two types are one.

ghost use Rattle.std.specs.Prelude.{◌≡◌, map};
ghost use Rattle.ddl_types.specs.Types.{on, tys_of, Ty.var};
ghost use Rattle.ddl_types.specs.TyView.{ty_view};
ghost use Rattle.ddl_unify.specs.State.{solution};
ghost use Rattle.ddl_judging.specs.Same.{same, same_all, same_variable};

use ddl_types::Ty;
use ddl_unify::Solver;

/// Whether two types are one.
#[cycle(same)]
#[tactic(auto, using(ddl_types::proofs::TyLayers::layers, crate::proofs::Alike::same_one, crate::proofs::Alike::same_two))]
pub(crate) fn same(left: &Ty, right: &Ty) -> bool
    ensures { result ≡ same (ty_view left.now) (ty_view right.now) }
{
    match left {
        Ty::Var(v) => match right {
            Ty::Var(w) => *v == *w,
            _ => false,
        },
        Ty::Int => matches!(right, Ty::Int),
        Ty::Uint(m) => match right {
            Ty::Uint(n) => *m == *n,
            _ => false,
        },
        Ty::Sint(m) => match right {
            Ty::Sint(n) => *m == *n,
            _ => false,
        },
        Ty::Bool => matches!(right, Ty::Bool),
        Ty::Unit => matches!(right, Ty::Unit),
        Ty::Stream => matches!(right, Ty::Stream),
        Ty::Maybe(inner) => match right {
            Ty::Maybe(other) => same(inner, other),
            _ => false,
        },
        Ty::Array(element) => match right {
            Ty::Array(other) => same(element, other),
            _ => false,
        },
        Ty::Map(key, value) => match right {
            Ty::Map(other_key, other_value) => same(key, other_key) && same(value, other_value),
            _ => false,
        },
        Ty::Bits(m) => match right {
            Ty::Bits(n) => *m == *n,
            _ => false,
        },
        Ty::Place(m, lefts) => match right {
            Ty::Place(n, rights) => *m == *n && same_all(lefts, rights),
            _ => false,
        },
    }
}

#[cycle(same)]
#[tactic(auto, using(crate::proofs::Alike::same_end, crate::proofs::Alike::same_next))]
fn same_all(lefts: &[Ty], rights: &[Ty]) -> bool
    ensures { result ≡ same_all (tys_of (map ty_view lefts.now)) (tys_of (map ty_view rights.now)) }
{
    if lefts.len() != rights.len() {
        return false;
    }
    for i in 0..lefts.len() {
        if !same(&lefts[i], &rights[i]) {
            return false;
        }
    }
    true
}

/// Whether the solution leaves a type this variable.
#[tactic(auto, using(ddl_types::proofs::TyLayers::layers))]
fn is_variable(solver: &Solver, t: &Ty, v: u32) -> bool
    ensures { result ≡ same (on (ty_view t.now) (solution solver.now)) (var v) }
{
    match solver.head(t) {
        Ty::Var(w) => *w == v,
        _ => false,
    }
}

/// Whether the solution leaves two types one variable.
#[tactic(auto, using(ddl_types::proofs::TyLayers::layers))]
pub(crate) fn same_variable(solver: &Solver, left: &Ty, right: &Ty) -> bool
    ensures { result ≡ same_variable (on (ty_view left.now) (solution solver.now))
        (on (ty_view right.now) (solution solver.now)) }
{
    match solver.head(left) {
        Ty::Var(v) => is_variable(solver, right, *v),
        _ => false,
    }
}
