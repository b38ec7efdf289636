//! The variables of a type as it is written.

ghost use Rattle.std.specs.Prelude.{◌≡◌, map, length, get_or, false};
ghost use Rattle.ddl_types.specs.Types.{Below, BelowAll, tys_of};
ghost use Rattle.ddl_types.specs.TyView.{ty_view};
ghost use Rattle.ddl_unify.specs.Occurs.{has, has_all};
ghost use Rattle.ddl_unify.specs.Named.{Marked};

use ddl_types::Ty;

/// Whether a variable stands in a type as it is written.
#[cycle(holds)]
#[tactic(auto, using(ddl_types::proofs::TyLayers::layers, crate::proofs::Naming::writings))]
pub fn holds(t: &Ty, v: u32) -> bool
    ensures { result ≡ has (ty_view t.now) v }
{
    match t {
        Ty::Var(n) => *n == v,
        Ty::Maybe(inner) => holds(inner, v),
        Ty::Array(element) => holds(element, v),
        Ty::Map(key, value) => holds(key, v) || holds(value, v),
        Ty::Place(_, ts) => holds_any(ts, v),
        _ => false,
    }
}

#[cycle(holds)]
#[tactic(auto, using(ddl_types::proofs::TyLayers::layers, crate::proofs::Naming::writings))]
fn holds_any(ts: &[Ty], v: u32) -> bool
    ensures { result ≡ has_all (tys_of (map ty_view ts.now)) v }
{
    for t in ts {
        if holds(t, v) {
            return true;
        }
    }
    false
}

/// Whether a variable is marked.
pub fn is_marked(named: &[bool], v: u32) -> bool
    ensures { result ≡ get_or named.now v false }
{
    match named.get(v as usize) {
        Some(marked) => *marked,
        None => false,
    }
}

/// Marks each variable of a type.
#[cycle(mark)]
#[tactic(auto, using(ddl_types::proofs::TyLayers::layers, crate::proofs::Naming::writings))]
fn mark(t: &Ty, named: &mut [bool])
    requires { Below (ty_view t.now) (length named.old) }
    ensures { Marked (has (ty_view t.now)) named.old named.new }
{
    match t {
        Ty::Var(v) => named[*v as usize] = true,
        Ty::Maybe(inner) => mark(inner, named),
        Ty::Array(element) => mark(element, named),
        Ty::Map(key, value) => {
            mark(key, named);
            mark(value, named);
        }
        Ty::Place(_, ts) => mark_all(ts, named),
        _ => {}
    }
}

/// The same in a vector of marks.
pub fn mark_in(t: &Ty, named: &mut Vec<bool>)
    requires { Below (ty_view t.now) (length named.old.items) }
    ensures { Marked (has (ty_view t.now)) named.old.items named.new.items }
{
    mark(t, named);
}

#[cycle(mark)]
#[tactic(auto, using(ddl_types::proofs::TyLayers::layers, crate::proofs::Naming::writings))]
fn mark_all(ts: &[Ty], named: &mut [bool])
    requires { BelowAll (tys_of (map ty_view ts.now)) (length named.old) }
    ensures { Marked (has_all (tys_of (map ty_view ts.now))) named.old named.new }
{
    for t in ts {
        mark(t, named);
    }
}
