//! The occurs check: whether a variable stands in a type as the bindings read it.

ghost use Rattle.std.specs.Prelude.{◌≡◌, IfOk, OnOk, map, nat_eq};
ghost use Rattle.std.specs.HashSet.{contains};
ghost use Rattle.ddl_types.specs.Types.{Ty.var, on};
ghost use Rattle.ddl_types.specs.TyView.{ty_view};
ghost use Rattle.ddl_unify.specs.Occurs.{has};
ghost use Rattle.ddl_unify.specs.Heads.{map_type};
ghost use Rattle.ddl_unify.specs.Bindings.{Unbound};
ghost use Rattle.ddl_unify.specs.Trails.{bindings, solution};
ghost use Rattle.ddl_unify.specs.Solving.{Marks, MarkedOne, list_has};

use crate::trail::Trail;
use crate::written::holds;
use ddl_base::NoMemory;
use ddl_types::Ty;
use std::alloc::Global;
use std::collections::HashSet;

/// Whether a variable that is not bound stands in a type. If it stands in no type that others were
/// bound to, no binding leads to it; else each bound variable is followed once.
#[tactic(auto, using(crate::proofs::Marking::markings))]
pub fn occurs(alloc: Global, trail: &Trail, t: &Ty, v: u32) -> Result<bool, NoMemory>
    requires { Unbound v (bindings trail.now) }
    ensures { IfOk result (λ b. b ≡ has (on (ty_view t.now) (solution trail.now)) v) }
{
    if !trail.is_named(v) {
        return Ok(holds(t, v));
    }
    let mut seen = HashSet::new(alloc);
    stands(trail, &mut seen, t, v)
}

/// Whether a variable was followed.
fn is_followed(seen: &HashSet<u32>, n: u32) -> bool
    ensures { result ≡ contains nat_eq seen.now n }
{
    seen.contains(&n)
}

/// Marks a variable as followed.
fn mark(seen: &mut HashSet<u32>, n: u32) -> Result<(), NoMemory>
    ensures { OnOk result (MarkedOne (contains nat_eq seen.old) (contains nat_eq seen.new) n) }
{
    seen.insert(n)?;
    Ok(())
}

#[cycle(stands)]
#[tactic(auto, using(ddl_types::proofs::TyLayers::layers, crate::proofs::Marking::standings))]
fn stands(trail: &Trail, seen: &mut HashSet<u32>, t: &Ty, v: u32) -> Result<bool, NoMemory>
    requires { Marks (contains nat_eq seen.old) trail.now v }
    ensures marks { OnOk result (Marks (contains nat_eq seen.new) trail.now v) }
    ensures found { IfOk result (λ b. b ≡ has (on (ty_view t.now) (solution trail.now)) v) }
{
    match t {
        Ty::Var(n) => {
            let found = stands_at(trail, seen, *n, v)?;
            Ok(found)
        }
        Ty::Maybe(inner) => {
            let found = stands(trail, seen, inner, v)?;
            Ok(found)
        }
        Ty::Array(element) => {
            let found = stands(trail, seen, element, v)?;
            Ok(found)
        }
        Ty::Map(key, value) => {
            let found = stands_in_map(trail, seen, key, value, v)?;
            Ok(found)
        }
        Ty::Place(_, ts) => {
            let found = stands_in(trail, seen, ts, v)?;
            Ok(found)
        }
        _ => Ok(false),
    }
}

#[cycle(stands)]
#[tactic(auto, using(ddl_types::proofs::TyLayers::layers, crate::proofs::Marking::standings))]
fn stands_in_map(
    trail: &Trail,
    seen: &mut HashSet<u32>,
    key: &Ty,
    value: &Ty,
    v: u32,
) -> Result<bool, NoMemory>
    requires { Marks (contains nat_eq seen.old) trail.now v }
    ensures marks { OnOk result (Marks (contains nat_eq seen.new) trail.now v) }
    ensures found { IfOk result (λ b. b ≡ has (on (map_type (ty_view key.now) (ty_view value.now))
        (solution trail.now)) v) }
{
    if stands(trail, seen, key, v)? {
        return Ok(true);
    }
    let found = stands(trail, seen, value, v)?;
    Ok(found)
}

#[cycle(stands)]
#[tactic(auto, using(ddl_types::proofs::TyLayers::layers, crate::proofs::Marking::standings))]
fn stands_in(trail: &Trail, seen: &mut HashSet<u32>, ts: &[Ty], v: u32) -> Result<bool, NoMemory>
    requires { Marks (contains nat_eq seen.old) trail.now v }
    ensures marks { OnOk result (Marks (contains nat_eq seen.new) trail.now v) }
    ensures found { IfOk result (λ b. b ≡ list_has v (solution trail.now) (map ty_view ts.now)) }
{
    for t in ts {
        if stands(trail, seen, t, v)? {
            return Ok(true);
        }
    }
    Ok(false)
}

#[cycle(stands)]
#[tactic(auto, using(ddl_types::proofs::TyLayers::layers, crate::proofs::Marking::standings))]
fn stands_at(trail: &Trail, seen: &mut HashSet<u32>, n: u32, v: u32) -> Result<bool, NoMemory>
    requires { Marks (contains nat_eq seen.old) trail.now v }
    ensures marks { OnOk result (Marks (contains nat_eq seen.new) trail.now v) }
    ensures found { IfOk result (λ b. b ≡ has (on (var n) (solution trail.now)) v) }
{
    if is_followed(seen, n) {
        return Ok(false);
    }
    if stands_behind(trail, seen, n, v)? {
        return Ok(true);
    }
    mark(seen, n)?;
    Ok(false)
}

#[cycle(stands)]
#[tactic(auto, using(ddl_types::proofs::TyLayers::layers, crate::proofs::Marking::standings))]
fn stands_behind(trail: &Trail, seen: &mut HashSet<u32>, n: u32, v: u32) -> Result<bool, NoMemory>
    requires { Marks (contains nat_eq seen.old) trail.now v }
    ensures marks { OnOk result (Marks (contains nat_eq seen.new) trail.now v) }
    ensures found { IfOk result (λ b. b ≡ has (on (var n) (solution trail.now)) v) }
{
    match trail.bound_to(n) {
        None => Ok(n == v),
        Some(to) => {
            let found = stands(trail, seen, to, v)?;
            Ok(found)
        }
    }
}
