//! Types as the bindings read them.

ghost use Rattle.std.specs.Prelude.{◌≡◌, IfOk, MatchOption, map};
ghost use Rattle.ddl_types.specs.Types.{Ty.var, on};
ghost use Rattle.ddl_types.specs.TyView.{ty_view};
ghost use Rattle.ddl_unify.specs.Heads.{map_type};
ghost use Rattle.ddl_unify.specs.Occurs.{NoVar};
ghost use Rattle.ddl_unify.specs.Trails.{solution};
ghost use Rattle.ddl_unify.specs.Solving.{Followed, Ends, IsEnd};
ghost use Rattle.ddl_unify.specs.State.{IsFree};

use crate::trail::Trail;
use ddl_base::NoMemory;
use ddl_types::Ty;
use std::alloc::Global;

/// What a chain of bound variables ends in: a variable that is not bound, or a type that is none.
#[tactic(auto, using(ddl_types::proofs::TyLayers::layers, crate::proofs::ReadingLemmas::follows))]
pub fn followed<'a>(trail: &'a Trail, t: &'a Ty) -> &'a Ty
    ensures followed { Followed trail.now (ty_view t.now) (ty_view result.now) }
    ensures last { IsEnd trail.now (ty_view result.now) }
{
    let mut at = t;
    while let Ty::Var(v) = at {
        match trail.bound_to(*v) {
            None => return at,
            Some(to) => at = to,
        }
    }
    at
}

/// The type at the end of a chain of bound variables.
#[tactic(auto, using(crate::proofs::ReadingLemmas::ends))]
pub fn head<'a>(trail: &'a Trail, t: &'a Ty) -> &'a Ty
    ensures same { on (ty_view result.now) (solution trail.now) ≡ on (ty_view t.now) (solution trail.now) }
    ensures free { IsFree (ty_view result.now) (solution trail.now) }
{
    followed(trail, t)
}

/// The variable that is not bound and that a type is read as, if it is one.
#[cycle(unbound)]
#[tactic(auto, using(ddl_types::proofs::TyLayers::layers, crate::proofs::ReadingLemmas::reads))]
pub fn unbound(trail: &Trail, t: &Ty) -> Option<u32>
    ensures { MatchOption result (NoVar (on (ty_view t.now) (solution trail.now))) (Ends trail.now (ty_view t.now)) }
{
    match t {
        Ty::Var(v) => match trail.bound_to(*v) {
            None => Some(*v),
            Some(to) => unbound(trail, to),
        },
        _ => None,
    }
}

/// A type with each bound variable replaced by what it is bound to, at every level.
#[cycle(read)]
#[tactic(auto, using(ddl_types::proofs::TyLayers::layers, crate::proofs::ReadingLemmas::reads))]
pub fn read(alloc: Global, trail: &Trail, t: &Ty) -> Result<Ty, NoMemory>
    ensures { IfOk result (λ r. ty_view r ≡ on (ty_view t.now) (solution trail.now)) }
{
    match t {
        Ty::Var(v) => {
            let r = read_variable(alloc, trail, *v)?;
            Ok(r)
        }
        Ty::Int => Ok(Ty::Int),
        Ty::Uint(width) => Ok(Ty::Uint(*width)),
        Ty::Sint(width) => Ok(Ty::Sint(*width)),
        Ty::Bool => Ok(Ty::Bool),
        Ty::Unit => Ok(Ty::Unit),
        Ty::Stream => Ok(Ty::Stream),
        Ty::Maybe(inner) => Ok(Ty::Maybe(read_box(alloc, trail, inner)?)),
        Ty::Array(element) => Ok(Ty::Array(read_box(alloc, trail, element)?)),
        Ty::Map(key, value) => {
            let r = read_map(alloc, trail, key, value)?;
            Ok(r)
        }
        Ty::Bits(number) => Ok(Ty::Bits(*number)),
        Ty::Place(number, ts) => Ok(Ty::Place(*number, read_all(alloc, trail, ts)?)),
    }
}

#[cycle(read)]
#[tactic(auto, using(ddl_types::proofs::TyLayers::layers, crate::proofs::ReadingLemmas::reads))]
fn read_map(alloc: Global, trail: &Trail, key: &Ty, value: &Ty) -> Result<Ty, NoMemory>
    ensures { IfOk result (λ r. ty_view r ≡ on (map_type (ty_view key.now) (ty_view value.now)) (solution trail.now)) }
{
    let key = read_box(alloc, trail, key)?;
    let value = read_box(alloc, trail, value)?;
    Ok(Ty::Map(key, value))
}

#[cycle(read)]
#[tactic(auto, using(ddl_types::proofs::TyLayers::layers, crate::proofs::ReadingLemmas::reads))]
fn read_box(alloc: Global, trail: &Trail, t: &Ty) -> Result<Box<Ty>, NoMemory>
    ensures { IfOk result (λ r. ty_view r.value ≡ on (ty_view t.now) (solution trail.now)) }
{
    let inner = read(alloc, trail, t)?;
    Ok(Box::new(alloc, inner)?)
}

#[cycle(read)]
#[tactic(auto, using(ddl_types::proofs::TyLayers::layers, crate::proofs::ReadingLemmas::reads))]
fn read_variable(alloc: Global, trail: &Trail, v: u32) -> Result<Ty, NoMemory>
    ensures { IfOk result (λ r. ty_view r ≡ on (var v) (solution trail.now)) }
{
    match trail.bound_to(v) {
        None => Ok(Ty::Var(v)),
        Some(to) => {
            let last = followed(trail, to);
            let r = read(alloc, trail, last)?;
            Ok(r)
        }
    }
}

#[cycle(read)]
#[tactic(auto, using(ddl_types::proofs::TyLayers::layers, crate::proofs::ReadingLemmas::reads))]
fn read_all(alloc: Global, trail: &Trail, ts: &[Ty]) -> Result<Vec<Ty>, NoMemory>
    ensures { IfOk result (λ r. map ty_view r.items ≡ map (λ t. on t (solution trail.now)) (map ty_view ts.now)) }
{
    let mut made = Vec::new(alloc);
    for t in ts {
        made.push(read(alloc, trail, t)?)?;
    }
    Ok(made)
}
