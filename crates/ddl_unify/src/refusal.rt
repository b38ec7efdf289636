//! Why an equation is refused.

ghost use Rattle.std.specs.Prelude.{◌≡◌, IfOk};
ghost use Rattle.ddl_types.specs.Types.{Ty.var, on};
ghost use Rattle.ddl_types.specs.Types as types;
ghost use Rattle.ddl_types.specs.TyView.{ty_view};
ghost use Rattle.ddl_unify.specs.Bindings.{Unbound};
ghost use Rattle.ddl_unify.specs.Equations.{Holds};
ghost use Rattle.ddl_unify.specs.Occurs.{NoVar};
ghost use Rattle.ddl_unify.specs.Refused.{IsHeld, LeftHeld, EndlessRefused, IsClash};
ghost use Rattle.ddl_unify.specs.Solving.{Held};
ghost use Rattle.ddl_unify.specs.Trails.{bindings, solution};
ghost use Rattle.ddl_unify.specs.declared.refusal.EquateError.TheVariants as error;

use crate::occurs::occurs;
use crate::reading::{read, unbound};
use crate::trail::Trail;
use ddl_base::NoMemory;
use ddl_types::Ty;
use std::alloc::Global;

/// Why two types cannot be made equal. The types are as the solution before reads them.
#[derive(Drop)]
pub enum EquateError {
    /// With this equation there is no solution, and it is not endless: the two whole sides.
    Clash(Ty, Ty),
    /// One side is this variable, the other this larger type that holds it.
    Endless(u32, Ty),
    /// Memory ran out.
    NoMemory,
}

impl From<NoMemory> for EquateError {
    ghost from_gives = { λ _ e. e ≡ error.NoMemory };

    fn from(_error: NoMemory) -> Self {
        EquateError::NoMemory
    }
}

/// The variable that one type is read as, where the other is read as a larger one that holds it.
fn held(alloc: Global, trail: &Trail, left: &Ty, right: &Ty) -> Result<Option<u32>, NoMemory>
    ensures { IfOk result (Held trail.now (ty_view left.now) (ty_view right.now)) }
{
    match unbound(trail, left) {
        None => Ok(None),
        Some(v) => held_in(alloc, trail, v, right),
    }
}

/// The same for a variable that is not bound.
fn held_in(alloc: Global, trail: &Trail, v: u32, right: &Ty) -> Result<Option<u32>, NoMemory>
    requires { Unbound v (bindings trail.now) }
    ensures { IfOk result (Held trail.now (var v) (ty_view right.now)) }
{
    match unbound(trail, right) {
        Some(_w) => Ok(None),
        None => held_inside(alloc, trail, v, right),
    }
}

/// The same for a type that is read as no variable.
fn held_inside(alloc: Global, trail: &Trail, v: u32, right: &Ty) -> Result<Option<u32>, NoMemory>
    requires free { Unbound v (bindings trail.now) }
    requires con { NoVar (on (ty_view right.now) (solution trail.now)) }
    ensures { IfOk result (Held trail.now (var v) (ty_view right.now)) }
{
    match occurs(alloc, trail, right, v) {
        Ok(true) => Ok(Some(v)),
        Ok(false) => Ok(None),
        Err(e) => Err(e),
    }
}

/// Refuses an equation of which the first type is read as a variable that the second holds.
fn refuse_held(alloc: Global, trail: &Trail, left: &Ty, right: &Ty) -> Result<(), EquateError>
    ensures { LeftHeld result (solution trail.now) (ty_view left.now) (ty_view right.now) }
{
    match held(alloc, trail, left, right) {
        Ok(None) => Ok(()),
        Ok(Some(v)) => Err(endless(alloc, trail, v, right)),
        Err(_) => Err(EquateError::NoMemory),
    }
}

/// An endless equation of a variable, and a type that holds it.
fn endless(alloc: Global, trail: &Trail, v: u32, right: &Ty) -> EquateError
    requires { Holds (var v) (on (ty_view right.now) (solution trail.now)) }
    ensures { (l : types.Ty) → on l (solution trail.now) ≡ var v →
        IsHeld result (solution trail.now) l (ty_view right.now) }
{
    match read(alloc, trail, right) {
        Ok(read) => EquateError::Endless(v, read),
        Err(_) => EquateError::NoMemory,
    }
}

/// Refuses an endless equation.
pub fn refuse_endless(
    alloc: Global,
    trail: &Trail,
    left: &Ty,
    right: &Ty,
) -> Result<(), EquateError>
    ensures { EndlessRefused result (solution trail.now) (ty_view left.now) (ty_view right.now) }
{
    match refuse_held(alloc, trail, left, right) {
        Ok(()) => refuse_held(alloc, trail, right, left),
        Err(e) => Err(e),
    }
}

/// The clash of two types.
pub fn clash(alloc: Global, trail: &Trail, left: &Ty, right: &Ty) -> EquateError
    ensures { IsClash result (solution trail.now) (ty_view left.now) (ty_view right.now) }
{
    match read(alloc, trail, left) {
        Err(_) => EquateError::NoMemory,
        Ok(left) => clash_with(alloc, trail, left, right),
    }
}

/// The same with the first type as it is read.
fn clash_with(alloc: Global, trail: &Trail, left: Ty, right: &Ty) -> EquateError
    ensures { (l : types.Ty) → ty_view left ≡ on l (solution trail.now) →
        IsClash result (solution trail.now) l (ty_view right.now) }
{
    match read(alloc, trail, right) {
        Err(_) => EquateError::NoMemory,
        Ok(right) => EquateError::Clash(left, right),
    }
}
