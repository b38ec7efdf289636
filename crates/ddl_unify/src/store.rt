//! What a solver keeps: bindings of variables, and equations.

ghost use Rattle.std.specs.Prelude.{◌≡◌, IfOk};
ghost use Rattle.ddl_types.specs.TyView.{ty_view};
ghost use Rattle.ddl_unify.specs.Equations.{equal};
ghost use Rattle.ddl_unify.specs.View.{pair_view};

use ddl_base::NoMemory;
use ddl_types::Ty;
use std::alloc::Global;

/// A variable, and the type that it was bound to.
#[derive(Drop)]
pub struct Bound {
    pub from: u32,
    pub to: Ty,
}

/// Two types that are to be equal.
#[derive(Drop)]
pub struct Pair {
    pub left: Ty,
    pub right: Ty,
}

/// The equation of two types, as copies.
pub fn copied(alloc: Global, left: &Ty, right: &Ty) -> Result<Pair, NoMemory>
    ensures { IfOk result (λ p. pair_view p ≡ equal (ty_view left.now) (ty_view right.now)) }
{
    let left = left.copy(alloc)?;
    let right = right.copy(alloc)?;
    Ok(Pair { left, right })
}
