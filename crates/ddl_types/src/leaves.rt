//! Types with something put in place of each variable.

ghost use Rattle.std.specs.Prelude.{◌≡◌, ℕ, IfOk, map};
ghost use Rattle.ddl_types.specs.Types.{Sub, Each, EachOf, on, tys_of};
ghost use Rattle.ddl_types.specs.TyView.{ty_view};

use crate::Ty;
use ddl_base::NoMemory;
use std::alloc::Global;

/// What stands for each variable.
pub trait Leaves {
    ghost fits: { Self → ℕ → Type 0 };

    ghost sub: { Self → Sub };

    /// What stands for a variable.
    fn at(&self, alloc: Global, variable: u32) -> Result<Ty, NoMemory>
        requires fits { fits self.now variable }
        ensures { IfOk result (λ r. ty_view r ≡ sub self.now variable) };
}

/// `t` with what stands for each of its variables.
#[cycle(mapped)]
#[tactic(auto, using(crate::proofs::TyLayers::layers, crate::proofs::Mapping::mapped_on))]
pub fn mapped<L: Leaves>(alloc: Global, leaves: &L, t: &Ty) -> Result<Ty, NoMemory>
    requires fits { Each (L.fits leaves.now) (ty_view t.now) }
    ensures { IfOk result (λ r. ty_view r ≡ on (ty_view t.now) (L.sub leaves.now)) }
{
    match t {
        Ty::Var(variable) => leaves.at(alloc, *variable),
        Ty::Int => Ok(Ty::Int),
        Ty::Uint(width) => Ok(Ty::Uint(*width)),
        Ty::Sint(width) => Ok(Ty::Sint(*width)),
        Ty::Bool => Ok(Ty::Bool),
        Ty::Unit => Ok(Ty::Unit),
        Ty::Stream => Ok(Ty::Stream),
        Ty::Maybe(inner) => Ok(Ty::Maybe(mapped_box(alloc, leaves, inner)?)),
        Ty::Array(element) => Ok(Ty::Array(mapped_box(alloc, leaves, element)?)),
        Ty::Map(key, value) => Ok(Ty::Map(
            mapped_box(alloc, leaves, key)?,
            mapped_box(alloc, leaves, value)?,
        )),
        Ty::Bits(number) => Ok(Ty::Bits(*number)),
        Ty::Place(number, parts) => Ok(Ty::Place(*number, mapped_all(alloc, leaves, parts)?)),
    }
}

#[cycle(mapped)]
#[tactic(auto, using(crate::proofs::TyLayers::layers))]
fn mapped_box<L: Leaves>(alloc: Global, leaves: &L, t: &Ty) -> Result<Box<Ty>, NoMemory>
    requires fits { Each (L.fits leaves.now) (ty_view t.now) }
    ensures { IfOk result (λ r. ty_view r.value ≡ on (ty_view t.now) (L.sub leaves.now)) }
{
    let made = mapped(alloc, leaves, t)?;
    Ok(Box::new(alloc, made)?)
}

/// Types with what stands for each of their variables.
#[cycle(mapped)]
#[tactic(auto, using(crate::proofs::TyLayers::layers, crate::proofs::Mapping::mapped_on))]
pub fn mapped_all<L: Leaves>(alloc: Global, leaves: &L, ts: &[Ty]) -> Result<Vec<Ty>, NoMemory>
    requires fits { EachOf (L.fits leaves.now) (tys_of (map ty_view ts.now)) }
    ensures { IfOk result (λ v. map ty_view v.items ≡ map (λ t. on t (L.sub leaves.now)) (map ty_view ts.now)) }
{
    let mut made = Vec::new(alloc);
    for t in ts {
        made.push(mapped(alloc, leaves, t)?)?;
    }
    Ok(made)
}
