//! A type of a group as it is seen from other groups.

ghost use Rattle.std.specs.Prelude.{◌≡◌, IfOk, map};
ghost use Rattle.ddl_types.specs.Types.{tys_of};
ghost use Rattle.ddl_types.specs.TyView.{ty_view};
ghost use Rattle.ddl_judging.specs.Shapes.{fresh};
ghost use Rattle.ddl_schemes.specs.Renaming as renaming;
ghost use Rattle.ddl_schemes.specs.SharedParts.{shared_parts};

use ddl_base::NoMemory;
use ddl_types::Ty;
use std::alloc::Global;

/// Where the group's places begin, and how many variables it has.
#[derive(Clone, Copy)]
pub(crate) struct Sharing {
    pub first: u32,
    pub count: u32,
}

/// The first variables, so many.
#[tactic(auto, using(ddl_types::proofs::TyLayers::layers, crate::proofs::Sharings::freshes))]
fn fresh_arguments(alloc: Global, count: u32) -> Result<Vec<Ty>, NoMemory>
    ensures { IfOk result (λ v. tys_of (map ty_view v.items) ≡ fresh count 0) }
{
    let mut made = Vec::new(alloc);
    for number in 0..count {
        made.push(Ty::Var(number))?;
    }
    Ok(made)
}

/// A type with all variables as the arguments of each place of the group.
#[cycle(share)]
#[tactic(auto, using(ddl_types::proofs::TyLayers::layers, crate::proofs::Sharings::sharings))]
pub(crate) fn share(alloc: Global, sharing: Sharing, t: &Ty) -> Result<Ty, NoMemory>
    ensures { IfOk result (λ r. ty_view r ≡ renaming.shared sharing.first sharing.count (ty_view t.now)) }
{
    match t {
        Ty::Var(variable) => Ok(Ty::Var(*variable)),
        Ty::Int => Ok(Ty::Int),
        Ty::Uint(width) => Ok(Ty::Uint(*width)),
        Ty::Sint(width) => Ok(Ty::Sint(*width)),
        Ty::Bool => Ok(Ty::Bool),
        Ty::Unit => Ok(Ty::Unit),
        Ty::Stream => Ok(Ty::Stream),
        Ty::Maybe(inner) => Ok(Ty::Maybe(share_box(alloc, sharing, inner)?)),
        Ty::Array(element) => Ok(Ty::Array(share_box(alloc, sharing, element)?)),
        Ty::Map(key, value) => Ok(Ty::Map(
            share_box(alloc, sharing, key)?,
            share_box(alloc, sharing, value)?,
        )),
        Ty::Bits(number) => Ok(Ty::Bits(*number)),
        Ty::Place(number, ts) => {
            let arguments = share_arguments(alloc, sharing, *number, ts)?;
            Ok(Ty::Place(*number, arguments))
        }
    }
}

#[cycle(share)]
#[tactic(auto, using(ddl_types::proofs::TyLayers::layers))]
fn share_box(alloc: Global, sharing: Sharing, t: &Ty) -> Result<Box<Ty>, NoMemory>
    ensures { IfOk result (λ r. ty_view r.value ≡ renaming.shared sharing.first sharing.count (ty_view t.now)) }
{
    let inner = share(alloc, sharing, t)?;
    Ok(Box::new(alloc, inner)?)
}

/// The arguments of a place: the group's variables, where it is one of the group.
#[cycle(share)]
#[tactic(auto, using(ddl_types::proofs::TyLayers::layers, crate::proofs::Sharings::sharings))]
fn share_arguments(
    alloc: Global,
    sharing: Sharing,
    number: u32,
    ts: &[Ty],
) -> Result<Vec<Ty>, NoMemory>
    ensures { IfOk result (λ v. tys_of (map ty_view v.items)
        ≡ shared_parts sharing.first sharing.count number (tys_of (map ty_view ts.now))) }
{
    if number >= sharing.first {
        let arguments = fresh_arguments(alloc, sharing.count)?;
        return Ok(arguments);
    }
    let arguments = share_all(alloc, sharing, ts)?;
    Ok(arguments)
}

#[cycle(share)]
#[tactic(auto, using(ddl_types::proofs::TyLayers::layers))]
fn share_all(alloc: Global, sharing: Sharing, ts: &[Ty]) -> Result<Vec<Ty>, NoMemory>
    ensures { IfOk result (λ v. map ty_view v.items
        ≡ map (renaming.shared sharing.first sharing.count) (map ty_view ts.now)) }
{
    let mut made = Vec::new(alloc);
    for t in ts {
        made.push(share(alloc, sharing, t)?)?;
    }
    Ok(made)
}
