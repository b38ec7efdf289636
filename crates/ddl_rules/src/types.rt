//! The types that forms have.

ghost use Rattle.std.specs.Prelude.{◌≡◌, IfOk};
ghost use Rattle.ddl_types.specs.Types.{Ty.var, Ty.con, Tys.none, Head.int, Head.place, Head.sint};
ghost use Rattle.ddl_types.specs.TyView.{ty_view};
ghost use Rattle.ddl_rules.specs.Asks.{array, bool_type, map_type, maybe, stream_type, unit_type, word};

use ddl_base::NoMemory;
use ddl_types::Ty;
use std::alloc::Global;

/// A variable.
#[tactic(auto, using(ddl_types::proofs::TyLayers::layers))]
pub fn variable(number: u32) -> Ty
    ensures { ty_view result ≡ var number }
{
    Ty::Var(number)
}

/// `{}`
#[tactic(auto, using(ddl_types::proofs::TyLayers::layers))]
pub fn unit() -> Ty
    ensures { ty_view result ≡ unit_type }
{
    Ty::Unit
}

/// `bool`
#[tactic(auto, using(ddl_types::proofs::TyLayers::layers))]
pub fn truth() -> Ty
    ensures { ty_view result ≡ bool_type }
{
    Ty::Bool
}

/// `stream`
#[tactic(auto, using(ddl_types::proofs::TyLayers::layers))]
pub fn stream() -> Ty
    ensures { ty_view result ≡ stream_type }
{
    Ty::Stream
}

/// `int`
#[tactic(auto, using(ddl_types::proofs::TyLayers::layers))]
pub fn int() -> Ty
    ensures { ty_view result ≡ con int none }
{
    Ty::Int
}

/// `uint` of this many bits.
#[tactic(auto, using(ddl_types::proofs::TyLayers::layers))]
pub fn word(width: u8) -> Ty
    ensures { ty_view result ≡ word width }
{
    Ty::Uint(width)
}

/// `sint` of this many bits.
#[tactic(auto, using(ddl_types::proofs::TyLayers::layers))]
pub fn signed(width: u8) -> Ty
    ensures { ty_view result ≡ con (sint width) none }
{
    Ty::Sint(width)
}

/// An array of these.
#[tactic(auto, using(ddl_types::proofs::TyLayers::layers))]
pub fn array(alloc: Global, element: Ty) -> Result<Ty, NoMemory>
    ensures { IfOk result (λ t. ty_view t ≡ array (ty_view element)) }
{
    Ok(Ty::Array(Box::new(alloc, element)?))
}

/// One of these, or nothing.
#[tactic(auto, using(ddl_types::proofs::TyLayers::layers))]
pub fn maybe(alloc: Global, content: Ty) -> Result<Ty, NoMemory>
    ensures { IfOk result (λ t. ty_view t ≡ maybe (ty_view content)) }
{
    Ok(Ty::Maybe(Box::new(alloc, content)?))
}

/// A map of these.
#[tactic(auto, using(ddl_types::proofs::TyLayers::layers))]
pub fn map(alloc: Global, key: Ty, value: Ty) -> Result<Ty, NoMemory>
    ensures { IfOk result (λ t. ty_view t ≡ map_type (ty_view key) (ty_view value)) }
{
    Ok(Ty::Map(Box::new(alloc, key)?, Box::new(alloc, value)?))
}

/// The record or the union of this number, in its own group.
#[tactic(auto, using(ddl_types::proofs::TyLayers::layers))]
pub fn place(alloc: Global, number: u32) -> Ty
    ensures { ty_view result ≡ con (place number) none }
{
    Ty::Place(number, Vec::new(alloc))
}
