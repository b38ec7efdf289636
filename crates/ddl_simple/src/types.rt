ghost use Rattle.std.specs.Prelude.{◌≡◌, IfOk};
ghost use Rattle.ddl_types.specs.TyView.{ty_view};
ghost use Rattle.ddl_simple.specs.Form.{byte_type, record_type, text_type, unit_type};

use ddl_base::NoMemory;
use ddl_types::Ty;
use std::alloc::Global;

/// The type of a byte.
#[tactic(auto, using(ddl_types::proofs::TyLayers::layers))]
pub(crate) fn byte_type() -> Ty
    ensures { ty_view result ≡ byte_type }
{
    Ty::Uint(8)
}

/// The type of a text.
#[tactic(auto, using(ddl_types::proofs::TyLayers::layers))]
pub(crate) fn text_type(alloc: Global) -> Result<Ty, NoMemory>
    ensures { IfOk result (λ of. ty_view of ≡ text_type) }
{
    let byte = Box::new(alloc, byte_type())?;
    Ok(Ty::Array(byte))
}

/// The type of `{}`.
#[tactic(auto, using(ddl_types::proofs::TyLayers::layers))]
pub(crate) fn unit_type() -> Ty
    ensures { ty_view result ≡ unit_type }
{
    Ty::Unit
}

/// The record of the block that begins at a byte.
#[tactic(auto, using(ddl_types::proofs::TyLayers::layers))]
pub(crate) fn record_type(alloc: Global, from: u32) -> Ty
    ensures { ty_view result ≡ record_type from }
{
    Ty::Place(from, Vec::new(alloc))
}
