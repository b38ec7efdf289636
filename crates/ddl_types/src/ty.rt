//! Types, as they are written and as they are inferred.

ghost use Rattle.std.specs.Prelude.{◌≡◌, IfOk};
ghost use Rattle.ddl_types.specs.Types.{Ty.var};
ghost use Rattle.ddl_types.specs.TyView.{ty_view};

use crate::leaves::{Leaves, mapped};
use ddl_base::NoMemory;
use std::alloc::Global;

/// A type. Equal types are those of one form with equal parts, wherever they lie in memory.
#[cycle(ty)]
#[derive(Drop)]
pub enum Ty {
    /// A variable, by its number.
    Var(u32),
    /// From -2^127 to 2^127 - 1.
    Int,
    /// From 0 to 2^width - 1.
    Uint(u8),
    /// From -2^(width - 1) to 2^(width - 1) - 1.
    Sint(u8),
    Bool,
    /// The type of `{}`.
    Unit,
    Stream,
    /// What may be absent.
    Maybe(Box<Ty>),
    /// An array of elements of one type.
    Array(Box<Ty>),
    /// A map from keys to values.
    Map(Box<Ty>, Box<Ty>),
    /// A bitdata, by the number of its declaration.
    Bits(u32),
    /// A record or a union, by the number of its place, with a type for each variable of the
    /// place's types.
    Place(u32, Vec<Ty>),
}

/// Each variable stands for itself.
#[derive(Clone, Copy)]
struct Same;

impl Leaves for Same {
    ghost fits = { λ s v. Unit {0} };

    ghost sub = { λ s. var };

    #[tactic(auto, using(crate::proofs::TyLayers::layers))]
    fn at(&self, _alloc: Global, variable: u32) -> Result<Ty, NoMemory> {
        Ok(Ty::Var(variable))
    }
}

impl Ty {
    /// A copy.
    #[tactic(auto, using(crate::proofs::Mapping::copied))]
    pub fn copy(&self, alloc: Global) -> Result<Self, NoMemory>
        ensures { IfOk result (λ t. ty_view t ≡ ty_view self.now) }
    {
        mapped(alloc, &Same, self)
    }
}
