use ddl_base::{NoMemory, Span};
use std::alloc::AllocFailed;
use thiserror::Error;

/// Why names have no bindings: the first cause, in the order that the crate's README says.
#[derive(Clone, Copy, Debug, PartialEq, Eq, Error)]
pub enum NameError {
    /// Nothing binds the name there.
    #[error("unknown name")]
    Unknown(Span),
    /// The first name is one that stands before, at the second place.
    #[error("name given twice")]
    Twice(Span, Span),
    /// Two imported modules, by their places in the list, declare the name.
    #[error("name declared by two imported modules")]
    TwoImports(Span, u32, u32),
    /// Another kind is wanted there.
    #[error("wrong kind")]
    WrongKind(Span),
    /// The name has another number of arguments than is wanted.
    #[error("wrong number of arguments")]
    WrongCount { span: Span, given: u32, wanted: u32 },
    /// The declaration there is one too many.
    #[error("too many declarations")]
    TooManyDecls(Span),
    #[error("out of memory")]
    NoMemory,
}

impl From<NoMemory> for NameError {
    ghost use Rattle.std.specs.Prelude.{◌≡◌};
    ghost use Rattle.ddl_kinds.specs.declared.error.NameError.TheVariants as e;

    ghost from_gives = { λ _ e'. e' ≡ e.NoMemory };

    fn from(_error: NoMemory) -> Self {
        NameError::NoMemory
    }
}

impl<T: Drop> From<AllocFailed<T>> for NameError {
    ghost use Rattle.std.specs.Prelude.{◌≡◌};
    ghost use Rattle.ddl_kinds.specs.declared.error.NameError.TheVariants as e;

    ghost from_gives = { λ _ e'. e' ≡ e.NoMemory };

    fn from(_error: AllocFailed<T>) -> Self {
        NameError::NoMemory
    }
}
