use ddl_base::{Bytes, NoMemory, Span};
use ddl_source::SourceError;
use std::alloc::{AllocError, AllocFailed};
use thiserror::Error;

/// Why the modules that a root reaches are not loaded. A module is told by its name, which stands for its place in the list
/// of loaded modules.
#[derive(Debug, Drop, Error)]
pub enum LoadError {
    /// This file is not there.
    #[error("a file is missing")]
    Missing(Bytes),
    /// A call of the files failed.
    #[error("reading failed")]
    ReadFault,
    /// The file of this module has so many bytes: more than 2^22, or with those before it more than 2^24.
    #[error("too large: {length} bytes")]
    TooLarge { module: Bytes, length: u64 },
    /// The import of this module whose name stands here names module 257.
    #[error("too many modules")]
    TooMany { importer: Bytes, span: Span },
    /// Each of these modules imports the next, and the last the first. The first one's import of the next stands here.
    #[error("a cycle of {count} modules", count = .modules.len())]
    Cycle { span: Span, modules: Vec<Bytes> },
    /// The text of this module is no module. The error is not want of memory.
    #[error("{error}")]
    Source { module: Bytes, error: SourceError },
    #[error("out of memory")]
    NoMemory,
}

impl From<NoMemory> for LoadError {
    ghost use Rattle.std.specs.Prelude.{◌≡◌};
    ghost use Rattle.ddl_modules.specs.declared.error.LoadError.TheVariants as refused;

    ghost from_gives = { λ _ e. e ≡ refused.NoMemory };

    fn from(_error: NoMemory) -> Self {
        LoadError::NoMemory
    }
}

impl From<AllocError> for LoadError {
    ghost use Rattle.std.specs.Prelude.{◌≡◌};
    ghost use Rattle.ddl_modules.specs.declared.error.LoadError.TheVariants as refused;

    ghost from_gives = { λ _ e. e ≡ refused.NoMemory };

    fn from(_error: AllocError) -> Self {
        LoadError::NoMemory
    }
}

impl<T: Drop> From<AllocFailed<T>> for LoadError {
    ghost use Rattle.std.specs.Prelude.{◌≡◌};
    ghost use Rattle.ddl_modules.specs.declared.error.LoadError.TheVariants as refused;

    ghost from_gives = { λ _ e. e ≡ refused.NoMemory };

    fn from(_error: AllocFailed<T>) -> Self {
        LoadError::NoMemory
    }
}
