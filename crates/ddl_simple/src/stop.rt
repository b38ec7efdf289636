use ddl_base::NoMemory;
use std::alloc::{AllocError, AllocFailed};

/// Why there is no typed tree.
#[derive(Clone, Copy, PartialEq, Eq)]
pub(crate) enum Stop {
    /// The module is not of the form.
    Outside,
    NoMemory,
}

impl From<NoMemory> for Stop {
    ghost use Rattle.ddl_simple.specs.declared.stop.Stop.{Stop};
    ghost use Rattle.std.specs.Prelude.{◌≡◌};

    ghost from_gives = { λ e s. s ≡ Stop.NoMemory };

    fn from(_error: NoMemory) -> Self {
        Stop::NoMemory
    }
}

impl From<AllocError> for Stop {
    ghost use Rattle.ddl_simple.specs.declared.stop.Stop.{Stop};
    ghost use Rattle.std.specs.Prelude.{◌≡◌};

    ghost from_gives = { λ e s. s ≡ Stop.NoMemory };

    fn from(_error: AllocError) -> Self {
        Stop::NoMemory
    }
}

impl<T: Drop> From<AllocFailed<T>> for Stop {
    ghost use Rattle.ddl_simple.specs.declared.stop.Stop.{Stop};
    ghost use Rattle.std.specs.Prelude.{◌≡◌};

    ghost from_gives = { λ e s. s ≡ Stop.NoMemory };

    fn from(_error: AllocFailed<T>) -> Self {
        Stop::NoMemory
    }
}
