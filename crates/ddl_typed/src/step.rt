use crate::answer::Failure;
use crate::shared::Shared;
use ddl_base::NoMemory;
use std::alloc::{AllocError, AllocFailed};
use std::rc::Rc;

/// A value, and the place after it.
#[derive(Drop)]
pub struct Parsed {
    pub value: Rc<Shared>,
    pub at: usize,
}

/// Why an evaluation stops without a value.
#[derive(Drop)]
pub enum Stop {
    Failed(Failure),
    NoMemory,
}

impl From<NoMemory> for Stop {
    ghost use Rattle.ddl_typed.specs.declared.step.Stop.{Stop};
    ghost use Rattle.std.specs.Prelude.{◌≡◌};

    ghost from_gives = { λ e s. s ≡ Stop.NoMemory };

    fn from(_error: NoMemory) -> Self {
        Stop::NoMemory
    }
}

impl From<AllocError> for Stop {
    ghost use Rattle.ddl_typed.specs.declared.step.Stop.{Stop};
    ghost use Rattle.std.specs.Prelude.{◌≡◌};

    ghost from_gives = { λ e s. s ≡ Stop.NoMemory };

    fn from(_error: AllocError) -> Self {
        Stop::NoMemory
    }
}

impl<T: Drop> From<AllocFailed<T>> for Stop {
    ghost use Rattle.ddl_typed.specs.declared.step.Stop.{Stop};
    ghost use Rattle.std.specs.Prelude.{◌≡◌};

    ghost from_gives = { λ e s. s ≡ Stop.NoMemory };

    fn from(_error: AllocFailed<T>) -> Self {
        Stop::NoMemory
    }
}
