use ddl_base::{Bytes, NoMemory, Told};

/// Why a specification is not accepted, or cannot be read.
#[derive(Drop)]
pub enum Refusal {
    /// This file is not there.
    Missing(Bytes),
    /// A call of the files failed.
    ReadFault,
    /// The specification is refused, as a line tells it.
    Refused(Told),
    /// The specification is of a form that does not run so far.
    Unbuilt,
    NoMemory,
}

impl From<NoMemory> for Refusal {
    ghost use Rattle.std.specs.Prelude.{◌≡◌};
    ghost use Rattle.ddl_outside.specs.declared.refusal.Refusal.TheVariants as refused;

    ghost from_gives = { λ _ e. e ≡ refused.NoMemory };

    fn from(_error: NoMemory) -> Self {
        Refusal::NoMemory
    }
}
