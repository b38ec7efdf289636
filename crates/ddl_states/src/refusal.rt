use ddl_base::NoMemory;

/// Why a token is not read.
#[derive(Clone, Copy, PartialEq, Eq)]
pub enum Refusal {
    Unexpected,
    NoMemory,
}

impl From<NoMemory> for Refusal {
    ghost use Rattle.std.specs.Prelude.{◌≡◌};
    ghost use Rattle.ddl_states.specs.declared.refusal.Refusal.TheVariants as r;

    ghost from_gives = { λ _ e. e ≡ r.NoMemory };

    fn from(_error: NoMemory) -> Self {
        Refusal::NoMemory
    }
}
