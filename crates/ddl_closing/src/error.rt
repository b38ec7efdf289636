//! Why the typed body of a declaration is refused.

ghost use Rattle.std.specs.Prelude.{◌≡◌};
ghost use Rattle.ddl_closing.specs.declared.error.CaseError.TheVariants as error;

use ddl_base::{NoMemory, Span};
use ddl_ops::Pattern;

/// A `case` that is a value, and the first form of its subject that none of its alternatives takes.
#[derive(Drop)]
pub struct Gap {
    /// Where the `case` stands.
    pub span: Span,
    pub form: Pattern,
}

/// Why the cases of a body are not accepted.
#[derive(Drop)]
pub enum CaseError {
    /// The first gap in text order, outer before inner.
    Gap(Gap),
    NoMemory,
}

impl From<NoMemory> for CaseError {
    ghost from_gives = { λ _ e. e ≡ error.NoMemory };

    fn from(_error: NoMemory) -> Self {
        CaseError::NoMemory
    }
}
