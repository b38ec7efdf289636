use ddl_base::NoMemory;
use thiserror::Error;

/// Why tokens are no module. Tokens are counted from 0.
#[derive(Clone, Copy, Debug, PartialEq, Eq, Error)]
pub enum SyntaxError {
    /// The tokens before this one begin a module, and no module goes on with it. The number of
    /// tokens says that they begin a module and are none.
    #[error("unexpected token {0}")]
    Unexpected(usize),
    /// Each module that goes on with this token nests more than 200 forms.
    #[error("nested too deep at token {0}")]
    TooNested(usize),
    #[error("out of memory")]
    NoMemory,
}

impl From<NoMemory> for SyntaxError {
    ghost use Rattle.std.specs.Prelude.{◌≡◌};
    ghost use Rattle.ddl_syntax.specs.declared.error.SyntaxError.TheVariants as e;

    ghost from_gives = { λ _ e'. e' ≡ e.NoMemory };

    fn from(_error: NoMemory) -> Self {
        SyntaxError::NoMemory
    }
}
