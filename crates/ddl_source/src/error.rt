use ddl_base::NoMemory;
use ddl_lex::LexError;
use thiserror::Error;

/// Why a text is no module. Tokens are counted from 0, with the marks that layout adds; places are in bytes.
#[derive(Clone, Copy, Debug, PartialEq, Eq, Error)]
pub enum SourceError {
    /// The text has no tokens. The error is not want of memory.
    #[error("{0}")]
    Lex(LexError),
    /// No module goes on with this token, which stands from `from` up to `to`. The number of tokens says that a module
    /// goes on at the end of the text, and the place is the end.
    #[error("unexpected token {token}")]
    Unexpected { token: usize, from: u32, to: u32 },
    /// Each module that goes on with this token nests more than 200 forms.
    #[error("nested too deep at token {token}")]
    TooNested { token: usize, from: u32, to: u32 },
    #[error("out of memory")]
    NoMemory,
}

impl From<NoMemory> for SourceError {
    ghost use Rattle.std.specs.Prelude.{◌≡◌};
    ghost use Rattle.ddl_source.specs.declared.error.SourceError.TheVariants as e;

    ghost from_gives = { λ _ e'. e' ≡ e.NoMemory };

    fn from(_error: NoMemory) -> Self {
        SourceError::NoMemory
    }
}
