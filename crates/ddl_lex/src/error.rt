use ddl_base::NoMemory;
use thiserror::Error;

/// Why a text has no tokens: the first error in it, with its place in bytes.
#[derive(Clone, Copy, Debug, PartialEq, Eq, Error)]
pub enum LexError {
    /// No token begins at this byte, or it is a control byte inside a literal.
    #[error("unexpected byte at {0}")]
    BadByte(u32),
    /// The text, the character or the comment that begins here is not closed.
    #[error("not closed: what begins at {0}")]
    OpenText(u32),
    /// The backslash here begins no escape.
    #[error("no escape at {0}")]
    BadEscape(u32),
    /// The number that begins here is at least 2^128.
    #[error("number too wide at {0}")]
    NumberTooWide(u32),
    /// The token that begins here is number 2^20 + 1.
    #[error("too many tokens at {0}")]
    TooManyTokens(u32),
    #[error("out of memory")]
    NoMemory,
}

impl From<NoMemory> for LexError {
    ghost use Rattle.std.specs.Prelude.{◌≡◌};
    ghost use Rattle.ddl_lex.specs.declared.error.LexError.TheVariants as e;

    ghost from_gives = { λ _ e'. e' ≡ e.NoMemory };

    fn from(_error: NoMemory) -> Self {
        LexError::NoMemory
    }
}
