ghost use Rattle.std.specs.Prelude.{◌≡◌, ◌<◌, ◌≤◌, ◌+◌, ◌^◌, length, IfOk, Result, Ok, Err, List, ℕ};
ghost use Rattle.ddl_lex.specs.Gives.{Gives};
ghost use Rattle.ddl_lex.specs.Literals.{literal, character};

use crate::LexError;
use crate::literal::{Element, element_at};
use ddl_base::{Bytes, NoMemory};
use ddl_token::Tok;
use std::alloc::Global;

/// The bytes that a text means, and how many bytes there are to its end, where `inside` is cut
/// behind the quote that stands at `start`.
pub(crate) fn text_at(alloc: Global, inside: &[u8], start: u32) -> Result<(Bytes, usize), LexError>
    requires { start + length inside.now < 2 ^ 31 }
    ensures value { Gives (literal 34 start (start + 1) 0 inside.now) result }
    ensures within { IfOk result (λ text. text.1 ≤ length inside.now) }
{
    let mut bytes = Vec::new(alloc);
    let mut n = 0;
    while n < inside.len() {
        let (_, rest) = inside.split_at(n);
        match element_at(b'"', rest) {
            Element::Means(byte, taken) => {
                bytes.push(byte).map_err(NoMemory::from)?;
                n += taken;
            }
            Element::Closes => return Ok((Bytes::from(bytes), n + 1)),
            Element::Ends => return Err(LexError::OpenText(start)),
            Element::Control => return Err(LexError::BadByte(start + 1 + n as u32)),
            Element::NoEscape => return Err(LexError::BadEscape(start + 1 + n as u32)),
        }
    }
    Err(LexError::OpenText(start))
}

/// The character whose quote stands at `start`, behind which `inside` is cut.
pub(crate) fn character_at(inside: &[u8], start: u32) -> Result<(Option<Tok>, usize), LexError>
    requires { start + length inside.now < 2 ^ 31 }
    ensures value { result ≡ character start inside.now }
    ensures within { IfOk result (λ found. found.1 ≤ length inside.now + 1) }
    ensures some { IfOk result (λ found. 0 < found.1) }
{
    match element_at(b'\'', inside) {
        Element::Means(byte, n) => {
            if n < inside.len() && inside[n] == b'\'' {
                Ok((Some(Tok::Char(byte)), n + 2))
            } else {
                Err(LexError::OpenText(start))
            }
        }
        Element::Closes | Element::Ends => Err(LexError::OpenText(start)),
        Element::Control => Err(LexError::BadByte(start + 1)),
        Element::NoEscape => Err(LexError::BadEscape(start + 1)),
    }
}
