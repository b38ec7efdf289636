ghost use Rattle.std.specs.Prelude.{◌≡◌, ◌<◌, ◌≤◌, ◌^◌, length, IfOk, IfErr, OnOk};
ghost use Rattle.ddl_lex.specs.Tokens.{Cut, HasError, with_token};

use crate::LexError;
use crate::pieces::next_piece;
use crate::place::Place;
use ddl_base::NoMemory;
use ddl_token::{Tok, Token};
use std::alloc::Global;

/// How many tokens a text may have.
const MOST_TOKENS: usize = 1 << 20;

/// Keeps a token, if one was found, that stands from a place up to another.
fn keep(tokens: &mut Vec<Token>, found: Option<Tok>, place: Place, to: u32) -> Result<(), NoMemory>
    ensures { OnOk result (tokens.new.items ≡ with_token tokens.old.items place to found) }
{
    if let Some(kind) = found {
        tokens.push(Token {
            kind,
            line: place.line,
            col: place.column,
            from: place.at,
            to,
        })?;
    }
    Ok(())
}

/// The tokens of a text, each the longest that begins at its place, or the first error in it.
/// The rules of the signs are those of the DaeDaLus User Guide, with this profile's bounds. A text has one
/// answer, as `lex_law` says, unless memory runs out.
pub fn lex(alloc: Global, text: &[u8]) -> Result<Vec<Token>, LexError>
    requires { length text.now ≤ 2 ^ 22 }
    ensures tokens { IfOk result (λ tokens. Cut text.now tokens.items (length text.now)) }
    ensures few { IfOk result (λ tokens. length tokens.items ≤ 2 ^ 20) }
    ensures error { IfErr result (HasError text.now) }
{
    let mut tokens = Vec::new(alloc);
    let mut place = Place::start();
    let mut rest = text;
    while let Some(first) = rest.first() {
        let full = tokens.len() == MOST_TOKENS;
        let (found, n) = next_piece(alloc, full, *first, rest, place.at)?;
        let (piece, behind) = rest.split_at(n);
        let end = place.behind(piece);
        keep(&mut tokens, found, place, end.at)?;
        place = end;
        rest = behind;
    }
    Ok(tokens)
}
