ghost use Rattle.std.specs.Prelude.{◌≡◌};
ghost use Rattle.ddl_lex.specs.Layout as layout;

use crate::place::Place;
use ddl_token::{Mark, Tok, Token, Word};

/// What a token does to the brackets.
#[derive(Clone, Copy, PartialEq, Eq)]
pub enum Role {
    Opens,
    Closes,
    Separates,
    /// Nothing.
    Stands,
}

/// What is remembered of the last token.
#[derive(Clone, Copy, PartialEq, Eq)]
pub struct Last {
    /// It is a word that a list of items follows.
    pub begins_items: bool,
    /// Its line and column, and the place where it ends.
    pub end: Place,
}

/// What a token does to the brackets.
pub(crate) fn role_of(kind: &Tok) -> Role
    ensures { result ≡ layout.role kind.now }
{
    match kind {
        Tok::Mark(mark) => match mark {
            Mark::OpenParen
            | Mark::OpenBracket
            | Mark::OpenBrace
            | Mark::OpenUnion
            | Mark::DollarBracket => Role::Opens,
            Mark::CloseParen | Mark::CloseBracket | Mark::CloseBrace | Mark::CloseUnion => {
                Role::Closes
            }
            Mark::Comma => Role::Separates,
            _ => Role::Stands,
        },
        _ => Role::Stands,
    }
}

/// Whether a list of items follows the word.
fn begins_items(kind: &Tok) -> bool
    ensures { result ≡ layout.begins_items kind.now }
{
    matches!(
        kind,
        Tok::Word(Word::Block | Word::First | Word::Choose | Word::Of | Word::Where)
    )
}

/// Whether a list begins at a token: behind a word for it, where no brace follows.
pub(crate) fn list_begins(last: Option<Last>, kind: &Tok) -> bool
    ensures { result ≡ layout.list_begins last kind.now }
{
    match last {
        Some(last) => last.begins_items && !matches!(kind, Tok::Mark(Mark::OpenBrace)),
        None => false,
    }
}

/// Whether a token on this line is the first of it.
pub(crate) fn is_first(last: Option<Last>, line: u32) -> bool
    ensures { result ≡ layout.is_first last line }
{
    match last {
        Some(last) => last.end.line != line,
        None => true,
    }
}

/// Where a token begins.
pub(crate) fn begin_of(token: &Token) -> Place
    ensures { result ≡ layout.begin_of token.now }
{
    Place {
        at: token.from,
        line: token.line,
        column: token.col,
    }
}

/// What is remembered of a token.
pub(crate) fn last_of(token: &Token) -> Last
    ensures { result ≡ layout.last_of token.now }
{
    Last {
        begins_items: begins_items(&token.kind),
        end: Place {
            at: token.to,
            line: token.line,
            column: token.col,
        },
    }
}
