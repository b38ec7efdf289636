ghost use Rattle.std.specs.Prelude.{◌≡◌, ◌≤◌, ◌^◌, drop, length, IfOk, IfErr};
ghost use Rattle.ddl_source.specs.Source.{HasTokens, IsSource, IsWrong, first_place};

use crate::error::SourceError;
use ddl_lex::{LexError, layout, lex};
use ddl_syntax::{SyntaxError, parse};
use ddl_token::Token;
use ddl_tree::Module;
use std::alloc::Global;

/// A part of a text, in bytes.
#[derive(Clone, Copy)]
struct Place {
    from: u32,
    to: u32,
}

/// Where a token stands, or the end of a text of this length.
fn place_of(tokens: &[Token], number: usize, end: u32) -> Place
    ensures { (result.from, result.to) ≡ first_place end (drop number tokens.now) }
{
    match tokens.get(number) {
        Some(token) => Place {
            from: token.from,
            to: token.to,
        },
        None => Place { from: end, to: end },
    }
}

/// The tokens of a text, laid out.
fn tokens_of(alloc: Global, text: &[u8]) -> Result<Vec<Token>, SourceError>
    requires { length text.now ≤ 2 ^ 22 }
    ensures tokens { IfOk result (λ tokens. HasTokens text.now tokens.items) }
    ensures error { IfErr result (IsWrong text.now) }
{
    match lex(alloc, text) {
        Ok(tokens) => Ok(layout(alloc, tokens)?),
        Err(LexError::NoMemory) => Err(SourceError::NoMemory),
        Err(error) => Err(SourceError::Lex(error)),
    }
}

/// The tree of a module's text of at most 2^22 bytes, or what is wrong with the text: its first error, or the first token
/// that no module goes on with, or with which each module nests more than 200 forms. `module` is the number of the module,
/// which goes into each span.
pub fn tree_of(alloc: Global, module: u32, text: &[u8]) -> Result<Module, SourceError>
    requires { length text.now ≤ 2 ^ 22 }
    ensures { IsSource «module» text.now result }
{
    let tokens = tokens_of(alloc, text)?;
    match parse(alloc, module, &tokens) {
        Ok(tree) => Ok(tree),
        Err(SyntaxError::Unexpected(token)) => {
            let place = place_of(&tokens, token, text.len() as u32);
            Err(SourceError::Unexpected {
                token,
                from: place.from,
                to: place.to,
            })
        }
        Err(SyntaxError::TooNested(token)) => {
            let place = place_of(&tokens, token, text.len() as u32);
            Err(SourceError::TooNested {
                token,
                from: place.from,
                to: place.to,
            })
        }
        Err(SyntaxError::NoMemory) => Err(SourceError::NoMemory),
    }
}
