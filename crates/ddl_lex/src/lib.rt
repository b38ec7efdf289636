//! Tokens of a text by longest match, and the layout of their blocks.
#![tactic(auto)]

mod blocks;
mod comments;
mod error;
mod laws;
mod letters;
mod lexer;
mod literal;
mod literals;
mod marks;
mod names;
mod numbers;
mod pieces;
mod place;
mod roles;
mod stack;
mod words;

pub use blocks::layout;
pub use ddl_token::{Base, Mark, Tok, Token, Word};
pub use error::LexError;
pub use laws::lex_law;
pub use lexer::lex;
