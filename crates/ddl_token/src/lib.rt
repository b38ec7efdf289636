//! Tokens: words, marks, names, numbers and literals, with their places.
#![tactic(auto)]

mod mark;
mod token;
mod word;

pub use mark::Mark;
pub use token::{Base, Tok, Token};
pub use word::Word;
