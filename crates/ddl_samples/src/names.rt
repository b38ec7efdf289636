//! Names and numbers of a module, with their places.
use ddl_base::{Bytes, NoMemory, Span};
use ddl_token::Base;
use ddl_tree::{Name, Number};
use std::alloc::Global;

/// These bytes of a module.
pub fn span(module: u32, from: u32, to: u32) -> Span {
    Span { module, from, to }
}

/// A name that stands there.
pub fn name(alloc: Global, text: &[u8], span: Span) -> Result<Name, NoMemory> {
    Ok(Name {
        text: Bytes::of(alloc, text)?,
        span,
    })
}

/// A number that stands there, with so many digits.
pub fn number(value: u128, base: Base, digits: u32, span: Span) -> Number {
    Number {
        value,
        base,
        digits,
        span,
    }
}
