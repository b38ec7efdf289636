use ddl_lex::{layout, lex};
use std::alloc::Global;
use std::io::{Error, ErrorKind, Result};

/// The number of tokens of a text, laid out; none is an error of the text.
pub fn count(alloc: Global, text: &[u8]) -> Result<u64> {
    if text.len() > 1 << 22 {
        return Err(Error::from(ErrorKind::InvalidInput));
    }
    let Ok(tokens) = lex(alloc, text) else {
        return Err(Error::from(ErrorKind::InvalidData));
    };
    let Ok(laid) = layout(alloc, tokens) else {
        return Err(Error::from(ErrorKind::OutOfMemory));
    };
    Ok(laid.len() as u64)
}
