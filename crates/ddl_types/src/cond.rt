//! What a form asks of types, beside that some be equal.

use crate::Ty;
use ddl_base::{Bytes, NoMemory};
use std::alloc::Global;

/// A condition on types.
#[derive(Drop)]
pub enum Cond {
    /// A type of numbers: `int`, a `uint` or a `sint`.
    Num(Ty),
    /// A `uint`.
    Word(Ty),
    /// A type of numbers with this one in its range.
    Lit { number: u128, of: Ty },
    /// A type whose values are ordered: numbers, booleans and arrays of bytes.
    Key(Ty),
    /// Each value of `from` is one of `to`.
    Lossless { from: Ty, to: Ty },
    /// A cast that may cut off bits.
    Cut { from: Ty, to: Ty },
    /// A cast that may fail.
    Fit { from: Ty, to: Ty },
    /// The bits of `left` before those of `right`.
    Cat { left: Ty, right: Ty, result: Ty },
    /// A record or a bitdata with this field.
    Field { of: Ty, name: Bytes, result: Ty },
    /// A union, or what is matched like one, with this tag.
    Tag { of: Ty, name: Bytes, result: Ty },
    /// What a `for` or a `map` goes over.
    Loop { over: Ty, key: Ty, value: Ty },
}
