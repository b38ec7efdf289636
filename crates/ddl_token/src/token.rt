ghost use Rattle.std.specs.Prelude.{◌≡◌, IfOk};

use crate::{Mark, Word};
use ddl_base::{Bytes, NoMemory};
use std::alloc::Global;

/// The base in which a number is written.
#[derive(Clone, Copy, PartialEq, Eq)]
pub enum Base {
    /// Digits alone.
    Decimal,
    /// Digits after `0x`.
    Hexadecimal,
    /// Digits after `0b`.
    Binary,
}

/// What a token is. A name holds its whole spelling; of a class that includes the `$`.
#[derive(Drop)]
pub enum Tok {
    Word(Word),
    Mark(Mark),
    /// A name that begins with a capital letter.
    Upper(Bytes),
    /// A name that begins with a small letter or `_`.
    Lower(Bytes),
    /// The name of a class of bytes: it begins with `$`.
    Class(Bytes),
    /// `digits` counts the digits after the mark of the base, leading zeros among them.
    Number {
        value: u128,
        base: Base,
        digits: u32,
    },
    /// The byte that a character literal means.
    Char(u8),
    /// The bytes that a text literal means.
    Text(Bytes),
}

impl Tok {
    /// Another of the same value.
    pub fn copy(&self, alloc: Global) -> Result<Self, NoMemory>
        ensures { IfOk result (λ copy. copy ≡ self.now) }
    {
        Ok(match self {
            Tok::Word(word) => Tok::Word(*word),
            Tok::Mark(mark) => Tok::Mark(*mark),
            Tok::Upper(name) => Tok::Upper(Bytes::of(alloc, name.get())?),
            Tok::Lower(name) => Tok::Lower(Bytes::of(alloc, name.get())?),
            Tok::Class(name) => Tok::Class(Bytes::of(alloc, name.get())?),
            Tok::Number {
                value,
                base,
                digits,
            } => Tok::Number {
                value: *value,
                base: *base,
                digits: *digits,
            },
            Tok::Char(byte) => Tok::Char(*byte),
            Tok::Text(bytes) => Tok::Text(Bytes::of(alloc, bytes.get())?),
        })
    }
}

/// A token and its place in the text of its module.
#[derive(Drop)]
pub struct Token {
    pub kind: Tok,
    /// The line of its first byte, from 0.
    pub line: u32,
    /// The column of its first byte, from 0: a tab moves to the next multiple of 8.
    pub col: u32,
    /// The place of its first byte.
    pub from: u32,
    /// The place after its last byte.
    pub to: u32,
}
