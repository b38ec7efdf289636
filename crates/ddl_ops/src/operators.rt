//! Operators, casts, and what is built in.

use ddl_arith::Op;

/// A test of two keys.
#[derive(Clone, Copy, PartialEq, Eq)]
pub enum Comparison {
    Equal,
    Unequal,
    Less,
    AtMost,
    Greater,
    AtLeast,
}

/// An infix operator.
#[derive(Clone, Copy, PartialEq, Eq)]
pub enum Infix {
    Arithmetic(Op),
    Compare(Comparison),
    /// `#`: the bits of the right side after those of the left side.
    Beside,
    /// `<#`: the same modulo 2^width of the left side.
    Append,
    And,
    Or,
}

/// A prefix operator.
#[derive(Clone, Copy, PartialEq, Eq)]
pub enum Prefix {
    Minus,
    Not,
    Complement,
}

/// A cast that always has a value.
#[derive(Clone, Copy, PartialEq, Eq)]
pub enum Cast {
    /// `as`.
    Keep,
    /// `as!`.
    Cut,
}

/// A built-in value.
#[derive(Clone, Copy, PartialEq, Eq)]
pub enum Builtin {
    Length,
    Concat,
    ArrayStream,
    BytesOfStream,
    Empty,
    InsertInto,
    LookupIn,
}

/// A built-in grammar with value arguments.
#[derive(Clone, Copy, PartialEq, Eq)]
pub enum Primitive {
    GetStream,
    Offset,
    SetStream,
    Take,
    Drop,
    Index,
    Lookup,
    Insert,
}
