/// A number as it is held: one of a `uint n`, or one of `int` or a `sint n`.
#[derive(Clone, Copy, PartialEq, Eq)]
pub enum Num {
    Uint(u128),
    Sint(i128),
}

/// A type of numbers. The width is from 1 to 128.
#[derive(Clone, Copy, PartialEq, Eq)]
pub enum NumType {
    /// From -2^127 to 2^127 - 1.
    Int,
    /// From 0 to 2^width - 1.
    Uint(u8),
    /// From -2^(width - 1) to 2^(width - 1) - 1.
    Sint(u8),
}
