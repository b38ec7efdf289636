/// An operation on two numbers of one type; the right side of a shift is a `uint 64`.
#[derive(Clone, Copy, PartialEq, Eq)]
pub enum Op {
    Add,
    Sub,
    Mul,
    /// Toward zero.
    Div,
    /// What `Div` leaves, with the sign of the left side.
    Rem,
    /// Times a power of two.
    Shl,
    /// Divided by a power of two, rounded down, so the sign stays.
    Shr,
    /// Bit by bit; on unsigned types, as `Or` and `Xor`.
    And,
    Or,
    Xor,
}
