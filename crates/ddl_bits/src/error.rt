/// Why a layout is none.
#[derive(Clone, Copy, Debug, PartialEq, Eq)]
pub enum BitError {
    /// The first constructor, and the first one of another width.
    Widths(usize, usize),
    /// The first pair of constructors that some number fits, and the least such number.
    Overlap(usize, usize, u128),
    /// The first constructor of more than 128 bits.
    TooWide(usize),
}

/// What shows that a layout is not covered.
#[derive(Clone, Copy, Debug, PartialEq, Eq)]
pub enum Gap {
    /// The least number below 2^width that fits no constructor.
    Number(u128),
}
