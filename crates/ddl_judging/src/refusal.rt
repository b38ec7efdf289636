//! Why a condition is false.

use ddl_base::Bytes;
use ddl_types::Ty;

/// What a type has to be.
#[derive(Clone, Copy, PartialEq, Eq)]
pub enum Wanted {
    Number,
    /// A `uint`.
    Word,
    /// What can be compared.
    Key,
    /// What a loop can go over.
    Loop,
}

/// Why a condition is false. The types are as the solution reads them.
#[derive(Drop)]
pub enum Wrong {
    NotNumber { of: Ty, wanted: Wanted },
    NotLossless { from: Ty, to: Ty },
    NoField { name: Bytes, of: Ty },
    LiteralRange { number: u128, of: Ty },
    WidthRange { number: u32 },
    /// The least number of a bitdata's width that fits none of its constructors.
    Gap { number: u128 },
}
