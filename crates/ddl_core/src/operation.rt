use ddl_base::Bytes;
use ddl_class::Class;
use ddl_ops::{Builtin, Cast, Infix, Pattern, Prefix, Primitive, Target};
use ddl_types::NumType;

/// What is done with values, and, from `UInt8` on, on the stream.
#[derive(Drop)]
pub enum Operation {
    /// An array of these bytes.
    Text(Bytes),
    /// A number, where its type is one of numbers.
    Literal { number: u128, of: Option<NumType> },
    Truth(bool),
    Unit,
    Nothing,
    Just,
    /// An array of the values.
    List,
    /// The record of these fields.
    Record(Vec<Bytes>),
    /// The union with this tag.
    Union(Bytes),
    /// The field of this name.
    Select(Bytes),
    Infix(Infix),
    Prefix(Prefix),
    Cast { cast: Cast, to: Target },
    Builtin(Builtin),
    /// A truth value as it is.
    TruthOf,
    /// A count as it is.
    CountOf,
    /// The greater of two counts.
    Most,
    /// One more at the end of an array.
    Push,
    /// One less, but not below 0.
    LessOne,
    FirstPosition,
    /// Whether an array or a map has an element at a position.
    HasPosition,
    ElementAt,
    /// The key at a position of a map, or the position in an array.
    KeyAt,
    NextPosition,
    /// The array of these elements, or the map with the keys of another one and these elements.
    Gather,
    /// The next byte.
    UInt8,
    /// These bytes, as they are.
    MatchText(Bytes),
    /// The bytes of a value, as they are.
    Match,
    /// The end of the stream.
    End,
    /// The next byte, where it is one of these.
    Class(Class),
    /// A failure with the text of this number.
    Fail(u32),
    /// The failure of a `case` without a further alternative.
    NoCase,
    Primitive(Primitive),
    /// The content of a value that has the pattern.
    Guard(Pattern),
    /// A value that fits.
    Fits(Target),
    /// What no valid form asks for.
    Wrong,
}
