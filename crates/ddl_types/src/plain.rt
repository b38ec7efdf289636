use crate::Num;
use ddl_base::Bytes;

/// A value as it is printed: a tree with names, without types.
#[derive(Drop)]
pub enum Plain {
    Unit,
    Bool(bool),
    Num(Num),
    Nothing,
    Just(Box<Plain>),
    /// The fields of a record or a bitdata in their order; the two lists have one length.
    Record {
        names: Vec<Bytes>,
        values: Vec<Plain>,
    },
    Union {
        tag: Bytes,
        value: Box<Plain>,
    },
    Array(Vec<Plain>),
    /// The entries of a map with rising keys; the two lists have one length.
    Map {
        keys: Vec<Plain>,
        values: Vec<Plain>,
    },
    /// The bytes from `from` to `to`, in the input or in an array.
    Stream {
        in_input: bool,
        from: u64,
        to: u64,
    },
}
