/// The number of a slot.
#[derive(Clone, Copy, PartialEq, Eq)]
pub struct SlotId {
    pub key: usize,
}

/// Where the bytes of a stream lie: in the input, or in the node of a slot.
#[derive(Clone, Copy, PartialEq, Eq)]
pub enum Origin {
    Input,
    Array(SlotId),
}

/// Some bytes from a place up to another.
#[derive(Clone, Copy, PartialEq, Eq)]
pub struct Stream {
    pub origin: Origin,
    pub from: u64,
    pub to: u64,
}

/// A value as the machine holds it. `{}` and what is absent are `Unit`, a bitdata is its number, and whatever stands in a slot
/// is a reference to it.
#[derive(Clone, Copy, PartialEq, Eq)]
pub enum Word {
    Unit,
    Bool(bool),
    Uint(u128),
    Sint(i128),
    Stream(Stream),
    Ref(SlotId),
    Thread(u64),
}
