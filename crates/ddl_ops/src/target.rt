use ddl_types::NumType;

/// What a cast leads to.
#[derive(Clone, Copy, PartialEq, Eq)]
pub enum Target {
    Number(NumType),
    /// The bitdata of this number.
    Bits(u32),
    /// The type that the value has.
    Same,
}
