use ddl_base::Bytes;

/// What a value is compared with, and the name of its content.
#[derive(Drop)]
pub enum Pattern {
    Any,
    Number(u128),
    Truth(bool),
    Nothing,
    Just(Option<u32>),
    Tag { tag: Bytes, content: Option<u32> },
}
