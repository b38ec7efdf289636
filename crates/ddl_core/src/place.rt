use ddl_base::Bytes;
use ddl_bits::Checked;
use ddl_types::Ty;

/// The name of a declaration.
#[derive(Drop)]
pub struct DeclName {
    /// The module that it stands in.
    pub unit: u32,
    pub name: Bytes,
}

/// What a type is that is named by a number. Lists of names and of types have one length.
#[derive(Drop)]
pub enum PlaceShape {
    /// A record: its fields in order.
    Record { names: Vec<Bytes>, types: Vec<Ty> },
    /// A union: its tags in order, each with the type of its content.
    Union { tags: Vec<Bytes>, types: Vec<Ty> },
    Bits { name: Bytes, layout: Checked },
}
