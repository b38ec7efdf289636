use ddl_base::Bytes;

/// The bits of a bitdata: its constructors, of which there is at least one.
#[cycle(layout)]
#[derive(Drop)]
pub struct Layout {
    pub cons: Vec<LayoutCon>,
}

/// A constructor: its parts, at least one, of which the first holds the most significant bits.
#[cycle(layout)]
#[derive(Drop)]
pub struct LayoutCon {
    /// Empty for the one constructor of a bitdata that is written with `=`.
    pub name: Bytes,
    pub parts: Vec<LayoutPart>,
}

/// Some bits in a row. A width is at least 1.
#[cycle(layout)]
#[derive(Drop)]
pub enum LayoutPart {
    /// Bits that are given. A number of 2^width or more fits nothing.
    Fixed {
        bits: u128,
        width: u32,
    },
    /// Bits that may be any.
    Any {
        name: Option<Bytes>,
        width: u32,
    },
    /// Bits that fit another layout, and as many as it has.
    Inner {
        name: Option<Bytes>,
        layout: Box<Layout>,
    },
}
