//! What conditions read of records, unions and bitdata.

use ddl_base::Bytes;
use ddl_typed::PlaceType;
use ddl_types::Ty;

/// The records and unions, and the bitdata, by their numbers.
#[derive(Drop)]
pub struct Shapes {
    /// Where a place has no variables of its own, its types are taken as they are: they may speak of
    /// the variables of the group that is being solved.
    pub places: Vec<PlaceType>,
    pub bits: Vec<BitsShape>,
}

/// A bitdata: its width, the least number that fits none of its constructors, whether it is written
/// with `where`, and its fields or constructors with their types.
#[derive(Drop)]
pub struct BitsShape {
    /// From 1 to 128.
    pub width: u8,
    pub gap: Option<u128>,
    pub tagged: bool,
    pub names: Vec<Bytes>,
    pub types: Vec<Ty>,
}
