use crate::block::Function;
use ddl_base::{Bytes, Span};
use ddl_core::{DeclName, PlaceShape};
use ddl_types::Ty;

/// What the machine runs.
#[derive(Drop)]
pub struct Code {
    pub functions: Vec<Function>,
    /// The function that is run.
    pub entry: u32,
    /// The texts of `Fail`, in the order of their numbers.
    pub texts: Vec<Bytes>,
    /// The names of the modules.
    pub units: Vec<Bytes>,
    /// The declarations that the code names.
    pub decls: Vec<DeclName>,
    /// Records and unions in the order of their numbers, and bitdata in the order of theirs.
    pub places: Vec<PlaceShape>,
    /// Where the entry's name stands.
    pub entry_name: Span,
    /// The type of what is parsed.
    pub result: Ty,
}
