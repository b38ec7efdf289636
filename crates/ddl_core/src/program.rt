use crate::form::Form;
use crate::place::{DeclName, PlaceShape};
use ddl_base::{Bytes, Span};
use ddl_types::Ty;

/// A function.
#[derive(Drop)]
pub struct CoreFn {
    /// The declaration whose copy it is.
    pub declaration: Option<u32>,
    pub params: Vec<Ty>,
    pub result: Ty,
    /// Its parameters are its variables, the first as variable 0.
    pub body: Form,
}

/// A specification in the core language.
#[derive(Drop)]
pub struct Core {
    /// The names of the modules.
    pub units: Vec<Bytes>,
    /// The texts of `Fail`, in the order of their numbers.
    pub texts: Vec<Bytes>,
    /// The name of each function's declaration, in the order of the functions.
    pub decls: Vec<DeclName>,
    /// Records and unions in the order of their numbers, and bitdata in the order of theirs.
    pub places: Vec<PlaceShape>,
    pub functions: Vec<CoreFn>,
    /// The function that is run.
    pub entry: u32,
    /// Where the name of the function that is run stands, where there is such a function.
    pub entry_name: Option<Span>,
}
