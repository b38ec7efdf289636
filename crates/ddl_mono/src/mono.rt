use ddl_base::{Bytes, Span};
use ddl_tree::Kind;
use ddl_typed::{BitsDecl, Name, PlaceType, TExpr};
use ddl_types::Ty;

/// A specialised specification: no grammar, class or type is a parameter.
#[derive(Drop)]
pub struct Mono {
    /// The names of its modules.
    pub units: Vec<Bytes>,
    /// The texts of `Fail`, in the order of their numbers.
    pub texts: Vec<Bytes>,
    /// The copy that is run.
    pub entry: u32,
    /// The copies, in the order of their numbers.
    pub copies: Vec<MonoCopy>,
    /// The records and unions, in the order of their numbers.
    pub places: Vec<PlaceType>,
    /// The bitdata, in the order of their numbers.
    pub bits: Vec<BitsDecl>,
}

/// A copy of a declaration, or of a grammar that is an argument.
#[derive(Drop)]
pub struct MonoCopy {
    /// The declaration whose copy it is, or in which the argument stands.
    pub declaration: u32,
    /// The module that it stands in.
    pub unit: u32,
    pub name: Bytes,
    /// Where the name stands.
    pub span: Span,
    /// `Grammar` or `Value`.
    pub kind: Kind,
    /// The names of its parameters, in the order of the arguments.
    pub names: Vec<Name>,
    /// Their types.
    pub params: Vec<Ty>,
    /// The type of its value.
    pub result: Ty,
    pub body: TExpr,
}
