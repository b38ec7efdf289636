ghost use Rattle.std.specs.Prelude.{◌≡◌, IfSome, option_map};
ghost use Rattle.ddl_typed.specs.Specification.{form_of_declaration};
ghost use Rattle.ddl_typed.specs.SpecificationView.{declaration_view, decl_view};

use crate::{TClass, TDecl, TExpr};
use ddl_base::{Bytes, Span};
use ddl_bits::Checked;
use ddl_tree::Kind;
use ddl_types::{Scheme, Ty};

/// A typed specification.
#[derive(Drop)]
pub struct TSpec {
    /// The version of the language that its root is written in.
    pub language: u8,
    /// The names of its modules.
    pub units: Vec<Bytes>,
    /// The texts of `Fail`, in the order of their numbers.
    pub texts: Vec<Bytes>,
    pub decls: Vec<TDeclaration>,
    /// The records and unions, in the order of their numbers.
    pub places: Vec<PlaceType>,
    /// The bitdata, in the order of their numbers.
    pub bits: Vec<BitsDecl>,
}

/// A declaration with its parameters and its type.
#[derive(Drop)]
pub struct TDeclaration {
    /// The module that it stands in.
    pub unit: u32,
    pub name: Bytes,
    /// Where the name stands.
    pub span: Span,
    pub kind: Kind,
    pub params: Vec<TParam>,
    /// The type of its value, for all types of its variables.
    pub scheme: Scheme,
    pub body: TBody,
}

/// A parameter. A class parameter has the type `uint 8`.
#[derive(Drop)]
pub struct TParam {
    pub name: Bytes,
    /// Where the name stands.
    pub span: Span,
    pub kind: Kind,
    pub of: Ty,
}

/// What a declaration stands for.
#[derive(Drop)]
pub enum TBody {
    /// A grammar or a value.
    Expr(TExpr),
    Class(TClass),
    /// The bitdata of this number.
    Bits(u32),
    /// The record or the union of this place.
    Shape(u32),
}

/// A record or a union: its fields or its tags, each with its type.
#[derive(Drop)]
pub struct PlaceType {
    pub span: Span,
    /// How many variables its types have.
    pub vars: u32,
    /// Whether the names are tags.
    pub tagged: bool,
    pub names: Vec<Bytes>,
    pub types: Vec<Ty>,
}

/// A bitdata with its layout.
#[derive(Drop)]
pub struct BitsDecl {
    /// The module that it stands in.
    pub unit: u32,
    pub name: Bytes,
    /// Where the name stands.
    pub span: Span,
    pub layout: Checked,
}

/// What the evaluator takes of a declaration: its name, and the form that it stands for. A class, a bitdata and the type
/// of a place stand for no form.
pub fn form_declared(declaration: TDeclaration) -> Option<TDecl>
    ensures form { option_map decl_view result ≡ form_of_declaration (declaration_view declaration) }
    ensures name { IfSome result (λ declared. declared.name ≡ declaration.name) }
{
    let TDeclaration {
        name,
        span,
        body,
        ..
    } = declaration;
    match body {
        TBody::Expr(body) => Some(TDecl { name, span, body }),
        _other => None,
    }
}
