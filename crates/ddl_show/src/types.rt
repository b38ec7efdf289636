ghost use Rattle.std.specs.Prelude.{◌≡◌, OnOk};
ghost use Rattle.ddl_tree.specs.View.{type_view, typed_view};
ghost use Rattle.ddl_tree.specs.Print.{print_type, print_typed};
ghost use Rattle.ddl_show.specs.Writes.{Writes};

use crate::tokens::{put_mark, put_name, put_number};
use ddl_base::NoMemory;
use ddl_token::Mark;
use ddl_tree::TypeExpr;

/// Writes a type.
#[tactic(auto, using(ddl_tree::proofs::Layers::layers))]
pub(crate) fn put_type(text: &mut Vec<u8>, of: &TypeExpr) -> Result<(), NoMemory>
    ensures { OnOk result (Writes text.old.items (print_type (type_view of.now)) text.new.items) }
{
    match of {
        TypeExpr::Int(_) => put_name(text, b"int"),
        TypeExpr::Uint { width, .. } => {
            put_name(text, b"uint")?;
            put_number(text, width)
        }
        TypeExpr::Sint { width, .. } => {
            put_name(text, b"sint")?;
            put_number(text, width)
        }
        TypeExpr::Bool(_) => put_name(text, b"bool"),
        TypeExpr::Stream(_) => put_name(text, b"stream"),
        TypeExpr::Float(_) => put_name(text, b"float"),
        TypeExpr::Double(_) => put_name(text, b"double"),
        TypeExpr::Maybe { content, .. } => {
            put_name(text, b"maybe")?;
            put_type(text, content)
        }
        TypeExpr::ArrayOf { element, .. } => {
            put_mark(text, Mark::OpenBracket)?;
            put_type(text, element)?;
            put_mark(text, Mark::CloseBracket)
        }
        TypeExpr::MapOf { key, value, .. } => {
            put_mark(text, Mark::OpenBracket)?;
            put_type(text, key)?;
            put_mark(text, Mark::Arrow)?;
            put_type(text, value)?;
            put_mark(text, Mark::CloseBracket)
        }
        TypeExpr::Empty(_) => {
            put_mark(text, Mark::OpenBrace)?;
            put_mark(text, Mark::CloseBrace)
        }
        TypeExpr::Named(name) => put_name(text, name.text.get()),
        TypeExpr::Within { inner, .. } => {
            put_mark(text, Mark::OpenParen)?;
            put_type(text, inner)?;
            put_mark(text, Mark::CloseParen)
        }
    }
}

/// Writes a colon and a type, where there is one.
pub(crate) fn put_typed(text: &mut Vec<u8>, of: &Option<TypeExpr>) -> Result<(), NoMemory>
    ensures { OnOk result (Writes text.old.items (print_typed (typed_view of.now)) text.new.items) }
{
    match of {
        None => Ok(()),
        Some(of) => {
            put_mark(text, Mark::Colon)?;
            put_type(text, of)
        }
    }
}
