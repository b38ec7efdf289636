ghost use Rattle.std.specs.Prelude.{◌≡◌, ◌∷◌, OnOk};
ghost use Rattle.ddl_tree.specs.View.{class_view};
ghost use Rattle.ddl_tree.specs.Print.{byte_token, print_class};
ghost use Rattle.ddl_show.specs.Writes.{Writes};

use crate::tokens::{put_char, put_mark, put_name, put_number};
use ddl_base::NoMemory;
use ddl_token::Mark;
use ddl_tree::{ByteLit, Cls};

/// Writes a byte of a class.
fn put_byte_lit(text: &mut Vec<u8>, byte: &ByteLit) -> Result<(), NoMemory>
    ensures { OnOk result (Writes text.old.items (λ rest. byte_token byte.now ∷ rest) text.new.items) }
{
    match byte {
        ByteLit::Code(number) => put_number(text, number),
        ByteLit::Quoted { value, .. } => put_char(text, *value),
    }
}

/// Writes a set of bytes.
#[tactic(auto, using(ddl_tree::proofs::Layers::layers))]
pub(crate) fn put_class(text: &mut Vec<u8>, class: &Cls) -> Result<(), NoMemory>
    ensures { OnOk result (Writes text.old.items (print_class (class_view class.now)) text.new.items) }
{
    match class {
        Cls::Union { left, right, .. } => {
            put_class(text, left)?;
            put_mark(text, Mark::Bar)?;
            put_class(text, right)
        }
        Cls::One(byte) => put_byte_lit(text, byte),
        Cls::Range { first, last, .. } => {
            put_byte_lit(text, first)?;
            put_mark(text, Mark::DotDot)?;
            put_byte_lit(text, last)
        }
        Cls::Known(name) => put_name(text, name.text.get()),
        Cls::Other { inner, .. } => {
            put_mark(text, Mark::Bang)?;
            put_class(text, inner)
        }
        Cls::Grouped { inner, .. } => {
            put_mark(text, Mark::OpenParen)?;
            put_class(text, inner)?;
            put_mark(text, Mark::CloseParen)
        }
        Cls::Set { inner, .. } => {
            put_mark(text, Mark::DollarBracket)?;
            put_class(text, inner)?;
            put_mark(text, Mark::CloseBracket)
        }
    }
}
