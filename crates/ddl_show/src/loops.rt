//! What stands before the body of a loop or a repetition.

ghost use Rattle.std.specs.Prelude.{◌≡◌, ◌∷◌, OnOk};
ghost use Rattle.ddl_token.specs.declared.token.Tok.TheVariants as k;
ghost use Rattle.ddl_token.specs.declared.mark.Mark.TheVariants as m;
ghost use Rattle.ddl_token.specs.declared.word.Word.TheVariants as w;
ghost use Rattle.ddl_tree.specs.View.{view, bound_view};
ghost use Rattle.ddl_tree.specs.Print.{lower, print, print_bound, print_names};
ghost use Rattle.ddl_show.specs.Writes.{Writes};

use crate::exprs::put_expr;
use crate::patterns::put_names;
use crate::tokens::{put_mark, put_name, put_word};
use ddl_base::NoMemory;
use ddl_token::{Mark, Word};
use ddl_tree::{Bound, Expr, Name, Names};

/// Writes the state that a `for` carries and what it begins as, to the semicolon.
#[cycle(exprs)]
#[tactic(auto, using(ddl_tree::proofs::Layers::layers))]
pub(crate) fn put_state(text: &mut Vec<u8>, state: &Name, start: &Expr) -> Result<(), NoMemory>
    ensures { OnOk result (Writes text.old.items (λ rest.
        k.Word w.For ∷ k.Mark m.OpenParen ∷ lower state.now ∷ k.Mark m.Equals
        ∷ print (view start.now) (k.Mark m.Semicolon ∷ rest)) text.new.items) }
{
    put_word(text, Word::For)?;
    put_mark(text, Mark::OpenParen)?;
    put_name(text, state.text.get())?;
    put_mark(text, Mark::Equals)?;
    put_expr(text, start)?;
    put_mark(text, Mark::Semicolon)
}

/// Writes the names and the list of a `map`.
#[cycle(exprs)]
#[tactic(auto, using(ddl_tree::proofs::Layers::layers))]
pub(crate) fn put_map_list(text: &mut Vec<u8>, names: &Names, list: &Expr) -> Result<(), NoMemory>
    ensures { OnOk result (Writes text.old.items (λ rest.
        k.Word w.Map ∷ k.Mark m.OpenParen ∷ print_names names.now (print (view list.now) (k.Mark m.CloseParen ∷ rest)))
        text.new.items) }
{
    put_word(text, Word::Map)?;
    put_mark(text, Mark::OpenParen)?;
    put_list(text, names, list)
}

/// Writes the names for the elements of a list, the list, and a closing parenthesis.
#[cycle(exprs)]
#[tactic(auto, using(ddl_tree::proofs::Layers::layers))]
pub(crate) fn put_list(text: &mut Vec<u8>, names: &Names, list: &Expr) -> Result<(), NoMemory>
    ensures { OnOk result (Writes text.old.items
        (λ rest. print_names names.now (print (view list.now) (k.Mark m.CloseParen ∷ rest))) text.new.items) }
{
    put_names(text, names)?;
    put_expr(text, list)?;
    put_mark(text, Mark::CloseParen)
}

/// Writes how often `Many` repeats.
#[cycle(exprs)]
#[tactic(auto, using(ddl_tree::proofs::Layers::layers))]
pub(crate) fn put_bound(text: &mut Vec<u8>, bound: &Bound) -> Result<(), NoMemory>
    ensures { OnOk result (Writes text.old.items (print_bound (bound_view bound.now)) text.new.items) }
{
    match bound {
        Bound::Free => Ok(()),
        Bound::Exactly(times) => put_expr(text, times),
        Bound::AtLeast { low, .. } => {
            put_mark(text, Mark::OpenParen)?;
            put_expr(text, low)?;
            put_mark(text, Mark::DotDot)?;
            put_mark(text, Mark::CloseParen)
        }
        Bound::AtMost { high, .. } => {
            put_mark(text, Mark::OpenParen)?;
            put_mark(text, Mark::DotDot)?;
            put_expr(text, high)?;
            put_mark(text, Mark::CloseParen)
        }
        Bound::Between { low, high, .. } => {
            put_mark(text, Mark::OpenParen)?;
            put_expr(text, low)?;
            put_mark(text, Mark::DotDot)?;
            put_expr(text, high)?;
            put_mark(text, Mark::CloseParen)
        }
    }
}
