ghost use Rattle.std.specs.Prelude.{◌≡◌, ◌∷◌, OnOk};
ghost use Rattle.ddl_tree.specs.Print.{binder_token, shape_token, print_content, print_names, print_pattern};
ghost use Rattle.ddl_tree.specs.Print.{print_second};
ghost use Rattle.ddl_show.specs.Writes.{Writes};

use crate::tokens::{put_char, put_mark, put_name, put_number, put_word};
use ddl_base::NoMemory;
use ddl_token::{Mark, Word};
use ddl_tree::{Binder, Name, Names, Pat, Shape};

/// Writes what the content of a pattern is called.
fn put_binder(text: &mut Vec<u8>, binder: &Binder) -> Result<(), NoMemory>
    ensures { OnOk result (Writes text.old.items (λ rest. binder_token binder.now ∷ rest) text.new.items) }
{
    match binder {
        Binder::Called(name) => put_name(text, name.text.get()),
        Binder::Ignored(_) => put_mark(text, Mark::Underscore),
    }
}

/// Writes what the content of a tag is called, where it is.
fn put_content(text: &mut Vec<u8>, content: &Option<Binder>) -> Result<(), NoMemory>
    ensures { OnOk result (Writes text.old.items (print_content content.now) text.new.items) }
{
    match content {
        None => Ok(()),
        Some(binder) => put_binder(text, binder),
    }
}

/// Writes a pattern.
pub(crate) fn put_pattern(text: &mut Vec<u8>, pattern: &Pat) -> Result<(), NoMemory>
    ensures { OnOk result (Writes text.old.items (print_pattern pattern.now) text.new.items) }
{
    match pattern {
        Pat::Any(_) => put_mark(text, Mark::Underscore),
        Pat::Num(number) => put_number(text, number),
        Pat::Char { value, .. } => put_char(text, *value),
        Pat::True(_) => put_word(text, Word::True),
        Pat::False(_) => put_word(text, Word::False),
        Pat::Nothing(_) => put_word(text, Word::Nothing),
        Pat::Just { content, .. } => {
            put_word(text, Word::Just)?;
            put_binder(text, content)
        }
        Pat::Tag { tag, content, .. } => {
            put_name(text, tag.text.get())?;
            put_content(text, content)
        }
    }
}

/// Writes the form that `is` wants.
pub(crate) fn put_shape(text: &mut Vec<u8>, shape: &Shape) -> Result<(), NoMemory>
    ensures { OnOk result (Writes text.old.items (λ rest. shape_token shape.now ∷ rest) text.new.items) }
{
    match shape {
        Shape::IsTag(name) => put_name(text, name.text.get()),
        Shape::IsTrue(_) => put_word(text, Word::True),
        Shape::IsFalse(_) => put_word(text, Word::False),
        Shape::IsJust(_) => put_word(text, Word::Just),
        Shape::IsNothing(_) => put_word(text, Word::Nothing),
    }
}

/// Writes a second name, where there is one.
fn put_second(text: &mut Vec<u8>, second: &Option<Name>) -> Result<(), NoMemory>
    ensures { OnOk result (Writes text.old.items (print_second second.now) text.new.items) }
{
    match second {
        None => Ok(()),
        Some(name) => {
            put_mark(text, Mark::Comma)?;
            put_name(text, name.text.get())
        }
    }
}

/// Writes the names for the elements of a list, and `in`.
pub(crate) fn put_names(text: &mut Vec<u8>, names: &Names) -> Result<(), NoMemory>
    ensures { OnOk result (Writes text.old.items (print_names names.now) text.new.items) }
{
    put_name(text, names.first.text.get())?;
    put_second(text, &names.second)?;
    put_word(text, Word::In)
}
