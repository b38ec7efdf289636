//! Lists of expressions, and of names with values.

ghost use Rattle.std.specs.Prelude.{◌≡◌, ◌∷◌, OnOk};
ghost use Rattle.ddl_token.specs.declared.token.Tok.TheVariants as k;
ghost use Rattle.ddl_token.specs.declared.mark.Mark.TheVariants as m;
ghost use Rattle.ddl_tree.specs.ExprTree as ex;
ghost use Rattle.ddl_tree.specs.Spans.{nowhere};
ghost use Rattle.ddl_tree.specs.View.{binding_view, exprs_view, bindings_view};
ghost use Rattle.ddl_tree.specs.Print.{lower, print, print_args, print_exprs, print_bindings};
ghost use Rattle.ddl_show.specs.Writes.{Writes};

use crate::exprs::put_expr;
use crate::tokens::{put_mark, put_name};
use ddl_base::NoMemory;
use ddl_token::Mark;
use ddl_tree::{Binding, Expr};

/// Writes expressions, one after another.
#[cycle(exprs)]
#[tactic(auto, using(ddl_tree::proofs::Layers::layers, crate::proofs::Parts::parts))]
pub(crate) fn put_args(text: &mut Vec<u8>, args: &[Expr]) -> Result<(), NoMemory>
    ensures { OnOk result (Writes text.old.items (print_args (exprs_view args.now)) text.new.items) }
{
    for arg in args {
        put_expr(text, arg)?;
    }
    Ok(())
}

/// Writes an array.
#[cycle(exprs)]
#[tactic(auto, using(ddl_tree::proofs::Layers::layers))]
pub(crate) fn put_array(text: &mut Vec<u8>, elements: &[Expr]) -> Result<(), NoMemory>
    ensures { OnOk result (Writes text.old.items (print (ex.Array (exprs_view elements.now) nowhere)) text.new.items) }
{
    put_mark(text, Mark::OpenBracket)?;
    put_exprs(text, elements, Mark::Comma)?;
    put_mark(text, Mark::CloseBracket)
}

/// Writes expressions, parted by a mark.
#[cycle(exprs)]
#[tactic(auto, using(ddl_tree::proofs::Layers::layers, crate::proofs::Parts::parts))]
pub(crate) fn put_exprs(text: &mut Vec<u8>, exprs: &[Expr], by: Mark) -> Result<(), NoMemory>
    ensures { OnOk result (Writes text.old.items (print_exprs (exprs_view exprs.now) by) text.new.items) }
{
    if let Some((first, others)) = exprs.split_first() {
        put_expr(text, first)?;
        for expr in others {
            put_mark(text, by)?;
            put_expr(text, expr)?;
        }
    }
    Ok(())
}

/// Writes a record.
#[cycle(exprs)]
#[tactic(auto, using(ddl_tree::proofs::Layers::layers))]
pub(crate) fn put_record(text: &mut Vec<u8>, fields: &[Binding]) -> Result<(), NoMemory>
    ensures { OnOk result (Writes text.old.items (print (ex.RecordOf (bindings_view fields.now) nowhere))
        text.new.items) }
{
    put_mark(text, Mark::OpenBrace)?;
    put_bindings(text, fields, Mark::Comma)?;
    put_mark(text, Mark::CloseBrace)
}

/// Writes names and their values, parted by a mark.
#[cycle(exprs)]
#[tactic(auto, using(ddl_tree::proofs::Layers::layers, crate::proofs::Parts::parts))]
pub(crate) fn put_bindings(
    text: &mut Vec<u8>,
    bindings: &[Binding],
    by: Mark,
) -> Result<(), NoMemory>
    ensures { OnOk result (Writes text.old.items (print_bindings (bindings_view bindings.now) by) text.new.items) }
{
    if let Some((first, others)) = bindings.split_first() {
        put_binding(text, first)?;
        for binding in others {
            put_mark(text, by)?;
            put_binding(text, binding)?;
        }
    }
    Ok(())
}

/// Writes a name and its value.
#[cycle(exprs)]
#[tactic(auto, using(ddl_tree::proofs::Layers::layers))]
fn put_binding(text: &mut Vec<u8>, binding: &Binding) -> Result<(), NoMemory>
    ensures { OnOk result (Writes text.old.items
        (λ rest. lower (binding_view binding.now).name ∷ k.Mark m.Equals ∷ print (binding_view binding.now).value rest) text.new.items) }
{
    put_name(text, binding.name.text.get())?;
    put_mark(text, Mark::Equals)?;
    put_expr(text, &binding.value)
}
