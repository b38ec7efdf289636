//! What stands between braces: the parts of a block, and alternatives.

ghost use Rattle.std.specs.Prelude.{◌≡◌, ◌∷◌, OnOk};
ghost use Rattle.ddl_token.specs.declared.token.Tok.TheVariants as k;
ghost use Rattle.ddl_token.specs.declared.mark.Mark.TheVariants as m;
ghost use Rattle.ddl_token.specs.declared.word.Word.TheVariants as w;
ghost use Rattle.ddl_tree.specs.ExprTree as ex;
ghost use Rattle.ddl_tree.specs.Spans.{nowhere};
ghost use Rattle.ddl_tree.specs.View.{view, alternatives_view, item_view, alt_view, items_view, alts_view};
ghost use Rattle.ddl_tree.specs.Print.{print, print_alternatives, print_item, print_items, print_alts, print_pattern};
ghost use Rattle.ddl_show.specs.Writes.{Writes};

use crate::exprs::put_expr;
use crate::lists::{put_bindings, put_exprs};
use crate::operators::choice_word;
use crate::patterns::put_pattern;
use crate::tokens::{put_mark, put_name, put_word};
use ddl_base::NoMemory;
use ddl_token::{Mark, Word};
use ddl_tree::{Alt, Alternatives, Bias, Expr, Item};

/// Writes a block.
#[cycle(exprs)]
#[tactic(auto, using(ddl_tree::proofs::Layers::layers))]
pub(crate) fn put_block(text: &mut Vec<u8>, items: &[Item]) -> Result<(), NoMemory>
    ensures { OnOk result (Writes text.old.items (print (ex.Block (items_view items.now) nowhere)) text.new.items) }
{
    put_word(text, Word::Block)?;
    put_mark(text, Mark::OpenBrace)?;
    put_items(text, items)?;
    put_mark(text, Mark::CloseBrace)
}

/// Writes the parts of a block, parted by semicolons.
#[cycle(exprs)]
#[tactic(auto, using(ddl_tree::proofs::Layers::layers, crate::proofs::Parts::parts))]
fn put_items(text: &mut Vec<u8>, items: &[Item]) -> Result<(), NoMemory>
    ensures { OnOk result (Writes text.old.items (print_items (items_view items.now)) text.new.items) }
{
    if let Some((first, others)) = items.split_first() {
        put_item(text, first)?;
        for item in others {
            put_mark(text, Mark::Semicolon)?;
            put_item(text, item)?;
        }
    }
    Ok(())
}

/// Writes a part of a block.
#[cycle(exprs)]
#[tactic(auto, using(ddl_tree::proofs::Layers::layers))]
fn put_item(text: &mut Vec<u8>, item: &Item) -> Result<(), NoMemory>
    ensures { OnOk result (Writes text.old.items (print_item (item_view item.now)) text.new.items) }
{
    match item {
        Item::Result { value, .. } => {
            put_mark(text, Mark::DollarDollar)?;
            put_mark(text, Mark::Equals)?;
            put_expr(text, value)
        }
        Item::Let { name, value, .. } => {
            put_word(text, Word::Let)?;
            put_name(text, name.text.get())?;
            put_mark(text, Mark::Equals)?;
            put_expr(text, value)
        }
        Item::Field { name, value, .. } => {
            put_name(text, name.text.get())?;
            put_mark(text, Mark::Equals)?;
            put_expr(text, value)
        }
        Item::Plain(value) => put_expr(text, value),
    }
}

/// Writes a choice between alternatives.
#[cycle(exprs)]
#[tactic(auto, using(ddl_tree::proofs::Layers::layers))]
pub(crate) fn put_choice(
    text: &mut Vec<u8>,
    bias: Bias,
    alternatives: &Alternatives,
) -> Result<(), NoMemory>
    ensures { OnOk result (Writes text.old.items (print (ex.Choice bias (alternatives_view alternatives.now) nowhere))
        text.new.items) }
{
    put_word(text, choice_word(bias))?;
    put_mark(text, Mark::OpenBrace)?;
    put_alternatives(text, alternatives)?;
    put_mark(text, Mark::CloseBrace)
}

/// Writes alternatives, parted by semicolons.
#[cycle(exprs)]
#[tactic(auto, using(ddl_tree::proofs::Layers::layers))]
fn put_alternatives(text: &mut Vec<u8>, alternatives: &Alternatives) -> Result<(), NoMemory>
    ensures { OnOk result (Writes text.old.items (print_alternatives (alternatives_view alternatives.now))
        text.new.items) }
{
    match alternatives {
        Alternatives::WithTags(bindings) => put_bindings(text, bindings, Mark::Semicolon),
        Alternatives::Untagged(exprs) => put_exprs(text, exprs, Mark::Semicolon),
    }
}

/// Writes what a `case` tells apart.
#[cycle(exprs)]
#[tactic(auto, using(ddl_tree::proofs::Layers::layers))]
pub(crate) fn put_subject(text: &mut Vec<u8>, subject: &Expr) -> Result<(), NoMemory>
    ensures { OnOk result (Writes text.old.items (λ rest. k.Word w.Case ∷ print (view subject.now) (k.Word w.Of ∷ rest))
        text.new.items) }
{
    put_word(text, Word::Case)?;
    put_expr(text, subject)?;
    put_word(text, Word::Of)
}

/// Writes the alternatives of a `case` between braces.
#[cycle(exprs)]
#[tactic(auto, using(ddl_tree::proofs::Layers::layers))]
pub(crate) fn put_branches(text: &mut Vec<u8>, alts: &[Alt]) -> Result<(), NoMemory>
    ensures { OnOk result (Writes text.old.items (λ rest.
        k.Mark m.OpenBrace ∷ print_alts (alts_view alts.now) (k.Mark m.CloseBrace ∷ rest)) text.new.items) }
{
    put_mark(text, Mark::OpenBrace)?;
    put_alts(text, alts)?;
    put_mark(text, Mark::CloseBrace)
}

/// Writes the alternatives of a `case`, parted by semicolons.
#[cycle(exprs)]
#[tactic(auto, using(ddl_tree::proofs::Layers::layers, crate::proofs::Parts::parts))]
fn put_alts(text: &mut Vec<u8>, alts: &[Alt]) -> Result<(), NoMemory>
    ensures { OnOk result (Writes text.old.items (print_alts (alts_view alts.now)) text.new.items) }
{
    if let Some((first, others)) = alts.split_first() {
        put_alt(text, first)?;
        for alt in others {
            put_mark(text, Mark::Semicolon)?;
            put_alt(text, alt)?;
        }
    }
    Ok(())
}

/// Writes an alternative of a `case`.
#[cycle(exprs)]
#[tactic(auto, using(ddl_tree::proofs::Layers::layers))]
fn put_alt(text: &mut Vec<u8>, alt: &Alt) -> Result<(), NoMemory>
    ensures { OnOk result (Writes text.old.items
        (λ rest. print_pattern (alt_view alt.now).pattern (k.Mark m.Arrow ∷ print (alt_view alt.now).body rest)) text.new.items) }
{
    put_pattern(text, &alt.pattern)?;
    put_mark(text, Mark::Arrow)?;
    put_expr(text, &alt.body)
}
