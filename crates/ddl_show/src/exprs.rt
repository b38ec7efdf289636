ghost use Rattle.std.specs.Prelude.{◌≡◌, ◌∷◌, OnOk};
ghost use Rattle.ddl_token.specs.declared.token.Tok.TheVariants as k;
ghost use Rattle.ddl_tree.specs.ExprTree as ex;
ghost use Rattle.ddl_tree.specs.Spans.{nowhere};
ghost use Rattle.ddl_tree.specs.View.{view, type_view, typed_view, class_view};
ghost use Rattle.ddl_tree.specs.Print.{print};
ghost use Rattle.ddl_show.specs.Writes.{Writes};

use crate::blocks::{put_block, put_branches, put_choice, put_subject};
use crate::classes::put_class;
use crate::lists::{put_args, put_array, put_record};
use crate::loops::{put_bound, put_list, put_map_list, put_state};
use crate::operators::{cast_word, infix_mark, many_word, optional_word, prefix_mark};
use crate::patterns::put_shape;
use crate::tokens::{put_char, put_mark, put_name, put_number, put_text, put_word};
use crate::types::{put_type, put_typed};
use ddl_base::NoMemory;
use ddl_token::{Mark, Word};
use ddl_tree::{CastOp, Cls, Expr, Name, Shape, TypeExpr};

/// Writes an expression.
#[cycle(exprs)]
#[tactic(auto, using(ddl_tree::proofs::Layers::layers))]
pub(crate) fn put_expr(text: &mut Vec<u8>, expr: &Expr) -> Result<(), NoMemory>
    ensures { OnOk result (Writes text.old.items (print (view expr.now)) text.new.items) }
{
    match expr {
        Expr::Infix {
            op,
            left,
            right,
            ..
        } => {
            put_expr(text, left)?;
            put_marked(text, infix_mark(*op), right)
        }
        Expr::Pure { value, .. } => put_marked(text, Mark::Caret, value),
        Expr::If {
            condition,
            then,
            otherwise,
            ..
        } => {
            put_worded(text, Word::If, condition)?;
            put_worded(text, Word::Then, then)?;
            put_worded(text, Word::Else, otherwise)
        }
        Expr::For {
            state,
            start,
            names,
            list,
            body,
            ..
        } => {
            put_state(text, state, start)?;
            put_list(text, names, list)?;
            put_expr(text, body)
        }
        Expr::Map {
            names,
            list,
            body,
            ..
        } => {
            put_map_list(text, names, list)?;
            put_expr(text, body)
        }
        Expr::Is { value, shape, .. } => put_is(text, value, shape),
        Expr::Prefix { op, operand, .. } => put_marked(text, prefix_mark(*op), operand),
        Expr::Cast {
            op,
            value,
            target,
            ..
        } => put_cast(text, *op, value, target),
        Expr::CallGrammar { name, args, .. } | Expr::CallValue { name, args, .. } => {
            put_name(text, name.text.get())?;
            put_args(text, args)
        }
        Expr::Just { content, .. } => put_worded(text, Word::Just, content),
        Expr::Many {
            bias,
            bound,
            body,
            ..
        } => {
            put_word(text, many_word(*bias))?;
            put_bound(text, bound)?;
            put_expr(text, body)
        }
        Expr::Optional { bias, body, .. } => put_worded(text, optional_word(*bias), body),
        Expr::Select { value, field, .. } => put_select(text, value, field),
        Expr::Num(number) => put_number(text, number),
        Expr::Char { value, .. } => put_char(text, *value),
        Expr::Text { bytes, .. } => put_text(text, bytes.get()),
        Expr::True(_) => put_word(text, Word::True),
        Expr::False(_) => put_word(text, Word::False),
        Expr::Nothing(_) => put_word(text, Word::Nothing),
        Expr::Upper(name) | Expr::Lower(name) | Expr::Class(name) => put_name(
            text,
            name.text.get(),
        ),
        Expr::Set { class, .. } => put_set(text, class),
        Expr::Paren { inner, typed, .. } => put_paren(text, inner, typed),
        Expr::Array { elements, .. } => put_array(text, elements),
        Expr::RecordOf { fields, .. } => put_record(text, fields),
        Expr::Tagged {
            tag,
            content: None,
            ..
        } => put_tag(text, tag),
        Expr::Tagged {
            tag,
            content: Some(content),
            ..
        } => put_tag_with(text, tag, content),
        Expr::Block { items, .. } => put_block(text, items),
        Expr::Choice {
            bias,
            alternatives,
            ..
        } => put_choice(text, *bias, alternatives),
        Expr::Case { subject, alts, .. } => {
            put_subject(text, subject)?;
            put_branches(text, alts)
        }
    }
}

/// Writes a mark and an expression.
#[cycle(exprs)]
#[tactic(auto, using(ddl_tree::proofs::Layers::layers))]
fn put_marked(text: &mut Vec<u8>, mark: Mark, expr: &Expr) -> Result<(), NoMemory>
    ensures { OnOk result (Writes text.old.items (λ rest. k.Mark mark ∷ print (view expr.now) rest) text.new.items) }
{
    put_mark(text, mark)?;
    put_expr(text, expr)
}

/// Writes a word and an expression.
#[cycle(exprs)]
#[tactic(auto, using(ddl_tree::proofs::Layers::layers))]
fn put_worded(text: &mut Vec<u8>, word: Word, expr: &Expr) -> Result<(), NoMemory>
    ensures { OnOk result (Writes text.old.items (λ rest. k.Word word ∷ print (view expr.now) rest) text.new.items) }
{
    put_word(text, word)?;
    put_expr(text, expr)
}

/// Writes a test of a value's form.
#[cycle(exprs)]
#[tactic(auto, using(ddl_tree::proofs::Layers::layers))]
fn put_is(text: &mut Vec<u8>, value: &Expr, shape: &Shape) -> Result<(), NoMemory>
    ensures { OnOk result (Writes text.old.items (print (ex.Is (view value.now) shape.now nowhere)) text.new.items) }
{
    put_expr(text, value)?;
    put_word(text, Word::Is)?;
    put_shape(text, shape)
}

/// Writes a cast.
#[cycle(exprs)]
#[tactic(auto, using(ddl_tree::proofs::Layers::layers))]
fn put_cast(text: &mut Vec<u8>, op: CastOp, value: &Expr, target: &TypeExpr) -> Result<(), NoMemory>
    ensures { OnOk result (Writes text.old.items (print (ex.Cast op (view value.now) (type_view target.now) nowhere))
        text.new.items) }
{
    put_expr(text, value)?;
    put_word(text, cast_word(op))?;
    put_type(text, target)
}

/// Writes a field of a value.
#[cycle(exprs)]
#[tactic(auto, using(ddl_tree::proofs::Layers::layers))]
fn put_select(text: &mut Vec<u8>, value: &Expr, field: &Name) -> Result<(), NoMemory>
    ensures { OnOk result (Writes text.old.items (print (ex.Select (view value.now) field.now nowhere)) text.new.items) }
{
    put_expr(text, value)?;
    put_mark(text, Mark::Dot)?;
    put_name(text, field.text.get())
}

/// Writes a class between brackets.
fn put_set(text: &mut Vec<u8>, class: &Cls) -> Result<(), NoMemory>
    ensures { OnOk result (Writes text.old.items (print (ex.Set (class_view class.now) nowhere)) text.new.items) }
{
    put_mark(text, Mark::DollarBracket)?;
    put_class(text, class)?;
    put_mark(text, Mark::CloseBracket)
}

/// Writes an expression between parentheses, with a type where there is one.
#[cycle(exprs)]
#[tactic(auto, using(ddl_tree::proofs::Layers::layers))]
fn put_paren(text: &mut Vec<u8>, inner: &Expr, typed: &Option<TypeExpr>) -> Result<(), NoMemory>
    ensures { OnOk result (Writes text.old.items (print (ex.Paren (view inner.now) (typed_view typed.now) nowhere))
        text.new.items) }
{
    put_mark(text, Mark::OpenParen)?;
    put_expr(text, inner)?;
    put_typed(text, typed)?;
    put_mark(text, Mark::CloseParen)
}

/// Writes a tag alone.
fn put_tag(text: &mut Vec<u8>, tag: &Name) -> Result<(), NoMemory>
    ensures { OnOk result (Writes text.old.items (print (ex.Tag tag.now nowhere)) text.new.items) }
{
    put_mark(text, Mark::OpenUnion)?;
    put_name(text, tag.text.get())?;
    put_mark(text, Mark::CloseUnion)
}

/// Writes a tag and its content.
#[cycle(exprs)]
#[tactic(auto, using(ddl_tree::proofs::Layers::layers))]
fn put_tag_with(text: &mut Vec<u8>, tag: &Name, content: &Expr) -> Result<(), NoMemory>
    ensures { OnOk result (Writes text.old.items (print (ex.TagWith tag.now (view content.now) nowhere)) text.new.items) }
{
    put_mark(text, Mark::OpenUnion)?;
    put_name(text, tag.text.get())?;
    put_mark(text, Mark::Equals)?;
    put_expr(text, content)?;
    put_mark(text, Mark::CloseUnion)
}
