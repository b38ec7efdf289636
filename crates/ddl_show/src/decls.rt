ghost use Rattle.std.specs.Prelude.{◌≡◌, ◌++◌, [], ◌∷◌, map, OnOk};
ghost use Rattle.ddl_token.specs.declared.token.Tok.TheVariants as k;
ghost use Rattle.ddl_token.specs.declared.mark.Mark.TheVariants as m;
ghost use Rattle.ddl_tree.specs.ModuleTree as tree;
ghost use Rattle.ddl_tree.specs.Spans.{nowhere};
ghost use Rattle.ddl_tree.specs.View.{view, type_view, typed_view};
ghost use Rattle.ddl_tree.specs.ViewModule.{param_view, part_view, bits_view, con_view, decl_view};
ghost use Rattle.ddl_tree.specs.Print.{print, print_typed};
ghost use Rattle.ddl_tree.specs.PrintModule.{print_param, print_params, print_part, print_parts, print_bits, print_con};
ghost use Rattle.ddl_tree.specs.PrintModule.{print_cons, print_decl};
ghost use Rattle.ddl_show.specs.Writes.{Begins, Writes};

use crate::classes::put_class;
use crate::exprs::put_expr;
use crate::tokens::{begin_line, put_mark, put_name, put_number, put_word};
use crate::types::{put_type, put_typed};
use ddl_base::NoMemory;
use ddl_token::{Mark, Word};
use ddl_tree::{Bits, Con, Decl, Expr, Name, Param, Part, TypeExpr};

/// Writes a name with its type, in parentheses.
fn put_typed_name(text: &mut Vec<u8>, name: &Name, of: &TypeExpr) -> Result<(), NoMemory>
    ensures upper { OnOk result (Writes text.old.items
        (print_param (tree.TypedUpper name.now (type_view of.now) nowhere)) text.new.items) }
    ensures lower { OnOk result (Writes text.old.items
        (print_param (tree.TypedLower name.now (type_view of.now) nowhere)) text.new.items) }
{
    put_mark(text, Mark::OpenParen)?;
    put_name(text, name.text.get())?;
    put_mark(text, Mark::Colon)?;
    put_type(text, of)?;
    put_mark(text, Mark::CloseParen)
}

/// Writes a parameter.
fn put_param(text: &mut Vec<u8>, param: &Param) -> Result<(), NoMemory>
    ensures { OnOk result (Writes text.old.items (print_param (param_view param.now)) text.new.items) }
{
    match param {
        Param::Upper(name) | Param::Lower(name) | Param::Class(name) => put_name(
            text,
            name.text.get(),
        ),
        Param::TypedUpper { name, of, .. } | Param::TypedLower { name, of, .. } => put_typed_name(
            text, name, of,
        ),
    }
}

/// Writes parameters, one after another.
#[tactic(auto, using(crate::proofs::Declared::parts))]
fn put_params(text: &mut Vec<u8>, params: &[Param]) -> Result<(), NoMemory>
    ensures { OnOk result (Writes text.old.items (print_params (map param_view params.now)) text.new.items) }
{
    for param in params {
        put_param(text, param)?;
    }
    Ok(())
}

/// Writes a part of a layout.
fn put_part(text: &mut Vec<u8>, part: &Part) -> Result<(), NoMemory>
    ensures { OnOk result (Writes text.old.items (print_part (part_view part.now)) text.new.items) }
{
    match part {
        Part::Fixed(number) => put_number(text, number),
        Part::Named { name, of, .. } => {
            put_name(text, name.text.get())?;
            put_mark(text, Mark::Colon)?;
            put_type(text, of)
        }
        Part::Unnamed { of, .. } => {
            put_mark(text, Mark::Underscore)?;
            put_mark(text, Mark::Colon)?;
            put_type(text, of)
        }
    }
}

/// Writes the parts of a layout, parted by commas.
#[tactic(auto, using(crate::proofs::Declared::parts))]
fn put_parts(text: &mut Vec<u8>, parts: &[Part]) -> Result<(), NoMemory>
    ensures { OnOk result (Writes text.old.items (print_parts (map part_view parts.now)) text.new.items) }
{
    if let Some((first, others)) = parts.split_first() {
        put_part(text, first)?;
        for part in others {
            put_mark(text, Mark::Comma)?;
            put_part(text, part)?;
        }
    }
    Ok(())
}

/// Writes a layout.
fn put_bits(text: &mut Vec<u8>, bits: &Bits) -> Result<(), NoMemory>
    ensures { OnOk result (Writes text.old.items (print_bits (bits_view bits.now)) text.new.items) }
{
    match bits {
        Bits::Exactly(number) => put_number(text, number),
        Bits::Parts { parts, .. } => {
            put_mark(text, Mark::OpenBrace)?;
            put_parts(text, parts)?;
            put_mark(text, Mark::CloseBrace)
        }
    }
}

/// Writes a constructor.
fn put_con(text: &mut Vec<u8>, con: &Con) -> Result<(), NoMemory>
    ensures { OnOk result (Writes text.old.items (print_con (con_view con.now)) text.new.items) }
{
    put_name(text, con.name.text.get())?;
    put_mark(text, Mark::Equals)?;
    put_bits(text, &con.bits)
}

/// Writes constructors, parted by semicolons.
#[tactic(auto, using(crate::proofs::Declared::parts))]
fn put_cons(text: &mut Vec<u8>, cons: &[Con]) -> Result<(), NoMemory>
    ensures { OnOk result (Writes text.old.items (print_cons (map con_view cons.now)) text.new.items) }
{
    if let Some((first, others)) = cons.split_first() {
        put_con(text, first)?;
        for con in others {
            put_mark(text, Mark::Semicolon)?;
            put_con(text, con)?;
        }
    }
    Ok(())
}

/// Writes parameters, the type of the result where there is one, and what a declaration stands for.
fn put_body(
    text: &mut Vec<u8>,
    params: &[Param],
    of: &Option<TypeExpr>,
    body: &Expr,
) -> Result<(), NoMemory>
    ensures { OnOk result (Writes text.old.items (λ rest. print_params (map param_view params.now)
        (print_typed (typed_view of.now) (k.Mark m.Equals ∷ print (view body.now) rest))) text.new.items) }
{
    put_params(text, params)?;
    put_typed(text, of)?;
    put_mark(text, Mark::Equals)?;
    put_expr(text, body)
}

/// Begins a line with a declaration.
pub(crate) fn put_decl(text: &mut Vec<u8>, decl: &Decl) -> Result<(), NoMemory>
    ensures { OnOk result (Begins text.old.items (print_decl (decl_view decl.now)) text.new.items) }
{
    match decl {
        Decl::Grammar {
            name,
            params,
            result,
            body,
            ..
        }
        | Decl::Value {
            name,
            params,
            result,
            body,
            ..
        } => {
            begin_line(text, Word::Def)?;
            put_name(text, name.text.get())?;
            put_body(text, params, result, body)
        }
        Decl::Class { name, body, .. } => {
            begin_line(text, Word::Def)?;
            put_name(text, name.text.get())?;
            put_mark(text, Mark::Equals)?;
            put_class(text, body)
        }
        Decl::Bits { name, bits, .. } => {
            begin_line(text, Word::Bitdata)?;
            put_name(text, name.text.get())?;
            put_mark(text, Mark::Equals)?;
            put_bits(text, bits)
        }
        Decl::BitsUnion { name, cons, .. } => {
            begin_line(text, Word::Bitdata)?;
            put_name(text, name.text.get())?;
            put_word(text, Word::Where)?;
            put_mark(text, Mark::OpenBrace)?;
            put_cons(text, cons)?;
            put_mark(text, Mark::CloseBrace)
        }
    }
}
