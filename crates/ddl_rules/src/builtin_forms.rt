//! The forms of built-in names.

ghost use Rattle.std.specs.Prelude.{◌≡◌, IfOk, map};
ghost use Rattle.ddl_typed.specs.Tree as t;
ghost use Rattle.ddl_typed.specs.View.{exprs_of, form_view, view};
ghost use Rattle.ddl_rules.specs.BuiltInTypes.{builtin_form, matched};

use ddl_base::NoMemory;
use ddl_kinds::BuiltIn;
use ddl_ops::{Builtin, Primitive};
use ddl_typed::{TExpr, TForm};
use std::alloc::Global;

#[tactic(auto, using(ddl_typed::proofs::Layers::layers))]
fn primitive_form(primitive: Primitive, arguments: Vec<TExpr>) -> TForm
    ensures { form_view result ≡ t.primitive primitive (exprs_of (map view arguments.items)) }
{
    TForm::Primitive {
        primitive,
        arguments,
    }
}

#[tactic(auto, using(ddl_typed::proofs::Layers::layers))]
fn value_form(builtin: Builtin, arguments: Vec<TExpr>) -> TForm
    ensures { form_view result ≡ t.builtin builtin (exprs_of (map view arguments.items)) }
{
    TForm::Builtin { builtin, arguments }
}

// `Match` of its one argument.
#[tactic(auto, using(ddl_typed::proofs::Layers::layers, crate::proofs::Matched::not_one))]
fn match_form(alloc: Global, mut arguments: Vec<TExpr>) -> Result<TForm, NoMemory>
    ensures { IfOk result (λ f. form_view f ≡ matched (map view arguments.items)) }
{
    if arguments.len() != 1 {
        return Ok(TForm::UInt8);
    }
    match arguments.pop() {
        Some(only) => Ok(TForm::Match(Box::new(alloc, only)?)),
        None => Ok(TForm::UInt8),
    }
}

#[tactic(auto, using(ddl_typed::proofs::Layers::layers))]
fn next_byte() -> TForm
    ensures { form_view result ≡ t.uint8 }
{
    TForm::UInt8
}

#[tactic(auto, using(ddl_typed::proofs::Layers::layers))]
fn at_end() -> TForm
    ensures { form_view result ≡ t.end }
{
    TForm::End
}

#[tactic(auto, using(ddl_typed::proofs::Layers::layers))]
fn failing(text: u32) -> TForm
    ensures { form_view result ≡ t.fail text }
{
    TForm::Fail(text)
}

/// The form of a built-in name with its arguments. That of `Fail` has the number of its text.
pub fn builtin_form(
    alloc: Global,
    builtin: BuiltIn,
    text: u32,
    arguments: Vec<TExpr>,
) -> Result<TForm, NoMemory>
    ensures { IfOk result (λ f. form_view f ≡ builtin_form builtin text (map view arguments.items)) }
{
    match builtin {
        BuiltIn::UInt8 => Ok(next_byte()),
        BuiltIn::End => Ok(at_end()),
        BuiltIn::Fail => Ok(failing(text)),
        BuiltIn::Match => match_form(alloc, arguments),
        BuiltIn::GetStream => Ok(primitive_form(Primitive::GetStream, arguments)),
        BuiltIn::Offset => Ok(primitive_form(Primitive::Offset, arguments)),
        BuiltIn::SetStream => Ok(primitive_form(Primitive::SetStream, arguments)),
        BuiltIn::Take => Ok(primitive_form(Primitive::Take, arguments)),
        BuiltIn::Drop => Ok(primitive_form(Primitive::Drop, arguments)),
        BuiltIn::Index => Ok(primitive_form(Primitive::Index, arguments)),
        BuiltIn::Lookup => Ok(primitive_form(Primitive::Lookup, arguments)),
        BuiltIn::Insert => Ok(primitive_form(Primitive::Insert, arguments)),
        BuiltIn::Length => Ok(value_form(Builtin::Length, arguments)),
        BuiltIn::Concat => Ok(value_form(Builtin::Concat, arguments)),
        BuiltIn::ArrayStream => Ok(value_form(Builtin::ArrayStream, arguments)),
        BuiltIn::BytesOfStream => Ok(value_form(Builtin::BytesOfStream, arguments)),
        BuiltIn::Empty => Ok(value_form(Builtin::Empty, arguments)),
        BuiltIn::Put => Ok(value_form(Builtin::InsertInto, arguments)),
        BuiltIn::Seek => Ok(value_form(Builtin::LookupIn, arguments)),
    }
}
