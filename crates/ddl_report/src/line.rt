ghost use Rattle.std.specs.Prelude.{◌≡◌, false, IfOk};
ghost use Rattle.serde_json.specs.View.{view};
ghost use Rattle.serde_json.specs.Written.{has_float};
ghost use Rattle.ddl_types.specs.Plain.{IsPaired};
ghost use Rattle.ddl_types.specs.PlainView.{plain_view};
ghost use Rattle.ddl_report.specs.Values.{plain_data};
ghost use Rattle.ddl_report.specs.Lines.{line_text, parse_data};

use crate::names::place_name;
use crate::object::put_text;
use crate::values::plain_value;
use ddl_base::NoMemory;
use ddl_types::Plain;
use serde_json::{Map, Value, put};
use std::alloc::Global;

/// A value's text and a newline.
pub(crate) fn line_of(alloc: Global, value: &Value) -> Result<Vec<u8>, NoMemory>
    requires { has_float (view value.now) ≡ false }
    ensures { IfOk result (λ line. line.items ≡ line_text (view value.now)) }
{
    let mut line = value.to_vec(alloc)?;
    line.push(b'\n')?;
    Ok(line)
}

/// The members of a parse.
fn parse_value(alloc: Global, end: u64, in_input: bool, value: Value) -> Result<Value, NoMemory>
    ensures { IfOk result (λ v. view v ≡ parse_data end in_input (view value)) }
{
    let mut members = Map::new(alloc);
    put(&mut members, alloc, "end", Value::from(end))?;
    put_text(&mut members, alloc, "in", place_name(in_input))?;
    put(&mut members, alloc, "value", value)?;
    Ok(Value::Object(members))
}

/// The line of a parse: its value, and the offset in bytes at which it ends, in the input or in an array. In the value
/// the two lists of each record and of each map have one length.
#[tactic(auto, using(crate::proofs::LineLemmas::line_lemmas))]
pub fn line_of_parse(
    alloc: Global,
    end: u64,
    in_input: bool,
    value: &Plain,
) -> Result<Vec<u8>, NoMemory>
    requires { IsPaired (plain_view value.now) }
    ensures { IfOk result (λ line. line.items
        ≡ line_text (parse_data end in_input (plain_data (plain_view value.now)))) }
{
    let parse = parse_value(alloc, end, in_input, plain_value(alloc, value)?)?;
    line_of(alloc, &parse)
}
