ghost use Rattle.std.specs.Prelude.{◌≡◌, ◌++◌, [], codes, length, if◌then◌else◌, IfOk, OnOk};
ghost use Rattle.serde_json.specs.Data.{array, object, no_members, put as with_member};
ghost use Rattle.serde_json.specs.View.{view, items_view, members_view};
ghost use Rattle.ddl_types.specs.Plain.{ArePaired, IsPaired, is_hidden};
ghost use Rattle.ddl_types.specs.PlainView.{plain_view, plains_view};
ghost use Rattle.ddl_report.specs.Names.{shown};
ghost use Rattle.ddl_report.specs.Values.{entries_data, entry_data, fields_data, only, plain_data, plains_data};
ghost use Rattle.ddl_report.specs.Values.{stream_data};

use crate::names::{name_text, place_name};
use crate::numbers::number_value;
use crate::object::{only_value, put_text};
use ddl_base::{Bytes, NoMemory};
use ddl_types::Plain;
use serde_json::{Map, Value, put};
use std::alloc::Global;

fn stream_value(alloc: Global, in_input: bool, from: u64, to: u64) -> Result<Value, NoMemory>
    ensures { IfOk result (λ v. view v ≡ stream_data in_input from to) }
{
    let mut members = Map::new(alloc);
    put(&mut members, alloc, "from", Value::from(from))?;
    put_text(&mut members, alloc, "in", place_name(in_input))?;
    put(&mut members, alloc, "to", Value::from(to))?;
    only_value(alloc, "$stream", Value::Object(members))
}

fn union_value(alloc: Global, tag: &Bytes, value: Value) -> Result<Value, NoMemory>
    ensures { IfOk result (λ v. view v ≡ only (codes "$" ++ shown tag.now) (view value)) }
{
    let mut key = String::from_str(alloc, "$")?;
    let tag = name_text(alloc, tag.get())?;
    key.push_str(tag.as_str())?;
    only_value(alloc, key.as_str(), value)
}

/// Puts a field into the members, unless its name is `_`.
fn put_field(
    members: &mut Map<String, Value>,
    alloc: Global,
    name: &Bytes,
    value: Value,
) -> Result<(), NoMemory>
    ensures { OnOk result (members_view members.new.entries ≡ (if is_hidden name.now
        then members_view members.old.entries
        else with_member (shown name.now) (view value) (members_view members.old.entries))) }
{
    if name.get() != b"_".as_slice() {
        let name = name_text(alloc, name.get())?;
        put(members, alloc, name.as_str(), value)?;
    }
    Ok(())
}

/// An entry of a map, as a list of its key and its value.
fn entry_value(alloc: Global, key: Value, value: Value) -> Result<Value, NoMemory>
    ensures { IfOk result (λ v. view v ≡ entry_data (view key) (view value)) }
{
    let mut entry = Vec::with_capacity(alloc, 2)?;
    entry.push(key)?;
    entry.push(value)?;
    Ok(Value::Array(entry))
}

/// The entries of a map, from its keys and its values.
fn entries_value(
    alloc: Global,
    keys: Vec<Value>,
    values: Vec<Value>,
) -> Result<Vec<Value>, NoMemory>
    ensures { IfOk result (λ v. items_view v.items
        ≡ entries_data (items_view keys.items) (items_view values.items)) }
{
    let mut entries = Vec::with_capacity(alloc, keys.len())?;
    for (key, value) in keys.into_iter().zip(values) {
        entries.push(entry_value(alloc, key, value)?)?;
    }
    Ok(entries)
}

/// The JSON of a value.
#[cycle(plain)]
#[tactic(auto, using(crate::proofs::ValueLemmas::value_lemmas))]
pub(crate) fn plain_value(alloc: Global, value: &Plain) -> Result<Value, NoMemory>
    requires { IsPaired (plain_view value.now) }
    ensures { IfOk result (λ v. view v ≡ plain_data (plain_view value.now)) }
{
    match value {
        Plain::Unit => Ok(Value::Object(Map::new(alloc))),
        Plain::Bool(truth) => Ok(Value::Bool(*truth)),
        Plain::Num(number) => Ok(number_value(alloc, *number)?),
        Plain::Nothing => Ok(Value::Null),
        Plain::Just(part) => Ok(only_value(alloc, "$just", plain_value(alloc, part)?)?),
        Plain::Record { names, values } => {
            Ok(Value::Object(fields_value(alloc, names, values)?))
        }
        Plain::Union { tag, value } => Ok(union_value(alloc, tag, plain_value(alloc, value)?)?),
        Plain::Array(items) => Ok(Value::Array(items_value(alloc, items)?)),
        Plain::Map { keys, values } => {
            let keys = items_value(alloc, keys)?;
            let values = items_value(alloc, values)?;
            let entries = entries_value(alloc, keys, values)?;
            Ok(only_value(alloc, "$map", Value::Array(entries))?)
        }
        Plain::Stream { in_input, from, to } => Ok(stream_value(alloc, *in_input, *from, *to)?),
    }
}

#[cycle(plain)]
#[tactic(auto, using(crate::proofs::ValueLemmas::value_lemmas))]
fn items_value(alloc: Global, items: &[Plain]) -> Result<Vec<Value>, NoMemory>
    requires { ArePaired (plains_view items.now) }
    ensures { IfOk result (λ v. items_view v.items ≡ plains_data (plains_view items.now)) }
{
    let mut made = Vec::with_capacity(alloc, items.len())?;
    for item in items {
        made.push(plain_value(alloc, item)?)?;
    }
    Ok(made)
}

#[cycle(plain)]
#[tactic(auto, using(crate::proofs::ValueLemmas::value_lemmas))]
fn fields_value(
    alloc: Global,
    names: &[Bytes],
    values: &[Plain],
) -> Result<Map<String, Value>, NoMemory>
    requires lengths { length names.now ≡ length values.now }
    requires paired { ArePaired (plains_view values.now) }
    ensures { IfOk result (λ m. members_view m.entries
        ≡ fields_data (plains_view values.now) names.now no_members) }
{
    let mut members = Map::new(alloc);
    for (at, value) in values.iter().enumerate() {
        let value = plain_value(alloc, value)?;
        put_field(&mut members, alloc, &names[at], value)?;
    }
    Ok(members)
}
