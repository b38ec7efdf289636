ghost use Rattle.std.specs.Prelude.{◌≡◌, IfOk, map, nat_lt};
ghost use Rattle.ddl_types.specs.Plain.{deep, deepest};
ghost use Rattle.ddl_types.specs.PlainOf.{plain_of, plain_values};
ghost use Rattle.ddl_types.specs.PlainView.{plain_view};
ghost use Rattle.ddl_typed.specs.SharedView.{shared_view, part_view, part_name, part_plain, part_deep, parts_deep};
ghost use Rattle.ddl_ops.specs.Primitives.{byte_value, byte_values};

use ddl_base::{Bytes, NoMemory};
use ddl_types::{Num, Plain};
use std::alloc::Global;
use std::rc::Rc;

/// A value as the evaluator holds it: all names of it share it.
#[cycle(shared)]
#[derive(Drop)]
pub enum Shared {
    Unit,
    Byte(u8),
    Bytes(Vec<u8>),
    Record(Vec<Part>),
}

/// A field of a record.
#[cycle(shared)]
#[derive(Drop)]
pub struct Part {
    pub name: Bytes,
    pub value: Rc<Shared>,
}

/// The value, to be shared.
pub fn share(alloc: Global, value: Shared) -> Result<Rc<Shared>, NoMemory>
    ensures { IfOk result (λ shared. shared.value ≡ value) }
{
    Ok(Rc::new(alloc, value)?)
}

/// Whether the JSON of the value nests deeper than `room`.
#[cycle(deeper)]
#[tactic(auto, using(crate::proofs::SharedLayers::shared_layers))]
pub fn is_deeper(value: &Shared, room: u32) -> bool
    ensures { result ≡ nat_lt room (deep (plain_of (shared_view value.now))) }
{
    match value {
        Shared::Unit => room < 1,
        Shared::Byte(byte) => is_deeper_byte(*byte, room),
        Shared::Bytes(bytes) => room < 1 || has_deeper_byte(bytes, room - 1),
        Shared::Record(parts) => room < 1 || has_deeper(parts, room - 1),
    }
}

#[tactic(auto, using(crate::proofs::SharedLayers::byte_nesting))]
fn has_deeper_byte(bytes: &[u8], room: u32) -> bool
    ensures { result ≡ nat_lt room (deepest (plain_values (byte_values bytes.now))) }
{
    for byte in bytes {
        if is_deeper_byte(*byte, room) {
            return true;
        }
    }
    false
}

// A byte is a number that JSON writes as it is.
fn is_deeper_byte(byte: u8, room: u32) -> bool
    ensures { result ≡ nat_lt room (deep (plain_of (byte_value byte))) }
{
    false
}

#[cycle(deeper)]
#[tactic(auto, using(crate::proofs::SharedLayers::shared_layers, crate::proofs::SharedLayers::nesting))]
fn has_deeper(parts: &[Part], room: u32) -> bool
    ensures { result ≡ nat_lt room (parts_deep parts.now) }
{
    for part in parts {
        if is_deeper_part(part, room) {
            return true;
        }
    }
    false
}

#[cycle(deeper)]
#[tactic(auto, using(crate::proofs::SharedLayers::shared_layers))]
fn is_deeper_part(part: &Part, room: u32) -> bool
    ensures { result ≡ nat_lt room (part_deep part.now) }
{
    if part.name.get() == b"_".as_slice() {
        false
    } else {
        is_deeper(&part.value, room)
    }
}

/// The value as it is printed.
#[cycle(to_plain)]
#[tactic(auto, using(crate::proofs::SharedLayers::shared_layers, crate::proofs::SharedLayers::record_parts, ddl_types::proofs::PlainLayers::plain_layers))]
pub fn to_plain(alloc: Global, value: &Shared) -> Result<Plain, NoMemory>
    ensures { IfOk result (λ p. plain_view p ≡ plain_of (shared_view value.now)) }
{
    match value {
        Shared::Unit => Ok(Plain::Unit),
        Shared::Byte(byte) => Ok(plain_byte(*byte)),
        Shared::Bytes(bytes) => Ok(Plain::Array(plain_bytes(alloc, bytes)?)),
        Shared::Record(parts) => Ok(Plain::Record {
            names: names(alloc, parts)?,
            values: values(alloc, parts)?,
        }),
    }
}

#[tactic(auto, using(ddl_types::proofs::PlainLayers::plain_layers))]
fn plain_byte(byte: u8) -> Plain
    ensures { plain_view result ≡ plain_of (byte_value byte) }
{
    Plain::Num(Num::Uint(u128::from(byte)))
}

fn plain_bytes(alloc: Global, bytes: &[u8]) -> Result<Vec<Plain>, NoMemory>
    ensures { IfOk result (λ v. map plain_view v.items ≡ map (λ b. plain_of (byte_value b)) bytes.now) }
{
    let mut plains = Vec::new(alloc);
    for byte in bytes {
        plains.push(plain_byte(*byte))?;
    }
    Ok(plains)
}

fn names(alloc: Global, parts: &[Part]) -> Result<Vec<Bytes>, NoMemory>
    ensures { IfOk result (λ v. v.items ≡ map part_name parts.now) }
{
    let mut names = Vec::new(alloc);
    for part in parts {
        names.push(name_of(alloc, part)?)?;
    }
    Ok(names)
}

#[tactic(auto, using(crate::proofs::SharedLayers::shared_layers))]
fn name_of(alloc: Global, part: &Part) -> Result<Bytes, NoMemory>
    ensures { IfOk result (λ name. name ≡ part_name part.now) }
{
    let name = Bytes::of(alloc, part.name.get())?;
    Ok(name)
}

#[cycle(to_plain)]
fn values(alloc: Global, parts: &[Part]) -> Result<Vec<Plain>, NoMemory>
    ensures { IfOk result (λ v. map plain_view v.items ≡ map part_plain parts.now) }
{
    let mut plains = Vec::new(alloc);
    for part in parts {
        plains.push(value_of(alloc, part)?)?;
    }
    Ok(plains)
}

#[cycle(to_plain)]
#[tactic(auto, using(crate::proofs::SharedLayers::shared_layers))]
fn value_of(alloc: Global, part: &Part) -> Result<Plain, NoMemory>
    ensures { IfOk result (λ p. plain_view p ≡ part_plain part.now) }
{
    let plain = to_plain(alloc, &part.value)?;
    Ok(plain)
}
