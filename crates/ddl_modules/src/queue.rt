//! The queue of names of modules, in which each stands once.

ghost use Rattle.std.specs.Prelude.{◌≡◌, ◌≤◌, length, vec_len, nat_lt, if◌then◌else◌, IfOk, IfErr, Some, None};
ghost use Rattle.ddl_modules.specs.Queue.{beyond, imported, place, places, with_name, with_names};
ghost use Rattle.ddl_modules.specs.Reading.{IsFull};

use crate::error::LoadError;
use ddl_base::Bytes;
use ddl_tree::{Import, Name};
use std::alloc::Global;

/// The prelude and 256 modules.
const MOST_NAMES: usize = 257;

/// Where a name stands first, or would stand at the end.
fn place(names: &[Bytes], name: &[u8]) -> usize
    ensures place { result ≡ place names.now name.now }
    ensures within { result ≤ length names.now }
{
    for (at, other) in names.iter().enumerate() {
        if other.get() == name {
            return at;
        }
    }
    names.len()
}

/// Puts an imported name into the queue, unless it is there, and says where it stands.
fn add_name(
    alloc: Global,
    names: &mut Vec<Bytes>,
    importer: &[u8],
    name: &Name,
) -> Result<u32, LoadError>
    requires { vec_len names.old ≤ 257 }
    ensures place { IfOk result (λ p. p ≡ place names.old.items name.now.text) }
    ensures added { IfOk result (λ _. names.new.items ≡ with_name names.old.items name.now.text) }
    ensures few { IfOk result (λ _. vec_len names.new ≤ 257) }
    ensures full { IfErr result (IsFull importer.now
        (if nat_lt 257 (length (with_name names.old.items name.now.text)) then Some name.now.span else None)) }
{
    let place = place(names, name.text.get());
    if place < names.len() {
        return Ok(place as u32);
    }
    if place == MOST_NAMES {
        return Err(LoadError::TooMany {
            importer: Bytes::of(alloc, importer)?,
            span: name.span,
        });
    }
    names.push(Bytes::of(alloc, name.text.get())?)?;
    Ok(place as u32)
}

/// Puts the names that a module imports into the queue, and says where each stands.
pub(crate) fn add_imports(
    alloc: Global,
    names: &mut Vec<Bytes>,
    importer: &[u8],
    imports: &[Import],
) -> Result<Vec<u32>, LoadError>
    requires { vec_len names.old ≤ 257 }
    ensures places { IfOk result (λ ps. ps.items ≡ places names.old.items (imported imports.now)) }
    ensures room { IfOk result (λ _. beyond names.old.items imports.now ≡ None) }
    ensures added { IfOk result (λ _. names.new.items
        ≡ with_names names.old.items (imported imports.now)) }
    ensures few { IfOk result (λ _. vec_len names.new ≤ 257) }
    ensures full { IfErr result (IsFull importer.now (beyond names.old.items imports.now)) }
{
    let mut places = Vec::new(alloc);
    for import in imports {
        let place = add_name(alloc, names, importer, &import.name)?;
        places.push(place)?;
    }
    Ok(places)
}
