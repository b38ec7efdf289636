//! The loading of a root: reading, and the refusal of cycles.

ghost use Rattle.std.specs.Prelude.{◌≡◌, ◌∷◌, length, map, Contains, IfOk, IfErr, Some};
ghost use Rattle.std.specs.List.{All};
ghost use Rattle.ddl_outside.specs.Files.{Later};
ghost use Rattle.ddl_modules.specs.Cycles.{import_span, imports_of, second_of, unit_name, IsFirstCycle};
ghost use Rattle.ddl_modules.specs.Loaded.{AreLoaded, AreNotLoaded, HasPlaces, IsCycleOf};

use crate::cycles::{Cycle, first_cycle};
use crate::error::LoadError;
use crate::reading::load_all;
use ddl_base::{Bytes, NoMemory, Span};
use ddl_outside::Files;
use ddl_tree::SourceUnit;
use std::alloc::Global;

/// The name in the first import of a unit that is one of that unit.
fn import_span(unit: &SourceUnit, other: u32) -> Span
    requires places { HasPlaces unit.now }
    requires there { Contains unit.now.imports.items other }
    ensures { import_span unit.now.imports.items unit.now.tree.imports.items other ≡ Some result }
{
    for (at, place) in unit.imports.iter().enumerate() {
        if *place == other {
            return unit.tree.imports[at].name.span;
        }
    }
    unreachable!()
}

/// The name of a unit, empty where there is none.
fn unit_name(alloc: Global, units: &[SourceUnit], unit: u32) -> Result<Bytes, NoMemory>
    ensures { IfOk result (λ name. name ≡ unit_name units.now unit) }
{
    match units.get(unit as usize) {
        Some(found) => Bytes::of(alloc, found.name.get()),
        None => Bytes::of(alloc, b""),
    }
}

/// The names of the units of a cycle.
fn cycle_names(alloc: Global, units: &[SourceUnit], cycle: &Cycle) -> Result<Vec<Bytes>, NoMemory>
    ensures { IfOk result (λ names. names.items ≡ map (unit_name units.now) (cycle.now.first ∷ cycle.now.rest.items)) }
{
    let mut names = Vec::new(alloc);
    names.push(unit_name(alloc, units, cycle.first)?)?;
    for unit in &cycle.rest {
        names.push(unit_name(alloc, units, *unit)?)?;
    }
    Ok(names)
}

/// The unit behind the first one of a cycle.
fn second_of(cycle: &Cycle) -> u32
    ensures { result ≡ second_of cycle.now.first cycle.now.rest.items }
{
    if cycle.rest.is_empty() {
        cycle.first
    } else {
        cycle.rest[0]
    }
}

/// The refusal of a cycle.
fn refusal(alloc: Global, units: &[SourceUnit], cycle: &Cycle) -> Result<LoadError, NoMemory>
    requires places { All HasPlaces units.now }
    requires cycle { IsFirstCycle (imports_of units.now) cycle.now.first cycle.now.rest.items }
    ensures { IfOk result (IsCycleOf units.now) }
{
    let span = import_span(&units[cycle.first as usize], second_of(cycle));
    let modules = cycle_names(alloc, units, cycle)?;
    Ok(LoadError::Cycle { span, modules })
}

/// Loads a module with all modules that it reaches. The root is its name, behind an optional directory.
///
/// The units stand in the order in which they are first imported, behind the prelude and the root. The first refusal ends
/// the loading; a cycle is looked for when all modules were read.
pub fn load<F: Files>(
    alloc: Global,
    files: &mut F,
    root: &str,
) -> Result<Vec<SourceUnit>, LoadError>
    ensures later { Later (F.state files.old) (F.state files.new) }
    ensures loaded { IfOk result (λ us. AreLoaded (F.state files.old) (F.state files.new) root.now us.items) }
    ensures none { IfErr result (AreNotLoaded (F.state files.old) (F.state files.new) root.now) }
{
    let units = load_all(alloc, files, root)?;
    match first_cycle(alloc, &units)? {
        Some(cycle) => Err(refusal(alloc, &units, &cycle)?),
        None => Ok(units),
    }
}
