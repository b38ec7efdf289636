//! The units that each unit imports.

ghost use Rattle.std.specs.Prelude.{◌≡◌, ◌==◌, ◌||◌, ℕ, IfOk, OnOk};
ghost use Rattle.ddl_modules.specs.Levels.{has, AreRows};

use ddl_base::NoMemory;
use ddl_tree::SourceUnit;
use std::alloc::Global;

/// The units that a unit imports, each once, so that it costs as much to look at them however often they are named.
#[derive(Drop)]
pub(crate) struct Row {
    pub(crate) units: Vec<u32>,
}

/// Whether a number is among these.
pub(crate) fn has(numbers: &[u32], number: u32) -> bool
    ensures { result ≡ has numbers.now number }
{
    for other in numbers {
        if *other == number {
            return true;
        }
    }
    false
}

/// Puts a number behind others, unless it is among them.
fn add_once(numbers: &mut Vec<u32>, number: u32) -> Result<(), NoMemory>
    ensures { OnOk result ((n : ℕ) → has numbers.new.items n ≡ (has numbers.old.items n || (number == n))) }
{
    if has(numbers, number) {
        return Ok(());
    }
    numbers.push(number)?;
    Ok(())
}

/// The same numbers, each once.
fn distinct(alloc: Global, numbers: &[u32]) -> Result<Vec<u32>, NoMemory>
    ensures { IfOk result (λ once. (n : ℕ) → has once.items n ≡ has numbers.now n) }
{
    let mut once = Vec::new(alloc);
    for number in numbers {
        add_once(&mut once, *number)?;
    }
    Ok(once)
}

/// The row of each unit.
pub(crate) fn rows_of(alloc: Global, units: &[SourceUnit]) -> Result<Vec<Row>, NoMemory>
    ensures { IfOk result (λ rows. AreRows units.now rows.items) }
{
    let mut rows = Vec::new(alloc);
    for unit in units {
        rows.push(Row {
            units: distinct(alloc, &unit.imports)?,
        })?;
    }
    Ok(rows)
}
