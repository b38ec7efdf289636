//! The search for a cycle of imports.

ghost use Rattle.std.specs.Prelude.{◌≡◌, ℕ, ◌≤◌, List, length, map, vec_len, true, IfOk, MatchOption};
ghost use Rattle.ddl_modules.specs.Cycles.{imports_of, HaveNoCycle, IsCycle, IsFirstCycle};
ghost use Rattle.ddl_modules.specs.Levels.{any_up, flag, level, levels, lists_of, IsLeastUp, IsLeastWalk};
ghost use Rattle.ddl_modules.specs.Levels.{IsShortestCycle};

use crate::levels::{Level, climb, first_level, is_up};
use crate::rows::{Row, has, rows_of};
use ddl_base::NoMemory;
use ddl_tree::SourceUnit;
use std::alloc::Global;

/// The first unit imports the first of the rest, each of these the next, and the last one the first unit.
#[derive(Drop)]
pub(crate) struct Cycle {
    pub(crate) first: u32,
    pub(crate) rest: Vec<u32>,
}

/// The least of these units whose flag is up.
fn least_up(units: &[u32], flags: &[bool]) -> u32
    requires few { length flags.now ≤ 257 }
    requires some { any_up flags.now units.now ≡ true }
    ensures { IsLeastUp flags.now units.now result }
{
    for (unit, up) in flags.iter().enumerate() {
        if *up && has(units, unit as u32) {
            return unit as u32;
        }
    }
    unreachable!()
}

/// The least walk of a unit to itself, where it is up behind these levels.
fn least_walk(
    alloc: Global,
    rows: &[Row],
    lower: Vec<Level>,
    unit: u32,
) -> Result<Vec<u32>, NoMemory>
    requires few { length rows.now ≤ 257 }
    requires lower { map (λ l. l.flags.items) lower.items ≡ levels rows.now unit (vec_len lower) }
    requires up { flag (level rows.now unit (vec_len lower)) unit ≡ true }
    ensures { IfOk result (λ walk. IsLeastWalk (lists_of rows.now) unit walk.items unit
        × (length walk.items ≡ vec_len lower)) }
{
    let mut left = lower;
    let mut walk = Vec::new(alloc);
    let mut at = unit;
    'levels: while let Some(below) = left.pop() {
        at = least_up(&rows[at as usize].units, &below.flags);
        walk.push(at)?;
    }
    Ok(walk)
}

/// The least of the shortest cycles of a unit, without the unit itself.
fn cycle_of(alloc: Global, rows: &[Row], unit: u32) -> Result<Option<Vec<u32>>, NoMemory>
    requires { length rows.now ≤ 257 }
    ensures { IfOk result (λ cycle. MatchOption cycle ((rest : List ℕ) → ¬ IsCycle (lists_of rows.now) unit rest)
        (λ rest. IsShortestCycle (lists_of rows.now) unit rest.items)) }
{
    let mut levels = first_level(alloc, rows, unit)?;
    'climb: while !is_up(&levels.top, unit) {
        levels = match climb(alloc, rows, levels)? {
            Some(higher) => higher,
            None => return Ok(None),
        };
    }
    let rest = least_walk(alloc, rows, levels.lower, unit)?;
    Ok(Some(rest))
}

/// The cycle that is told: of the first unit that reaches itself the least of the shortest ones.
pub(crate) fn first_cycle(alloc: Global, units: &[SourceUnit]) -> Result<Option<Cycle>, NoMemory>
    requires { length units.now ≤ 257 }
    ensures { IfOk result (λ cycle. MatchOption cycle (HaveNoCycle (imports_of units.now))
        (λ cycle. IsFirstCycle (imports_of units.now) cycle.first cycle.rest.items)) }
{
    let rows = rows_of(alloc, units)?;
    for unit in 0..rows.len() {
        if let Some(rest) = cycle_of(alloc, &rows, unit as u32)? {
            return Ok(Some(Cycle {
                first: unit as u32,
                rest,
            }));
        }
    }
    Ok(None)
}
