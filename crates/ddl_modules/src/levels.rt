//! The units from which walks of one length lead to a unit, level by level.

ghost use Rattle.std.specs.Prelude.{◌≡◌, ◌↔◌, ◌||◌, [], IfOk, IsTrue, length, map, vec_len};
ghost use Rattle.ddl_modules.specs.Levels.{any_up, flag, has, joined, level, lifted, IsClimb};

use crate::rows::{Row, has};
use ddl_base::NoMemory;
use std::alloc::Global;

/// A flag for each unit.
#[derive(Drop)]
pub(crate) struct Level {
    pub(crate) flags: Vec<bool>,
}

/// The levels of a unit so far.
#[derive(Drop)]
pub(crate) struct Levels {
    pub(crate) lower: Vec<Level>,
    pub(crate) top: Vec<bool>,
    /// Up for the units that are up on some level.
    pub(crate) seen: Vec<bool>,
}

/// Whether the flag of a unit is up.
pub(crate) fn is_up(flags: &[bool], unit: u32) -> bool
    ensures { result ≡ flag flags.now unit }
{
    flags.get(unit as usize).copied().unwrap_or(false)
}

/// Whether the flag of one of these units is up.
fn any_up(flags: &[bool], units: &[u32]) -> bool
    ensures { result ≡ any_up flags.now units.now }
{
    for unit in units {
        if is_up(flags, *unit) {
            return true;
        }
    }
    false
}

/// The units that import this one.
fn importers(alloc: Global, rows: &[Row], unit: u32) -> Result<Vec<bool>, NoMemory>
    ensures { IfOk result (λ flags. flags.items ≡ map (λ r. has r.units.items unit) rows.now) }
{
    Ok(rows.iter().map(|row| has(&row.units, unit)).collect(alloc)?)
}

/// The units that import one whose flag is up.
fn lifted(alloc: Global, rows: &[Row], flags: &[bool]) -> Result<Vec<bool>, NoMemory>
    ensures { IfOk result (λ flags'. flags'.items ≡ lifted rows.now flags.now) }
{
    Ok(
        rows.iter()
            .map(|row| any_up(flags, &row.units))
            .collect(alloc)?,
    )
}

/// Whether one of two flags is up.
fn either_up(up: bool, other: bool) -> bool
    ensures { result ≡ (up || other) }
{
    up || other
}

/// The flags that are up in one of two lists.
fn joined(alloc: Global, flags: &[bool], others: &[bool]) -> Result<Vec<bool>, NoMemory>
    requires { length flags.now ≡ length others.now }
    ensures { IfOk result (λ both. both.items ≡ joined flags.now others.now) }
{
    let mut both = Vec::new(alloc);
    for (unit, up) in flags.iter().enumerate() {
        both.push(either_up(*up, others[unit]))?;
    }
    Ok(both)
}

/// Whether two lists of flags are one.
fn are_same(flags: &[bool], others: &[bool]) -> bool
    ensures { IsTrue result ↔ (flags.now ≡ others.now) }
{
    flags == others
}

/// The lowest level of a unit.
pub(crate) fn first_level(alloc: Global, rows: &[Row], unit: u32) -> Result<Levels, NoMemory>
    ensures { IfOk result (λ l. (l.lower.items ≡ []) × (vec_len l.lower ≡ 0) × (l.top.items ≡ level rows.now unit 0)
        × (l.seen.items ≡ l.top.items)) }
{
    let top = importers(alloc, rows, unit)?;
    let seen = top.to_vec(alloc)?;
    Ok(Levels {
        lower: Vec::new(alloc),
        top,
        seen,
    })
}

/// One level more, unless it shows no unit that was not seen.
pub(crate) fn climb(alloc: Global, rows: &[Row], levels: Levels) -> Result<Option<Levels>, NoMemory>
    requires { length levels.seen.items ≡ length rows.now }
    ensures { IfOk result (IsClimb rows.now levels) }
{
    let next = lifted(alloc, rows, &levels.top)?;
    let seen = joined(alloc, &levels.seen, &next)?;
    if are_same(&seen, &levels.seen) {
        return Ok(None);
    }
    let mut lower = levels.lower;
    lower.push(Level { flags: levels.top })?;
    Ok(Some(Levels {
        lower,
        top: next,
        seen,
    }))
}
