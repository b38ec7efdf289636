//! Each layout of at most four bits, three constructors and two parts, against a trial of all numbers.
ghost use Rattle.ddl_bits.specs.Accepted.{PartAccepted, PartsAccepted};
ghost use Rattle.ddl_bits.specs.Verdict.{HasAcceptedParts};
ghost use Rattle.ddl_bits.specs.View.{con_view, layout_view, part_view};
ghost use Rattle.std.specs.Prelude.{◌≤◌, IfOk};

use ddl_base::NoMemory;
use ddl_bits::{BitError, Gap, Layout, LayoutCon, LayoutPart, check, covered};
use ddl_samples::layouts::{alone, any, any_of_three, either, given, one, two};
use std::alloc::Global;

/// A part: bits that are given, or any.
#[derive(Clone, Copy)]
struct Piece {
    bits: Option<u128>,
    width: u32,
    ghost some: { 1 ≤ width },
    ghost few: { width ≤ 4 },
}

/// A constructor of one part or of two.
#[derive(Clone, Copy)]
struct Row {
    high: Piece,
    low: Option<Piece>,
}

/// Each part of this width.
fn pieces(alloc: Global, width: u32) -> Result<Vec<Piece>, NoMemory>
    requires some { 1 ≤ width }
    requires few { width ≤ 4 }
{
    let mut all = Vec::new(alloc);
    all.push(Piece { bits: None, width })?;
    for bits in 0..1 << width {
        all.push(Piece {
            bits: Some(bits),
            width,
        })?;
    }
    Ok(all)
}

/// Each constructor of two parts whose second has this width.
fn add_pairs(alloc: Global, all: &mut Vec<Row>, upper: u32, lower: u32) -> Result<(), NoMemory>
    requires some_upper { 1 ≤ upper }
    requires few_upper { upper ≤ 4 }
    requires some_lower { 1 ≤ lower }
    requires few_lower { lower ≤ 4 }
{
    let lows = pieces(alloc, lower)?;
    for high in &pieces(alloc, upper)? {
        for low in &lows {
            all.push(Row {
                high: *high,
                low: Some(*low),
            })?;
        }
    }
    Ok(())
}

/// Each constructor of this width.
fn rows(alloc: Global, width: u32) -> Result<Vec<Row>, NoMemory>
    requires some { 1 ≤ width }
    requires few { width ≤ 4 }
{
    let mut all = Vec::new(alloc);
    for high in &pieces(alloc, width)? {
        all.push(Row {
            high: *high,
            low: None,
        })?;
    }
    for lower in 1..width {
        add_pairs(alloc, &mut all, width - lower, lower)?;
    }
    Ok(all)
}

fn piece_fits(piece: Piece, number: u128) -> bool {
    match piece.bits {
        None => true,
        Some(bits) => bits == number,
    }
}

fn row_fits(row: Row, number: u128) -> bool {
    match row.low {
        None => piece_fits(row.high, number),
        Some(low) => {
            let size = 1 << low.width;
            piece_fits(row.high, number / size) && piece_fits(low, number % size)
        }
    }
}

fn part(piece: Piece) -> LayoutPart
    ensures { PartAccepted (part_view result) }
{
    match piece.bits {
        None => any(piece.width),
        Some(bits) => given(bits, piece.width),
    }
}

fn con(alloc: Global, row: Row) -> Result<LayoutCon, NoMemory>
    ensures { IfOk result (λ c. PartsAccepted (con_view c)) }
{
    match row.low {
        None => one(alloc, part(row.high)),
        Some(low) => two(alloc, part(row.high), part(low)),
    }
}

/// The least number that both have.
fn least_of_both(a: Row, b: Row, size: u128) -> Option<u128> {
    for number in 0..size {
        if row_fits(a, number) && row_fits(b, number) {
            return Some(number);
        }
    }
    None
}

/// The first overlap of the constructor at this place with a later one.
fn overlap_of(row: Row, place: usize, rows: &[Row], size: u128) -> Option<BitError> {
    for (other, later) in rows.iter().enumerate() {
        if place < other {
            if let Some(number) = least_of_both(row, *later, size) {
                return Some(BitError::Overlap(place, other, number));
            }
        }
    }
    None
}

fn overlap(rows: &[Row], size: u128) -> Option<BitError> {
    for (place, row) in rows.iter().enumerate() {
        if let Some(error) = overlap_of(*row, place, rows, size) {
            return Some(error);
        }
    }
    None
}

fn some_row_fits(rows: &[Row], number: u128) -> bool {
    for row in rows {
        if row_fits(*row, number) {
            return true;
        }
    }
    false
}

fn coverage(rows: &[Row], size: u128) -> Result<(), Gap> {
    for number in 0..size {
        if !some_row_fits(rows, number) {
            return Err(Gap::Number(number));
        }
    }
    Ok(())
}

/// Whether `check` and `covered` say of these constructors what the trial says.
fn is_right(alloc: Global, layout: Layout, rows: &[Row], size: u128) -> bool
    requires { HasAcceptedParts (layout_view layout) }
{
    match check(alloc, layout) {
        Err(error) => overlap(rows, size) == Some(error),
        Ok(checked) => { overlap(rows, size) == None && covered(&checked) == coverage(rows, size) }
    }
}

fn third_is_right(
    alloc: Global,
    all: &[Row],
    first: Row,
    second: Row,
    size: u128,
) -> Result<bool, NoMemory> {
    for third in all {
        let layout = any_of_three(
            alloc,
            con(alloc, first)?,
            con(alloc, second)?,
            con(alloc, *third)?,
        )?;
        if !is_right(alloc, layout, &[first, second, *third], size) {
            return Ok(false);
        }
    }
    Ok(true)
}

fn second_is_right(alloc: Global, all: &[Row], first: Row, size: u128) -> Result<bool, NoMemory> {
    for second in all {
        let layout = either(alloc, con(alloc, first)?, con(alloc, *second)?)?;
        if !is_right(alloc, layout, &[first, *second], size)
            || !third_is_right(alloc, all, first, *second, size)?
        {
            return Ok(false);
        }
    }
    Ok(true)
}

fn all_are_right(alloc: Global, width: u32) -> Result<bool, NoMemory>
    requires some { 1 ≤ width }
    requires few { width ≤ 4 }
{
    let all = rows(alloc, width)?;
    let size = 1 << width;
    for first in &all {
        let layout = alone(alloc, con(alloc, *first)?)?;
        if !is_right(alloc, layout, &[*first], size)
            || !second_is_right(alloc, &all, *first, size)?
        {
            return Ok(false);
        }
    }
    Ok(true)
}

#[test]
fn small_layouts_are_judged_as_a_trial_judges(rt: HostRuntime) -> Result<(), NoMemory> {
    for width in 1..5 {
        assert!(rt; all_are_right(rt.alloc(), width)?);
    }
    Ok(())
}
