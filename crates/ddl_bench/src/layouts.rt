ghost use Rattle.ddl_bits.specs.Accepted.{PartAccepted};
ghost use Rattle.ddl_bits.specs.Verdict.{HasAcceptedParts};
ghost use Rattle.ddl_bits.specs.View.{layout_view, part_view};
ghost use Rattle.std.specs.Prelude.{◌≤◌, IfOk};

use ddl_base::NoMemory;
use ddl_bits::{Layout, LayoutPart, check};
use ddl_samples::layouts::{any, either, given, inner, one, two};
use std::alloc::Global;

/// A part of a layout of two constructors: free bits, and behind them two bits that are one of two
/// numbers.
fn choice(alloc: Global, free: u32, first: u128, second: u128) -> Result<LayoutPart, NoMemory>
    requires { 1 ≤ free }
    ensures { IfOk result (λ p. PartAccepted (part_view p)) }
{
    let layout = either(
        alloc,
        two(alloc, any(free), given(first, 2))?,
        two(alloc, any(free), given(second, 2))?,
    )?;
    inner(alloc, layout)
}

/// A part of a layout of two constructors, each of which holds such a part and two bits.
fn deeper(alloc: Global, free: u32, first: u128, second: u128) -> Result<LayoutPart, NoMemory>
    requires { 1 ≤ free }
    ensures { IfOk result (λ p. PartAccepted (part_view p)) }
{
    let layout = either(
        alloc,
        two(alloc, choice(alloc, free, first, second)?, given(0, 2))?,
        two(alloc, choice(alloc, free, first, second)?, given(1, 2))?,
    )?;
    inner(alloc, layout)
}

/// Two constructors that no number fits both, since the bits at their end differ: free bits, and a choice
/// behind `inside` free bits of its own.
fn two_side_by_side(alloc: Global, before: u32, inside: u32) -> Result<Layout, NoMemory>
    requires before { 1 ≤ before }
    requires inside { 1 ≤ inside }
    ensures { IfOk result (λ l. HasAcceptedParts (layout_view l)) }
{
    either(
        alloc,
        two(alloc, any(before), choice(alloc, inside, 0, 1)?)?,
        two(alloc, any(before), choice(alloc, inside, 2, 3)?)?,
    )
}

/// The same, where the choice stands a layout deeper, and no bits before it. Their ends are 0 and 1 in the
/// one, and `other` and 3 in the other: if that is 1, they have numbers in common.
fn two_deeper(alloc: Global, inside: u32, other: u128) -> Result<Layout, NoMemory>
    requires { 1 ≤ inside }
    ensures { IfOk result (λ l. HasAcceptedParts (layout_view l)) }
{
    either(
        alloc,
        one(alloc, deeper(alloc, inside, 0, 1)?)?,
        one(alloc, deeper(alloc, inside, other, 3)?)?,
    )
}

/// Builds and checks such two constructors so often. The width that both have, or 0 where a number fits both.
pub fn width_of_two(alloc: Global, times: u32, before: u32, inside: u32) -> Result<u32, NoMemory>
    requires before { 1 ≤ before }
    requires inside { 1 ≤ inside }
{
    let mut found = 0;
    for _time in 0..times {
        found = width(alloc, two_side_by_side(alloc, before, inside)?);
    }
    Ok(found)
}

/// The same of two in which the choice stands a layout deeper.
pub fn width_of_two_deeper(
    alloc: Global,
    times: u32,
    inside: u32,
    other: u128,
) -> Result<u32, NoMemory>
    requires { 1 ≤ inside }
{
    let mut found = 0;
    for _time in 0..times {
        found = width(alloc, two_deeper(alloc, inside, other)?);
    }
    Ok(found)
}

fn width(alloc: Global, layout: Layout) -> u32
    requires { HasAcceptedParts (layout_view layout) }
{
    match check(alloc, layout) {
        Err(_error) => 0,
        Ok(checked) => checked.width,
    }
}
