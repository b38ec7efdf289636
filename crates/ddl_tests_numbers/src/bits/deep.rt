ghost use Rattle.ddl_bits.specs.Accepted.{PartAccepted};
ghost use Rattle.ddl_bits.specs.Verdict.{HasAcceptedParts};
ghost use Rattle.ddl_bits.specs.View.{layout_view, part_view};
ghost use Rattle.std.specs.Prelude.{◌≤◌, IfOk};

use super::error;
use ddl_base::NoMemory;
use ddl_bits::{BitError, Layout, LayoutPart};
use ddl_samples::layouts::{any, either, given, inner, one, two};
use std::alloc::Global;

// { _ : uint FREE, 0bXX } or { _ : uint FREE, 0bYY }
fn ends(alloc: Global, free: u32, first: u128, second: u128) -> Result<LayoutPart, NoMemory>
    requires { 1 ≤ free }
    ensures { IfOk result (λ p. PartAccepted (part_view p)) }
{
    inner(
        alloc,
        either(
            alloc,
            two(alloc, any(free), given(first, 2))?,
            two(alloc, any(free), given(second, 2))?,
        )?,
    )
}

// { s : FIRST, 0bXX } or { s : SECOND, 0bYY }
fn goes_on(
    alloc: Global,
    first: LayoutPart,
    first_end: u128,
    second: LayoutPart,
    second_end: u128,
) -> Result<LayoutPart, NoMemory>
    requires first { PartAccepted (part_view first) }
    requires second { PartAccepted (part_view second) }
    ensures { IfOk result (λ p. PartAccepted (part_view p)) }
{
    inner(
        alloc,
        either(
            alloc,
            two(alloc, first, given(first_end, 2))?,
            two(alloc, second, given(second_end, 2))?,
        )?,
    )
}

// { s : A, 0b00 } or { s : A, 0b01 }, where A ends in one of two numbers behind 32 free bits
fn two_deep(alloc: Global, first: u128, second: u128) -> Result<LayoutPart, NoMemory>
    ensures { IfOk result (λ p. PartAccepted (part_view p)) }
{
    goes_on(
        alloc,
        ends(alloc, 32, first, second)?,
        0,
        ends(alloc, 32, first, second)?,
        1,
    )
}

#[test]
fn choices_two_deep_behind_free_bits_are_compared(rt: HostRuntime) -> Result<(), NoMemory> {
    let alloc = rt.alloc();
    let apart = either(
        alloc,
        one(alloc, two_deep(alloc, 0, 1)?)?,
        one(alloc, two_deep(alloc, 2, 3)?)?,
    )?;
    assert_eq!(rt; error(alloc, apart), None);
    let shared = either(
        alloc,
        one(alloc, two_deep(alloc, 0, 1)?)?,
        one(alloc, two_deep(alloc, 1, 2)?)?,
    )?;
    assert_eq!(rt; error(alloc, shared), Some(BitError::Overlap(0, 1, 4)));
    Ok(())
}

#[test]
fn bits_of_no_number_are_left_out_of_choices(rt: HostRuntime) -> Result<(), NoMemory> {
    let alloc = rt.alloc();
    // 5 is no number of two bits, and neither is 6, so that the ends are 0 and 1
    let apart = either(
        alloc,
        one(alloc, two_deep(alloc, 0, 5)?)?,
        one(alloc, two_deep(alloc, 1, 6)?)?,
    )?;
    assert_eq!(rt; error(alloc, apart), None);
    Ok(())
}

// { 0b00, m : FIRST } or { 0b01, m : SECOND }
fn led_on(alloc: Global, first: LayoutPart, second: LayoutPart) -> Result<LayoutPart, NoMemory>
    requires first { PartAccepted (part_view first) }
    requires second { PartAccepted (part_view second) }
    ensures { IfOk result (λ p. PartAccepted (part_view p)) }
{
    inner(
        alloc,
        either(
            alloc,
            two(alloc, given(0, 2), first)?,
            two(alloc, given(1, 2), second)?,
        )?,
    )
}

// its bits 1 and 0 are one of two numbers, and bit 3 is 0
fn with_two_ends(alloc: Global, first: u128, second: u128) -> Result<LayoutPart, NoMemory>
    ensures { IfOk result (λ p. PartAccepted (part_view p)) }
{
    goes_on(
        alloc,
        ends(alloc, 20, 0, 1)?,
        first,
        ends(alloc, 20, 0, 1)?,
        second,
    )
}

// its bits 2 and 1 are the same
fn with_a_pair(alloc: Global) -> Result<LayoutPart, NoMemory>
    ensures { IfOk result (λ p. PartAccepted (part_view p)) }
{
    goes_on(alloc, ends(alloc, 20, 0, 2)?, 1, ends(alloc, 20, 1, 3)?, 2)
}

// The one stands a bit higher than the other, so that the two ends of the one meet the pair of the other.
fn set_off(alloc: Global, first: u128, second: u128) -> Result<Layout, NoMemory>
    ensures { IfOk result (λ l. HasAcceptedParts (layout_view l)) }
{
    let higher = led_on(
        alloc,
        with_two_ends(alloc, first, second)?,
        with_two_ends(alloc, first, second)?,
    )?;
    let lower = led_on(alloc, with_a_pair(alloc)?, with_a_pair(alloc)?)?;
    either(
        alloc,
        two(alloc, higher, any(1))?,
        two(alloc, any(1), lower)?,
    )
}

#[test]
fn choices_three_deep_and_a_bit_apart_are_compared(rt: HostRuntime) -> Result<(), NoMemory> {
    let alloc = rt.alloc();
    assert_eq!(rt; error(alloc, set_off(alloc, 1, 2)?), None);
    assert_eq!(rt;
        error(alloc, set_off(alloc, 0, 2)?),
        Some(BitError::Overlap(0, 1, 1))
    );
    Ok(())
}
