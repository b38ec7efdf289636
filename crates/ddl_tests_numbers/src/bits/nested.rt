ghost use Rattle.ddl_bits.specs.Accepted.{PartAccepted};
ghost use Rattle.ddl_bits.specs.Verdict.{HasAcceptedParts};
ghost use Rattle.ddl_bits.specs.View.{layout_view, part_view};
ghost use Rattle.std.specs.Prelude.{IfOk};

use super::error;
use ddl_base::NoMemory;
use ddl_bits::{BitError, Gap, Layout, LayoutPart, check, covered, fits};
use ddl_samples::layouts::{alone, any, either, given, inner, one, two};
use std::alloc::Global;

// { x : { a = 0b0 }, _ : uint 1 }, or with { a = 0b0; b = 0b1 } where it is whole
fn middle(alloc: Global, whole: bool) -> Result<LayoutPart, NoMemory>
    ensures { IfOk result (λ p. PartAccepted (part_view p)) }
{
    let leaf = if whole {
        either(alloc, one(alloc, given(0, 1))?, one(alloc, given(1, 1))?)?
    } else {
        alone(alloc, one(alloc, given(0, 1))?)?
    };
    inner(
        alloc,
        alone(alloc, two(alloc, inner(alloc, leaf)?, any(1))?)?,
    )
}

// a = { 0b0, m : middle }; b = { 0b1, m : middle }
fn three_deep(alloc: Global, whole: bool) -> Result<Layout, NoMemory>
    ensures { IfOk result (λ l. HasAcceptedParts (layout_view l)) }
{
    either(
        alloc,
        two(alloc, given(0, 1), middle(alloc, whole)?)?,
        two(alloc, given(1, 1), middle(alloc, whole)?)?,
    )
}

// a = 0bXX; b = 0bYY
fn of_two_numbers(alloc: Global, first: u128, second: u128) -> Result<LayoutPart, NoMemory>
    ensures { IfOk result (λ p. PartAccepted (part_view p)) }
{
    inner(
        alloc,
        either(
            alloc,
            one(alloc, given(first, 2))?,
            one(alloc, given(second, 2))?,
        )?,
    )
}

#[test]
fn a_gap_three_deep_is_found(rt: HostRuntime) -> Result<(), NoMemory> {
    let alloc = rt.alloc();
    match check(alloc, three_deep(alloc, true)?) {
        Err(_error) => panic!(rt; "refused"),
        Ok(whole) => {
            assert_eq!(rt; fits(&whole, 3), Some(0));
            assert_eq!(rt; fits(&whole, 6), Some(1));
            assert_eq!(rt; covered(&whole), Ok(()));
        }
    }
    match check(alloc, three_deep(alloc, false)?) {
        Err(_error) => panic!(rt; "refused"),
        Ok(part) => {
            assert_eq!(rt; fits(&part, 1), Some(0));
            assert_eq!(rt; fits(&part, 2), None);
            assert_eq!(rt; fits(&part, 5), Some(1));
            assert_eq!(rt; covered(&part), Err(Gap::Number(2)));
        }
    }
    Ok(())
}

#[test]
fn inner_layouts_share_a_number_or_none(rt: HostRuntime) -> Result<(), NoMemory> {
    let alloc = rt.alloc();
    // { 0b0, m : middle } has 0 and 1, and { _ : uint 1, 0b01 } has 1 and 5
    let beside = either(
        alloc,
        two(alloc, given(0, 1), middle(alloc, false)?)?,
        two(alloc, any(1), given(1, 2))?,
    )?;
    assert_eq!(rt; error(alloc, beside), Some(BitError::Overlap(0, 1, 1)));
    // 1, 2, 5 and 6 fit the one, and 0, 1, 6 and 7 the other
    let shifted = either(
        alloc,
        two(alloc, any(1), of_two_numbers(alloc, 1, 2)?)?,
        two(alloc, of_two_numbers(alloc, 0, 3)?, any(1))?,
    )?;
    assert_eq!(rt; error(alloc, shifted), Some(BitError::Overlap(0, 1, 1)));
    // at one place they have no number in common
    let apart = either(
        alloc,
        two(alloc, any(100), of_two_numbers(alloc, 1, 2)?)?,
        two(alloc, any(100), of_two_numbers(alloc, 0, 3)?)?,
    )?;
    match check(alloc, apart) {
        Err(_error) => panic!(rt; "refused"),
        Ok(all) => assert_eq!(rt; covered(&all), Ok(())),
    }
    Ok(())
}

// { _ : uint 60, 0bXX } or { _ : uint 60, 0bYY }
fn wide(alloc: Global, first: u128, second: u128) -> Result<LayoutPart, NoMemory>
    ensures { IfOk result (λ p. PartAccepted (part_view p)) }
{
    inner(
        alloc,
        either(
            alloc,
            two(alloc, any(60), given(first, 2))?,
            two(alloc, any(60), given(second, 2))?,
        )?,
    )
}

#[test]
fn wide_inner_layouts_are_told_apart_by_their_lowest_bits(rt: HostRuntime) -> Result<(), NoMemory> {
    let alloc = rt.alloc();
    let apart = either(
        alloc,
        two(alloc, any(1), wide(alloc, 0, 1)?)?,
        two(alloc, any(1), wide(alloc, 2, 3)?)?,
    )?;
    assert_eq!(rt; error(alloc, apart), None);
    let shared = either(
        alloc,
        two(alloc, any(1), wide(alloc, 1, 2)?)?,
        two(alloc, any(1), wide(alloc, 2, 3)?)?,
    )?;
    assert_eq!(rt; error(alloc, shared), Some(BitError::Overlap(0, 1, 2)));
    // the one ends a bit before the other: bit 1 is 0 in the one and 1 in the other
    let shifted_apart = either(
        alloc,
        two(alloc, any(1), wide(alloc, 0, 1)?)?,
        two(alloc, wide(alloc, 1, 3)?, any(1))?,
    )?;
    assert_eq!(rt; error(alloc, shifted_apart), None);
    let shifted = either(
        alloc,
        two(alloc, any(1), wide(alloc, 1, 2)?)?,
        two(alloc, wide(alloc, 1, 2)?, any(1))?,
    )?;
    assert_eq!(rt; error(alloc, shifted), Some(BitError::Overlap(0, 1, 2)));
    Ok(())
}
