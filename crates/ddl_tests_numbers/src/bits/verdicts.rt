ghost use Rattle.ddl_bits.specs.Accepted.{PartAccepted, PartsAccepted};
ghost use Rattle.ddl_bits.specs.Verdict.{HasAcceptedParts};
ghost use Rattle.ddl_bits.specs.View.{con_view, layout_view, part_view};
ghost use Rattle.std.specs.Prelude.{IfOk};

use super::error;
use ddl_base::{Bytes, NoMemory};
use ddl_bits::{BitError, Gap, Layout, LayoutCon, LayoutPart, check, covered, fits};
use ddl_samples::layouts::{alone, any, any_of_three, either, given, one, two};
use std::alloc::Global;

// a = 0b0; b = 0b00
fn of_two_widths(alloc: Global) -> Result<Layout, NoMemory>
    ensures { IfOk result (λ l. HasAcceptedParts (layout_view l)) }
{
    either(alloc, one(alloc, given(0, 1))?, one(alloc, given(0, 2))?)
}

// { x : uint 128, y : uint 1 }
fn of_129_bits(alloc: Global) -> Result<Layout, NoMemory>
    ensures { IfOk result (λ l. HasAcceptedParts (layout_view l)) }
{
    alone(alloc, two(alloc, any(128), any(1))?)
}

// a = { 0b0, _ : uint 1 }; b = 0b00
fn with_the_least_shared(alloc: Global) -> Result<Layout, NoMemory>
    ensures { IfOk result (λ l. HasAcceptedParts (layout_view l)) }
{
    either(
        alloc,
        two(alloc, given(0, 1), any(1))?,
        one(alloc, given(0, 2))?,
    )
}

// 128 ones; { _ : uint 64, 64 ones }
fn with_the_greatest_shared(alloc: Global) -> Result<Layout, NoMemory>
    ensures { IfOk result (λ l. HasAcceptedParts (layout_view l)) }
{
    either(
        alloc,
        one(alloc, given(u128::MAX, 128))?,
        two(alloc, any(64), given(0xffff_ffff_ffff_ffff, 64))?,
    )
}

// { _ : uint 127, 0b0 }; { _ : uint 127, 0b1 }
fn told_apart_by_the_last_bit(alloc: Global) -> Result<Layout, NoMemory>
    ensures { IfOk result (λ l. HasAcceptedParts (layout_view l)) }
{
    either(
        alloc,
        two(alloc, any(127), given(0, 1))?,
        two(alloc, any(127), given(1, 1))?,
    )
}

// a = { 0b0, _ : uint 1 }; b = 0b10
fn without_three(alloc: Global) -> Result<Layout, NoMemory>
    ensures { IfOk result (λ l. HasAcceptedParts (layout_view l)) }
{
    either(
        alloc,
        two(alloc, given(0, 1), any(1))?,
        one(alloc, given(2, 2))?,
    )
}

// a = { 0b01, _ : uint 2 }; b = { _ : uint 1, 0b110 }
fn with_six_shared(alloc: Global) -> Result<Layout, NoMemory>
    ensures { IfOk result (λ l. HasAcceptedParts (layout_view l)) }
{
    either(
        alloc,
        two(alloc, given(1, 2), any(2))?,
        two(alloc, any(1), given(6, 3))?,
    )
}

// a = 0b00; b = 0b01; c = 0b10
fn of_three_numbers(alloc: Global) -> Result<Layout, NoMemory>
    ensures { IfOk result (λ l. HasAcceptedParts (layout_view l)) }
{
    any_of_three(
        alloc,
        one(alloc, given(0, 2))?,
        one(alloc, given(1, 2))?,
        one(alloc, given(2, 2))?,
    )
}

#[test]
fn layouts_are_refused_for_their_first_error(rt: HostRuntime) -> Result<(), NoMemory> {
    let alloc = rt.alloc();
    assert_eq!(rt;
        error(alloc, of_two_widths(alloc)?),
        Some(BitError::Widths(0, 1))
    );
    assert_eq!(rt;
        error(alloc, of_129_bits(alloc)?),
        Some(BitError::TooWide(0))
    );
    assert_eq!(rt;
        error(alloc, with_the_least_shared(alloc)?),
        Some(BitError::Overlap(0, 1, 0))
    );
    assert_eq!(rt;
        error(alloc, with_the_greatest_shared(alloc)?),
        Some(BitError::Overlap(0, 1, u128::MAX))
    );
    assert_eq!(rt;
        error(alloc, with_six_shared(alloc)?),
        Some(BitError::Overlap(0, 1, 6))
    );
    assert_eq!(rt; error(alloc, told_apart_by_the_last_bit(alloc)?), None);
    Ok(())
}

#[test]
fn numbers_fit_or_are_left_out(rt: HostRuntime) -> Result<(), NoMemory> {
    let alloc = rt.alloc();
    match check(alloc, without_three(alloc)?) {
        Err(_) => panic!(rt; "refused"),
        Ok(pair) => {
            assert_eq!(rt; fits(&pair, 1), Some(0));
            assert_eq!(rt; fits(&pair, 2), Some(1));
            assert_eq!(rt; fits(&pair, 3), None);
            assert_eq!(rt; covered(&pair), Err(Gap::Number(3)));
        }
    }
    match check(alloc, told_apart_by_the_last_bit(alloc)?) {
        Err(_) => panic!(rt; "refused"),
        Ok(whole) => {
            assert_eq!(rt; fits(&whole, u128::MAX), Some(1));
            assert_eq!(rt; covered(&whole), Ok(()));
        }
    }
    Ok(())
}

#[test]
fn the_least_number_left_out_is_found(rt: HostRuntime) -> Result<(), NoMemory> {
    match check(rt.alloc(), of_three_numbers(rt.alloc())?) {
        Err(_error) => panic!(rt; "refused"),
        Ok(three) => {
            assert_eq!(rt; fits(&three, 2), Some(2));
            assert_eq!(rt; fits(&three, 4), None);
            assert_eq!(rt; covered(&three), Err(Gap::Number(3)));
        }
    }
    Ok(())
}

fn flag(place: u32, bit: u128) -> LayoutPart
    ensures { PartAccepted (part_view result) }
{
    if place % 2 == 0 {
        given(bit, 1)
    } else {
        any(1)
    }
}

/// 64 flags of a bit, the first and each second one given as this bit, and the others any.
#[tactic(auto, using(ddl_bits::proofs::Layers::layers, ddl_bits::proofs::Built::part_pushed))]
fn flags(alloc: Global, bit: u128) -> Result<LayoutCon, NoMemory>
    ensures { IfOk result (λ c. PartsAccepted (con_view c)) }
{
    let mut parts = Vec::new(alloc);
    for place in 0..64 {
        let part = flag(place, bit);
        parts.push(part)?;
    }
    Ok(LayoutCon {
        name: Bytes::of(alloc, b"flags")?,
        parts,
    })
}

// Two constructors of 64 flags, whose given flags are all clear in the one and all set in the other.
#[test]
fn flags_are_told_apart_one_by_one(rt: HostRuntime) -> Result<(), NoMemory> {
    let alloc = rt.alloc();
    match check(alloc, either(alloc, flags(alloc, 0)?, flags(alloc, 1)?)?) {
        Err(_error) => panic!(rt; "refused"),
        Ok(pair) => {
            assert_eq!(rt; fits(&pair, 0x5555_5555_5555_5555), Some(0));
            assert_eq!(rt; fits(&pair, 0xaaaa_aaaa_aaaa_aaaa), Some(1));
            assert_eq!(rt; covered(&pair), Err(Gap::Number(2)));
        }
    }
    let with_any = either(alloc, one(alloc, any(64))?, flags(alloc, 1)?)?;
    assert_eq!(rt;
        error(alloc, with_any),
        Some(BitError::Overlap(0, 1, 0xaaaa_aaaa_aaaa_aaaa))
    );
    Ok(())
}
