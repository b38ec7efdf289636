ghost use Rattle.std.specs.Prelude.{◌≡◌, ◌<◌, ◌≤◌, ◌++◌, ◌∷◌, IfOk, OnOk};
ghost use Rattle.ddl_lex.specs.Numbers as numbers;
ghost use Rattle.ddl_lex.specs.Forms.{base_spelling};
ghost use Rattle.ddl_show.specs.Numerals as numerals;

use ddl_base::NoMemory;
use ddl_token::Base;
use std::alloc::Global;

/// How much a digit counts more than the digit behind it.
fn radix(base: Base) -> u128
    ensures value { result ≡ numbers.radix base }
    ensures some { 1 < result }
    ensures few { result ≤ 16 }
{
    match base {
        Base::Decimal => 10,
        Base::Hexadecimal => 16,
        Base::Binary => 2,
    }
}

/// What tells the base of a number, before its digits.
fn base_mark(base: Base) -> &'static [u8]
    ensures { result.now ≡ base_spelling base }
{
    match base {
        Base::Decimal => b"",
        Base::Hexadecimal => b"0x",
        Base::Binary => b"0b",
    }
}

/// The sign of a digit.
pub(crate) fn digit(value: u8) -> u8
    requires { value < 16 }
    ensures { result ≡ numerals.digit value }
{
    if value < 10 {
        b'0' + value
    } else {
        b'a' - 10 + value
    }
}

/// So many digits of a value, the lowest first.
#[tactic(auto, using(std::proofs::lemmas::Grind::common_steps, crate::proofs::LowDigits::low_more))]
fn low_digits(alloc: Global, radix: u128, count: u32, value: u128) -> Result<Vec<u8>, NoMemory>
    requires some { 1 < radix }
    requires few { radix ≤ 16 }
    ensures { IfOk result (λ digits. digits.items ≡ numerals.low_digits radix count value) }
{
    let mut digits = Vec::new(alloc);
    let mut left = count;
    let mut rest = value;
    while left > 0 {
        digits.push(digit((rest % radix) as u8))?;
        rest /= radix;
        left -= 1;
    }
    Ok(digits)
}

/// So many digits of a value, the highest first.
fn digits_of(alloc: Global, base: Base, count: u32, value: u128) -> Result<Vec<u8>, NoMemory>
    ensures { IfOk result (λ digits. digits.items ≡ numerals.digits (numbers.radix base) count value) }
{
    let mut digits = low_digits(alloc, radix(base), count, value)?;
    digits.reverse();
    Ok(digits)
}

/// Writes a space and a number.
pub(crate) fn put_digits(
    text: &mut Vec<u8>,
    base: Base,
    count: u32,
    value: u128,
) -> Result<(), NoMemory>
    ensures { OnOk result (text.new.items ≡ text.old.items
        ++ (32 ∷ base_spelling base ++ numerals.digits (numbers.radix base) count value)) }
{
    let digits = digits_of(*text.allocator(), base, count, value)?;
    text.push(b' ')?;
    text.extend_from_slice(base_mark(base))?;
    text.extend_from_slice(&digits)?;
    Ok(())
}
