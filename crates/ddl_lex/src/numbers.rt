ghost use Rattle.std.specs.Prelude.{◌≡◌, ◌<◌, ◌≤◌, ◌+◌, ◌*◌, ◌^◌, length, IfOk, IfSome, IsNone, true, slice_index};
ghost use Rattle.std.specs.Prelude.{take};
ghost use Rattle.ddl_lex.specs.Letters.{run, is_decimal};
ghost use Rattle.ddl_lex.specs.Letters.{digit_value as digit_value'};
ghost use Rattle.ddl_lex.specs.Numbers as numbers;

use crate::LexError;
use crate::literal::digit_value;
use ddl_token::{Base, Tok};

/// How much a digit counts more than the digit behind it.
fn radix(base: Base) -> u128
    ensures value { result ≡ numbers.radix base }
    ensures some { 0 < result }
{
    match base {
        Base::Decimal => 10,
        Base::Hexadecimal => 16,
        Base::Binary => 2,
    }
}

/// Whether the byte is a digit of the base.
fn is_digit_of(base: Base, byte: u8) -> bool
    ensures { result ≡ numbers.is_digit_of base byte }
{
    match base {
        Base::Decimal => byte.is_ascii_digit(),
        Base::Hexadecimal => byte.is_ascii_hexdigit(),
        Base::Binary => matches!(byte, b'0' | b'1'),
    }
}

/// How many digits of the base are at the front.
fn digits_len(base: Base, text: &[u8]) -> usize
    ensures value { result ≡ run (numbers.is_digit_of base) text.now }
    ensures within { result ≤ length text.now }
{
    let mut n = 0;
    while n < text.len() && is_digit_of(base, text[n]) {
        n += 1;
    }
    n
}

/// The number with a digit more, or none where it is at least 2^128.
fn with_digit(value: u128, radix: u128, digit: u8) -> Option<u128>
    ensures some { IfSome result (λ more. more ≡ value * radix + digit_value' digit) }
    ensures none { IsNone result → 2 ^ 128 ≤ value * radix + digit_value' digit }
{
    value
        .checked_mul(radix)?
        .checked_add(digit_value(digit) as u128)
}

/// The number that the digits make, or none where it is at least 2^128.
fn value_of(base: Base, digits: &[u8]) -> Option<u128>
    ensures some { IfSome result (λ value. value ≡ numbers.value_behind (numbers.radix base) 0 digits.now) }
    ensures none { IsNone result → 2 ^ 128 ≤ numbers.value_behind (numbers.radix base) 0 digits.now }
{
    let radix = radix(base);
    let mut value: u128 = 0;
    for digit in digits {
        match with_digit(value, radix, *digit) {
            Some(more) => value = more,
            None => return None,
        }
    }
    Some(value)
}

/// The base of the number that begins, and how many bytes tell it.
fn base_at(text: &[u8]) -> (Base, usize)
    ensures base { result.0 ≡ numbers.base_of text.now }
    ensures told { result.1 ≡ numbers.base_mark result.0 }
    ensures within { result.1 ≤ length text.now }
{
    match text {
        [b'0', b'x', digit, ..] if digit.is_ascii_hexdigit() => (Base::Hexadecimal, 2),
        [b'0', b'b', b'0' | b'1', ..] => (Base::Binary, 2),
        _ => (Base::Decimal, 0),
    }
}

/// The number of these digits: `told` bytes before them tell its base.
fn number_of(
    at: u32,
    base: Base,
    told: usize,
    digits: &[u8],
) -> Result<(Option<Tok>, usize), LexError>
    requires told { told ≡ numbers.base_mark base }
    requires size { length digits.now < 2 ^ 31 }
    ensures { result ≡ numbers.number_of at base (length digits.now) digits.now }
{
    match value_of(base, digits) {
        Some(value) => Ok((
            Some(Tok::Number {
                value,
                base,
                digits: digits.len() as u32,
            }),
            told + digits.len(),
        )),
        None => Err(LexError::NumberTooWide(at)),
    }
}

/// The number at the front.
pub(crate) fn number_at(text: &[u8], at: u32) -> Result<(Option<Tok>, usize), LexError>
    requires { length text.now < 2 ^ 31 }
    ensures value { result ≡ numbers.number at text.now }
    ensures within { IfOk result (λ found. found.1 ≤ length text.now) }
    ensures some { is_decimal (slice_index text.now 0) ≡ true → IfOk result (λ found. 0 < found.1) }
{
    let (base, told) = base_at(text);
    let (_, digits) = text.split_at(told);
    let (digits, _) = digits.split_at(digits_len(base, digits));
    number_of(at, base, told, digits)
}
