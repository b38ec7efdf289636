ghost use Rattle.ddl_arith.specs.Exact.{cut_of, kept};
ghost use Rattle.ddl_types.specs.Num.{whole, IsNumType};
ghost use Rattle.std.specs.Prelude.{◌≡◌, ◌+◌, ◌*◌, ◌^◌, ◌<◌, ◌≤◌, ◌⊎◌, pos, ◌+ℤ◌};
ghost use Rattle.ddl_types.specs.declared.num.NumType.TheVariants as Ty;

use crate::bits::{is_sint, lowest_bits, with_sign};
use ddl_types::{Num, NumType};

/// The number as one of another type, or `None` where it is outside that type's range.
pub fn keep(n: Num, to: NumType) -> Option<Num>
    requires { IsNumType to }
    ensures { result ≡ kept to (whole n) }
{
    match (to, n) {
        (NumType::Uint(width), Num::Uint(n)) => keep_unsigned(n, width),
        (NumType::Uint(width), Num::Sint(z)) => keep_unsigned(u128::try_from(z).ok()?, width),
        (NumType::Sint(width), Num::Uint(n)) => keep_signed(i128::try_from(n).ok()?, width),
        (NumType::Sint(width), Num::Sint(z)) => keep_signed(z, width),
        (NumType::Int, Num::Uint(n)) => keep_signed(i128::try_from(n).ok()?, 128),
        (NumType::Int, Num::Sint(z)) => keep_signed(z, 128),
    }
}

/// The number of another type that is equal to this one modulo 2^width.
pub fn cut(n: Num, to: NumType) -> Num
    requires { IsNumType to }
    ensures { result ≡ cut_of to (whole n) }
{
    let bits = bits_of(n);
    match to {
        NumType::Uint(width) => Num::Uint(lowest_bits(bits, width)),
        NumType::Sint(width) => Num::Sint(with_sign(lowest_bits(bits, width), width)),
        NumType::Int => Num::Sint(with_sign(bits, 128)),
    }
}

/// The bits of `b` after those of `a`.
pub fn join(a: u128, a_width: u32, b: u128, b_width: u32) -> u128
    requires room { a_width + b_width ≤ 128 }
    requires a_fits { a < 2 ^ a_width }
    requires b_fits { b < 2 ^ b_width }
    ensures { result ≡ a * 2 ^ b_width + b }
{
    // Where `b` takes all 128 bits, `a` has none and is 0.
    a.checked_shl(b_width).unwrap_or(0) | b
}

// The bits of a number: those of the number itself or, where it is negative, of 2^128 more.
fn bits_of(n: Num) -> u128
    ensures { (whole n ≡ pos result) ⊎ (whole n +ℤ pos (2 ^ 128) ≡ pos result) }
{
    match n {
        Num::Uint(n) => n,
        Num::Sint(z) => z.cast_unsigned(),
    }
}

fn keep_unsigned(n: u128, width: u8) -> Option<Num>
    requires { width ≤ 128 }
    ensures { result ≡ kept (Ty.Uint width) (pos n) }
{
    if lowest_bits(n, width) == n {
        Some(Num::Uint(n))
    } else {
        None
    }
}

fn keep_signed(z: i128, width: u8) -> Option<Num>
    requires at_least_one { 1 ≤ width }
    requires at_most_128 { width ≤ 128 }
    ensures { result ≡ kept (Ty.Sint width) z }
{
    if is_sint(z, width) {
        Some(Num::Sint(z))
    } else {
        None
    }
}
