ghost use Rattle.std.specs.Prelude.{◌≡◌, ◌≤◌, ◌<◌, ◌^◌, ◌%◌, ◌-◌, IsTrue, ◌↔◌, pos, negsuc, int_lt, int_le};
ghost use Rattle.std.specs.Prelude.{if◌then◌else◌, nat_lt};
ghost use Rattle.ddl_types.specs.Num.{in_range};
ghost use Rattle.ddl_types.specs.declared.num.NumType.TheVariants as Ty;

/// The lowest `width` bits of a number.
pub(crate) fn lowest_bits(n: u128, width: u8) -> u128
    requires { width ≤ 128 }
    ensures { result ≡ n % 2 ^ width }
{
    if width == 128 {
        n
    } else {
        n & ((1 << width) - 1)
    }
}

/// Whether a number is in the range of `sint width`.
pub(crate) fn is_sint(z: i128, width: u8) -> bool
    requires at_least_one { 1 ≤ width }
    requires at_most_128 { width ≤ 128 }
    ensures { result ≡ in_range (Ty.Sint width) z }
{
    // What is left of a number beside the bits of its size: 0, or -1 for a negative number.
    matches!(z >> (width - 1), 0 | -1)
}

/// The number of `sint width` with these lowest bits.
pub(crate) fn with_sign(bits: u128, width: u8) -> i128
    requires at_least_one { 1 ≤ width }
    requires at_most_128 { width ≤ 128 }
    requires within { bits < 2 ^ width }
    ensures { result ≡ (if nat_lt bits (2 ^ (width - 1)) then pos bits else negsuc (2 ^ width - 1 - bits)) }
{
    if bits >> (width - 1) == 0 {
        bits as i128
    } else {
        -1 - ((lowest_bits(u128::MAX, width) - bits) as i128)
    }
}
