ghost use Rattle.ddl_bits.specs.Flows.{shared_bit};
ghost use Rattle.std.specs.Prelude.{◌≡◌, ◌<◌};

/// The numbers that have all but their lowest `bits` as `from` has them.
#[derive(Clone, Copy)]
pub(crate) struct Range {
    pub from: u128,
    pub bits: u32,
}

/// The bit at a place that all numbers of a range have.
pub(crate) fn shared_bit(range: Range, place: u32) -> Option<u128>
    requires { place < 128 }
    ensures { result ≡ shared_bit range.from range.bits place }
{
    if place < range.bits {
        None
    } else {
        Some((range.from >> place) & 1)
    }
}
