ghost use Rattle.ddl_class.specs.Class.{contains, HoldsExactly};
ghost use Rattle.std.specs.Int.{is_in_range};
ghost use Rattle.std.specs.List.{prefix_len};
ghost use Rattle.std.specs.Prelude.{◌≡◌, false, not, ◌||◌, ◌^◌, ◌-◌, ◌≤◌, nat_lt};

/// A set of bytes. Contracts see it by the test `contains`.
#[derive(Clone, Copy, PartialEq, Eq)]
pub struct Class {
    /// Bit `byte % 64` of word `byte / 64` is set where the byte is in.
    words: [u64; 4],
}

impl Class {
    /// The class of no byte.
    pub fn empty() -> Self
        ensures { HoldsExactly result (λ byte. false) }
    {
        Class { words: [0; 4] }
    }

    /// The bytes from `from` to `to`, both included; none where `to` is below `from`.
    pub fn range(from: u8, to: u8) -> Self
        ensures { HoldsExactly result (is_in_range from to) }
    {
        // What is up to `to` and not below `from`.
        Class::below(u16::from(to) + 1)
            .not()
            .or(Class::below(u16::from(from)))
            .not()
    }

    /// The bytes that are in either class.
    pub fn or(self, other: Class) -> Self
        ensures { HoldsExactly result (λ byte. contains self byte || contains other byte) }
    {
        let Class {
            words: [a, b, c, d],
        } = self;
        let Class {
            words: [e, f, g, h],
        } = other;
        Class {
            words: [a | e, b | f, c | g, d | h],
        }
    }

    /// The bytes that are not in this class.
    pub fn not(self) -> Self
        ensures { HoldsExactly result (λ byte. not (contains self byte)) }
    {
        let Class {
            words: [a, b, c, d],
        } = self;
        Class {
            words: [!a, !b, !c, !d],
        }
    }

    /// Whether the byte is in the class.
    pub fn has(&self, byte: u8) -> bool
        ensures { result ≡ contains self.now byte }
    {
        (self.words[usize::from(byte / 64)] >> (byte % 64)) & 1 == 1
    }

    /// The length of the longest prefix of `bytes` whose bytes are all in the class.
    pub fn run_length(&self, bytes: &[u8]) -> usize
        ensures { result ≡ prefix_len (contains self.now) bytes.now }
    {
        for (place, byte) in bytes.iter().enumerate() {
            if !self.has(*byte) {
                return place;
            }
        }
        bytes.len()
    }

    // The bytes below a bound.
    fn below(bound: u16) -> Self
        requires { bound ≤ 256 }
        ensures { HoldsExactly result (λ byte. nat_lt byte bound) }
    {
        Class {
            words: [
                lowest_ones(bound.min(64)),
                lowest_ones(bound.saturating_sub(64).min(64)),
                lowest_ones(bound.saturating_sub(128).min(64)),
                lowest_ones(bound.saturating_sub(192).min(64)),
            ],
        }
    }
}

// A word whose lowest `count` bits are set, and no other.
fn lowest_ones(count: u16) -> u64
    requires { count ≤ 64 }
    ensures { result ≡ 2 ^ count - 1 }
{
    if count == 64 {
        u64::MAX
    } else {
        (1 << count) - 1
    }
}
