ghost use Rattle.std.specs.Prelude.{◌≡◌};

use crate::{Sink, Took};
use std::io::Write;

/// Standard output, or another writer. What was written is not told.
#[derive(Drop)]
pub struct HostOut<W: Write + Drop> {
    out: W,
    faults: u64,
}

impl<W: Write + Drop> HostOut<W> {
    /// A sink over `out`, before any failure.
    pub fn new(out: W) -> Self
        ensures { result.faults ≡ 0 }
    {
        HostOut { out, faults: 0 }
    }
}

impl<W: Write + Drop> Sink for HostOut<W> {
    ghost use Rattle.std.specs.Prelude.{None};

    ghost state = { λ s. record { wrote = None; offers = None; room = None; faults = s.faults } };

    /// A write that takes nothing is a failure.
    fn write(&mut self, piece: &[u8]) -> Took {
        match self.out.write(piece) {
            Ok(count) if count > 0 => Took::Took(count),
            _ => {
                self.faults = self.faults.saturating_add(1);
                Took::Failed
            }
        }
    }
}
