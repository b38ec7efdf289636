ghost use Rattle.std.specs.Prelude.{◌≡◌, ℕ, ◌+◌, ◌^◌, ◌<◌};

use std::marker::Model;

/// A count of steps.
#[derive(Clone, Copy, PartialEq, Eq)]
pub struct Steps {
    count: u64,
}

impl Model for Steps {
    ghost Value = { ℕ };

    ghost view = { λ s. s.count };

    ghost inverse = { λ n. record { count = n } };
}

impl Steps {
    /// No step yet.
    pub fn new() -> Self
        ensures { result ≡ 0 }
    {
        Steps { count: 0 }
    }

    /// Counts one step. The bound is the largest budget, far below where a `u64` ends.
    pub fn tick(&mut self)
        requires { self.old < 2 ^ 40 }
        ensures { self.new ≡ self.old + 1 }
    {
        self.count += 1;
    }

    pub fn count(&self) -> u64
        ensures { result ≡ self.now }
    {
        self.count
    }
}
