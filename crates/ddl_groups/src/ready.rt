//! The groups that are ready, each as its first member.
ghost use Rattle.std.specs.Prelude.{◌≡◌, ℕ, ◌<◌, ◌⊎◌, ◌↔◌, Contains, MatchOption, OnOk};

use ddl_base::NoMemory;
use std::collections::BTreeSet;

/// Adds a first member.
pub(crate) fn add(ready: &mut BTreeSet<u32>, first: u32) -> Result<(), NoMemory>
    ensures { OnOk result ((d : ℕ) → Contains ready.new.keys d ↔ ((d ≡ first) ⊎ Contains ready.old.keys d)) }
{
    ready.insert(first)?;
    Ok(())
}

/// Takes the least first member out.
pub(crate) fn take_least(ready: &mut BTreeSet<u32>) -> Option<u32>
    ensures { MatchOption result ((d : ℕ) → ¬ (Contains ready.old.keys d)) (λ first. Contains ready.old.keys first
        × ((d : ℕ) → Contains ready.old.keys d → (d ≡ first) ⊎ Contains ready.new.keys d)
        × ((d : ℕ) → Contains ready.new.keys d → Contains ready.old.keys d × (first < d))) }
{
    ready.pop_first()
}
