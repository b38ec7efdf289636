//! The pairs of variables that were compared, so that none is compared twice.

ghost use Rattle.std.specs.Prelude.{◌≡◌, ◌≤◌, ◌<◌, ◌+◌, ◌∷◌, ◌++◌, [], List, OnOk, MatchOption, length};
ghost use Rattle.std.specs.Bool.{OnTrue};
ghost use Rattle.std.specs.HashSet.{contains};
ghost use Rattle.ddl_unify.specs.declared.store.Bound.{Bound};
ghost use Rattle.ddl_unify.specs.declared.compared.Pending.{Pending};
ghost use Rattle.ddl_unify.specs.Equations.{Equation};
ghost use Rattle.ddl_unify.specs.Comparing.{same_pair, Remembers, KnownOne, AreEqual, Carries, MayAwait};

use ddl_base::NoMemory;
use std::alloc::Global;
use std::collections::HashSet;

/// Two variables that are equal once the equations above the given number of them are solved.
#[derive(Clone, Copy)]
pub struct Pending {
    pub left: u32,
    pub right: u32,
    pub above: usize,
}

/// The pairs of variables that were made equal, and those whose parts are still being solved.
#[derive(Drop)]
pub struct Compared {
    pub known: HashSet<(u32, u32)>,
    pub pending: Vec<Pending>,
}

/// Keeps that two variables were made equal.
fn know(known: &mut HashSet<(u32, u32)>, left: u32, right: u32) -> Result<(), NoMemory>
    ensures { OnOk result (KnownOne (contains same_pair known.old) (contains same_pair known.new) (left, right)) }
{
    known.insert((left, right))?;
    Ok(())
}

/// Whether the last pair was being made equal by none of the first n + 1 equations.
fn is_settled(pending: &[Pending], n: usize) -> bool
    ensures { OnTrue result ((ps : List Pending) (p : Pending) → pending.now ≡ ps ++ p ∷ [] → n < p.above) }
{
    match pending.last() {
        Some(last) => last.above > n,
        None => false,
    }
}

/// Takes the last pair, if it was being made equal by none of the first n + 1 equations.
fn pop_settled(pending: &mut Vec<Pending>, n: usize) -> Option<Pending>
    ensures { MatchOption result (pending.new.items ≡ pending.old.items)
        (λ p. (pending.old.items ≡ pending.new.items ++ p ∷ []) × (n < p.above)) }
{
    if is_settled(pending, n) {
        pending.pop()
    } else {
        None
    }
}

impl Compared {
    /// No pair.
    #[tactic(auto, using(crate::proofs::Comparing::comparisons))]
    pub fn new(alloc: Global) -> Self
        ensures { (xs : List Bound) (es : List Equation) → Remembers result xs es }
    {
        Compared {
            known: HashSet::new(alloc),
            pending: Vec::new(alloc),
        }
    }

    /// Whether two variables are one, or were made equal.
    pub fn knows(&self, left: u32, right: u32) -> bool
        ensures { OnTrue result ((xs : List Bound) (es : List Equation) → Remembers self.now xs es →
            AreEqual left right xs) }
    {
        if left == right {
            return true;
        }
        self.known.contains(&(left, right))
    }

    /// Two variables are equal once the equations above the given number of them are solved.
    pub fn expect(&mut self, left: u32, right: u32, above: usize) -> Result<(), NoMemory>
        ensures { OnOk result ((xs : List Bound) (es : List Equation) →
            MayAwait left right above self.old self.new xs es) }
    {
        self.pending.push(Pending { left, right, above })?;
        Ok(())
    }

    /// Keeps as made equal those pairs of which no equation is left, of n + 1.
    pub fn settle(&mut self, n: usize) -> Result<(), NoMemory>
        ensures { OnOk result ((xs : List Bound) (es : List Equation) → length es ≤ n + 1 →
            Carries self.old self.new xs es) }
    {
        while let Some(last) = pop_settled(&mut self.pending, n) {
            know(&mut self.known, last.left, last.right)?;
        }
        Ok(())
    }
}
