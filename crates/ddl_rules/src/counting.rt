//! Numbers that are given out.

ghost use Rattle.std.specs.Prelude.{◌≡◌, ◌+◌, [], IfOk, OnOk};
ghost use Rattle.ddl_rules.specs.Asks.{after_site, after_use, after_variables, bound_next};
ghost use Rattle.ddl_rules.specs.Steps.{GoesOn};
ghost use Rattle.ddl_rules.specs.Views.{env_of, state_of};

use crate::Elaboration;
use ddl_base::NoMemory;
use ddl_kinds::Bound;

// A number with so many behind it.
fn behind(number: u32, count: u32) -> Result<u32, NoMemory>
    ensures { IfOk result (λ n. n ≡ number + count) }
{
    match number.checked_add(count) {
        Some(next) => Ok(next),
        None => Err(NoMemory),
    }
}

impl<'a> Elaboration<'a> {
    /// So many new variables, of which this is the first.
    pub fn variables(&mut self, count: u32) -> Result<u32, NoMemory>
        ensures numbered { IfOk result (λ n. n ≡ (state_of self.old).next) }
        ensures goes_on { OnOk result (GoesOn [] (after_variables count (state_of self.old)) (env_of self.old) self.old
            self.new) }
    {
        let first = self.next;
        self.next = behind(first, count)?;
        Ok(first)
    }

    /// The number of one more grammar argument.
    pub fn site(&mut self) -> Result<u32, NoMemory>
        ensures numbered { IfOk result (λ n. n ≡ (state_of self.old).sites) }
        ensures goes_on { OnOk result (GoesOn [] (after_site (state_of self.old)) (env_of self.old) self.old self.new) }
    {
        let site = self.sites;
        self.sites = behind(site, 1)?;
        Ok(site)
    }

    /// What the next use of a name is bound to. None where no use is left.
    pub fn take_use(&mut self) -> Option<Bound>
        ensures bound { result ≡ bound_next (state_of self.old).uses }
        ensures goes_on { GoesOn [] (after_use (state_of self.old)) (env_of self.old) self.old self.new }
    {
        match self.uses.split_first() {
            Some((taken, left)) => {
                self.uses = left;
                Some(taken.bound)
            }
            None => None,
        }
    }
}
