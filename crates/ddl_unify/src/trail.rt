//! The trail of a solver: the bindings of variables, in the order in which they were made.

ghost use Rattle.std.specs.Prelude.{◌≡◌, ◌<◌, ◌≤◌, ◌+◌, ◌-◌, ◌^◌, IfOk, OnErr, MatchOption, length};
ghost use Rattle.std.specs.Bool.{OnFalse};
ghost use Rattle.ddl_types.specs.TyView.{ty_view};
ghost use Rattle.ddl_unify.specs.Bindings.{Unbound};
ghost use Rattle.ddl_unify.specs.Named.{Absent};
ghost use Rattle.ddl_unify.specs.Trails.{bindings, variables, no_trail, Whole, LeadsTo, CanBind, Pushed, Popped, Back};

use crate::store::Bound;
use crate::written::{is_marked, mark_in};
use ddl_base::NoMemory;
use ddl_types::Ty;
use std::alloc::Global;
use std::marker::Model;

/// Variables, and the bindings of some of them. Contracts see the bindings, the oldest first, and the
/// number of variables. No variable is bound twice, and none stands in what it is bound to.
#[derive(Drop)]
pub struct Trail {
    bindings: Vec<Bound>,
    /// Where the binding of each variable stands: 0 for none, k + 1 for the k-th.
    place: Vec<u32>,
    /// Whether a variable stands in a stored type; a mark outlives a binding that is taken back.
    named: Vec<bool>,
}

impl Model for Trail {
    ghost use Rattle.std.specs.Prelude.{ℕ, List, length};
    ghost use Rattle.std.specs.Coded.{codes};
    ghost use Rattle.ddl_unify.specs.declared.store.Bound.{Bound};
    ghost use Rattle.ddl_types.specs.contracts.ty.Ty as e;

    ghost Value = { List Bound × ℕ };

    ghost coded = { Prim.hlevel (codes, e.the_row.coded) };

    ghost use Rattle.ddl_unify.specs.Kept.{Kept};
    ghost use Rattle.ddl_unify.specs.Named.{Named};

    ghost view = { λ t. (t.bindings.items, length t.place.items) };

    ghost invariant = { λ t. Kept t.place.items t.bindings.items × Named t.named.items t.place.items t.bindings.items };
}

impl Trail {
    /// No variable.
    pub fn new(alloc: Global) -> Self
        ensures { result ≡ no_trail }
    {
        Trail {
            bindings: Vec::new(alloc),
            place: Vec::new(alloc),
            named: Vec::new(alloc),
        }
    }

    /// How many variables there are.
    pub fn variables(&self) -> usize
        ensures { result ≡ variables self.now }
    {
        self.place.len()
    }

    /// How many bindings there are.
    pub fn len(&self) -> usize
        ensures { result ≡ length self.now.0 }
    {
        self.bindings.len()
    }

    /// What is true of every trail.
    pub fn law(&self)
        ensures { Whole self.now }
    {
        let _ = &self.bindings;
    }

    /// One more variable: its number is that of the variables before.
    pub fn fresh(&mut self) -> Result<u32, NoMemory>
        requires { variables self.old < 2 ^ 32 - 1 }
        ensures variable { IfOk result (λ v. v ≡ variables self.old) }
        ensures variables { IfOk result (λ _. variables self.new ≡ variables self.old + 1) }
        ensures same { self.new.0 ≡ self.old.0 }
        ensures unchanged { OnErr result (self.new ≡ self.old) }
    {
        let v = self.place.len() as u32;
        // first the mark: one too many says nothing
        self.named.push(false)?;
        self.place.push(0)?;
        Ok(v)
    }

    /// What a variable is bound to, as it was given.
    pub fn bound_to(&self, v: u32) -> Option<&Ty>
        ensures { MatchOption result (Unbound v (bindings self.now)) (λ t. LeadsTo self.now v (ty_view t.now)) }
    {
        match self.place.get(v as usize) {
            None => None,
            Some(at) => {
                if *at == 0 {
                    None
                } else {
                    Some(&self.bindings[*at as usize - 1].to)
                }
            }
        }
    }

    /// Whether a variable may stand in a type that another is bound to.
    pub fn is_named(&self, v: u32) -> bool
        ensures { OnFalse result (Absent v (bindings self.now)) }
    {
        is_marked(&self.named, v)
    }

    /// Binds a variable that is not bound to a type that does not hold it.
    pub fn bind(&mut self, v: u32, t: Ty) -> Result<(), NoMemory>
        requires { CanBind self.old v (ty_view t) }
        ensures bound { IfOk result (λ _. Pushed self.old v t self.new) }
        ensures same { OnErr result (self.new ≡ self.old) }
    {
        if self.bindings.len() >= u32::MAX as usize {
            return Err(NoMemory);
        }
        mark_in(&t, &mut self.named);
        self.bindings.push(Bound { from: v, to: t })?;
        self.place[v as usize] = self.bindings.len() as u32;
        Ok(())
    }

    /// Takes back the last binding.
    fn undo_one(&mut self)
        requires { 0 < length self.old.0 }
        ensures { Back (length self.old.0 - 1) self.old self.new }
    {
        if let Some(v) = pop_last(&mut self.bindings) {
            self.place[v as usize] = 0;
        }
    }

    /// Takes back the bindings from the n-th on.
    pub fn undo(&mut self, n: usize)
        requires { n ≤ length self.old.0 }
        ensures { Back n self.old self.new }
    {
        while self.len() > n {
            self.undo_one();
        }
    }
}

/// Takes the last binding, and tells its variable.
fn pop_last(bindings: &mut Vec<Bound>) -> Option<u32>
    ensures { MatchOption result (length bindings.old.items ≡ 0) (λ v. Popped v bindings.old.items bindings.new.items) }
{
    match bindings.pop() {
        Some(bound) => Some(bound.from),
        None => None,
    }
}
