//! A solver: the equations that it accepted, and a most general solution of them.

ghost use Rattle.std.specs.Prelude.{◌≡◌, ◌<◌, ◌≤◌, ◌+◌, ◌-◌, ◌^◌, ◌++◌, ◌∷◌, [], length, IfOk, OnErr, OnOk};
ghost use Rattle.std.specs.Prelude.{MatchResult, nat_le};
ghost use Rattle.ddl_types.specs.Types.{Below, on};
ghost use Rattle.ddl_types.specs.TyView.{ty_view};
ghost use Rattle.ddl_unify.specs.Equations.{equal, EachBelow, MostGeneral};
ghost use Rattle.ddl_unify.specs.View.{equations};
ghost use Rattle.ddl_unify.specs.Holding.{Holding, Adds, Accepts};
ghost use Rattle.ddl_unify.specs.Refused.{Refused};
ghost use Rattle.ddl_unify.specs.State.{accepted, solution, variables, IsFree};

use crate::reading;
use crate::refusal::{EquateError, clash, refuse_endless};
use crate::solving::try_solve;
use crate::store::{Pair, copied};
use crate::trail::Trail;
use ddl_base::NoMemory;
use ddl_types::Ty;
use std::alloc::Global;
use std::marker::Model;

/// Equations between types, with a most general solution of those accepted so far. Contracts see
/// the accepted equations, the solution and the number of variables.
///
/// The rule is that of Hindley (1969) and Milner (1978): a solution of a list of equations is most
/// general where every other one is it followed by a further map.
#[derive(Drop)]
pub struct Solver {
    alloc: Global,
    trail: Trail,
    accepted: Vec<Pair>,
}

impl Model for Solver {
    ghost use Rattle.std.specs.Prelude.{◌≡◌, ℕ, List, length};
    ghost use Rattle.std.specs.Coded.{codes};
    ghost use Rattle.ddl_unify.specs.declared.store.Pair.{Pair};
    ghost use Rattle.ddl_unify.specs.declared.store.Bound.{Bound};
    ghost use Rattle.ddl_types.specs.contracts.ty.Ty as e;

    ghost Value = { List Pair × List Bound × ℕ };

    ghost coded = { Prim.hlevel (codes, e.the_row.coded) };

    ghost use Rattle.ddl_unify.specs.View.{equations};
    ghost use Rattle.ddl_unify.specs.Holding.{Holding};

    ghost view = { λ s. (s.accepted.items, s.trail.0, s.trail.1) };

    ghost invariant = { λ s. Holding (equations s.accepted.items) s.trail };
}

impl Solver {
    /// No equation and no variable.
    pub fn new(alloc: Global) -> Self
        ensures accepted { accepted result ≡ [] }
        ensures variables { variables result ≡ 0 }
    {
        Solver {
            alloc,
            trail: Trail::new(alloc),
            accepted: Vec::new(alloc),
        }
    }

    /// Whether there are as many variables as there may be: 2^32 - 1.
    pub fn is_full(&self) -> bool
        ensures { result ≡ nat_le (2 ^ 32 - 1) (variables self.now) }
    {
        self.trail.variables() >= u32::MAX as usize
    }

    /// The next variable: its number is that of the variables before.
    pub fn fresh(&mut self) -> Result<u32, NoMemory>
        requires { variables self.old < 2 ^ 32 - 1 }
        ensures variable { IfOk result (λ v. v ≡ variables self.old) }
        ensures variables { IfOk result (λ _. variables self.new ≡ variables self.old + 1) }
        ensures same { (accepted self.new ≡ accepted self.old) × (self.new.1 ≡ self.old.1) }
        ensures unchanged { OnErr result (self.new ≡ self.old) }
    {
        self.trail.fresh()
    }

    /// Adds an equation. A refusal leaves the solver as it was.
    pub fn equate(&mut self, left: &Ty, right: &Ty) -> Result<(), EquateError>
        requires left_below { Below (ty_view left.now) (variables self.old) }
        requires right_below { Below (ty_view right.now) (variables self.old) }
        ensures accepted { IfOk result (λ _. accepted self.new ≡ accepted self.old
            ++ equal (ty_view left.now) (ty_view right.now) ∷ []) }
        ensures most { MostGeneral (accepted self.new) (solution self.new) }
        ensures variables { variables self.new ≡ variables self.old }
        ensures refused { MatchResult result (λ _. Unit {0}) (λ e.
            Refused e (accepted self.old) (solution self.old) (ty_view left.now) (ty_view right.now)) }
        ensures unchanged { OnErr result (self.new ≡ self.old) }
    {
        equate(self.alloc, &mut self.trail, &mut self.accepted, left, right)
    }

    /// A type with each variable replaced by what the solution gives it, at every level.
    pub fn read(&self, t: &Ty) -> Result<Ty, NoMemory>
        ensures most { MostGeneral (accepted self.now) (solution self.now) }
        ensures type_read { IfOk result (λ r. ty_view r ≡ on (ty_view t.now) (solution self.now)) }
    {
        reading::read(self.alloc, &self.trail, t)
    }

    /// What stands at the head of a type: the type itself, or what its variable is bound to, until
    /// that is no bound variable. Parts are as they were stored.
    pub fn head<'a>(&'a self, t: &'a Ty) -> &'a Ty
        ensures most { MostGeneral (accepted self.now) (solution self.now) }
        ensures same { on (ty_view result.now) (solution self.now) ≡ on (ty_view t.now) (solution self.now) }
        ensures free { IsFree (ty_view result.now) (solution self.now) }
    {
        reading::head(&self.trail, t)
    }
}

/// Adds an equation to those that were accepted, and to what solves them.
fn equate(
    alloc: Global,
    trail: &mut Trail,
    accepted: &mut Vec<Pair>,
    left: &Ty,
    right: &Ty,
) -> Result<(), EquateError>
    requires holding { Holding (equations accepted.old.items) trail.old }
    requires below { EachBelow (equal (ty_view left.now) (ty_view right.now) ∷ []) trail.old.1 }
    ensures { Accepts result accepted.old.items trail.old (ty_view left.now) (ty_view right.now)
        accepted.new.items trail.new }
{
    match refuse_endless(alloc, trail, left, right) {
        Err(e) => return Err(e),
        Ok(()) => {}
    }
    let n = trail.len();
    match try_solve(alloc, trail, left, right) {
        Err(_) => Err(EquateError::NoMemory),
        Ok(false) => Err(clash(alloc, trail, left, right)),
        Ok(true) => match push_copy(alloc, accepted, left, right) {
            Ok(()) => Ok(()),
            Err(_) => {
                trail.undo(n);
                Err(EquateError::NoMemory)
            }
        },
    }
}

/// Keeps copies of the sides of an equation.
fn push_copy(alloc: Global, accepted: &mut Vec<Pair>, left: &Ty, right: &Ty) -> Result<(), NoMemory>
    ensures done { OnOk result (Adds accepted.old.items (ty_view left.now) (ty_view right.now) accepted.new.items) }
    ensures same { OnErr result (accepted.new.items ≡ accepted.old.items) }
{
    let pair = copied(alloc, left, right)?;
    accepted.push(pair)?;
    Ok(())
}
