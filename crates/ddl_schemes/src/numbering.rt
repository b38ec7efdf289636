//! The variables of a group's types, numbered in the order of their first appearance.

ghost use Rattle.std.specs.Prelude.{◌≡◌, IfOk, List, length, map};
ghost use Rattle.ddl_types.specs.Types.{on};
ghost use Rattle.ddl_types.specs.TyView.{ty_view};
ghost use Rattle.ddl_types.specs.CondView.{cond_view};
ghost use Rattle.ddl_types.specs.Conditions.{on_condition};
ghost use Rattle.ddl_unify.specs.State.{solution};
ghost use Rattle.ddl_judging.specs.Views.{shapes_view};
ghost use Rattle.ddl_schemes.specs.Order.{AreVariables};
ghost use Rattle.ddl_schemes.specs.Renaming.{renaming, seen, shared, shared_condition};

use crate::sharing::{Sharing, share};
use crate::walk::walk;
use ddl_base::NoMemory;
use ddl_judging::Shapes;
use ddl_types::{Change, Cond, Leaves, Ty, changed_cond, mapped};
use ddl_unify::Solver;
use indexmap::IndexSet;
use std::alloc::Global;
use std::marker::Model;

/// The variables of a group's types: each has as its number its place in the order of first
/// appearance. Contracts see that list.
#[derive(Drop)]
pub struct Numbering {
    variables: IndexSet<u32>,
}

impl Model for Numbering {
    ghost use Rattle.std.specs.Prelude.{List, ℕ, ◌<◌, ◌^◌, length};

    ghost Value = { List ℕ };

    ghost view = { λ n. n.variables.keys };

    ghost invariant = { λ n. length n.variables.keys < 2 ^ 32 };
}

impl Leaves for Numbering {
    ghost fits = { λ s v. Unit {0} };

    ghost sub = { λ s. renaming s 0 };

    #[tactic(auto, using(ddl_types::proofs::TyLayers::layers, crate::proofs::Numbers::numbers))]
    fn at(&self, _alloc: Global, variable: u32) -> Result<Ty, NoMemory> {
        match self.variables.get_index_of(&variable) {
            Some(number) => Ok(Ty::Var(number as u32)),
            None => Ok(Ty::Unit),
        }
    }
}

/// The types of the group as they are seen from other groups.
#[derive(Clone, Copy)]
struct Seen<'a> {
    numbering: &'a Numbering,
    solver: &'a Solver,
    first: u32,
}

impl<'a> Change for Seen<'a> {
    ghost can = { λ s t. Unit {0} };

    ghost to = { λ s. seen s.first s.numbering.now (solution s.solver.now) };

    fn change(&self, alloc: Global, t: &Ty) -> Result<Ty, NoMemory> {
        self.numbering.shared(alloc, self.solver, self.first, t)
    }
}

impl Numbering {
    /// The variables of a group whose declarations have these types: of each those of its parameters,
    /// then its own. The members of a record or union of the group are walked where it appears first.
    pub fn of(
        alloc: Global,
        solver: &Solver,
        shapes: &Shapes,
        roots: &[Ty],
    ) -> Result<Numbering, NoMemory>
        ensures { IfOk result (AreVariables (shapes_view shapes.now) (solution solver.now) (map ty_view roots.now)) }
    {
        let found = walk(alloc, solver, shapes, roots)?;
        if found.variables.len() > u32::MAX as usize {
            return Err(NoMemory);
        }
        Ok(Numbering {
            variables: found.variables,
        })
    }

    /// How many there are.
    pub fn count(&self) -> usize
        ensures { result ≡ length self.now }
    {
        self.variables.len()
    }

    /// A type of the group as it is solved, with its variables by their numbers. A variable that
    /// stands in no type of a declaration becomes the type of `{}`.
    #[tactic(auto, using(ddl_types::proofs::Mapping::each_free))]
    pub fn renamed(&self, alloc: Global, solver: &Solver, of: &Ty) -> Result<Ty, NoMemory>
        ensures { IfOk result (λ r. ty_view r ≡ on (on (ty_view of.now) (solution solver.now)) (renaming self.now 0)) }
    {
        let read = solver.read(of)?;
        mapped(alloc, self, &read)
    }

    /// The same as it is seen from other groups, where each record and union of this group, which are
    /// those from number `first` on, has all its variables as arguments.
    pub fn shared(
        &self,
        alloc: Global,
        solver: &Solver,
        first: u32,
        of: &Ty,
    ) -> Result<Ty, NoMemory>
        ensures { IfOk result (λ r. ty_view r ≡ shared first (length self.now)
            (on (on (ty_view of.now) (solution solver.now)) (renaming self.now 0))) }
    {
        let renamed = self.renamed(alloc, solver, of)?;
        let sharing = Sharing {
            first,
            count: self.variables.len() as u32,
        };
        share(alloc, sharing, &renamed)
    }

    /// A kept condition as it is seen from other groups.
    #[tactic(auto, using(crate::proofs::Sharings::seen_condition))]
    pub fn shared_cond(
        &self,
        alloc: Global,
        solver: &Solver,
        first: u32,
        cond: &Cond,
    ) -> Result<Cond, NoMemory>
        ensures { IfOk result (λ c. cond_view c
            ≡ shared_condition first (length self.now)
            (on_condition (renaming self.now 0) (on_condition (solution solver.now) (cond_view cond.now)))) }
    {
        let seen = Seen {
            numbering: self,
            solver,
            first,
        };
        changed_cond(alloc, &seen, cond)
    }
}
