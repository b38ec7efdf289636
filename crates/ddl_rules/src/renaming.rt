//! The types of a declaration at new variables.

ghost use Rattle.std.specs.Prelude.{◌≡◌, IfOk, map};
ghost use Rattle.ddl_types.specs.Types.{on};
ghost use Rattle.ddl_types.specs.TyView.{ty_view};
ghost use Rattle.ddl_types.specs.Conditions.{on_condition};
ghost use Rattle.ddl_types.specs.CondView.{cond_view};
ghost use Rattle.ddl_judging.specs.Shapes.{at};

use crate::types::variable;
use ddl_base::NoMemory;
use ddl_types::{Change, Cond, Leaves, Ty, changed_cond, mapped, mapped_all};
use std::alloc::Global;

/// In place of so many variables stand those from the first one on; where there are none, each stands for itself.
#[derive(Clone, Copy)]
struct Renumbering {
    vars: u32,
    first: u32,
}

impl Leaves for Renumbering {
    ghost fits = { λ s v. Unit {0} };

    ghost sub = { λ s. at s.vars s.first };

    fn at(&self, _alloc: Global, number: u32) -> Result<Ty, NoMemory> {
        if self.vars == 0 {
            return Ok(variable(number));
        }
        match self.first.checked_add(number) {
            Some(renumbered) => Ok(variable(renumbered)),
            None => Err(NoMemory),
        }
    }
}

impl Change for Renumbering {
    ghost can = { λ s t. Unit {0} };

    ghost to = { λ s t. on t (at s.vars s.first) };

    fn change(&self, alloc: Global, t: &Ty) -> Result<Ty, NoMemory> {
        renumbered(alloc, self.vars, self.first, t)
    }
}

/// A type with its variables, so many, in place of which stand those from the first one on.
#[tactic(auto, using(ddl_types::proofs::Mapping::each_free))]
pub fn renumbered(alloc: Global, vars: u32, first: u32, of: &Ty) -> Result<Ty, NoMemory>
    ensures { IfOk result (λ r. ty_view r ≡ on (ty_view of.now) (at vars first)) }
{
    mapped(alloc, &Renumbering { vars, first }, of)
}

/// Types with their variables renumbered.
#[tactic(auto, using(ddl_types::proofs::Mapping::each_of_free))]
pub fn renumbered_all(
    alloc: Global,
    vars: u32,
    first: u32,
    types: &[Ty],
) -> Result<Vec<Ty>, NoMemory>
    ensures { IfOk result (λ v. map ty_view v.items ≡ map (λ t. on t (at vars first)) (map ty_view types.now)) }
{
    mapped_all(alloc, &Renumbering { vars, first }, types)
}

/// A condition with its variables renumbered.
pub fn renumbered_cond(alloc: Global, vars: u32, first: u32, cond: &Cond) -> Result<Cond, NoMemory>
    ensures { IfOk result (λ c. cond_view c ≡ on_condition (at vars first) (cond_view cond.now)) }
{
    changed_cond(alloc, &Renumbering { vars, first }, cond)
}
