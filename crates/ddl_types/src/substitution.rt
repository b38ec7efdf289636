//! Types put in place of variables.

ghost use Rattle.std.specs.Prelude.{◌≡◌, ◌<◌, IfOk, map, length, All};
ghost use Rattle.ddl_types.specs.Types.{Below, on, arguments};
ghost use Rattle.ddl_types.specs.TyView.{ty_view};
ghost use Rattle.ddl_types.specs.Conditions.{ConditionBelow, on_condition};
ghost use Rattle.ddl_types.specs.CondView.{cond_view};

use crate::changing::{Change, changed_cond};
use crate::leaves::{Leaves, mapped};
use crate::{Cond, Instance, Scheme, Ty};
use ddl_base::NoMemory;
use std::alloc::Global;

/// The i-th type stands for the i-th variable.
#[derive(Clone, Copy)]
struct Arguments<'a> {
    types: &'a [Ty],
}

impl<'a> Leaves for Arguments<'a> {
    ghost fits = { λ s v. v < length s.types.now };

    ghost sub = { λ s. arguments (map ty_view s.types.now) };

    #[tactic(auto, using(crate::proofs::Arguments::argument_at))]
    fn at(&self, alloc: Global, variable: u32) -> Result<Ty, NoMemory> {
        let copied = self.types[variable as usize].copy(alloc)?;
        Ok(copied)
    }
}

/// `t` with `args[i]` for each `Var(i)`.
#[tactic(auto, using(crate::proofs::Arguments::each_below))]
pub fn apply(alloc: Global, t: &Ty, args: &[Ty]) -> Result<Ty, NoMemory>
    requires below { Below (ty_view t.now) (length args.now) }
    ensures { IfOk result (λ r. ty_view r ≡ on (ty_view t.now) (arguments (map ty_view args.now))) }
{
    mapped(alloc, &Arguments { types: args }, t)
}

impl<'a> Change for Arguments<'a> {
    ghost can = { λ s t. Below t (length s.types.now) };

    ghost to = { λ s t. on t (arguments (map ty_view s.types.now)) };

    fn change(&self, alloc: Global, t: &Ty) -> Result<Ty, NoMemory> {
        apply(alloc, t, self.types)
    }
}

/// A condition with `args[i]` for each `Var(i)`.
pub fn apply_cond(alloc: Global, cond: &Cond, args: &[Ty]) -> Result<Cond, NoMemory>
    requires below { ConditionBelow (length args.now) (cond_view cond.now) }
    ensures { IfOk result (λ c. cond_view c ≡ on_condition (arguments (map ty_view args.now)) (cond_view cond.now)) }
{
    changed_cond(alloc, &Arguments { types: args }, cond)
}

fn apply_conds(alloc: Global, conds: &[Cond], args: &[Ty]) -> Result<Vec<Cond>, NoMemory>
    requires below { All (ConditionBelow (length args.now)) (map cond_view conds.now) }
    ensures { IfOk result (λ v. map cond_view v.items
        ≡ map (on_condition (arguments (map ty_view args.now))) (map cond_view conds.now)) }
{
    let mut applied = Vec::new(alloc);
    for cond in conds {
        applied.push(apply_cond(alloc, cond, args)?)?;
    }
    Ok(applied)
}

/// The scheme's type and conditions with `args[i]` for each `Var(i)`.
#[tactic(auto, using(crate::proofs::TyLayers::layers))]
pub fn instance(alloc: Global, scheme: &Scheme, args: &[Ty]) -> Result<Instance, NoMemory>
    requires of_below { Below (ty_view scheme.now.of) (length args.now) }
    requires conds_below { All (ConditionBelow (length args.now)) (map cond_view scheme.now.conds.items) }
    ensures of { IfOk result (λ i. ty_view i.of ≡ on (ty_view scheme.now.of) (arguments (map ty_view args.now))) }
    ensures conds { IfOk result (λ i. map cond_view i.conds.items
        ≡ map (on_condition (arguments (map ty_view args.now))) (map cond_view scheme.now.conds.items)) }
{
    Ok(Instance {
        of: apply(alloc, &scheme.of, args)?,
        conds: apply_conds(alloc, &scheme.conds, args)?,
    })
}
