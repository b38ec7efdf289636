//! Whether a demand holds under the solution of a solver.

ghost use Rattle.std.specs.Prelude.{IfOk};
ghost use Rattle.ddl_unify.specs.State.{solution, variables};
ghost use Rattle.ddl_types.specs.CondView.{cond_view};
ghost use Rattle.ddl_judging.specs.Demands.{DemandBelow, condition, on_demand};
ghost use Rattle.ddl_judging.specs.Judging.{Judged};
ghost use Rattle.ddl_judging.specs.Views.{demand_view, shapes_view};
ghost use Rattle.ddl_judging.specs.VerdictView.{verdict_view};

use crate::casts::{cutting, fitting, lossless};
use crate::demand::Demand;
use crate::fields::{has_field, has_tag, makes};
use crate::numeric::{comparable, joined, literal, looped, number, word};
use crate::refusal::Wrong;
use crate::shapes::Shapes;
use ddl_base::NoMemory;
use ddl_types::Cond;
use ddl_unify::Solver;
use std::alloc::Global;

/// Whether a demand holds.
#[derive(Drop)]
pub enum Verdict {
    Holds,
    False(Wrong),
    /// Neither, as long as its types are not known.
    Undecided,
}

/// Whether a demand holds under the solution.
pub fn judge(
    alloc: Global,
    solver: &Solver,
    shapes: &Shapes,
    what: &Demand,
) -> Result<Verdict, NoMemory>
    requires below { DemandBelow (variables solver.now) (demand_view what.now) }
    ensures { IfOk result (λ v. Judged (shapes_view shapes.now) (on_demand (solution solver.now) (demand_view what.now))
        (verdict_view v)) }
{
    match what {
        Demand::Cond(cond) => judge_cond(alloc, solver, shapes, cond),
        Demand::Make { of, tag, .. } => makes(alloc, solver, shapes, of, tag.get()),
        Demand::Gather { over, .. } => looped(solver, over),
    }
}

/// Whether a condition holds under the solution.
fn judge_cond(
    alloc: Global,
    solver: &Solver,
    shapes: &Shapes,
    cond: &Cond,
) -> Result<Verdict, NoMemory>
    ensures { IfOk result (λ v. Judged (shapes_view shapes.now)
        (on_demand (solution solver.now) (condition (cond_view cond.now))) (verdict_view v)) }
{
    match cond {
        Cond::Num(t) => number(solver, t),
        Cond::Word(t) => word(solver, t),
        Cond::Lit { number, of } => literal(solver, *number, of),
        Cond::Key(t) => comparable(solver, t),
        Cond::Lossless { from, to } => lossless(alloc, solver, shapes, from, to),
        Cond::Cut { from, to } => cutting(solver, from, to),
        Cond::Fit { from, to } => fitting(solver, shapes, from, to),
        Cond::Cat { left, right, .. } => joined(solver, left, right),
        Cond::Field { of, name, .. } => has_field(alloc, solver, shapes, of, name.get()),
        Cond::Tag { of, name, .. } => has_tag(alloc, solver, shapes, of, name.get()),
        Cond::Loop { over, .. } => looped(solver, over),
    }
}
