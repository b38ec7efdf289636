//! What is said of a group once nothing more is added.

ghost use Rattle.std.specs.Prelude.{◌≡◌, ◌<◌, ◌+◌, ◌∷◌, ◌++◌, [], All, IfOk, OnOk, MatchResult, length, take};
ghost use Rattle.ddl_unify.specs.State.{solution, variables};
ghost use Rattle.ddl_judging.specs.Demands.{DemandBelow};
ghost use Rattle.ddl_conditions.specs.Closing.{IsUnmet};
ghost use Rattle.ddl_conditions.specs.Fates.{IsClosing, IsFate, first_left};
ghost use Rattle.ddl_conditions.specs.Settled.{AreKept};
ghost use Rattle.ddl_conditions.specs.GroupView.{group_view};
ghost use Rattle.ddl_judging.specs.Views.{asked_view, demand_view};

use crate::group::Group;
use crate::keeping::is_kept;
use ddl_base::{NoMemory, Span};
use ddl_growing::SettleError;
use ddl_judging::{Asked, Verdict, Wrong, judge};
use ddl_unify::Solver;
use std::alloc::Global;

/// What becomes of a demand.
#[derive(Drop)]
pub(crate) enum Fate {
    Met,
    False(Wrong),
    /// Neither, and kept for the uses of the declarations.
    Kept,
    /// Neither, and not kept.
    Left,
}

/// The places of the demands that are kept; else the first that is false; else the first that is left.
pub(crate) fn close(
    alloc: Global,
    solver: &Solver,
    group: &Group<'_>,
) -> Result<Vec<usize>, SettleError>
    requires below { All (λ a. DemandBelow (variables solver.now) a.what) (group_view group.now).asked }
    ensures { MatchResult result (λ ks. AreKept (group_view group.now) (solution solver.now) 0
        (group_view group.now).asked ks.items) (IsUnmet (group_view group.now) (solution solver.now)) }
{
    let mut kept = Vec::new(alloc);
    let mut left = None;
    for place in 0..group.asked.len() {
        close_one(alloc, solver, group, place, &mut kept, &mut left)?;
    }
    match left {
        Some(span) => Err(SettleError::Unresolved { span }),
        None => Ok(kept),
    }
}

/// Keeps the place of a demand that is kept, and that of the first that is left.
fn close_one(
    alloc: Global,
    solver: &Solver,
    group: &Group<'_>,
    place: usize,
    kept: &mut Vec<usize>,
    left: &mut Option<Span>,
) -> Result<(), SettleError>
    requires within { place < length group.now.asked.now }
    requires below { All (λ a. DemandBelow (variables solver.now) a.what) (group_view group.now).asked }
    requires closing { IsClosing (group_view group.now) (solution solver.now) (take place (group_view group.now).asked)
        kept.old.items left.old }
    ensures { MatchResult result (λ _. IsClosing (group_view group.now) (solution solver.now)
        (take (place + 1) (group_view group.now).asked) kept.new.items left.new)
        (IsUnmet (group_view group.now) (solution solver.now)) }
{
    let asked = &group.asked[place];
    match fate_of(alloc, solver, group, asked)? {
        Fate::Met => Ok(()),
        Fate::False(why) => Err(SettleError::Wrong {
            span: asked.span,
            why,
        }),
        Fate::Kept => {
            keep(kept, place)?;
            Ok(())
        }
        Fate::Left => {
            note_left(left, asked.span);
            Ok(())
        }
    }
}

/// Keeps the place of one more demand.
fn keep(kept: &mut Vec<usize>, place: usize) -> Result<(), NoMemory>
    ensures { OnOk result (kept.new.items ≡ kept.old.items ++ place ∷ []) }
{
    kept.push(place)?;
    Ok(())
}

/// Keeps the first place of a demand that is left.
fn note_left(left: &mut Option<Span>, span: Span)
    ensures { left.new ≡ first_left left.old span }
{
    if left.is_none() {
        *left = Some(span);
    }
}

/// What becomes of a demand.
fn fate_of(
    alloc: Global,
    solver: &Solver,
    group: &Group<'_>,
    asked: &Asked,
) -> Result<Fate, NoMemory>
    requires { DemandBelow (variables solver.now) (demand_view asked.now.what) }
    ensures { IfOk result (IsFate (group_view group.now) (solution solver.now) (asked_view asked.now)) }
{
    match judge(alloc, solver, group.shapes, &asked.what)? {
        Verdict::Holds => Ok(Fate::Met),
        Verdict::False(why) => Ok(Fate::False(why)),
        Verdict::Undecided => {
            if is_kept(alloc, solver, group, asked)? {
                Ok(Fate::Kept)
            } else {
                Ok(Fate::Left)
            }
        }
    }
}
