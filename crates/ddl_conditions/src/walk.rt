//! The walk over the demands of a group: those that can add their equations do so in text order, and
//! where none can, the first free number becomes `int`.

ghost use Rattle.std.specs.Prelude.{◌≡◌, ◌++◌, ◌∷◌, [], All, IfOk, MatchResult, MatchOption, map, length, take, drop};
ghost use Rattle.std.specs.Prelude.{◌<◌, ◌+◌, true, false};
ghost use Rattle.ddl_types.specs.Types as types;
ghost use Rattle.ddl_unify.specs.Equations.{MostGeneral, equal};
ghost use Rattle.ddl_unify.specs.Refused.{Refused};
ghost use Rattle.ddl_unify.specs.State.{accepted, solution, variables};
ghost use Rattle.ddl_judging.specs.Demands.{adds};
ghost use Rattle.ddl_conditions.specs.GroupView.{group_view};
ghost use Rattle.ddl_growing.specs.SolverView.{solved};
ghost use Rattle.ddl_growing.specs.Turns.{AreShapes, IsRefusal, Solved};
ghost use Rattle.ddl_judging.specs.Views.{asked_view, demand_view};
ghost use Rattle.ddl_conditions.specs.WalkView.{place};
ghost use Rattle.ddl_conditions.specs.Walking.{AreBelow, Fits, HasNoTurn, HasTurn, IsStep, Onward, Stops, Wait};

use crate::group::Group;
use crate::numbers::free_number;
use ddl_base::{NoMemory, Span};
use ddl_growing::{SettleError, Turn, take_turn};
use ddl_judging::{Asked, Demand};
use ddl_types::{Cond, Ty};
use ddl_unify::{EquateError, Solver};
use std::alloc::Global;

/// How far the demands of a group were gone over.
#[derive(Drop)]
pub(crate) struct Walk<'a> {
    /// Those that were looked at and wait for the heads of their subjects.
    behind: Vec<&'a Asked>,
    /// Those that were not looked at.
    ahead: &'a [Asked],
    /// Whether nothing was added since all those behind were found waiting.
    checked: bool,
    /// Those whose numbers were not looked at: a number that is told, or kept, stays so.
    numbers: &'a [Asked],
}

impl<'a> Walk<'a> {
    /// Before the first step.
    pub(crate) fn over(alloc: Global, asked: &'a [Asked]) -> Self
        ensures behind { result.behind.items ≡ [] }
        ensures ahead { result.ahead.now ≡ asked.now }
        ensures checked { result.checked ≡ true }
        ensures numbers { result.numbers.now ≡ asked.now }
    {
        Walk {
            behind: Vec::new(alloc),
            ahead: asked,
            checked: true,
            numbers: asked,
        }
    }

    /// One step; there is none where nothing is left to be looked at.
    pub(crate) fn step(
        &mut self,
        alloc: Global,
        solver: &mut Solver,
        group: &Group<'_>,
    ) -> Result<bool, SettleError>
        requires { Fits (group_view group.now) (place solver.old self.old) }
        ensures most { MostGeneral (accepted solver.new) (solution solver.new) }
        ensures step { MatchResult result (λ b.
            IsStep b (group_view group.now) (place solver.old self.old) (place solver.new self.new))
            (Stops (group_view group.now) (place solver.old self.old) (solved solver.new)) }
    {
        if !self.checked {
            self.look_behind(alloc, solver, group)?;
            return Ok(true);
        }
        if let Some((asked, others)) = self.ahead.split_first() {
            self.look_ahead(alloc, solver, group, asked, others)?;
            return Ok(true);
        }
        if let Some((asked, others)) = self.numbers.split_first() {
            self.look_at_number(alloc, solver, group, asked, others)?;
            return Ok(true);
        }
        Ok(false)
    }

    /// Lets the first of those behind that waits no more have its turn.
    fn look_behind(
        &mut self,
        alloc: Global,
        solver: &mut Solver,
        group: &Group<'_>,
    ) -> Result<(), SettleError>
        requires fits { Fits (group_view group.now) (place solver.old self.old) }
        requires unchecked { self.old.checked ≡ false }
        ensures most { MostGeneral (accepted solver.new) (solution solver.new) }
        ensures step { MatchResult result (λ _.
            IsStep true (group_view group.now) (place solver.old self.old) (place solver.new self.new))
            (Stops (group_view group.now) (place solver.old self.old) (solved solver.new)) }
    {
        match first_turn(alloc, solver, group, &self.behind)? {
            Some(at) => {
                self.behind.remove(at);
                Ok(())
            }
            None => {
                self.checked = true;
                Ok(())
            }
        }
    }

    /// Lets the first of those ahead have its turn, where it is one that may add equations.
    fn look_ahead(
        &mut self,
        alloc: Global,
        solver: &mut Solver,
        group: &Group<'_>,
        asked: &'a Asked,
        others: &'a [Asked],
    ) -> Result<(), SettleError>
        requires fits { Fits (group_view group.now) (place solver.old self.old) }
        requires checked { self.old.checked ≡ true }
        requires ahead { self.old.ahead.now ≡ asked.now ∷ others.now }
        ensures most { MostGeneral (accepted solver.new) (solution solver.new) }
        ensures step { MatchResult result (λ _.
            IsStep true (group_view group.now) (place solver.old self.old) (place solver.new self.new))
            (Stops (group_view group.now) (place solver.old self.old) (solved solver.new)) }
    {
        self.ahead = others;
        if !may_add(&asked.what) {
            return Ok(());
        }
        match take_turn(alloc, solver, group.shapes, asked)? {
            Turn::Waits => {
                self.wait(asked)?;
                Ok(())
            }
            Turn::Silent => Ok(()),
            Turn::Adds => {
                self.checked = false;
                Ok(())
            }
        }
    }

    /// Puts a demand behind.
    fn wait(&mut self, asked: &'a Asked) -> Result<(), NoMemory>
        ensures behind { IfOk result (λ _. map (λ a. asked_view a.now) self.new.behind.items
            ≡ map (λ a. asked_view a.now) self.old.behind.items ++ asked_view asked.now ∷ []) }
        ensures ahead { self.new.ahead ≡ self.old.ahead }
        ensures checked { self.new.checked ≡ self.old.checked }
        ensures numbers { self.new.numbers ≡ self.old.numbers }
    {
        self.behind.push(asked)?;
        Ok(())
    }

    /// Makes a number `int`, where it is free.
    fn look_at_number(
        &mut self,
        alloc: Global,
        solver: &mut Solver,
        group: &Group<'_>,
        asked: &'a Asked,
        others: &'a [Asked],
    ) -> Result<(), SettleError>
        requires fits { Fits (group_view group.now) (place solver.old self.old) }
        requires checked { self.old.checked ≡ true }
        requires ahead { self.old.ahead.now ≡ [] }
        requires numbers { self.old.numbers.now ≡ asked.now ∷ others.now }
        ensures most { MostGeneral (accepted solver.new) (solution solver.new) }
        ensures step { MatchResult result (λ _.
            IsStep true (group_view group.now) (place solver.old self.old) (place solver.new self.new))
            (Stops (group_view group.now) (place solver.old self.old) (solved solver.new)) }
    {
        self.numbers = others;
        let Some(of) = free_number(alloc, solver, group, asked)? else {
            return Ok(());
        };
        match solver.equate(&Ty::Int, of) {
            Ok(()) => {
                self.checked = false;
                Ok(())
            }
            Err(e) => Err(refused(asked.span, e)),
        }
    }
}

/// The refusal of an equation, at its place.
fn refused(span: Span, error: EquateError) -> SettleError
    ensures { (z : Solved) (l r : types.Ty) → Refused error z.accepted z.solution l r
        → IsRefusal result span z (equal l r) }
{
    match error {
        EquateError::Clash(left, right) => SettleError::Clash { span, left, right },
        EquateError::Endless(variable, of) => SettleError::Endless { span, variable, of },
        EquateError::NoMemory => SettleError::NoMemory,
    }
}

/// Whether a demand adds equations at some heads.
fn may_add(what: &Demand) -> bool
    ensures { result ≡ adds (demand_view what.now) }
{
    match what {
        Demand::Cond(cond) => !matches!(
            cond,
            Cond::Num(_)
                | Cond::Word(_)
                | Cond::Lit { .. }
                | Cond::Lossless { .. }
                | Cond::Cut { .. }
                | Cond::Fit { .. }
        ),
        Demand::Make { .. } => true,
        Demand::Gather { .. } => true,
    }
}

/// The place of the first of these demands that waits no more, after its turn.
fn first_turn(
    alloc: Global,
    solver: &mut Solver,
    group: &Group<'_>,
    behind: &[&Asked],
) -> Result<Option<usize>, SettleError>
    requires most { MostGeneral (accepted solver.old) (solution solver.old) }
    requires below { AreBelow (variables solver.old) (map (λ a. asked_view a.now) behind.now) }
    requires shapes { AreShapes (variables solver.old) (group_view group.now).shapes }
    ensures most { MostGeneral (accepted solver.new) (solution solver.new) }
    ensures within { IfOk result (λ o. MatchOption o (Unit {0}) (λ i. i < length behind.now)) }
    ensures turn { MatchResult result (λ o. MatchOption o ((solved solver.new ≡ solved solver.old)
        × Wait (solution solver.old) (map (λ a. asked_view a.now) behind.now)) (λ i.
        HasTurn (group_view group.now) (map (λ a. asked_view a.now) behind.now)
        (map (λ a. asked_view a.now) (take i behind.now ++ drop (i + 1) behind.now)) (solved solver.old)
        (solved solver.new))) (HasNoTurn (group_view group.now) (map (λ a. asked_view a.now) behind.now)
        (solved solver.old) (solved solver.new)) }
{
    for (i, asked) in behind.iter().enumerate() {
        match take_turn(alloc, solver, group.shapes, asked)? {
            Turn::Waits => {}
            Turn::Silent => return Ok(Some(i)),
            Turn::Adds => return Ok(Some(i)),
        }
    }
    Ok(None)
}
