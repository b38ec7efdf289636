//! What is asked of types.

ghost use Rattle.std.specs.Prelude.{◌≡◌, [], ◌∷◌, IfOk, OnOk, length};
ghost use Rattle.ddl_types.specs.CondView.{cond_view};
ghost use Rattle.ddl_types.specs.TyView.{ty_view};
ghost use Rattle.ddl_judging.specs.Views.{demand_view};
ghost use Rattle.ddl_rules.specs.Asks.{asks_for, demands, wants};
ghost use Rattle.ddl_rules.specs.Steps.{Asks, Fills, held};
ghost use Rattle.ddl_rules.specs.Views.{ask_view, asks_of};

use crate::{Ask, Elaboration, types};
use ddl_base::{NoMemory, Span};
use ddl_judging::Demand;
use ddl_types::{Cond, Ty};
use std::mem;

impl<'a> Elaboration<'a> {
    /// One more ask.
    pub fn ask(&mut self, ask: Ask) -> Result<(), NoMemory>
        ensures { OnOk result (Asks (ask_view ask ∷ []) self.old self.new) }
    {
        self.asks.push(ask)?;
        Ok(())
    }

    /// A type has to be the wanted one.
    pub fn equate(&mut self, wanted: Ty, has: Ty, span: Span) -> Result<(), NoMemory>
        ensures { OnOk result (Asks (wants (ty_view wanted) (ty_view has) span ∷ []) self.old self.new) }
    {
        self.ask(Ask::Equates { wanted, has, span })
    }

    /// What a form asks.
    pub fn demand(&mut self, what: Demand, span: Span) -> Result<(), NoMemory>
        ensures { OnOk result (Asks (demands (demand_view what) span ∷ []) self.old self.new) }
    {
        self.ask(Ask::Demands { what, span })
    }

    /// A condition.
    pub fn require(&mut self, condition: Cond, span: Span) -> Result<(), NoMemory>
        ensures { OnOk result (Asks (asks_for (cond_view condition) span ∷ []) self.old self.new) }
    {
        self.demand(Demand::Cond(condition), span)
    }

    /// The place of an ask that is known only after the parts of its form, which ask behind it.
    pub fn hold(&mut self, span: Span) -> Result<usize, NoMemory>
        ensures placed { IfOk result (λ slot. slot ≡ length (asks_of self.old)) }
        ensures goes_on { OnOk result (Asks (held span ∷ []) self.old self.new) }
    {
        let slot = self.asks.len();
        self.equate(types::unit(), types::unit(), span)?;
        Ok(slot)
    }

    /// The ask whose place was held. Nothing changes where none was.
    #[tactic(auto, using(crate::proofs::Scoping::scoping), unfolding(crate::specs::Views::asks_of, crate::specs::Views::state_of, crate::specs::Views::env_of))]
    pub fn fill(&mut self, slot: usize, ask: Ask)
        ensures { Fills slot (ask_view ask) self.old self.new }
    {
        if slot < self.asks.len() {
            drop(mem::replace(&mut self.asks[slot], ask));
        }
    }
}
