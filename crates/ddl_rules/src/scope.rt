//! The names in scope.

ghost use Rattle.std.specs.Prelude.{◌≡◌, [], IfOk, OnOk, find, length, option_map};
ghost use Rattle.ddl_types.specs.TyView.{ty_view};
ghost use Rattle.ddl_rules.specs.Asks.{local_at, same_span, with_value};
ghost use Rattle.ddl_rules.specs.Steps.{GoesOn, Leaves};
ghost use Rattle.ddl_rules.specs.Views.{env_of, local_view, state_of};

use crate::{Elaboration, Local};
use ddl_base::{NoMemory, Span};
use ddl_tree::Kind;
use ddl_types::Ty;

fn is_same(left: Span, right: Span) -> bool
    ensures { result ≡ same_span left right }
{
    left.module == right.module && left.from == right.from && left.to == right.to
}

// The name whose binder stands there.
fn found(locals: &[Local], at: Span) -> Option<&Local>
    ensures { option_map (λ l. l.now) result ≡ find (λ l. same_span l.at at) locals.now }
{
    for local in locals {
        if is_same(local.at, at) {
            return Some(local);
        }
    }
    None
}

impl<'a> Elaboration<'a> {
    /// The local name whose binder stands there.
    #[tactic(auto, using(crate::proofs::Scoping::scoping), unfolding(crate::specs::Views::asks_of, crate::specs::Views::state_of, crate::specs::Views::env_of))]
    pub fn local(&self, at: Span) -> Option<&Local>
        ensures { option_map (λ l. local_view l.now) result ≡ local_at at (env_of self.now).locals }
    {
        found(&self.locals, at)
    }

    /// One more value in scope, and its number.
    pub fn bind(&mut self, name: Span, of: Ty) -> Result<u32, NoMemory>
        ensures numbered { IfOk result (λ n. n ≡ length (env_of self.old).locals) }
        ensures goes_on { OnOk result (GoesOn [] (state_of self.old) (with_value name (ty_view of) (env_of self.old))
            self.old self.new) }
    {
        let number = match u32::try_from(self.locals.len()) {
            Ok(number) => number,
            Err(_wide) => return Err(NoMemory),
        };
        self.locals.push(Local {
            at: name,
            kind: Kind::Value,
            number,
            of,
        })?;
        Ok(number)
    }

    /// Only the outermost names stay in scope, so many.
    #[tactic(auto, using(crate::proofs::Scoping::scoping), unfolding(crate::specs::Views::asks_of, crate::specs::Views::state_of, crate::specs::Views::env_of))]
    pub fn leave(&mut self, scope: usize)
        ensures { Leaves scope self.old self.new }
    {
        self.locals.truncate(scope);
    }
}
