//! What `is` wants of a value.

ghost use Rattle.std.specs.Prelude.{◌≡◌, [], ◌∷◌, IfOk, OnOk, length};
ghost use Rattle.ddl_types.specs.Conditions.{tag};
ghost use Rattle.ddl_types.specs.TyView.{ty_view};
ghost use Rattle.ddl_types.specs.Types.{Ty.var};
ghost use Rattle.ddl_rules.specs.Asks.{after_variables, asks_for, bool_type, wants};
ghost use Rattle.ddl_rules.specs.Patterns.{IsGuarded, IsTagFilled, guard_held, guard_slot, guarded};
ghost use Rattle.ddl_rules.specs.Steps.{Asks, IsFilled, held};
ghost use Rattle.ddl_rules.specs.Views.{ask_view, asks_of, env_of, state_of};

use crate::{Ask, Elaboration, types};
use ddl_base::{Bytes, NoMemory, Span};
use ddl_judging::Demand;
use ddl_ops::Pattern;
use ddl_tree::{Name, Shape};
use ddl_types::{Cond, Ty};

impl<'a> Elaboration<'a> {
    /// What `is` at `span` asks before its subject does: the place of what it asks of a tag, which is
    /// known only once the subject's type is.
    pub fn before_guard(&mut self, shape: &Shape, span: Span) -> Result<Option<usize>, NoMemory>
        ensures placed { IfOk result (λ slot. slot ≡ guard_slot shape.now (length (asks_of self.old))) }
        ensures goes_on { OnOk result (Asks (guard_held shape.now span) self.old self.new) }
    {
        match shape {
            Shape::IsTag(_) => {
                let slot = self.hold(span)?;
                Ok(Some(slot))
            }
            Shape::IsTrue(_) | Shape::IsFalse(_) | Shape::IsJust(_) | Shape::IsNothing(_) => {
                Ok(None)
            }
        }
    }

    // The ask whose place was held, where one was.
    fn fill_held(&mut self, slot: Option<usize>, ask: Ask)
        ensures { IsFilled slot (ask_view ask) self.old self.new }
    {
        if let Some(slot) = slot {
            self.fill(slot, ask);
        }
    }

    // The subject has this tag, whose content is of this variable; the place of the ask was held.
    fn fill_tag(
        &mut self,
        subject: &Ty,
        name: &Name,
        slot: Option<usize>,
        span: Span,
    ) -> Result<Ty, NoMemory>
        ensures typed { IfOk result (λ t. ty_view t ≡ var (state_of self.old).next) }
        ensures goes_on { OnOk result (IsTagFilled slot (asks_for
            (tag (ty_view subject.now) name.now.text (var (state_of self.old).next)) span) self.old self.new) }
    {
        let content = self.variables(1)?;
        let of = subject.copy(self.alloc)?;
        let name = Bytes::of(self.alloc, name.text.get())?;
        let result = types::variable(content);
        let what = Demand::Cond(Cond::Tag { of, name, result });
        self.fill_held(slot, Ask::Demands { what, span });
        Ok(types::variable(content))
    }

    /// What `is` at `span` wants of a value of this type: the pattern, and the type of its content.
    /// What it asks before its subject fills the place that was held for it.
    pub fn guarded(
        &mut self,
        shape: &Shape,
        subject: &Ty,
        slot: Option<usize>,
        span: Span,
    ) -> Result<(Pattern, Ty), NoMemory>
        ensures { IfOk result (λ r. IsGuarded r.0 r.1 (guarded shape.now (ty_view subject.now) span (state_of self.old))
            slot (env_of self.old) self.old self.new) }
    {
        match shape {
            Shape::IsTag(tag) => {
                let of = self.fill_tag(subject, tag, slot, span)?;
                let tag = Bytes::of(self.alloc, tag.text.get())?;
                Ok((Pattern::Tag { tag, content: None }, of))
            }
            Shape::IsTrue(word) => {
                self.is_of(subject, types::truth(), *word)?;
                Ok((Pattern::Truth(true), types::unit()))
            }
            Shape::IsFalse(word) => {
                self.is_of(subject, types::truth(), *word)?;
                Ok((Pattern::Truth(false), types::unit()))
            }
            Shape::IsJust(word) => {
                let of = self.is_maybe(subject, *word)?;
                Ok((Pattern::Just(None), of))
            }
            Shape::IsNothing(word) => {
                self.is_maybe(subject, *word)?;
                Ok((Pattern::Nothing, types::unit()))
            }
        }
    }
}
