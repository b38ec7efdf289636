//! Patterns.

ghost use Rattle.std.specs.Prelude.{◌≡◌, [], ◌∷◌, IfOk, OnOk};
ghost use Rattle.ddl_types.specs.Conditions.{lit, tag};
ghost use Rattle.ddl_types.specs.TyView.{ty_view};
ghost use Rattle.ddl_types.specs.Types.{Ty.var};
ghost use Rattle.ddl_rules.specs.Asks.{after_variables, asks_for, maybe, wants};
ghost use Rattle.ddl_rules.specs.Patterns.{IsFitted, bound_number, content_number, fitted, with_binder, with_content};
ghost use Rattle.ddl_rules.specs.Steps.{Asks, GoesOn};
ghost use Rattle.ddl_rules.specs.Views.{env_of, state_of};

use crate::{Elaboration, types};
use ddl_base::{Bytes, NoMemory, Span};
use ddl_ops::Pattern;
use ddl_tree::{Binder, Name, Number, Pat};
use ddl_types::{Cond, Ty};

impl<'a> Elaboration<'a> {
    // The subject of a pattern has this type.
    pub(crate) fn is_of(&mut self, subject: &Ty, has: Ty, span: Span) -> Result<(), NoMemory>
        ensures { OnOk result (Asks (wants (ty_view subject.now) (ty_view has) span ∷ []) self.old self.new) }
    {
        let wanted = subject.copy(self.alloc)?;
        self.equate(wanted, has, span)
    }

    // A number fits the subject's type.
    fn is_number(&mut self, subject: &Ty, number: &Number) -> Result<(), NoMemory>
        ensures { OnOk result (Asks (asks_for (lit number.now.value (ty_view subject.now)) number.now.span ∷ [])
            self.old self.new) }
    {
        let of = subject.copy(self.alloc)?;
        self.require(
            Cond::Lit {
                number: number.value,
                of,
            },
            number.span,
        )
    }

    // The subject is a `maybe`, of this variable.
    pub(crate) fn is_maybe(&mut self, subject: &Ty, span: Span) -> Result<Ty, NoMemory>
        ensures typed { IfOk result (λ t. ty_view t ≡ var (state_of self.old).next) }
        ensures goes_on { OnOk result (GoesOn (wants (ty_view subject.now) (maybe (var (state_of self.old).next)) span
            ∷ []) (after_variables 1 (state_of self.old)) (env_of self.old) self.old self.new) }
    {
        let content = self.variables(1)?;
        let has = types::maybe(self.alloc, types::variable(content))?;
        self.is_of(subject, has, span)?;
        Ok(types::variable(content))
    }

    // The subject has this tag, whose content is of this variable.
    pub(crate) fn is_tagged(
        &mut self,
        subject: &Ty,
        name: &Name,
        span: Span,
    ) -> Result<Ty, NoMemory>
        ensures typed { IfOk result (λ t. ty_view t ≡ var (state_of self.old).next) }
        ensures goes_on { OnOk result (GoesOn (asks_for
            (tag (ty_view subject.now) name.now.text (var (state_of self.old).next)) span ∷ [])
            (after_variables 1 (state_of self.old)) (env_of self.old) self.old self.new) }
    {
        let content = self.variables(1)?;
        let of = subject.copy(self.alloc)?;
        let name = Bytes::of(self.alloc, name.text.get())?;
        self.require(
            Cond::Tag {
                of,
                name,
                result: types::variable(content),
            },
            span,
        )?;
        Ok(types::variable(content))
    }

    // The name of a content, where it has one.
    fn bind_content(&mut self, binder: &Binder, of: Ty) -> Result<Option<u32>, NoMemory>
        ensures numbered { IfOk result (λ n. n ≡ bound_number binder.now (env_of self.old)) }
        ensures goes_on { OnOk result (GoesOn [] (state_of self.old)
            (with_binder binder.now (ty_view of) (env_of self.old)) self.old self.new) }
    {
        match binder {
            Binder::Called(name) => {
                let number = self.bind(name.span, of)?;
                Ok(Some(number))
            }
            Binder::Ignored(_) => Ok(None),
        }
    }

    fn bind_tagged(&mut self, binder: &Option<Binder>, of: Ty) -> Result<Option<u32>, NoMemory>
        ensures numbered { IfOk result (λ n. n ≡ content_number binder.now (env_of self.old)) }
        ensures goes_on { OnOk result (GoesOn [] (state_of self.old)
            (with_content binder.now (ty_view of) (env_of self.old)) self.old self.new) }
    {
        match binder {
            Some(binder) => self.bind_content(binder, of),
            None => Ok(None),
        }
    }

    /// A pattern of an alternative, for a subject of this type. The name of its content is in scope
    /// then.
    pub fn fitted(&mut self, pattern: &Pat, subject: &Ty) -> Result<Pattern, NoMemory>
        ensures { IfOk result (λ p. IsFitted p (fitted pattern.now (ty_view subject.now) (env_of self.old)
            (state_of self.old)) self.old self.new) }
    {
        match pattern {
            Pat::Any(_) => Ok(Pattern::Any),
            Pat::Num(number) => {
                self.is_number(subject, number)?;
                Ok(Pattern::Number(number.value))
            }
            Pat::Char { value, span } => {
                self.is_of(subject, types::word(8), *span)?;
                Ok(Pattern::Number(u128::from(*value)))
            }
            Pat::True(span) => {
                self.is_of(subject, types::truth(), *span)?;
                Ok(Pattern::Truth(true))
            }
            Pat::False(span) => {
                self.is_of(subject, types::truth(), *span)?;
                Ok(Pattern::Truth(false))
            }
            Pat::Nothing(span) => {
                self.is_maybe(subject, *span)?;
                Ok(Pattern::Nothing)
            }
            Pat::Just { content, span } => {
                let of = self.is_maybe(subject, *span)?;
                Ok(Pattern::Just(self.bind_content(content, of)?))
            }
            Pat::Tag { tag, content, span } => {
                let of = self.is_tagged(subject, tag, *span)?;
                let content = self.bind_tagged(content, of)?;
                let tag = Bytes::of(self.alloc, tag.text.get())?;
                Ok(Pattern::Tag { tag, content })
            }
        }
    }
}
