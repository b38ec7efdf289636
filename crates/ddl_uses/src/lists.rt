ghost use Rattle.std.specs.Prelude.{◌≡◌, ◌++◌, OnOk, [], ◌∷◌};
ghost use Rattle.ddl_tree.specs.View.{view, bound_view, alternatives_view, exprs_view, bindings_view};
ghost use Rattle.ddl_kinds.specs.Findings.{again, fits};
ghost use Rattle.ddl_uses.specs.Forms.{alternatives, arguments, bindings, bound_findings, each, findings};
ghost use Rattle.ddl_kinds.specs.Found.{Finds, wants_view};
ghost use Rattle.ddl_uses.specs.Walks.{IsKept, IsWalk, site_view};
ghost use Rattle.ddl_uses.specs.Held.{IsSeen, scope_view, seen_view};

use crate::seen::Seen;
use crate::walk::Walk;
use ddl_base::Span;
use ddl_kinds::{Arguments, Form, NameError, Want, fits};
use ddl_tree::{Alternatives, Binding, Bound, Expr, Name};

impl<'a> Walk<'a> {
    // What is found in expressions, where this is wanted of each.
    #[cycle(exprs)]
    #[tactic(auto, using(ddl_kinds::proofs::Finding::finding, crate::proofs::Walking::walking))]
    fn take_exprs(&mut self, want: Want, exprs: &'a [Expr]) -> Result<(), NameError>
        requires { IsWalk self.old }
        ensures found { Finds (each (site_view self.old.outer) (exprs_view exprs.now) want (scope_view self.old.scope))
            self.old.uses.items self.new.uses.items result }
        ensures kept { OnOk result (IsKept self.old self.new) }
    {
        for expr in exprs {
            self.take_expr(want, expr)?;
        }
        Ok(())
    }

    /// What is found in arguments, of which these are wanted.
    #[cycle(exprs)]
    #[tactic(auto, using(ddl_kinds::proofs::Finding::finding, crate::proofs::Walking::walking))]
    pub(crate) fn take_args(
        &mut self,
        wants: Arguments<'a>,
        args: &'a [Expr],
    ) -> Result<(), NameError>
        requires { IsWalk self.old }
        ensures found { Finds (arguments (site_view self.old.outer) (exprs_view args.now) (wants_view wants.entry)
            (scope_view self.old.scope)) self.old.uses.items self.new.uses.items result }
        ensures kept { OnOk result (IsKept self.old self.new) }
    {
        for (place, arg) in args.iter().enumerate() {
            self.take_expr(wants.want(place), arg)?;
        }
        Ok(())
    }

    /// The elements of an array.
    #[cycle(exprs)]
    #[tactic(auto, using(ddl_kinds::proofs::Finding::finding))]
    pub(crate) fn take_array(
        &mut self,
        want: Want,
        span: Span,
        elements: &'a [Expr],
    ) -> Result<(), NameError>
        requires { IsWalk self.old }
        ensures found { Finds (fits want Form.Value span ++ each (site_view self.old.outer) (exprs_view elements.now)
            Want.Value (scope_view self.old.scope)) self.old.uses.items self.new.uses.items result }
        ensures kept { OnOk result (IsKept self.old self.new) }
    {
        fits(&self.uses, want, Form::Value, span)?;
        self.take_exprs(Want::Value, elements)?;
        Ok(())
    }

    /// A form with how often it repeats.
    #[cycle(exprs)]
    #[tactic(auto, using(ddl_kinds::proofs::Finding::finding))]
    pub(crate) fn take_bounded(
        &mut self,
        want: Want,
        span: Span,
        bound: &'a Bound,
    ) -> Result<(), NameError>
        requires { IsWalk self.old }
        ensures found { Finds (fits want Form.Grammar span
            ++ bound_findings (site_view self.old.outer) (bound_view bound.now) (scope_view self.old.scope))
            self.old.uses.items self.new.uses.items result }
        ensures kept { OnOk result (IsKept self.old self.new) }
    {
        fits(&self.uses, want, Form::Grammar, span)?;
        self.take_bound(bound)?;
        Ok(())
    }

    // What is found in how often `Many` repeats.
    #[cycle(exprs)]
    #[tactic(auto, using(ddl_tree::proofs::Layers::layers, ddl_kinds::proofs::Finding::finding))]
    fn take_bound(&mut self, bound: &'a Bound) -> Result<(), NameError>
        requires { IsWalk self.old }
        ensures found { Finds (bound_findings (site_view self.old.outer) (bound_view bound.now)
            (scope_view self.old.scope)) self.old.uses.items self.new.uses.items result }
        ensures kept { OnOk result (IsKept self.old self.new) }
    {
        match bound {
            Bound::Free => Ok(()),
            Bound::Exactly(times) => {
                self.take_expr(Want::Value, times)?;
                Ok(())
            }
            Bound::AtLeast { low: limit, .. } | Bound::AtMost { high: limit, .. } => {
                self.take_expr(Want::Value, limit)?;
                Ok(())
            }
            Bound::Between { low, high, .. } => {
                self.take_expr(Want::Value, low)?;
                self.take_expr(Want::Value, high)?;
                Ok(())
            }
        }
    }

    /// The fields of a record.
    #[cycle(exprs)]
    #[tactic(auto, using(ddl_kinds::proofs::Finding::finding))]
    pub(crate) fn take_record(
        &mut self,
        want: Want,
        span: Span,
        fields: &'a [Binding],
    ) -> Result<(), NameError>
        requires { IsWalk self.old }
        ensures found { Finds (fits want Form.Value span
            ++ bindings (site_view self.old.outer) (bindings_view fields.now) Want.Value [] (scope_view self.old.scope))
            self.old.uses.items self.new.uses.items result }
        ensures kept { OnOk result (IsKept self.old self.new) }
    {
        fits(&self.uses, want, Form::Value, span)?;
        self.take_bindings(Want::Value, fields)?;
        Ok(())
    }

    // What is found in fields or tags.
    #[cycle(exprs)]
    #[tactic(auto, using(ddl_kinds::proofs::Finding::finding, crate::proofs::Walking::walking))]
    fn take_bindings(&mut self, want: Want, of: &'a [Binding]) -> Result<(), NameError>
        requires { IsWalk self.old }
        ensures found { Finds (bindings (site_view self.old.outer) (bindings_view of.now) want []
            (scope_view self.old.scope)) self.old.uses.items self.new.uses.items result }
        ensures kept { OnOk result (IsKept self.old self.new) }
    {
        let mut seen = Seen::new(self.alloc);
        for binding in of {
            let name = &binding.name;
            self.take_binding(&mut seen, want, name, &binding.value)?;
        }
        Ok(())
    }

    // What is found in a field or a tag, after those that were seen.
    #[cycle(exprs)]
    #[tactic(auto, using(ddl_tree::proofs::Layers::layers, ddl_kinds::proofs::Finding::finding))]
    fn take_binding(
        &mut self,
        seen: &mut Seen<'a>,
        want: Want,
        name: &'a Name,
        value: &'a Expr,
    ) -> Result<(), NameError>
        requires walk { IsWalk self.old }
        requires seen { IsSeen seen.old }
        ensures found { Finds (again (seen_view seen.old) name.now
            ++ findings (site_view self.old.outer) (view value.now) want (scope_view self.old.scope))
            self.old.uses.items self.new.uses.items result }
        ensures kept { OnOk result (IsKept self.old self.new) }
        ensures seen { OnOk result (seen_view seen.new ≡ seen_view seen.old ++ name.now ∷ []) }
        ensures sound { OnOk result (IsSeen seen.new) }
    {
        seen.once_named(&self.uses, name)?;
        self.take_expr(want, value)?;
        Ok(())
    }

    /// A choice.
    #[cycle(exprs)]
    #[tactic(auto, using(ddl_kinds::proofs::Finding::finding))]
    pub(crate) fn take_choice(
        &mut self,
        want: Want,
        span: Span,
        of: &'a Alternatives,
    ) -> Result<(), NameError>
        requires { IsWalk self.old }
        ensures found { Finds (fits want Form.Grammar span
            ++ alternatives (site_view self.old.outer) (alternatives_view of.now) (scope_view self.old.scope))
            self.old.uses.items self.new.uses.items result }
        ensures kept { OnOk result (IsKept self.old self.new) }
    {
        fits(&self.uses, want, Form::Grammar, span)?;
        self.take_alternatives(of)?;
        Ok(())
    }

    // What is found in alternatives.
    #[cycle(exprs)]
    #[tactic(auto, using(ddl_tree::proofs::Layers::layers, ddl_kinds::proofs::Finding::finding))]
    fn take_alternatives(&mut self, of: &'a Alternatives) -> Result<(), NameError>
        requires { IsWalk self.old }
        ensures found { Finds (alternatives (site_view self.old.outer) (alternatives_view of.now)
            (scope_view self.old.scope)) self.old.uses.items self.new.uses.items result }
        ensures kept { OnOk result (IsKept self.old self.new) }
    {
        match of {
            Alternatives::WithTags(bindings) => {
                self.take_bindings(Want::Free, bindings)?;
                Ok(())
            }
            Alternatives::Untagged(exprs) => {
                self.take_exprs(Want::Grammar, exprs)?;
                Ok(())
            }
        }
    }
}
