ghost use Rattle.std.specs.Prelude.{◌++◌, OnOk, option_map};
ghost use Rattle.ddl_tree.specs.View.{class_view, type_view, view, exprs_view};
ghost use Rattle.ddl_uses.specs.Bindings.{meaning};
ghost use Rattle.ddl_kinds.specs.Findings.{fits, name_use, wants};
ghost use Rattle.ddl_uses.specs.Forms.{arguments, class_findings, count, findings, type_findings, typed_findings};
ghost use Rattle.ddl_kinds.specs.Found.{Finds};
ghost use Rattle.ddl_uses.specs.Walks.{IsKept, IsWalk, site_view};
ghost use Rattle.ddl_uses.specs.Held.{scope_view};

use crate::parts::{take_class, take_type, take_typed};
use crate::walk::Walk;
use ddl_base::Span;
use ddl_kinds::{
    Form, NameError, Want, arguments_of, fits, form_of_cast, form_of_infix, form_of_parens,
    name_use, settled, sides,
};
use ddl_tree::{Cls, Expr, Name, TypeExpr};

impl<'a> Walk<'a> {
    /// What is found in an expression, where this is wanted of it.
    #[cycle(exprs)]
    #[tactic(auto, using(ddl_tree::proofs::Layers::layers, ddl_kinds::proofs::Finding::finding))]
    pub fn take_expr(&mut self, want: Want, expr: &'a Expr) -> Result<(), NameError>
        requires { IsWalk self.old }
        ensures found { Finds (findings (site_view self.old.outer) (view expr.now) want (scope_view self.old.scope))
            self.old.uses.items self.new.uses.items result }
        ensures kept { OnOk result (IsKept self.old self.new) }
    {
        let span = expr.span();
        match expr {
            Expr::Infix {
                op,
                left,
                right,
                ..
            } => {
                self.take_one(want, form_of_infix(*op), span, sides(*op), left)?;
                self.take_expr(sides(*op), right)?;
                Ok(())
            }
            Expr::Pure { value: part, .. } | Expr::Is { value: part, .. } => {
                self.take_one(want, Form::Grammar, span, Want::Value, part)
            }
            Expr::If {
                condition,
                then,
                otherwise,
                ..
            } => {
                let branch = settled(want, then);
                self.take_one(want, Form::Either, span, Want::Value, condition)?;
                self.take_expr(branch, then)?;
                self.take_expr(branch, otherwise)?;
                Ok(())
            }
            Expr::For {
                state,
                start,
                names,
                list,
                body,
                ..
            } => {
                self.take_one(want, Form::Either, span, Want::Value, start)?;
                self.take_expr(Want::Value, list)?;
                self.take_for_body(want, state, names, body)?;
                Ok(())
            }
            Expr::Map {
                names,
                list,
                body,
                ..
            } => {
                self.take_one(want, Form::Either, span, Want::Value, list)?;
                self.take_map_body(want, names, body)?;
                Ok(())
            }
            Expr::Prefix { operand: part, .. }
            | Expr::Just { content: part, .. }
            | Expr::Select { value: part, .. }
            | Expr::Tagged {
                content: Some(part),
                ..
            } => { self.take_one(want, Form::Value, span, Want::Value, part) }
            Expr::Cast {
                op,
                value,
                target,
                ..
            } => { self.take_cast(want, form_of_cast(*op), span, value, target) }
            Expr::CallGrammar { name, args, .. } | Expr::CallValue { name, args, .. } => {
                self.take_call(want, name, args)
            }
            Expr::Many { bound, body, .. } => {
                self.take_bounded(want, span, bound)?;
                self.take_expr(Want::Grammar, body)?;
                Ok(())
            }
            Expr::Optional { body, .. } => {
                self.take_one(want, Form::Grammar, span, Want::Grammar, body)
            }
            Expr::Text { .. } => { fits(&self.uses, want, Form::Text, span) }
            Expr::Num(_)
            | Expr::Char { .. }
            | Expr::Tagged { content: None, .. }
            | Expr::True(_)
            | Expr::False(_)
            | Expr::Nothing(_) => { fits(&self.uses, want, Form::Value, span) }
            Expr::Upper(name) | Expr::Lower(name) | Expr::Class(name) => {
                let meaning = self.meaning(name);
                name_use(&mut self.uses, want, name, 0, meaning)
            }
            Expr::Set { class, .. } => { self.take_set(want, span, class) }
            Expr::Paren { inner, typed, .. } => {
                self.take_paren(want, form_of_parens(typed), span, inner, typed)
            }
            Expr::Array { elements, .. } => { self.take_array(want, span, elements) }
            Expr::RecordOf { fields, .. } => { self.take_record(want, span, fields) }
            Expr::Block { items, .. } => { self.take_items_of(want, span, items) }
            Expr::Choice { alternatives, .. } => { self.take_choice(want, span, alternatives) }
            Expr::Case { subject, alts, .. } => {
                self.take_one(want, Form::Either, span, Want::Value, subject)?;
                self.take_case(want, alts)?;
                Ok(())
            }
        }
    }

    // A form with one part, of which this is wanted.
    #[cycle(exprs)]
    #[tactic(auto, using(ddl_kinds::proofs::Finding::finding))]
    fn take_one(
        &mut self,
        want: Want,
        form: Form,
        span: Span,
        inner: Want,
        part: &'a Expr,
    ) -> Result<(), NameError>
        requires { IsWalk self.old }
        ensures found { Finds (fits want form span ++ findings (site_view self.old.outer) (view part.now) inner
            (scope_view self.old.scope)) self.old.uses.items self.new.uses.items result }
        ensures kept { OnOk result (IsKept self.old self.new) }
    {
        fits(&self.uses, want, form, span)?;
        self.take_expr(inner, part)?;
        Ok(())
    }

    // A name with arguments.
    #[cycle(exprs)]
    #[tactic(auto, using(ddl_kinds::proofs::Finding::finding, crate::proofs::Walking::walking))]
    fn take_call(&mut self, want: Want, name: &'a Name, args: &'a [Expr]) -> Result<(), NameError>
        requires { IsWalk self.old }
        ensures found { Finds (name_use want name.now (count (exprs_view args.now))
            (meaning (site_view self.old.outer) (scope_view self.old.scope) name.now)
            ++ arguments (site_view self.old.outer) (exprs_view args.now)
            (wants (meaning (site_view self.old.outer) (scope_view self.old.scope) name.now))
            (scope_view self.old.scope)) self.old.uses.items self.new.uses.items result }
        ensures kept { OnOk result (IsKept self.old self.new) }
    {
        let meaning = self.meaning(name);
        name_use(&mut self.uses, want, name, args.len(), meaning)?;
        self.take_args(arguments_of(meaning), args)?;
        Ok(())
    }

    // A cast of a value to a type.
    #[cycle(exprs)]
    #[tactic(auto, using(ddl_kinds::proofs::Finding::finding))]
    fn take_cast(
        &mut self,
        want: Want,
        form: Form,
        span: Span,
        part: &'a Expr,
        target: &TypeExpr,
    ) -> Result<(), NameError>
        requires { IsWalk self.old }
        ensures found { Finds (fits want form span ++ findings (site_view self.old.outer) (view part.now) Want.Value
            (scope_view self.old.scope) ++ type_findings (site_view self.old.outer) (type_view target.now)
            (scope_view self.old.scope)) self.old.uses.items self.new.uses.items result }
        ensures kept { OnOk result (IsKept self.old self.new) }
    {
        fits(&self.uses, want, form, span)?;
        self.take_typed_value(part, target)?;
        Ok(())
    }

    // A value, and a type.
    #[cycle(exprs)]
    #[tactic(auto, using(ddl_kinds::proofs::Finding::finding))]
    fn take_typed_value(&mut self, part: &'a Expr, target: &TypeExpr) -> Result<(), NameError>
        requires { IsWalk self.old }
        ensures found { Finds (findings (site_view self.old.outer) (view part.now) Want.Value
            (scope_view self.old.scope) ++ type_findings (site_view self.old.outer) (type_view target.now)
            (scope_view self.old.scope)) self.old.uses.items self.new.uses.items result }
        ensures kept { OnOk result (IsKept self.old self.new) }
    {
        self.take_expr(Want::Value, part)?;
        take_type(&self.outer, &self.scope, &mut self.uses, target)?;
        Ok(())
    }

    // A class that is written out.
    #[tactic(auto, using(ddl_kinds::proofs::Finding::finding))]
    fn take_set(&mut self, want: Want, span: Span, class: &Cls) -> Result<(), NameError>
        requires { IsWalk self.old }
        ensures found { Finds (fits want Form.Class span
            ++ class_findings (site_view self.old.outer) (class_view class.now) (scope_view self.old.scope))
            self.old.uses.items self.new.uses.items result }
        ensures kept { OnOk result (IsKept self.old self.new) }
    {
        fits(&self.uses, want, Form::Class, span)?;
        take_class(&self.outer, &self.scope, &mut self.uses, class)?;
        Ok(())
    }

    // Parentheses hand on what is wanted of them.
    #[cycle(exprs)]
    #[tactic(auto, using(ddl_kinds::proofs::Finding::finding))]
    fn take_paren(
        &mut self,
        want: Want,
        form: Form,
        span: Span,
        inner: &'a Expr,
        typed: &Option<TypeExpr>,
    ) -> Result<(), NameError>
        requires { IsWalk self.old }
        ensures found { Finds (fits want form span ++ findings (site_view self.old.outer) (view inner.now) want
            (scope_view self.old.scope) ++ typed_findings (site_view self.old.outer) (option_map type_view typed.now)
            (scope_view self.old.scope)) self.old.uses.items self.new.uses.items result }
        ensures kept { OnOk result (IsKept self.old self.new) }
    {
        fits(&self.uses, want, form, span)?;
        self.take_inner(want, inner, typed)?;
        Ok(())
    }

    // What stands in parentheses, and its written type.
    #[cycle(exprs)]
    #[tactic(auto, using(ddl_kinds::proofs::Finding::finding))]
    fn take_inner(
        &mut self,
        want: Want,
        inner: &'a Expr,
        typed: &Option<TypeExpr>,
    ) -> Result<(), NameError>
        requires { IsWalk self.old }
        ensures found { Finds (findings (site_view self.old.outer) (view inner.now) want (scope_view self.old.scope)
            ++ typed_findings (site_view self.old.outer) (option_map type_view typed.now) (scope_view self.old.scope))
            self.old.uses.items self.new.uses.items result }
        ensures kept { OnOk result (IsKept self.old self.new) }
    {
        self.take_expr(want, inner)?;
        take_typed(&self.outer, &self.scope, &mut self.uses, typed)?;
        Ok(())
    }
}
