ghost use Rattle.std.specs.Prelude.{◌≡◌, ◌++◌, OnOk, [], ◌∷◌, length};
ghost use Rattle.ddl_tree.specs.View.{view, item_view, alt_view, items_view, alts_view};
ghost use Rattle.ddl_kinds.specs.Findings.{fits};
ghost use Rattle.ddl_kinds.specs.Kinds.{first_want, settled};
ghost use Rattle.ddl_uses.specs.Forms.{branches, findings, item_findings, items};
ghost use Rattle.ddl_kinds.specs.Found.{Finds};
ghost use Rattle.ddl_uses.specs.Walks.{IsKept, IsWalk, site_view};
ghost use Rattle.ddl_uses.specs.Held.{scope_view};
ghost use Rattle.ddl_uses.specs.Scope.{after_names, after_pattern, outermost, value};

use crate::binders::{bind_item, bind_names, bind_pattern, once};
use crate::seen::Seen;
use crate::walk::Walk;
use ddl_base::Span;
use ddl_kinds::{Form, NameError, Want, fits, settled, settled_by};
use ddl_tree::{Alt, Expr, Item, Kind, Name, Names};

impl<'a> Walk<'a> {
    /// A block.
    #[cycle(exprs)]
    #[tactic(auto, using(ddl_kinds::proofs::Finding::finding))]
    pub(crate) fn take_items_of(
        &mut self,
        want: Want,
        span: Span,
        of: &'a [Item],
    ) -> Result<(), NameError>
        requires { IsWalk self.old }
        ensures found { Finds (fits want Form.Grammar span
            ++ items (site_view self.old.outer) (items_view of.now) [] (scope_view self.old.scope)) self.old.uses.items
            self.new.uses.items result }
        ensures kept { OnOk result (IsKept self.old self.new) }
    {
        fits(&self.uses, want, Form::Grammar, span)?;
        self.take_block(of)?;
        Ok(())
    }

    // What is found in a block.
    #[cycle(exprs)]
    #[tactic(auto, using(ddl_kinds::proofs::Finding::finding))]
    fn take_block(&mut self, of: &'a [Item]) -> Result<(), NameError>
        requires { IsWalk self.old }
        ensures found { Finds (items (site_view self.old.outer) (items_view of.now) [] (scope_view self.old.scope))
            self.old.uses.items self.new.uses.items result }
        ensures kept { OnOk result (IsKept self.old self.new) }
    {
        let len = self.scope.len();
        self.take_items(of)?;
        self.scope.truncate(len)?;
        Ok(())
    }

    // What is found in items. What they bind stays bound.
    #[cycle(exprs)]
    #[tactic(auto, using(ddl_kinds::proofs::Finding::finding, crate::proofs::Walking::walking, crate::proofs::Outermost::outermosts, crate::proofs::Left::lefts))]
    fn take_items(&mut self, of: &'a [Item]) -> Result<(), NameError>
        requires { IsWalk self.old }
        ensures found { Finds (items (site_view self.old.outer) (items_view of.now) [] (scope_view self.old.scope))
            self.old.uses.items self.new.uses.items result }
        ensures below { OnOk result (outermost (length (scope_view self.old.scope)) (scope_view self.new.scope)
            ≡ scope_view self.old.scope) }
        ensures here { OnOk result (self.new.outer ≡ self.old.outer) }
        ensures sound { OnOk result (IsWalk self.new) }
    {
        let mut seen = Seen::new(self.alloc);
        for item in of {
            once(&mut seen, &self.uses, item)?;
            self.take_item(item)?;
            bind_item(&mut self.scope, item)?;
        }
        Ok(())
    }

    // What is found in an item.
    #[cycle(exprs)]
    #[tactic(auto, using(ddl_tree::proofs::Layers::layers, ddl_kinds::proofs::Finding::finding))]
    fn take_item(&mut self, item: &'a Item) -> Result<(), NameError>
        requires { IsWalk self.old }
        ensures found { Finds (item_findings (site_view self.old.outer) (item_view item.now)
            (scope_view self.old.scope)) self.old.uses.items self.new.uses.items result }
        ensures kept { OnOk result (IsKept self.old self.new) }
    {
        match item {
            Item::Result { value, .. } | Item::Let { value, .. } | Item::Field { value, .. } => {
                self.take_expr(Want::Free, value)?;
                Ok(())
            }
            Item::Plain(value) => {
                self.take_expr(Want::Grammar, value)?;
                Ok(())
            }
        }
    }

    /// What is found in the body of a `for`, after the name of its state.
    #[cycle(exprs)]
    #[tactic(auto, using(ddl_kinds::proofs::Finding::finding, crate::proofs::Outermost::outermosts, crate::proofs::Left::lefts))]
    pub(crate) fn take_for_body(
        &mut self,
        want: Want,
        state: &'a Name,
        names: &'a Names,
        body: &'a Expr,
    ) -> Result<(), NameError>
        requires { IsWalk self.old }
        ensures found { Finds (findings (site_view self.old.outer) (view body.now) want
            (after_names names.now (value state.now ∷ scope_view self.old.scope))) self.old.uses.items
            self.new.uses.items result }
        ensures kept { OnOk result (IsKept self.old self.new) }
    {
        let len = self.scope.len();
        self.scope.bind(state, Kind::Value)?;
        bind_names(&mut self.scope, names)?;
        self.take_expr(want, body)?;
        self.scope.truncate(len)?;
        Ok(())
    }

    /// What is found in the body of a `map`.
    #[cycle(exprs)]
    #[tactic(auto, using(ddl_kinds::proofs::Finding::finding, crate::proofs::Outermost::outermosts, crate::proofs::Left::lefts))]
    pub(crate) fn take_map_body(
        &mut self,
        want: Want,
        names: &'a Names,
        body: &'a Expr,
    ) -> Result<(), NameError>
        requires { IsWalk self.old }
        ensures found { Finds (findings (site_view self.old.outer) (view body.now) want
            (after_names names.now (scope_view self.old.scope))) self.old.uses.items self.new.uses.items result }
        ensures kept { OnOk result (IsKept self.old self.new) }
    {
        let len = self.scope.len();
        bind_names(&mut self.scope, names)?;
        self.take_expr(want, body)?;
        self.scope.truncate(len)?;
        Ok(())
    }

    /// The branches of a `case`: what is wanted of it, and in a free place what the first one is.
    #[cycle(exprs)]
    #[tactic(auto, using(ddl_kinds::proofs::Finding::finding))]
    pub(crate) fn take_case(&mut self, want: Want, alts: &'a [Alt]) -> Result<(), NameError>
        requires { IsWalk self.old }
        ensures found { Finds (branches (site_view self.old.outer) (alts_view alts.now)
            (settled want (first_want (alts_view alts.now))) (scope_view self.old.scope)) self.old.uses.items
            self.new.uses.items result }
        ensures kept { OnOk result (IsKept self.old self.new) }
    {
        let branch = settled_by(want, alts);
        self.take_branches(branch, alts)
    }

    // What is found in the branches of a `case`.
    #[cycle(exprs)]
    #[tactic(auto, using(ddl_kinds::proofs::Finding::finding, crate::proofs::Walking::walking))]
    fn take_branches(&mut self, want: Want, alts: &'a [Alt]) -> Result<(), NameError>
        requires { IsWalk self.old }
        ensures found { Finds (branches (site_view self.old.outer) (alts_view alts.now) want
            (scope_view self.old.scope)) self.old.uses.items self.new.uses.items result }
        ensures kept { OnOk result (IsKept self.old self.new) }
    {
        for alt in alts {
            self.take_branch(want, alt)?;
        }
        Ok(())
    }

    // What is found in a branch of a `case`.
    #[cycle(exprs)]
    #[tactic(auto, using(ddl_tree::proofs::Layers::layers, ddl_kinds::proofs::Finding::finding, crate::proofs::Outermost::outermosts, crate::proofs::Left::lefts))]
    fn take_branch(&mut self, want: Want, alt: &'a Alt) -> Result<(), NameError>
        requires { IsWalk self.old }
        ensures found { Finds (findings (site_view self.old.outer) (alt_view alt.now).body want
            (after_pattern (alt_view alt.now).pattern (scope_view self.old.scope))) self.old.uses.items
            self.new.uses.items result }
        ensures kept { OnOk result (IsKept self.old self.new) }
    {
        let len = self.scope.len();
        bind_pattern(&mut self.scope, &alt.pattern)?;
        self.take_expr(want, &alt.body)?;
        self.scope.truncate(len)?;
        Ok(())
    }
}
