//! What a name with arguments stands for.

ghost use Rattle.std.specs.Prelude.{◌≡◌, [], IfOk, OnOk, map};
ghost use Rattle.ddl_types.specs.CondView.{cond_view};
ghost use Rattle.ddl_types.specs.Conditions.{on_condition};
ghost use Rattle.ddl_judging.specs.Shapes.{at};
ghost use Rattle.ddl_rules.specs.Asks.{after_use, asks_for, bound_next, local_at};
ghost use Rattle.ddl_rules.specs.BuiltInTypes.{builtin_row};
ghost use Rattle.ddl_rules.specs.Steps.{Asks};
ghost use Rattle.ddl_rules.specs.Targets.{IsTarget, of_builtin, of_declaration, of_local, target};
ghost use Rattle.ddl_rules.specs.Views.{env_of, state_of};

use crate::builtin_types::{builtin_condition, builtin_of, builtin_params, builtin_vars};
use crate::renaming::{renumbered, renumbered_all, renumbered_cond};
use crate::{Elaboration, types};
use ddl_base::{NoMemory, Span};
use ddl_kinds::{Bound, BuiltIn};
use ddl_tree::Kind;
use ddl_types::{Cond, Ty};

/// What a name means.
#[derive(Clone, Copy, PartialEq, Eq)]
pub enum Meant {
    /// The declaration of this number, at so many variables from the first one on.
    Declaration { number: u32, vars: u32, first: u32 },
    BuiltIn(BuiltIn),
    /// The local name of this kind and number.
    Local { kind: Kind, number: u32 },
    /// What no name stands for whose names are bound.
    Nothing,
}

/// What a name stands for, what its arguments have to be, and what it is with them.
#[derive(Drop)]
pub struct Target {
    pub meant: Meant,
    /// The kinds of its parameters, where it is a declaration.
    pub kinds: Vec<Kind>,
    pub params: Vec<Ty>,
    pub of: Ty,
}

impl<'a> Elaboration<'a> {
    // Conditions at new variables.
    fn require_each(
        &mut self,
        vars: u32,
        first: u32,
        conds: &[Cond],
        span: Span,
    ) -> Result<(), NoMemory>
        ensures { OnOk result (Asks (map (λ c. asks_for c span)
            (map (on_condition (at vars first)) (map cond_view conds.now))) self.old self.new) }
    {
        for cond in conds {
            let condition = renumbered_cond(self.alloc, vars, first, cond)?;
            self.require(condition, span)?;
        }
        Ok(())
    }

    // What a name stands for without arguments.
    fn alone(&self, meant: Meant, of: Ty) -> Target
        ensures meant { result.meant ≡ meant }
        ensures of { result.of ≡ of }
        ensures none { (result.kinds.items ≡ []) × (result.params.items ≡ []) }
    {
        Target {
            meant,
            kinds: Vec::new(self.alloc),
            params: Vec::new(self.alloc),
            of,
        }
    }

    fn declared(&mut self, number: u32, span: Span) -> Result<Target, NoMemory>
        ensures { IfOk result (λ t. IsTarget t (of_declaration number ((env_of self.old).known number)
            (state_of self.old)) span (env_of self.old) self.old self.new) }
    {
        match self.known.get(number as usize) {
            Some(known) => {
                let vars = known.vars;
                let first = self.variables(vars)?;
                self.require_each(vars, first, &known.conds, span)?;
                Ok(Target {
                    meant: Meant::Declaration {
                        number,
                        vars,
                        first,
                    },
                    kinds: known.kinds.to_vec(self.alloc)?,
                    params: renumbered_all(self.alloc, vars, first, &known.params)?,
                    of: renumbered(self.alloc, vars, first, &known.of)?,
                })
            }
            None => {
                let meant = Meant::Declaration {
                    number,
                    vars: 0,
                    first: self.next,
                };
                Ok(self.alone(meant, types::unit()))
            }
        }
    }

    fn built_in(&mut self, builtin: BuiltIn, span: Span) -> Result<Target, NoMemory>
        ensures { IfOk result (λ t. IsTarget t (of_builtin builtin (state_of self.old)) span (env_of self.old) self.old
            self.new) }
    {
        let first = self.variables(builtin_vars(builtin))?;
        if let Some(condition) = builtin_condition(builtin, first) {
            self.require(condition, span)?;
        }
        Ok(Target {
            meant: Meant::BuiltIn(builtin),
            kinds: Vec::new(self.alloc),
            params: builtin_params(self.alloc, builtin, first)?,
            of: builtin_of(self.alloc, builtin, first)?,
        })
    }

    fn local_target(&mut self, binder: Span, span: Span) -> Result<Target, NoMemory>
        ensures { IfOk result (λ t. IsTarget t (of_local (local_at binder (env_of self.old).locals) (state_of self.old))
            span (env_of self.old) self.old self.new) }
    {
        match self.local(binder) {
            Some(local) => {
                let meant = Meant::Local {
                    kind: local.kind,
                    number: local.number,
                };
                let of = local.of.copy(self.alloc)?;
                Ok(self.alone(meant, of))
            }
            None => Ok(self.alone(Meant::Nothing, types::unit())),
        }
    }

    // What a name that is bound so stands for.
    fn bound_target(&mut self, bound: Option<Bound>, span: Span) -> Result<Target, NoMemory>
        ensures { IfOk result (λ t. IsTarget t (target bound (env_of self.old) (state_of self.old)) span
            (env_of self.old) self.old self.new) }
    {
        match bound {
            Some(Bound::Decl(number)) => self.declared(number, span),
            Some(Bound::BuiltIn(builtin)) => self.built_in(builtin, span),
            Some(Bound::Local(binder)) => self.local_target(binder, span),
            None => Ok(self.alone(Meant::Nothing, types::unit())),
        }
    }

    /// What the next name stands for, whose form is at `span`. What is asked at each of its uses is
    /// asked there.
    pub fn target(&mut self, span: Span) -> Result<Target, NoMemory>
        ensures { IfOk result (λ t. IsTarget t (target (bound_next (state_of self.old).uses) (env_of self.old)
            (after_use (state_of self.old))) span (env_of self.old) self.old self.new) }
    {
        let bound = self.take_use();
        self.bound_target(bound, span)
    }
}
