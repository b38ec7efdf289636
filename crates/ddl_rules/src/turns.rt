//! The names of the turns of `for` and `map`.

ghost use Rattle.std.specs.Prelude.{IfOk};
ghost use Rattle.ddl_types.specs.TyView.{ty_view};
ghost use Rattle.ddl_rules.specs.Patterns.{IsTurn};
ghost use Rattle.ddl_rules.specs.Views.{env_of, state_of};

use crate::Elaboration;
use ddl_base::NoMemory;
use ddl_tree::Names;
use ddl_typed::Binder;
use ddl_types::Ty;

impl<'a> Elaboration<'a> {
    /// The names of a turn over keys or positions and values of these types. They are in scope then.
    pub fn bind_turn(&mut self, names: &Names, key: Ty, value: Ty) -> Result<Binder, NoMemory>
        ensures { IfOk result (λ b. IsTurn b names.now (ty_view key) (ty_view value) (env_of self.old)
            (state_of self.old) self.old self.new) }
    {
        match &names.second {
            None => {
                let element = self.bind(names.first.span, value)?;
                Ok(Binder { key: None, element })
            }
            Some(second) => {
                let key = self.bind(names.first.span, key)?;
                let element = self.bind(second.span, value)?;
                Ok(Binder {
                    key: Some(key),
                    element,
                })
            }
        }
    }
}
