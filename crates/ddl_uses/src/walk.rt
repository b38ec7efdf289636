ghost use Rattle.std.specs.Prelude.{◌≡◌};
ghost use Rattle.ddl_uses.specs.Bindings.{meaning};
ghost use Rattle.ddl_uses.specs.Walks.{IsWalk, site_view};
ghost use Rattle.ddl_kinds.specs.Found.{meaning_view};
ghost use Rattle.ddl_uses.specs.Held.{scope_view};

use crate::outer::Outer;
use crate::scope::Scope;
use ddl_kinds::{Meaning, Use};
use ddl_tree::Name;
use std::alloc::Global;

/// A walk over the parts of a module.
#[derive(Drop)]
pub struct Walk<'a> {
    pub alloc: Global,
    /// What names mean where they are no local ones.
    pub outer: Outer<'a>,
    /// The local names in scope.
    pub scope: Scope<'a>,
    /// The uses so far.
    pub uses: Vec<Use>,
}

impl<'a> Walk<'a> {
    /// What a name means where the walk stands.
    pub(crate) fn meaning(&self, name: &Name) -> Meaning<'a>
        requires { IsWalk self.now }
        ensures { meaning_view result ≡ meaning (site_view self.now.outer) (scope_view self.now.scope) name.now }
    {
        self.outer.meaning(&self.scope, name)
    }
}
