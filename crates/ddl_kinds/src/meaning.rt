ghost use Rattle.std.specs.Prelude.{◌≡◌, drop, length, map};
ghost use Rattle.ddl_tree.specs.ViewModule.{param_view};
ghost use Rattle.ddl_kinds.specs.Meanings.{param_want};
ghost use Rattle.ddl_kinds.specs.Kinds.{next_want};
ghost use Rattle.ddl_kinds.specs.Found.{wants_view};

use crate::bound::Bound;
use crate::want::Want;
use ddl_tree::{Kind, Param};

/// What a name means where it stands.
#[derive(Clone, Copy)]
pub enum Meaning<'a> {
    /// Nothing binds it.
    Unbound,
    /// These two imports declare it.
    TwoImports(u32, u32),
    One {
        bound: Bound,
        kind: Kind,
        wants: Arguments<'a>,
    },
}

/// What the arguments of a name have to be.
#[derive(Clone, Copy)]
pub enum Arguments<'a> {
    /// A local name takes none.
    Nothing,
    /// Those of a declaration.
    Params(&'a [Param]),
    /// Those of a built-in name.
    Row(&'static [Want]),
}

/// What a parameter wants of its argument.
fn param_want(param: &Param) -> Want
    ensures { result ≡ param_want (param_view param.now) }
{
    match param {
        Param::Upper(_) | Param::TypedUpper { .. } => Want::Grammar,
        Param::Lower(_) | Param::TypedLower { .. } => Want::Value,
        Param::Class(_) => Want::Class,
    }
}

impl<'a> Arguments<'a> {
    /// How many there have to be.
    pub fn len(self) -> usize
        ensures { result ≡ length (wants_view self.entry) }
    {
        match self {
            Arguments::Nothing => 0,
            Arguments::Params(params) => params.len(),
            Arguments::Row(wants) => wants.len(),
        }
    }

    /// What the one at this place has to be; from the end on anything.
    #[tactic(auto, using(crate::proofs::Arguing::arguing))]
    pub fn want(self, place: usize) -> Want
        ensures { result ≡ next_want (drop place (wants_view self.entry)) }
    {
        match self {
            Arguments::Nothing => Want::Free,
            Arguments::Params(params) => want_of(params, place),
            Arguments::Row(wants) => want_among(wants, place),
        }
    }
}

// What the parameter at this place wants.
#[tactic(auto, using(crate::proofs::Arguing::arguing))]
fn want_of(params: &[Param], place: usize) -> Want
    ensures { result ≡ next_want (drop place (map (λ p. param_want (param_view p)) params.now)) }
{
    if place < params.len() {
        param_want(&params[place])
    } else {
        Want::Free
    }
}

// The want at this place of a row.
#[tactic(auto, using(crate::proofs::Arguing::arguing))]
fn want_among(wants: &[Want], place: usize) -> Want
    ensures { result ≡ next_want (drop place wants.now) }
{
    if place < wants.len() {
        wants[place]
    } else {
        Want::Free
    }
}
