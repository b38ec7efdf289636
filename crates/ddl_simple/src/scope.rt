ghost use Rattle.std.specs.Prelude.{◌≡◌, ◌++◌, ◌∷◌, [], IfOk, OnOk, length, take};
ghost use Rattle.ddl_types.specs.TyView.{ty_view};
ghost use Rattle.ddl_simple.specs.Scope.{meaning};
ghost use Rattle.ddl_simple.specs.Views.{Gives, IsLatest, bound, meaning_view, scope_view};

use crate::stop::Stop;
use ddl_base::{Bytes, NoMemory};
use ddl_types::Ty;
use std::alloc::Global;

/// A name that is bound, and the type of its value.
#[derive(Drop)]
pub(crate) struct Binding {
    pub(crate) name: Bytes,
    pub(crate) of: Ty,
}

/// The names in scope, in the order in which they were bound.
#[derive(Drop)]
pub(crate) struct Scope {
    pub(crate) bindings: Vec<Binding>,
}

/// What a name means: the number of a binding, and its type.
#[derive(Drop)]
pub(crate) struct Meaning {
    pub(crate) number: u32,
    pub(crate) of: Ty,
}

impl Scope {
    /// Without a name.
    pub(crate) fn new(alloc: Global) -> Self
        ensures { bound result ≡ [] }
    {
        Scope {
            bindings: Vec::new(alloc),
        }
    }

    /// How many names there are.
    pub(crate) fn len(&self) -> usize
        ensures { result ≡ length (bound self.now) }
    {
        self.bindings.len()
    }

    /// The number of the next name that is bound.
    pub(crate) fn next(&self) -> Result<u32, NoMemory>
        ensures { IfOk result (λ n. n ≡ length (bound self.now)) }
    {
        number_of(self.bindings.len())
    }

    /// Binds a name.
    #[tactic(auto, using(crate::proofs::Names::names_in_order, crate::proofs::Names::searching))]
    pub(crate) fn bind(&mut self, alloc: Global, name: &Bytes, of: Ty) -> Result<(), NoMemory>
        ensures { OnOk result (bound self.new ≡ bound self.old ++ record { name = name.now; of = ty_view of } ∷ []) }
    {
        let name = Bytes::of(alloc, name.get())?;
        self.bindings.push(Binding { name, of })?;
        Ok(())
    }

    /// Forgets the names that were bound after the first ones.
    #[tactic(auto, using(crate::proofs::Names::names_in_order, crate::proofs::Names::searching))]
    pub(crate) fn truncate(&mut self, len: usize)
        ensures { bound self.new ≡ take len (bound self.old) }
    {
        self.bindings.truncate(len);
    }

    /// What a name means.
    #[tactic(auto, using(crate::proofs::Names::names_in_order, crate::proofs::Names::searching))]
    pub(crate) fn find(&self, alloc: Global, name: &Bytes) -> Result<Meaning, Stop>
        ensures { Gives meaning_view (meaning (scope_view self.now) name.now) result }
    {
        match latest(&self.bindings, name.get()) {
            Some(place) => {
                let number = number_of(place)?;
                let of = self.bindings[place].of.copy(alloc)?;
                Ok(Meaning { number, of })
            }
            None => Err(Stop::Outside),
        }
    }
}

// The place of the last binding of a name.
#[tactic(auto, using(crate::proofs::Names::names_in_order, crate::proofs::Names::searching))]
fn latest(bindings: &[Binding], name: &[u8]) -> Option<usize>
    ensures { IsLatest bindings.now name.now result }
{
    let mut number = bindings.len();
    while number > 0 {
        number -= 1;
        if bindings[number].name.get() == name {
            return Some(number);
        }
    }
    None
}

// A place as the number of a name; more names than there are numbers are want of memory.
fn number_of(place: usize) -> Result<u32, NoMemory>
    ensures { IfOk result (λ n. n ≡ place) }
{
    match u32::try_from(place) {
        Ok(number) => Ok(number),
        Err(_wide) => Err(NoMemory),
    }
}
