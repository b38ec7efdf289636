//! What has appeared so far in a walk.

ghost use Rattle.std.specs.Prelude.{◌≡◌, not, IfOk, OnOk};
ghost use Rattle.ddl_schemes.specs.FoundView.{found_view};
ghost use Rattle.ddl_schemes.specs.Order.{among, unseen, with_variable};
ghost use Rattle.ddl_schemes.specs.Steps.{with_place};

use ddl_base::NoMemory;
use indexmap::IndexSet;
use std::alloc::Global;

/// The records and unions without variables of their own, and the variables, that have appeared.
#[derive(Drop)]
pub(crate) struct Found {
    pub places: IndexSet<u32>,
    pub variables: IndexSet<u32>,
}

/// Nothing has appeared.
pub(crate) fn none_found(alloc: Global) -> Found
    ensures { found_view result ≡ unseen }
{
    Found {
        places: IndexSet::new(alloc),
        variables: IndexSet::new(alloc),
    }
}

/// A variable appears.
#[tactic(auto, using(crate::proofs::Appearing::appearing))]
pub(crate) fn add_variable(found: &mut Found, variable: u32) -> Result<(), NoMemory>
    ensures { OnOk result (found_view found.new ≡ with_variable variable (found_view found.old)) }
{
    found.variables.insert(variable)?;
    Ok(())
}

/// A place appears. Answers whether it is new.
#[tactic(auto, using(crate::proofs::Appearing::appearing))]
pub(crate) fn add_place(found: &mut Found, place: u32) -> Result<bool, NoMemory>
    ensures new { IfOk result (λ new. new ≡ not (among (found_view found.old).places place)) }
    ensures added { OnOk result (found_view found.new ≡ with_place place (found_view found.old)) }
{
    let new = found.places.insert(place)?;
    Ok(new)
}
