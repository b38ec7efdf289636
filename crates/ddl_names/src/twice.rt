ghost use Rattle.std.specs.Prelude.{[], ◌≡◌, drop, flat_map, map, option_map, slice_get};
ghost use Rattle.ddl_tree.specs.ViewModule.{decl_view};
ghost use Rattle.ddl_kinds.specs.Meanings.{decl_name};
ghost use Rattle.ddl_kinds.specs.Findings.{twice_among};
ghost use Rattle.ddl_kinds.specs.Found.{Refuses};
ghost use Rattle.ddl_names.specs.Modules.{declared_twice, one_too_many, too_many};
ghost use Rattle.ddl_uses.specs.Walks.{loaded};

use ddl_base::Span;
use ddl_kinds::{NameError, name_of};
use ddl_tree::{Decl, SourceUnit};
use ddl_uses::before;
use std::alloc::Global;
use std::collections::HashMap;

// The declarations, of which no two have the same name.
#[tactic(auto, using(crate::proofs::Refusing::refusing))]
fn decls_differ(alloc: Global, decls: &[Decl]) -> Result<(), NameError>
    ensures { Refuses (twice_among [] (map decl_name (map decl_view decls.now))) result }
{
    let mut places = HashMap::new(alloc);
    for decl in decls {
        let name = name_of(decl);
        match before(&mut places, name.text.get(), name.span)? {
            Some(first) => return Err(NameError::Twice(name.span, first)),
            None => {}
        }
    }
    Ok(())
}

/// No two declarations of a module have the same name.
#[tactic(auto, using(crate::proofs::Refusing::refusing))]
pub(crate) fn names_differ(alloc: Global, units: &[SourceUnit]) -> Result<(), NameError>
    ensures { Refuses (flat_map declared_twice (loaded units.now)) result }
{
    for unit in units {
        decls_differ(alloc, &unit.tree.decls)?;
    }
    Ok(())
}

// The name of the declaration at this place, over all these modules.
#[tactic(auto, using(crate::proofs::Refusing::refusing))]
fn decl_at(units: &[SourceUnit], place: usize) -> Option<Span>
    ensures { result ≡ option_map (λ d. (decl_name d).span)
        (slice_get (flat_map (λ u. u.tree.decls) (loaded units.now)) place) }
{
    let mut left = place;
    for unit in units {
        let decls = &unit.tree.decls;
        if left < decls.len() {
            return Some(name_of(&decls[left]).span);
        }
        left -= decls.len();
    }
    None
}

// The modules behind the prelude.
#[tactic(auto, using(crate::proofs::Refusing::refusing))]
fn others(units: &[SourceUnit]) -> &[SourceUnit]
    ensures { result.now ≡ drop 1 units.now }
{
    match units.split_first() {
        Some((_prelude, others)) => others,
        None => units,
    }
}

/// There are at most 65,535 declarations, those of the prelude not counted.
#[tactic(auto, using(crate::proofs::Refusing::refusing))]
pub(crate) fn few_enough(units: &[SourceUnit]) -> Result<(), NameError>
    ensures { Refuses (too_many (one_too_many (loaded units.now))) result }
{
    match decl_at(others(units), 65_535) {
        Some(span) => Err(NameError::TooManyDecls(span)),
        None => Ok(()),
    }
}
