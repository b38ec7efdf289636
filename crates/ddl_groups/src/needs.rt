//! Which declarations each declaration uses.
ghost use Rattle.std.specs.Prelude.{◌≡◌, ◌<◌, ◌++◌, length, slice_index_or, [], IfOk, OnOk};
ghost use Rattle.ddl_groups.specs.Needs.{declared, listed, needs_in, needs_of};
ghost use Rattle.ddl_groups.specs.Placing.{lists_of};
ghost use Rattle.ddl_names.specs.Cutting.{cut_at};
ghost use Rattle.ddl_names.specs.Resolves.{firsts_of};

use ddl_base::NoMemory;
use ddl_names::{Bound, DeclInfo, Use};
use std::alloc::Global;

/// The number of the declaration that binds the name, among so many.
fn declared(count: usize, bound: Bound) -> Option<u32>
    ensures { result ≡ declared count bound }
{
    match bound {
        Bound::Decl(number) if (number as usize) < count => Some(number),
        Bound::Decl(_) | Bound::Local(_) | Bound::BuiltIn(_) => None,
    }
}

/// Adds the declaration that binds a name, where one among so many does.
fn add_need(needs: &mut Vec<u32>, count: usize, bound: Bound) -> Result<(), NoMemory>
    ensures { OnOk result (needs.new.items ≡ needs.old.items ++ listed (declared count bound)) }
{
    if let Some(number) = declared(count, bound) {
        needs.push(number)?;
    }
    Ok(())
}

/// The declarations that these uses are bound to.
fn needs_in(alloc: Global, count: usize, uses: &[Use]) -> Result<Vec<u32>, NoMemory>
    ensures { IfOk result (λ needs. needs.items ≡ needs_in count uses.now) }
{
    let mut needs = Vec::new(alloc);
    for used in uses {
        add_need(&mut needs, count, used.bound)?;
    }
    Ok(needs)
}

/// The uses in the declaration at a place.
fn uses_at<'a>(decls: &[DeclInfo], uses: &'a [Use], place: usize) -> &'a [Use]
    requires { place < length decls.now }
    ensures { result.now ≡ slice_index_or (cut_at uses.now (firsts_of decls.now)) place [] }
{
    let first = decls[place].first_use;
    let rest = &uses[first.min(uses.len())..];
    if place + 1 < decls.len() {
        let count = decls[place + 1].first_use.saturating_sub(first);
        &rest[..count.min(rest.len())]
    } else {
        rest
    }
}

/// For each declaration those that it uses.
pub(crate) fn needs_of(
    alloc: Global,
    decls: &[DeclInfo],
    uses: &[Use],
) -> Result<Vec<Vec<u32>>, NoMemory>
    ensures { IfOk result (λ needs. lists_of needs.items ≡ needs_of decls.now uses.now) }
{
    let mut needs = Vec::new(alloc);
    for place in 0..decls.len() {
        let own = uses_at(decls, uses, place);
        needs.push(needs_in(alloc, decls.len(), own)?)?;
    }
    Ok(needs)
}
