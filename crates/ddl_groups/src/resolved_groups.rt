//! The groups of the declarations of modules whose names are bound.
ghost use Rattle.std.specs.Prelude.{IfOk};
ghost use Rattle.ddl_groups.specs.Groups.{AreGroups};
ghost use Rattle.ddl_groups.specs.Needs.{needs_of};
ghost use Rattle.ddl_groups.specs.Placing.{lists_of};

use crate::group::Groups;
use crate::need_order::ordered;
use crate::needs::needs_of;
use ddl_base::NoMemory;
use ddl_names::Resolved;
use std::alloc::Global;

/// The groups of the declarations of modules whose names are bound; a use stands in types too.
pub fn groups(alloc: Global, resolved: &Resolved) -> Result<Groups, NoMemory>
    ensures { IfOk result (λ groups. AreGroups (needs_of resolved.now.decls.items resolved.now.uses.items)
        (lists_of groups.lists.items)) }
{
    let needs = needs_of(alloc, &resolved.decls, &resolved.uses)?;
    if needs.len() >= u32::MAX as usize {
        return Err(NoMemory);
    }
    let lists = ordered(alloc, &needs)?;
    Ok(Groups { lists })
}
