ghost use Rattle.std.specs.Prelude.{◌≡◌, IfErr, IfOk};
ghost use Rattle.ddl_outside.specs.Files.{Later};
ghost use Rattle.ddl_front.specs.Front.{FindsModules, HaveBindings, IsNameRefusal, IsRefused, TouchesModules};

use crate::reasons::{load_refusal, name_refusal};
use ddl_modules::load;
use ddl_names::bindings;
use ddl_outside::{Files, Refusal};
use ddl_tree::SourceUnit;
use std::alloc::Global;

/// The same modules, where their names are bound.
fn with_bindings(alloc: Global, units: Vec<SourceUnit>) -> Result<Vec<SourceUnit>, Refusal>
    ensures bound { IfOk result (λ us. (us ≡ units) × HaveBindings us.items) }
    ensures unbound { IfErr result (IsNameRefusal units.items) }
{
    match bindings(alloc, &units) {
        Ok(_) => Ok(units),
        Err(error) => Err(name_refusal(alloc, &units, error)?),
    }
}

/// The modules that a root reaches, the prelude first and the root second, where their names are bound; or the first refusal.
///
/// A root is the name of a module, behind an optional directory up to its last `/`; a module's file is the directory, the
/// name and `.ddl`.
pub fn bound_modules<F: Files>(
    alloc: Global,
    files: &mut F,
    root: &str,
) -> Result<Vec<SourceUnit>, Refusal>
    ensures later { Later (F.state files.old) (F.state files.new) }
    ensures order { TouchesModules (F.state files.old) (F.state files.new) root.now }
    ensures bound { IfOk result (λ us. FindsModules (F.state files.old) (F.state files.new) root.now us.items) }
    ensures refused { IfErr result (IsRefused (F.state files.old) (F.state files.new) root.now) }
{
    match load(alloc, files, root) {
        Ok(units) => with_bindings(alloc, units),
        Err(error) => Err(load_refusal(alloc, error)?),
    }
}
