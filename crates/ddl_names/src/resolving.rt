ghost use Rattle.std.specs.Prelude.{◌≡◌, ◌++◌, IfErr, IfOk, None, OnOk, flat_map, length, map};
ghost use Rattle.ddl_tree.specs.ViewModule.{decl_view};
ghost use Rattle.ddl_names.specs.Cutting.{begins};
ghost use Rattle.ddl_kinds.specs.Findings.{all_uses, first_refusal};
ghost use Rattle.ddl_uses.specs.Walks.{AreNames, IsOuter, site_view, loaded};
ghost use Rattle.ddl_kinds.specs.Found.{Finds, IsFirst};
ghost use Rattle.ddl_names.specs.Modules.{decl_findings, findings_from, uses_in_each, uses_of_each};
ghost use Rattle.ddl_names.specs.Resolves.{AreBound, IsUnbound};

use crate::Uses;
use crate::decls::take_decls;
use crate::twice::{few_enough, names_differ};
use ddl_base::NoMemory;
use ddl_kinds::NameError;
use ddl_tree::{Decl, SourceUnit};
use ddl_uses::{ModuleNames, Outer, Scope, Walk, names_of};
use std::alloc::Global;

// The place of a module in the list, of which there are fewer than 2^32.
fn number_of(place: usize) -> Result<u32, NoMemory>
    ensures { IfOk result (λ n. n ≡ place) }
{
    match u32::try_from(place) {
        Ok(number) => Ok(number),
        Err(_wide) => Err(NoMemory),
    }
}

// The uses in the declarations of the module at this place.
fn take_module<'a>(
    walk: &mut Walk<'a>,
    firsts: &mut Vec<usize>,
    place: usize,
    decls: &'a [Decl],
) -> Result<(), NameError>
    requires { IsOuter walk.old.outer }
    ensures found { Finds (flat_map (decl_findings (record { units = (site_view walk.old.outer).units; here = place }))
        (map decl_view decls.now)) walk.old.uses.items walk.new.uses.items result }
    ensures firsts { OnOk result (firsts.new.items ≡ firsts.old.items
        ++ begins (length walk.old.uses.items) (uses_in_each (record {
          units = (site_view walk.old.outer).units;
          here =
              place;
        }) (map decl_view decls.now))) }
    ensures kept { OnOk result (walk.new.outer ≡ record walk.old.outer { here = place }) }
{
    walk.outer.here = number_of(place)?;
    take_decls(walk, firsts, decls)?;
    Ok(())
}

// The uses in all modules.
#[tactic(auto, using(crate::proofs::Gathering::gathering))]
fn take_modules<'a>(
    alloc: Global,
    units: &'a [SourceUnit],
    names: Vec<ModuleNames<'a>>,
) -> Result<Uses, NameError>
    requires { AreNames (loaded units.now) names.items }
    ensures none_refused { OnOk result (first_refusal (findings_from (loaded units.now) 0 (loaded units.now)) ≡ None) }
    ensures taken { IfOk result (λ uses. uses.all.items
        ≡ all_uses (findings_from (loaded units.now) 0 (loaded units.now))) }
    ensures firsts { IfOk result (λ uses. uses.firsts.items ≡ begins 0 (uses_of_each (loaded units.now))) }
    ensures refused { IfErr result (IsFirst (findings_from (loaded units.now) 0 (loaded units.now))) }
{
    let mut walk = Walk {
        alloc,
        outer: Outer {
            units,
            here: 0,
            names,
        },
        scope: Scope::new(alloc),
        uses: Vec::new(alloc),
    };
    let mut firsts = Vec::new(alloc);
    for (place, unit) in units.iter().enumerate() {
        take_module(&mut walk, &mut firsts, place, &unit.tree.decls)?;
    }
    let Walk { uses, .. } = walk;
    Ok(Uses { all: uses, firsts })
}

/// The uses of names in these modules, each with what binds it, and where those in each declaration begin; or the first rule that is not met. Unit 0 is the prelude.
#[tactic(auto, using(crate::proofs::Gathering::gathering, crate::proofs::Begins::beginnings))]
pub fn bindings(alloc: Global, units: &[SourceUnit]) -> Result<Uses, NameError>
    ensures bound { IfOk result (AreBound units.now) }
    ensures refused { IfErr result (IsUnbound units.now) }
{
    few_enough(units)?;
    names_differ(alloc, units)?;
    let names = names_of(alloc, units)?;
    let uses = take_modules(alloc, units, names)?;
    Ok(uses)
}
