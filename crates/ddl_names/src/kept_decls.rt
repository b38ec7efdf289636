ghost use Rattle.std.specs.Prelude.{[], ◌++◌, ◌+◌, ◌<◌, ◌≡◌, ◌≤◌, ◌∷◌, IfErr, IfOk, OnOk, length, map};
ghost use Rattle.ddl_tree.specs.ViewModule.{decl_view, param_view};
ghost use Rattle.ddl_uses.specs.Walks.{unit_view};
ghost use Rattle.ddl_names.specs.Resolves.{AreFirst, AreResolved, IsUnbound, info, info_view};
ghost use Rattle.ddl_uses.specs.Scope.{param_kind};

use crate::params::kind_of as param_kind;
use crate::resolving::bindings;
use crate::{DeclInfo, Resolved};
use ddl_base::{Bytes, NoMemory};
use ddl_kinds::{NameError, kind_of, name_of, params_of};
use ddl_tree::{Decl, Kind, Module, Param, SourceUnit};
use std::alloc::Global;

// What parameters stand for.
fn param_kinds(alloc: Global, params: &[Param]) -> Result<Vec<Kind>, NoMemory>
    ensures { IfOk result (λ kinds. kinds.items ≡ map param_kind (map param_view params.now)) }
{
    let mut kinds = Vec::new(alloc);
    for param in params {
        kinds.push(param_kind(param))?;
    }
    Ok(kinds)
}

// A declaration of the module at this place, as it is kept.
#[tactic(auto, using(crate::proofs::Keeping::keeping))]
fn info_of(alloc: Global, unit: u32, first_use: usize, decl: Decl) -> Result<DeclInfo, NoMemory>
    ensures kept { IfOk result (λ kept. info_view kept ≡ info unit (decl_view decl)) }
    ensures first { IfOk result (λ kept. kept.first_use ≡ first_use) }
{
    let name = Bytes::of(alloc, name_of(&decl).text.get())?;
    let kind = kind_of(&decl);
    let params = param_kinds(alloc, params_of(&decl))?;
    Ok(DeclInfo {
        unit,
        name,
        kind,
        params,
        first_use,
        decl,
    })
}

// Puts a declaration of the module at this place behind those before, with the next of the first uses.
#[tactic(auto, using(crate::proofs::Keeping::keeping, crate::proofs::Firsts::firsts))]
fn keep_decl(
    alloc: Global,
    unit: u32,
    decl: Decl,
    firsts: &[usize],
    kept: &mut Vec<DeclInfo>,
) -> Result<(), NoMemory>
    requires room { length kept.old.items < length firsts.now }
    requires firsts { AreFirst firsts.now kept.old.items }
    ensures decl { OnOk result (map info_view kept.new.items ≡ map info_view kept.old.items
        ++ info unit (decl_view decl) ∷ []) }
    ensures firsts { OnOk result (AreFirst firsts.now kept.new.items) }
{
    let first_use = firsts[kept.len()];
    let info = info_of(alloc, unit, first_use, decl)?;
    kept.push(info)?;
    Ok(())
}

// Puts the declarations of the module at this place behind those before, with the next of the first uses.
#[tactic(auto, using(crate::proofs::Keeping::keeping, crate::proofs::Firsts::firsts))]
fn keep_decls(
    alloc: Global,
    unit: u32,
    decls: Vec<Decl>,
    firsts: &[usize],
    kept: &mut Vec<DeclInfo>,
) -> Result<(), NoMemory>
    requires room { length kept.old.items + length decls.items ≤ length firsts.now }
    requires firsts { AreFirst firsts.now kept.old.items }
    ensures decls { OnOk result (map info_view kept.new.items ≡ map info_view kept.old.items
        ++ map (info unit) (map decl_view decls.items)) }
    ensures firsts { OnOk result (AreFirst firsts.now kept.new.items) }
{
    for decl in decls {
        keep_decl(alloc, unit, decl, firsts, kept)?;
    }
    Ok(())
}

/// Puts a module behind those before, with the next of the first uses.
#[tactic(auto, using(crate::proofs::Keeping::keeping, crate::proofs::Firsts::firsts))]
pub(crate) fn keep_unit(
    alloc: Global,
    place: u32,
    unit: SourceUnit,
    firsts: &[usize],
    names: &mut Vec<Bytes>,
    decls: &mut Vec<DeclInfo>,
) -> Result<(), NoMemory>
    requires room { length decls.old.items + length unit.tree.decls.items ≤ length firsts.now }
    requires firsts { AreFirst firsts.now decls.old.items }
    ensures name { OnOk result (names.new.items ≡ names.old.items ++ unit.name ∷ []) }
    ensures decls { OnOk result (map info_view decls.new.items ≡ map info_view decls.old.items
        ++ map (info place) (unit_view unit).tree.decls) }
    ensures firsts { OnOk result (AreFirst firsts.now decls.new.items) }
{
    let SourceUnit {
        name,
        tree,
        imports: _places,
    } = unit;
    let Module {
        imports: _written,
        decls: own,
    } = tree;
    names.push(name)?;
    keep_decls(alloc, place, own, firsts, decls)?;
    Ok(())
}

/// The place behind this one.
pub(crate) fn next_place(place: u32) -> Result<u32, NoMemory>
    ensures { IfOk result (λ n. n ≡ place + 1) }
{
    match place.checked_add(1) {
        Some(next) => Ok(next),
        None => Err(NoMemory),
    }
}

/// The modules with their declarations in one list and the uses of names in them, each with what binds it, or the first rule that is not met. Unit 0 is the prelude.
#[tactic(auto, using(crate::proofs::Keeping::keeping, crate::proofs::Firsts::firsts))]
pub fn resolve(alloc: Global, units: Vec<SourceUnit>) -> Result<Resolved, NameError>
    ensures resolved { IfOk result (AreResolved units.items) }
    ensures refused { IfErr result (IsUnbound units.items) }
{
    let uses = bindings(alloc, &units)?;
    let resolved = Resolved::of(alloc, units, uses)?;
    Ok(resolved)
}
