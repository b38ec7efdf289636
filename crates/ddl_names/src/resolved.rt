use crate::kept_decls::{keep_unit, next_place};
use ddl_base::{Bytes, NoMemory};
use ddl_kinds::Use;
use ddl_tree::{Decl, Kind, SourceUnit};
use std::alloc::Global;

/// The uses of names in modules, and where those in each declaration begin.
#[derive(Drop)]
pub struct Uses {
    /// All uses, in text order.
    pub all: Vec<Use>,
    /// For each declaration, module by module in text order, the place of its first use.
    pub firsts: Vec<usize>,
}

/// A declaration, with its module and what its name stands for.
#[derive(Drop)]
pub struct DeclInfo {
    /// The module's place in the list of units.
    pub unit: u32,
    pub name: Bytes,
    pub kind: Kind,
    pub params: Vec<Kind>,
    /// The place of its first use in the list of all; its uses go on up to the first of the next declaration.
    pub first_use: usize,
    pub decl: Decl,
}

/// Modules whose names are bound.
#[derive(Drop)]
pub struct Resolved {
    /// The names of the modules.
    pub units: Vec<Bytes>,
    /// Their declarations, module by module in text order. A declaration's number is its place.
    pub decls: Vec<DeclInfo>,
    /// The uses in them, in the same order.
    pub uses: Vec<Use>,
}

impl Resolved {
    ghost use Rattle.std.specs.Prelude.{IfOk};
    ghost use Rattle.ddl_names.specs.Resolves.{HaveFirsts, IsResolved};

    /// These modules with these uses: what is declared in them stands in one list, in the order of the modules.
    #[tactic(auto, using(crate::proofs::Firsts::firsts))]
    pub fn of(alloc: Global, units: Vec<SourceUnit>, uses: Uses) -> Result<Resolved, NoMemory>
        requires { HaveFirsts units.items uses }
        ensures { IfOk result (IsResolved units.items uses) }
    {
        let Uses { all, firsts } = uses;
        let mut names = Vec::new(alloc);
        let mut decls = Vec::new(alloc);
        let mut place = 0;
        for unit in units {
            keep_unit(alloc, place, unit, &firsts, &mut names, &mut decls)?;
            place = next_place(place)?;
        }
        Ok(Resolved {
            units: names,
            decls,
            uses: all,
        })
    }
}
