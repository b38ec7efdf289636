ghost use Rattle.std.specs.Prelude.{◌≡◌, Some, filter, find};
ghost use Rattle.ddl_uses.specs.Bindings.{declared, imported, imported_by, imports_of, is_bound, is_declared, meaning};
ghost use Rattle.ddl_uses.specs.Bindings.{meaning_of_builtin, meaning_of_local, outer_meaning};
ghost use Rattle.ddl_kinds.specs.BuiltIns.{builtin_named};
ghost use Rattle.ddl_uses.specs.Held.{IsScope, local_view, scope_view};
ghost use Rattle.ddl_uses.specs.Walks.{IsOuter, is_other, site_view};
ghost use Rattle.ddl_kinds.specs.Found.{meaning_view};

use crate::module_names::ModuleNames;
use crate::scope::{Local, Scope};
use ddl_kinds::{Arguments, Bound, BuiltIn, Meaning};
use ddl_tree::{Name, SourceUnit};

/// What names mean in a module where they are no local ones.
#[derive(Drop)]
pub struct Outer<'a> {
    pub units: &'a [SourceUnit],
    /// The module's place among them.
    pub here: u32,
    /// The names of each of them.
    pub names: Vec<ModuleNames<'a>>,
}

// What a name means that nothing else binds.
fn built_in<'a>(text: &[u8]) -> Meaning<'a>
    ensures { meaning_view result ≡ meaning_of_builtin (builtin_named text.now) }
{
    match BuiltIn::named(text) {
        Some(builtin) => Meaning::One {
            bound: Bound::BuiltIn(builtin),
            kind: builtin.kind(),
            wants: Arguments::Row(builtin.params()),
        },
        None => Meaning::Unbound,
    }
}

// What a local name means.
fn local<'a>(local: Local<'a>) -> Meaning<'a>
    ensures { meaning_view result ≡ meaning_of_local (Some (local_view local.entry)) }
{
    Meaning::One {
        bound: Bound::Local(local.name.span),
        kind: local.kind,
        wants: Arguments::Nothing,
    }
}

// Whether anything binds the name.
fn is_bound(meaning: Meaning) -> bool
    ensures { result ≡ is_bound (meaning_view meaning.entry) }
{
    !matches!(meaning, Meaning::Unbound)
}

impl<'a> Outer<'a> {
    // A name as a module declares it.
    #[tactic(auto, using(crate::proofs::Outside::outside))]
    fn declared(&self, place: u32, text: &[u8]) -> Meaning<'a>
        requires { IsOuter self.now }
        ensures { meaning_view result ≡ declared (site_view self.now).units place text.now }
    {
        match self.names.get(place as usize) {
            Some(names) => names.meaning(text),
            None => Meaning::Unbound,
        }
    }

    // Whether a module declares the name.
    #[tactic(auto, using(crate::proofs::Outside::outside))]
    fn is_declared(&self, text: &[u8], place: u32) -> bool
        requires { IsOuter self.now }
        ensures { result ≡ is_declared (site_view self.now).units text.now place }
    {
        is_bound(self.declared(place, text))
    }

    // The first of the imports that declares the name.
    #[tactic(auto, using(crate::proofs::Outside::outside))]
    fn first_import(&self, imports: &[u32], text: &[u8]) -> Option<u32>
        requires { IsOuter self.now }
        ensures { result ≡ find (is_declared (site_view self.now).units text.now) imports.now }
    {
        for import in imports {
            if self.is_declared(text, *import) {
                return Some(*import);
            }
        }
        None
    }

    // Whether a module declares the name, and is not this one.
    #[tactic(auto, using(crate::proofs::Outside::outside))]
    fn is_other(&self, text: &[u8], first: u32, place: u32) -> bool
        requires { IsOuter self.now }
        ensures { result ≡ is_other (site_view self.now).units text.now first place }
    {
        place != first && self.is_declared(text, place)
    }

    // The first of the imports that declares the name, and is not this one.
    #[tactic(auto, using(crate::proofs::Outside::outside))]
    fn other_import(&self, imports: &[u32], text: &[u8], first: u32) -> Option<u32>
        requires { IsOuter self.now }
        ensures { result ≡ find (is_other (site_view self.now).units text.now first) imports.now }
    {
        for import in imports {
            if self.is_other(text, first, *import) {
                return Some(*import);
            }
        }
        None
    }

    // A name that these imports may declare.
    #[tactic(auto, using(crate::proofs::Outside::outside))]
    fn imported_by(&self, imports: &[u32], text: &[u8]) -> Meaning<'a>
        requires { IsOuter self.now }
        ensures { meaning_view result ≡ imported_by (site_view self.now).units text.now
            (filter (is_declared (site_view self.now).units text.now) imports.now) }
    {
        match self.first_import(imports, text) {
            Some(first) => match self.other_import(imports, text, first) {
                Some(second) => Meaning::TwoImports(first, second),
                None => self.declared(first, text),
            },
            None => Meaning::Unbound,
        }
    }

    // The modules that this one imports.
    #[tactic(auto, using(crate::proofs::Outside::outside))]
    fn imports(&self) -> &'a [u32]
        ensures { result.now ≡ imports_of (site_view self.now).units (site_view self.now).here }
    {
        match self.units.get(self.here as usize) {
            Some(unit) => &unit.imports,
            None => &[],
        }
    }

    // What a name means that is no local one.
    #[tactic(auto, using(crate::proofs::Outside::outside))]
    fn outer_meaning(&self, text: &[u8]) -> Meaning<'a>
        requires { IsOuter self.now }
        ensures { meaning_view result ≡ outer_meaning (site_view self.now).units (site_view self.now).here text.now }
    {
        let own = self.declared(self.here, text);
        if is_bound(own) {
            return own;
        }
        let imported = self.imported_by(self.imports(), text);
        if is_bound(imported) {
            return imported;
        }
        let prelude = self.declared(0, text);
        if is_bound(prelude) {
            return prelude;
        }
        built_in(text)
    }

    /// What a name means where these local names are in scope.
    pub(crate) fn meaning(&self, scope: &Scope<'a>, name: &Name) -> Meaning<'a>
        requires names { IsOuter self.now }
        requires scope { IsScope scope.now }
        ensures { meaning_view result ≡ meaning (site_view self.now) (scope_view scope.now) name.now }
    {
        match scope.find(name.text.get()) {
            Some(found) => local(found),
            None => self.outer_meaning(name.text.get()),
        }
    }
}
