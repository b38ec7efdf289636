ghost use Rattle.std.specs.Prelude.{[], ◌+◌, ◌≡◌, ◌∷◌, IfOk, List, None, OnOk, Some, bytes_eq, if◌then◌else◌, map, ℕ};
ghost use Rattle.std.specs.Option.{option_or};
ghost use Rattle.ddl_tree.specs.ViewModule.{decl_view};
ghost use Rattle.ddl_uses.specs.Bindings.{meaning_among, meaning_of_decl, or_else};
ghost use Rattle.ddl_uses.specs.Held.{at_text};
ghost use Rattle.ddl_uses.specs.Walks.{AreNames, meaning_in, meaning_of_numbered, loaded};
ghost use Rattle.ddl_kinds.specs.Found.{meaning_view};

use ddl_base::NoMemory;
use ddl_kinds::{Arguments, Bound, Meaning, kind_of, name_of, params_of};
use ddl_tree::{Decl, SourceUnit};
use std::alloc::Global;
use std::collections::HashMap;

/// A declaration with its number.
#[derive(Clone, Copy)]
pub(crate) struct Numbered<'a> {
    pub(crate) number: u32,
    pub(crate) decl: &'a Decl,
}

/// The declarations of a module by their names, the first of each.
#[derive(Drop)]
pub struct ModuleNames<'a> {
    pub(crate) by_name: HashMap<&'a [u8], Numbered<'a>>,
}

// The declaration of this name.
fn known<'a>(by_name: &HashMap<&'a [u8], Numbered<'a>>, text: &[u8]) -> Option<Numbered<'a>>
    ensures { result ≡ at_text by_name.now text.now }
{
    let numbered = by_name.get(text)?;
    Some(*numbered)
}

// Keeps a declaration whose name is new.
#[tactic(auto, using(crate::proofs::Kept::kept))]
fn keep<'a>(
    by_name: &mut HashMap<&'a [u8], Numbered<'a>>,
    text: &'a [u8],
    numbered: Numbered<'a>,
) -> Result<(), NoMemory>
    requires { at_text by_name.old text.now ≡ None }
    ensures { OnOk result ((q : List ℕ) → at_text by_name.new q
        ≡ option_or (at_text by_name.old q) (if bytes_eq text.now q then Some numbered.entry else None)) }
{
    by_name.insert(text, numbered)?;
    Ok(())
}

// Keeps a declaration, unless one of its name is there.
#[tactic(auto, using(crate::proofs::Kept::kept))]
fn keep_first<'a>(
    by_name: &mut HashMap<&'a [u8], Numbered<'a>>,
    text: &'a [u8],
    numbered: Numbered<'a>,
) -> Result<(), NoMemory>
    ensures { OnOk result ((q : List ℕ) → at_text by_name.new q
        ≡ option_or (at_text by_name.old q) (if bytes_eq text.now q then Some numbered.entry else None)) }
{
    match known(by_name, text) {
        Some(_first) => {}
        None => keep(by_name, text, numbered)?,
    }
    Ok(())
}

// One declaration more.
#[tactic(auto, using(crate::proofs::Naming::naming))]
fn add<'a>(
    by_name: &mut HashMap<&'a [u8], Numbered<'a>>,
    number: u32,
    decl: &'a Decl,
) -> Result<(), NoMemory>
    ensures { OnOk result ((q : List ℕ) → meaning_of_numbered (at_text by_name.new q)
        ≡ or_else (meaning_of_numbered (at_text by_name.old q)) (meaning_among number (decl_view decl.now ∷ []) q)) }
{
    keep_first(by_name, name_of(decl).text.get(), Numbered { number, decl })?;
    Ok(())
}

// A number of a declaration, of which there are fewer than 2^32.
fn number_at(first: usize, place: usize) -> Result<u32, NoMemory>
    ensures { IfOk result (λ n. n ≡ first + place) }
{
    match first.checked_add(place) {
        Some(number) => match u32::try_from(number) {
            Ok(number) => Ok(number),
            Err(_wide) => Err(NoMemory),
        },
        None => Err(NoMemory),
    }
}

// What the name of a declaration means.
#[tactic(auto, using(crate::proofs::Naming::naming))]
fn meaning_of<'a>(numbered: Numbered<'a>) -> Meaning<'a>
    ensures { meaning_view result ≡ meaning_of_decl numbered.entry.number (decl_view numbered.entry.decl.now) }
{
    Meaning::One {
        bound: Bound::Decl(numbered.number),
        kind: kind_of(numbered.decl),
        wants: Arguments::Params(params_of(numbered.decl)),
    }
}

impl<'a> ModuleNames<'a> {
    /// Those of declarations of which the first has this number.
    #[tactic(auto, using(crate::proofs::Naming::naming))]
    pub(crate) fn of(alloc: Global, first: usize, decls: &'a [Decl]) -> Result<Self, NoMemory>
        ensures { IfOk result (λ names. (text : List ℕ)
            → meaning_in (Some names) text ≡ meaning_among first (map decl_view decls.now) text) }
    {
        let mut by_name = HashMap::new(alloc);
        for (place, decl) in decls.iter().enumerate() {
            add(&mut by_name, number_at(first, place)?, decl)?;
        }
        Ok(ModuleNames { by_name })
    }

    /// What a name means that the module declares.
    pub(crate) fn meaning(&self, text: &[u8]) -> Meaning<'a>
        ensures { meaning_view result ≡ meaning_in (Some self.now) text.now }
    {
        match known(&self.by_name, text) {
            Some(numbered) => meaning_of(numbered),
            None => Meaning::Unbound,
        }
    }
}

// The number behind the last declaration.
fn next_number(first: usize, count: usize) -> Result<usize, NoMemory>
    ensures { IfOk result (λ n. n ≡ first + count) }
{
    match first.checked_add(count) {
        Some(next) => Ok(next),
        None => Err(NoMemory),
    }
}

/// The names of each module.
#[tactic(auto, using(crate::proofs::Naming::naming))]
pub fn names_of<'a>(
    alloc: Global,
    units: &'a [SourceUnit],
) -> Result<Vec<ModuleNames<'a>>, NoMemory>
    ensures { IfOk result (λ names. AreNames (loaded units.now) names.items) }
{
    let mut names = Vec::new(alloc);
    let mut first = 0;
    for unit in units {
        let decls = &unit.tree.decls;
        names.push(ModuleNames::of(alloc, first, decls)?)?;
        first = next_number(first, decls.len())?;
    }
    Ok(names)
}
