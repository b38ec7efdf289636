//! The reading of one module after the other, in the order of the queue.

ghost use Rattle.std.specs.Prelude.{◌≡◌, ◌∷◌, ◌+◌, ◌<◌, ◌≤◌, ◌^◌, [], length, vec_len, IfOk, IfErr, OnOk};
ghost use Rattle.ddl_outside.specs.Files.{Later, TouchesOnly};
ghost use Rattle.ddl_source.specs.Source.{HasTree};
ghost use Rattle.ddl_tree.specs.ViewModule.{module_view};
ghost use Rattle.ddl_modules.specs.Files.{module_file, module_name};
ghost use Rattle.ddl_modules.specs.Loading.{Adds, IsBegun, IsNoFile, IsNoTurn, IsQueued, TakesFile, TakesTurn};
ghost use Rattle.ddl_modules.specs.Queue.{beyond, prelude_name};
ghost use Rattle.ddl_modules.specs.Reading.{AreNotRead, AreRead, HasTreeIn, IsFull, IsNoPrelude, IsNoText, IsNoTree};
ghost use Rattle.ddl_modules.specs.Reading.{IsWithin, prelude_text};

use crate::error::LoadError;
use crate::names::{module_file, module_name};
use crate::queue::add_imports;
use ddl_base::{Bytes, NoMemory};
use ddl_outside::{Files, Whole, read_whole};
use ddl_source::{SourceError, tree_of};
use ddl_tree::{Module, SourceUnit};
use std::alloc::Global;

/// A module of more bytes is too large: 2^22.
const MOST_MODULE: u64 = 4_194_304;

/// Modules of more bytes in all are too large: 2^24.
const MOST_BYTES: u64 = 16_777_216;

/// The text of the prelude.
const PRELUDE: &str = "";

/// What was read so far.
#[derive(Drop)]
struct Loading {
    /// The queue: the names of the units, and of those whose turn is to come.
    names: Vec<Bytes>,
    units: Vec<SourceUnit>,
    /// How many bytes were read, those of the prelude not counted.
    length: u64,
}

/// A module's tree, and how many bytes its text has.
#[derive(Drop)]
struct Parsed {
    tree: Module,
    length: u64,
}

/// The tree of a module's text, behind texts of so many bytes.
fn tree_in(
    alloc: Global,
    name: &[u8],
    number: u32,
    before: u64,
    text: &[u8],
) -> Result<Parsed, LoadError>
    requires short { length text.now ≤ 2 ^ 22 }
    requires before { before ≤ 2 ^ 24 }
    ensures tree { IfOk result (λ p. (p.length ≡ length text.now) × IsWithin before p.length
        × HasTree number text.now (module_view p.tree)) }
    ensures none { IfErr result (IsNoText name.now text.now before) }
{
    let length = text.len() as u64;
    if before + length > MOST_BYTES {
        return Err(LoadError::TooLarge {
            module: Bytes::of(alloc, name)?,
            length,
        });
    }
    match tree_of(alloc, number, text) {
        Ok(tree) => Ok(Parsed { tree, length }),
        Err(SourceError::NoMemory) => Err(LoadError::NoMemory),
        Err(error) => Err(LoadError::Source {
            module: Bytes::of(alloc, name)?,
            error,
        }),
    }
}

/// The tree of a module's file, behind texts of so many bytes.
#[tactic(auto, using(crate::proofs::ReadingLemmas::tree_lemmas))]
fn read_tree<F: Files>(
    alloc: Global,
    files: &mut F,
    file: &str,
    name: &[u8],
    number: u32,
    before: u64,
) -> Result<Parsed, LoadError>
    requires { before ≤ 2 ^ 24 }
    ensures later { Later (F.state files.old) (F.state files.new) }
    ensures only { TouchesOnly file.now (F.state files.old) (F.state files.new) }
    ensures tree { IfOk result (λ p. HasTreeIn (F.state files.new) file.now number before p.length p.tree) }
    ensures none { IfErr result (IsNoTree (F.state files.old) (F.state files.new) file.now name.now before) }
{
    match read_whole(alloc, files, file, MOST_MODULE)? {
        Whole::Bytes(text) => tree_in(alloc, name, number, before, &text),
        Whole::Longer(length) => Err(LoadError::TooLarge {
            module: Bytes::of(alloc, name)?,
            length,
        }),
        Whole::Absent => Err(LoadError::Missing(Bytes::of(alloc, file.as_bytes())?)),
        Whole::Failed => Err(LoadError::ReadFault),
    }
}

/// Puts a module behind the others, and the names that it imports into the queue.
fn add_unit(
    alloc: Global,
    name: Bytes,
    tree: Module,
    loading: &mut Loading,
) -> Result<(), LoadError>
    requires { vec_len loading.old.names ≤ 257 }
    ensures added { OnOk result ((u : SourceUnit) × Adds loading.old name tree u loading.new) }
    ensures length { loading.new.length ≡ loading.old.length }
    ensures full { IfErr result (IsFull name (beyond loading.old.names.items tree.imports.items)) }
{
    let imports = add_imports(alloc, &mut loading.names, name.get(), &tree.imports)?;
    let unit = SourceUnit {
        name,
        tree,
        imports,
    };
    loading.units.push(unit)?;
    Ok(())
}

/// The queue of a root as it begins.
fn first_names(alloc: Global, root: &str) -> Result<Vec<Bytes>, NoMemory>
    ensures names { IfOk result (λ names. names.items ≡ prelude_name ∷ module_name root.now ∷ []) }
    ensures two { IfOk result (λ names. vec_len names ≡ 2) }
{
    let mut names = Vec::new(alloc);
    names.push(Bytes::of(alloc, b"Prelude")?)?;
    names.push(Bytes::of(alloc, module_name(root.as_bytes()))?)?;
    Ok(names)
}

/// The tree of the prelude.
fn prelude_tree(alloc: Global) -> Result<Module, LoadError>
    ensures tree { IfOk result (λ tree. HasTree 0 prelude_text (module_view tree)) }
    ensures none { IfErr result (IsNoText prelude_name prelude_text 0) }
{
    let parsed = tree_in(alloc, b"Prelude", 0, 0, PRELUDE.as_bytes())?;
    Ok(parsed.tree)
}

/// The prelude, read.
fn begin(alloc: Global, root: &str) -> Result<Loading, LoadError>
    ensures begun { IfOk result (IsBegun root.now) }
    ensures none { IfErr result (IsNoPrelude root.now) }
{
    let names = first_names(alloc, root)?;
    let tree = prelude_tree(alloc)?;
    let name = Bytes::of(alloc, b"Prelude")?;
    let mut loading = Loading {
        names,
        units: Vec::new(alloc),
        length: 0,
    };
    add_unit(alloc, name, tree, &mut loading)?;
    Ok(loading)
}

/// Reads the module of this name from its file.
fn load_file<F: Files>(
    alloc: Global,
    files: &mut F,
    file: &str,
    name: Bytes,
    loading: &mut Loading,
) -> Result<(), LoadError>
    requires few { vec_len loading.old.names ≤ 257 }
    requires unread { vec_len loading.old.units < vec_len loading.old.names }
    requires short { loading.old.length ≤ 2 ^ 24 }
    ensures later { Later (F.state files.old) (F.state files.new) }
    ensures only { TouchesOnly file.now (F.state files.old) (F.state files.new) }
    ensures taken { OnOk result (TakesFile (F.state files.new) file.now name loading.old loading.new) }
    ensures none { IfErr result (IsNoFile (F.state files.old) (F.state files.new) file.now name loading.old) }
{
    let number = loading.units.len() as u32;
    let parsed = read_tree(alloc, files, file, name.get(), number, loading.length)?;
    add_unit(alloc, name, parsed.tree, loading)?;
    loading.length += parsed.length;
    Ok(())
}

/// Reads the module whose turn it is.
fn load_next<F: Files>(
    alloc: Global,
    files: &mut F,
    root: &str,
    loading: &mut Loading,
) -> Result<(), LoadError>
    requires queued { IsQueued root.now loading.old }
    requires unread { vec_len loading.old.units < vec_len loading.old.names }
    requires short { loading.old.length ≤ 2 ^ 24 }
    ensures later { Later (F.state files.old) (F.state files.new) }
    ensures taken { OnOk result (TakesTurn (F.state files.old) (F.state files.new) root.now loading.old loading.new) }
    ensures none { IfErr result (IsNoTurn (F.state files.old) (F.state files.new) root.now loading.old) }
{
    let name = Bytes::of(alloc, loading.names[loading.units.len()].get())?;
    let file = module_file(alloc, root.as_bytes(), name.get())?;
    load_file(alloc, files, file.as_str(), name, loading)
}

/// Reads all modules that a root reaches, in the order of the queue.
pub(crate) fn load_all<F: Files>(
    alloc: Global,
    files: &mut F,
    root: &str,
) -> Result<Vec<SourceUnit>, LoadError>
    ensures later { Later (F.state files.old) (F.state files.new) }
    ensures read { IfOk result (λ us. AreRead (F.state files.old) (F.state files.new) root.now us.items) }
    ensures few { IfOk result (λ us. vec_len us ≤ 257) }
    ensures none { IfErr result (AreNotRead (F.state files.old) (F.state files.new) root.now) }
{
    let mut loading = begin(alloc, root)?;
    'turns: while loading.units.len() < loading.names.len() {
        load_next(alloc, files, root, &mut loading)?;
    }
    Ok(loading.units)
}
