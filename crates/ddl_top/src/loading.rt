ghost use Rattle.std.specs.Prelude.{ℕ, ◌≡◌, ◌≤◌, ◌^◌, List, length, IfOk};
ghost use Rattle.ddl_outside.specs.Files.{FilesState, IsFile, Later, TouchesOnly};
ghost use Rattle.ddl_top.specs.Reading.{IsLoaded};

use ddl_base::{NoMemory, Told};
use ddl_front::{long_told, source_told};
use ddl_outside::{Files, Whole, read_whole};
use ddl_source::tree_of;
use ddl_tree::Module;
use std::alloc::Global;

/// A module of more bytes is refused unread: 2^22.
const MOST_MODULE: u64 = 4_194_304;

/// The tree of a module's file, or why there is none.
#[derive(Drop)]
pub(crate) enum Loaded {
    Tree(Module),
    Refused(Told),
    Absent,
    Failed,
}

/// What a module's text is.
fn text_of(alloc: Global, name: &[u8], text: &[u8]) -> Result<Loaded, NoMemory>
    requires { length text.now ≤ 2 ^ 22 }
    ensures { IfOk result (λ loaded. (old : FilesState) (new : FilesState) (file : List ℕ) → IsFile new file text.now
        → IsLoaded old new file name.now loaded) }
{
    match tree_of(alloc, 0, text) {
        Ok(tree) => Ok(Loaded::Tree(tree)),
        Err(error) => Ok(Loaded::Refused(source_told(alloc, name, error)?)),
    }
}

/// Reads the file of a module of this name, and its tree.
pub(crate) fn load<F: Files>(
    alloc: Global,
    files: &mut F,
    file: &str,
    name: &[u8],
) -> Result<Loaded, NoMemory>
    ensures later { Later (F.state files.old) (F.state files.new) }
    ensures only { TouchesOnly file.now (F.state files.old) (F.state files.new) }
    ensures answer { IfOk result (IsLoaded (F.state files.old) (F.state files.new) file.now name.now) }
{
    match read_whole(alloc, files, file, MOST_MODULE)? {
        Whole::Bytes(text) => text_of(alloc, name, &text),
        Whole::Longer(length) => Ok(Loaded::Refused(long_told(alloc, name, length)?)),
        Whole::Absent => Ok(Loaded::Absent),
        Whole::Failed => Ok(Loaded::Failed),
    }
}
