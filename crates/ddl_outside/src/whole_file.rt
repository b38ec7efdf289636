ghost use Rattle.std.specs.Prelude.{◌≡◌, ◌<◌, ◌≤◌, ◌^◌, IfOk};
ghost use Rattle.ddl_outside.specs.Files.{IsTold, told_length, Later, TouchesOnly};
ghost use Rattle.ddl_outside.specs.WholeFile.{HasAll, IsWhole};

use crate::{Files, Filled, Length, fill};
use ddl_base::NoMemory;
use std::alloc::Global;

/// A whole file, or why its bytes are not here.
#[derive(Drop)]
pub enum Whole {
    Bytes(Vec<u8>),
    /// The file has more bytes than were asked for: so many. None of them was read.
    Longer(u64),
    /// The file is not there.
    Absent,
    /// A call failed.
    Failed,
}

/// The bytes of a file of this length, which was told.
fn all_bytes<F: Files>(
    alloc: Global,
    files: &mut F,
    name: &str,
    length: usize,
) -> Result<Whole, NoMemory>
    requires told { IsTold (F.state files.old) name.now }
    requires within { length ≡ told_length (F.state files.old) name.now }
    ensures later { Later (F.state files.old) (F.state files.new) }
    ensures only { TouchesOnly name.now (F.state files.old) (F.state files.new) }
    ensures told { (F.state files.new).told ≡ (F.state files.old).told }
    ensures answer { IfOk result (HasAll (F.state files.old) (F.state files.new) name.now length) }
{
    let mut bytes = vec![in alloc; 0u8; length]?;
    Ok(match fill(files, name, 0, &mut bytes) {
        Filled::Whole => Whole::Bytes(bytes),
        Filled::Absent => Whole::Absent,
        Filled::Failed => Whole::Failed,
    })
}

/// A whole file of at most so many bytes, which is read once.
#[tactic(auto, using(crate::proofs::FilesLemmas::file_lemmas))]
pub fn read_whole<F: Files>(
    alloc: Global,
    files: &mut F,
    name: &str,
    most: u64,
) -> Result<Whole, NoMemory>
    ensures later { Later (F.state files.old) (F.state files.new) }
    ensures only { TouchesOnly name.now (F.state files.old) (F.state files.new) }
    ensures answer { IfOk result (IsWhole (F.state files.old) (F.state files.new) name.now most) }
{
    match files.length(name) {
        Length::Bytes(length) => {
            if length > most {
                return Ok(Whole::Longer(length));
            }
            all_bytes(alloc, files, name, length as usize)
        }
        Length::Absent => Ok(Whole::Absent),
        Length::Failed => Ok(Whole::Failed),
        Length::NoMemory => Err(NoMemory),
    }
}
