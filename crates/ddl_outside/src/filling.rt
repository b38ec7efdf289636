ghost use Rattle.std.specs.Prelude.{◌≡◌, ◌+◌, ◌^◌, ◌<◌, ◌≤◌, length};
ghost use Rattle.ddl_outside.specs.Files.{IsTold, told_length, Later, TouchesOnly};
ghost use Rattle.ddl_outside.specs.Filling.{IsFill, ReadsBelow};

use crate::{Files, Piece};

/// How a buffer was filled.
#[derive(Clone, Copy, PartialEq, Eq)]
pub enum Filled {
    /// Each byte is the file's.
    Whole,
    /// The file is not there.
    Absent,
    /// A read failed.
    Failed,
}

/// Fills a buffer with a file's bytes at an offset, by as many reads as it takes. Where it is not
/// filled the buffer may hold anything.
pub fn fill<F: Files>(files: &mut F, name: &str, at: u64, into: &mut [u8]) -> Filled
    requires told { IsTold (F.state files.old) name.now }
    requires within { at + length into.old ≤ told_length (F.state files.old) name.now }
    requires fits { at + length into.old < 2 ^ 64 }
    ensures later { Later (F.state files.old) (F.state files.new) }
    ensures only { TouchesOnly name.now (F.state files.old) (F.state files.new) }
    ensures told { (F.state files.new).told ≡ (F.state files.old).told }
    ensures reach { ReadsBelow name.now (at + length into.old)
        (F.state files.old) (F.state files.new) }
    ensures answer { IsFill (F.state files.old) (F.state files.new) name.now at into.new result }
{
    let mut done = 0usize;
    while done < into.len() {
        match files.read(name, at + done as u64, &mut into[done..]) {
            Piece::Got(count) => done += count,
            Piece::End => unreachable!(),
            Piece::Absent => return Filled::Absent,
            Piece::Failed => return Filled::Failed,
        }
    }
    Filled::Whole
}
