ghost use Rattle.ddl_outside.specs.Writing.{IsWrite, IsWriteLines};

use crate::{Sink, Took};
use ddl_base::Bytes;

/// How bytes were written.
#[derive(Clone, Copy, PartialEq, Eq)]
pub enum Written {
    /// All of them.
    Whole,
    /// A write failed, after a first part of them.
    Failed,
}

/// Writes a piece: offers it whole, and then what is left of it, until nothing is.
pub fn write_whole<S: Sink>(out: &mut S, piece: &[u8]) -> Written
    ensures { IsWrite (S.state out.old) (S.state out.new) piece.now result }
{
    let mut done = 0usize;
    while done < piece.len() {
        match out.write(&piece[done..]) {
            Took::Took(count) => done += count,
            Took::Failed => return Written::Failed,
        }
    }
    Written::Whole
}

/// Writes lines, each by a write of its own and by further ones for its rest.
pub fn write_lines<S: Sink>(out: &mut S, lines: &[Bytes]) -> Written
    ensures { IsWriteLines (S.state out.old) (S.state out.new) lines.now result }
{
    for line in lines {
        match write_whole(out, line.get()) {
            Written::Whole => {}
            Written::Failed => return Written::Failed,
        }
    }
    Written::Whole
}
