ghost use Rattle.std.specs.Prelude.{◌≡◌, map, string_bytes, IfOk};
ghost use Rattle.ddl_outside.specs.Files.{IsToldAsHeld, Later};
ghost use Rattle.ddl_top.specs.Complete.{IsOwnAnswer, NothingFails};
ghost use Rattle.ddl_top.specs.Run.{IsRun, IsWordsAnswer, TouchesInOrder};

use crate::answer::{Answer, closing_answer};
use crate::checking::check_answer;
use crate::names::{Words, command_of};
use crate::running::run_answer;
use crate::showing::show_answer;
use crate::status::Status;
use ddl_base::NoMemory;
use ddl_outside::{Files, Sink, Written, write_lines};
use ddl_report::Closing;
use std::alloc::Global;

/// The answer to the words of a command line.
fn answer_to<F: Files>(alloc: Global, words: &[String], files: &mut F) -> Result<Answer, NoMemory>
    ensures later { Later (F.state files.old) (F.state files.new) }
    ensures order { TouchesInOrder (map string_bytes words.now)
        (F.state files.old) (F.state files.new) }
    ensures answer { IfOk result (λ a. IsWordsAnswer (map string_bytes words.now)
        (F.state files.old) (F.state files.new) a.status a.lines.items) }
{
    match command_of(words) {
        Some(Words::Run { root, input }) => run_answer(alloc, files, root, input),
        Some(Words::Check { root }) => check_answer(alloc, files, root),
        Some(Words::Show { root }) => show_answer(alloc, files, root),
        None => closing_answer(alloc, Status::Words, &Closing::Words),
    }
}

/// Does what the words of the command line say, which are its arguments without the program's
/// name: reads files, writes lines, and says how that ended.
///
/// `run MODULE INPUT` runs the specification that the file MODULE.ddl holds, with the modules that it imports, on the file
/// INPUT, and writes a line for each parse and one for the end. `check MODULE` says how many declarations such a
/// specification has. `show MODULE` writes the one module as it was read, a line for each import and declaration.
pub fn run<F: Files, S: Sink>(
    alloc: Global,
    words: &Vec<String>,
    files: &mut F,
    out: &mut S,
) -> Status
    // What is answered, why, and exactly what is written.
    ensures answer { IsRun (map string_bytes words.now.items)
        (F.state files.old) (F.state files.new) (S.state out.old) (S.state out.new) result }

    // Faulty words touch no file, and nothing but files of modules is touched before the specification is accepted.
    ensures order { TouchesInOrder (map string_bytes words.now.items)
        (F.state files.old) (F.state files.new) }

    // Where nothing fails outside and each file is there whose turn comes, the answer is the words' own, or want of memory.
    ensures complete { NothingFails (map string_bytes words.now.items)
        (F.state files.old) (F.state files.new) (S.state out.old) (S.state out.new)
        → IsOwnAnswer (map string_bytes words.now.items) (F.state files.new) result }

    // What is held and what was told stays, and no count falls. Files that may not fail did not.
    ensures files { Later (F.state files.old) (F.state files.new) }

    // Each length that was told is that of the file which is held.
    ensures lengths { IsToldAsHeld (F.state files.new) }
{
    match answer_to(alloc, words, files) {
        Ok(answer) => match write_lines(out, &answer.lines) {
            Written::Whole => answer.status,
            Written::Failed => Status::WriteFault,
        },
        Err(NoMemory) => Status::NoMemory,
    }
}
