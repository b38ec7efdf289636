//! The answer to `run`.

ghost use Rattle.std.specs.Prelude.{◌≡◌, IfOk, IfSome, List, option_map, ℕ};
ghost use Rattle.ddl_front.specs.Front.{AreBoundModules};
ghost use Rattle.ddl_outside.specs.Files.{Later, TouchesOnly};
ghost use Rattle.ddl_simple.specs.Modules.{declared_view};
ghost use Rattle.ddl_typed.specs.Simple.{IsSimple};
ghost use Rattle.ddl_typed.specs.View.{view};
ghost use Rattle.ddl_top.specs.Reading.{IsInputAnswer, IsUnitsAnswer, TouchesInput};
ghost use Rattle.ddl_top.specs.Run.{IsAccepted, IsRunAnswer, RunsInOrder, specified_in};

use crate::answer::{Answer, closing_answer, denoted_answer, missing_answer};
use crate::refusal::refusal_answer;
use crate::status::Status;
use ddl_base::NoMemory;
use ddl_front::bound_modules;
use ddl_modules::module_name;
use ddl_outside::{Files, Whole, read_whole};
use ddl_report::Closing;
use ddl_simple::specified;
use ddl_tree::SourceUnit;
use ddl_typed::TDecl;
use std::alloc::Global;

/// An input of more bytes is too large: 2^30.
const MOST_INPUT: u64 = 1_073_741_824;

/// What modules specify, where they are of a form that is run so far.
fn specification(alloc: Global, units: &[SourceUnit]) -> Result<Option<TDecl>, NoMemory>
    ensures value { IfOk result (λ found. option_map declared_view found ≡ specified_in units.now) }
    ensures simple { IfOk result (λ found. IfSome found (λ d. IsSimple (view d.body) 0)) }
{
    if units.len() == 2 {
        specified(alloc, &units[1].tree)
    } else {
        Ok(None)
    }
}

/// The answer of an accepted specification on an input file.
fn input_answer<F: Files>(
    alloc: Global,
    files: &mut F,
    root: &str,
    input: &str,
    spec: &TDecl,
) -> Result<Answer, NoMemory>
    requires simple { IsSimple (view spec.now.body) 0 }
    ensures later { Later (F.state files.old) (F.state files.new) }
    ensures only { TouchesOnly input.now (F.state files.old) (F.state files.new) }
    ensures answer { IfOk result (λ a. (names : List (List ℕ))
        → IsAccepted (F.state files.old) root.now names (declared_view spec.now)
        → IsInputAnswer root.now input.now (F.state files.old) (F.state files.new) a.status a.lines.items) }
{
    match read_whole(alloc, files, input, MOST_INPUT)? {
        Whole::Bytes(content) => {
            denoted_answer(alloc, module_name(root.as_bytes()), spec, &content)
        }
        Whole::Longer(_) => closing_answer(alloc, Status::TooLarge, &Closing::Large),
        Whole::Absent => missing_answer(alloc, input.as_bytes()),
        Whole::Failed => closing_answer(alloc, Status::ReadFault, &Closing::Read),
    }
}

/// The answer of an accepted specification, which is dropped then.
fn spec_answer<F: Files>(
    alloc: Global,
    files: &mut F,
    root: &str,
    input: &str,
    spec: TDecl,
) -> Result<Answer, NoMemory>
    requires simple { IsSimple (view spec.body) 0 }
    ensures later { Later (F.state files.old) (F.state files.new) }
    ensures only { TouchesOnly input.now (F.state files.old) (F.state files.new) }
    ensures answer { IfOk result (λ a. (names : List (List ℕ))
        → IsAccepted (F.state files.old) root.now names (declared_view spec)
        → IsInputAnswer root.now input.now (F.state files.old) (F.state files.new) a.status a.lines.items) }
{
    input_answer(alloc, files, root, input, &spec)
}

/// The answer of modules whose names are bound, on an input file.
fn units_answer<F: Files>(
    alloc: Global,
    files: &mut F,
    root: &str,
    input: &str,
    units: &[SourceUnit],
) -> Result<Answer, NoMemory>
    ensures later { Later (F.state files.old) (F.state files.new) }
    ensures order { TouchesInput units.now input.now (F.state files.old) (F.state files.new) }
    ensures answer { IfOk result (λ a. (names : List (List ℕ))
        → AreBoundModules (F.state files.old) root.now names units.now
        → IsUnitsAnswer root.now input.now (F.state files.old) (F.state files.new) a.status a.lines.items) }
{
    match specification(alloc, units)? {
        Some(spec) => spec_answer(alloc, files, root, input, spec),
        None => closing_answer(alloc, Status::Refused, &Closing::Unbuilt),
    }
}

/// The answer to `run MODULE INPUT`.
pub(crate) fn run_answer<F: Files>(
    alloc: Global,
    files: &mut F,
    root: &str,
    input: &str,
) -> Result<Answer, NoMemory>
    ensures later { Later (F.state files.old) (F.state files.new) }
    ensures order { RunsInOrder root.now input.now (F.state files.old) (F.state files.new) }
    ensures answer { IfOk result (λ a. IsRunAnswer root.now input.now
        (F.state files.old) (F.state files.new) a.status a.lines.items) }
{
    match bound_modules(alloc, files, root) {
        Ok(units) => units_answer(alloc, files, root, input, &units),
        Err(refusal) => refusal_answer(alloc, refusal),
    }
}
