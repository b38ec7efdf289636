//! The answer to `check`.

ghost use Rattle.std.specs.Prelude.{◌≡◌, ◌≤◌, length, IfOk};
ghost use Rattle.ddl_front.specs.Front.{TouchesModules};
ghost use Rattle.ddl_outside.specs.Files.{Later};
ghost use Rattle.ddl_top.specs.Run.{IsCheckAnswer, all_decls, declarations};
ghost use Rattle.ddl_top.specs.Answered.{closing_only};

use crate::answer::{Answer, closing_answer};
use crate::refusal::refusal_answer;
use crate::status::Status;
use ddl_base::NoMemory;
use ddl_front::bound_modules;
use ddl_outside::Files;
use ddl_report::Closing;
use ddl_tree::SourceUnit;
use std::alloc::Global;

/// How many declarations these modules have.
fn counted(units: &[SourceUnit]) -> u64
    requires { length (all_decls units.now) ≤ 65535 }
    ensures { result ≡ length (all_decls units.now) }
{
    let mut count = 0;
    for unit in units {
        count += unit.tree.decls.len() as u64;
    }
    count
}

/// How many declarations modules have, those of the prelude not counted.
fn declarations(units: &[SourceUnit]) -> u64
    requires { declarations units.now ≤ 65535 }
    ensures { result ≡ declarations units.now }
{
    match units.split_first() {
        Some((_prelude, others)) => counted(others),
        None => 0,
    }
}

/// The answer of modules that are accepted.
fn count_answer(alloc: Global, units: &[SourceUnit]) -> Result<Answer, NoMemory>
    requires { declarations units.now ≤ 65535 }
    ensures { IfOk result (λ a. (a.status ≡ Status.Parses)
        × (a.lines.items ≡ closing_only (Closing.Declarations (declarations units.now)))) }
{
    let number = declarations(units);
    closing_answer(alloc, Status::Parses, &Closing::Declarations { number })
}

/// The answer to `check MODULE`.
pub(crate) fn check_answer<F: Files>(
    alloc: Global,
    files: &mut F,
    root: &str,
) -> Result<Answer, NoMemory>
    ensures later { Later (F.state files.old) (F.state files.new) }
    ensures order { TouchesModules (F.state files.old) (F.state files.new) root.now }
    ensures answer { IfOk result (λ a. IsCheckAnswer root.now
        (F.state files.old) (F.state files.new) a.status a.lines.items) }
{
    match bound_modules(alloc, files, root) {
        Ok(units) => count_answer(alloc, &units),
        Err(refusal) => refusal_answer(alloc, refusal),
    }
}
