//! The answer to `show`.

ghost use Rattle.std.specs.Prelude.{◌≡◌, ◌∷◌, [], IfOk};
ghost use Rattle.ddl_outside.specs.Files.{Later, TouchesOnly};
ghost use Rattle.ddl_show.specs.Show.{show_text};
ghost use Rattle.ddl_tree.specs.ViewModule.{module_view};
ghost use Rattle.ddl_top.specs.Run.{IsShowAnswer};
ghost use Rattle.ddl_top.specs.Words.{file_of};

use crate::answer::{Answer, closing_answer, missing_answer};
use crate::loading::{Loaded, load};
use crate::names::module_file;
use crate::refusal::told_answer;
use crate::status::Status;
use ddl_base::{Bytes, NoMemory};
use ddl_modules::module_name;
use ddl_outside::Files;
use ddl_report::Closing;
use ddl_show::show;
use ddl_tree::Module;
use std::alloc::Global;

/// The text of a module's tree.
fn text_answer(alloc: Global, tree: &Module) -> Result<Answer, NoMemory>
    ensures { IfOk result (λ a. (a.status ≡ Status.Parses) × (a.lines.items ≡ show_text (module_view tree.now) ∷ [])) }
{
    let mut lines = Vec::new(alloc);
    lines.push(Bytes::from(show(alloc, tree)?))?;
    Ok(Answer {
        status: Status::Parses,
        lines,
    })
}

/// The answer to `show MODULE`.
pub(crate) fn show_answer<F: Files>(
    alloc: Global,
    files: &mut F,
    root: &str,
) -> Result<Answer, NoMemory>
    ensures later { Later (F.state files.old) (F.state files.new) }
    ensures order { TouchesOnly (file_of root.now) (F.state files.old) (F.state files.new) }
    ensures answer { IfOk result (λ a. IsShowAnswer root.now
        (F.state files.old) (F.state files.new) a.status a.lines.items) }
{
    let file = module_file(alloc, root)?;
    match load(alloc, files, file.as_str(), module_name(root.as_bytes()))? {
        Loaded::Tree(tree) => text_answer(alloc, &tree),
        Loaded::Refused(told) => told_answer(alloc, &told),
        Loaded::Absent => missing_answer(alloc, file.as_bytes()),
        Loaded::Failed => closing_answer(alloc, Status::ReadFault, &Closing::Read),
    }
}
