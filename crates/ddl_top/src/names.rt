ghost use Rattle.std.specs.Prelude.{◌≡◌, ◌∷◌, [], map, string_bytes, option_map, IfOk};
ghost use Rattle.ddl_top.specs.Reading.{command_view};
ghost use Rattle.ddl_top.specs.Words.{command_of, file_of};

use ddl_base::NoMemory;
use std::alloc::Global;

/// What the words of a command line ask for.
#[derive(Clone, Copy)]
pub(crate) enum Words<'a> {
    /// A run of a module on an input.
    Run { root: &'a str, input: &'a str },
    /// A check of a module.
    Check { root: &'a str },
    /// A module, printed.
    Show { root: &'a str },
}

/// The words of a command line, where they are `run MODULE INPUT`, `check MODULE` or `show MODULE`.
pub(crate) fn command_of(words: &[String]) -> Option<Words<'_>>
    ensures { option_map command_view result ≡ command_of (map string_bytes words.now) }
{
    if words.len() == 3 && words[0].as_str() == "run" {
        Some(Words::Run {
            root: words[1].as_str(),
            input: words[2].as_str(),
        })
    } else if words.len() == 2 {
        command_on(words[0].as_str(), words[1].as_str())
    } else {
        None
    }
}

/// The words of a command with a module alone.
fn command_on<'a>(word: &'a str, root: &'a str) -> Option<Words<'a>>
    ensures { option_map command_view result ≡ command_of (word.now ∷ root.now ∷ []) }
{
    if word == "check" {
        Some(Words::Check { root })
    } else if word == "show" {
        Some(Words::Show { root })
    } else {
        None
    }
}

/// The file of a module.
pub(crate) fn module_file(alloc: Global, root: &str) -> Result<String, NoMemory>
    ensures { IfOk result (λ name. string_bytes name ≡ file_of root.now) }
{
    let mut name = String::from_str(alloc, root)?;
    name.push_str(".ddl")?;
    Ok(name)
}
