ghost use Rattle.std.specs.Prelude.{◌≡◌, ◌++◌, [], ◌∷◌, map, IfOk, OnOk};
ghost use Rattle.ddl_tree.specs.PrintModule.{print_decl, print_imports};
ghost use Rattle.ddl_tree.specs.ViewModule.{decl_view, module_view};
ghost use Rattle.ddl_show.specs.Show.{decl_lines, import_lines, show_text};
ghost use Rattle.ddl_show.specs.Writes.{with_line};

use crate::decls::put_decl;
use crate::tokens::{begin_line, end_line, put_name};
use ddl_base::NoMemory;
use ddl_token::Word;
use ddl_tree::{Decl, Import, Module};
use std::alloc::Global;

/// Writes the line of an import.
fn put_import_line(text: &mut Vec<u8>, import: &Import) -> Result<(), NoMemory>
    ensures { OnOk result (text.new.items ≡ with_line text.old.items (print_imports (import.now ∷ []) [])) }
{
    begin_line(text, Word::Import)?;
    put_name(text, import.name.text.get())?;
    end_line(text)
}

/// Writes the line of a declaration.
fn put_decl_line(text: &mut Vec<u8>, decl: &Decl) -> Result<(), NoMemory>
    ensures { OnOk result (text.new.items ≡ with_line text.old.items (print_decl (decl_view decl.now) [])) }
{
    put_decl(text, decl)?;
    end_line(text)
}

/// Writes a line for each import.
#[tactic(auto, using(crate::proofs::NextLine::lines))]
fn put_imports(text: &mut Vec<u8>, imports: &[Import]) -> Result<(), NoMemory>
    ensures { OnOk result (text.new.items ≡ text.old.items ++ import_lines imports.now) }
{
    for import in imports {
        put_import_line(text, import)?;
    }
    Ok(())
}

/// Writes a line for each declaration.
#[tactic(auto, using(crate::proofs::NextLine::lines))]
fn put_decls(text: &mut Vec<u8>, decls: &[Decl]) -> Result<(), NoMemory>
    ensures { OnOk result (text.new.items ≡ text.old.items ++ decl_lines (map decl_view decls.now)) }
{
    for decl in decls {
        put_decl_line(text, decl)?;
    }
    Ok(())
}

/// The text of a module: a line for each import and each declaration, in order, with its tokens parted by one space.
/// A number keeps its base and its digits, with small letters.
pub fn show(alloc: Global, tree: &Module) -> Result<Vec<u8>, NoMemory>
    ensures { IfOk result (λ text. text.items ≡ show_text (module_view tree.now)) }
{
    let mut text = Vec::new(alloc);
    put_imports(&mut text, &tree.imports)?;
    put_decls(&mut text, &tree.decls)?;
    Ok(text)
}
