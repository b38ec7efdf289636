ghost use Rattle.std.specs.Prelude.{◌≡◌, IfOk, IfSome, nat_le, option_map};
ghost use Rattle.ddl_tree.specs.View as tree;
ghost use Rattle.ddl_tree.specs.ViewModule.{decl_view, module_view};
ghost use Rattle.ddl_typed.specs.Simple.{IsSimple};
ghost use Rattle.ddl_typed.specs.View.{view};
ghost use Rattle.ddl_simple.specs.Blocks.{blocks};
ghost use Rattle.ddl_simple.specs.Modules.{declared_view, main_of, main_with, specified};
ghost use Rattle.ddl_simple.specs.Views.{Gives};

use crate::counting::left_after;
use crate::grammars::grammar;
use crate::scope::Scope;
use crate::stop::Stop;
use ddl_base::{Bytes, NoMemory};
use ddl_tree::{Decl, Expr, Module, Name};
use ddl_typed::TDecl;
use std::alloc::Global;

/// How many blocks a module may have.
const MAX_BLOCKS: usize = 100;

/// The declaration that a module specifies, with its typed tree; None where the module is not of the form.
pub fn specified(alloc: Global, tree: &Module) -> Result<Option<TDecl>, NoMemory>
    ensures value { IfOk result (λ found. option_map declared_view found ≡ specified (module_view tree.now)) }
    ensures simple { IfOk result (λ found. IfSome found (λ d. IsSimple (view d.body) 0)) }
{
    match specified_by(alloc, tree) {
        Ok(found) => Ok(Some(found)),
        Err(Stop::Outside) => Ok(None),
        Err(Stop::NoMemory) => Err(NoMemory),
    }
}

#[tactic(auto, using(crate::proofs::Lists::declarations))]
fn specified_by(alloc: Global, tree: &Module) -> Result<TDecl, Stop>
    ensures { Gives declared_view (specified (module_view tree.now)) result }
{
    if !tree.imports.is_empty() || tree.decls.len() != 1 {
        return Err(Stop::Outside);
    }
    let found = main_of(alloc, &tree.decls[0])?;
    Ok(found)
}

// `def Main = g`.
#[tactic(auto, using(crate::proofs::Lists::declarations))]
fn main_of(alloc: Global, decl: &Decl) -> Result<TDecl, Stop>
    ensures { Gives declared_view (main_of (decl_view decl.now)) result }
{
    match decl {
        Decl::Grammar {
            name,
            params,
            result,
            body,
            ..
        } => {
            if !params.is_empty() || result.is_some() {
                return Err(Stop::Outside);
            }
            let found = main_with(alloc, name, body)?;
            Ok(found)
        }
        _ => Err(Stop::Outside),
    }
}

fn main_with(alloc: Global, name: &Name, body: &Expr) -> Result<TDecl, Stop>
    ensures { Gives declared_view (main_with name.now (tree.view body.now)) result }
{
    if name.text.get() != b"Main".as_slice() || !has_few_blocks(body) {
        return Err(Stop::Outside);
    }
    let mut scope = Scope::new(alloc);
    let body = grammar(alloc, body, &mut scope)?;
    Ok(TDecl {
        name: Bytes::of(alloc, name.text.get())?,
        span: name.span,
        body,
    })
}

#[tactic(auto, using(crate::proofs::Steps::few))]
fn has_few_blocks(body: &Expr) -> bool
    ensures { result ≡ nat_le (blocks (tree.view body.now)) 100 }
{
    left_after(body, MAX_BLOCKS).is_some()
}
