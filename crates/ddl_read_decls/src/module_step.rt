#![tactic(auto, using(ddl_tree::proofs::Layers::layers))]

ghost use Rattle.std.specs.Prelude.{◌≡◌, [], ◌∷◌, ◌++◌, map, IfOk, OnOk};
ghost use Rattle.ddl_tree.specs.ViewModule.{decl_view};
ghost use Rattle.ddl_states.specs.FrameView.{decl_frame_view};
ghost use Rattle.ddl_states.specs.Gives.{Gives};
ghost use Rattle.ddl_states.specs.StackView.{forms};
ghost use Rattle.ddl_reader.specs.StepDecl as step;

use ddl_base::{NoMemory, Span};
use ddl_states::part::{joined, name_at};
use ddl_states::{BitsFocus, DeclFrame, Focus, Frame, HeadFocus, Refusal, Stack};
use ddl_token::{Tok, Word};
use ddl_tree::{Decl, Import, Module};
use std::alloc::Global;

/// A module with one more declaration.
#[tactic(auto, using(std::proofs::lemmas::List::map_push))]
fn with_decl(mut tree: Module, decl: Decl) -> Result<Module, NoMemory>
    ensures imports { IfOk result (λ all. all.imports.items ≡ tree.imports.items) }
    ensures decls { IfOk result (λ all. map decl_view all.decls.items ≡ map decl_view tree.decls.items ++ decl_view decl
        ∷ []) }
{
    tree.decls.push(decl)?;
    Ok(tree)
}

fn declare_in(stack: &mut Stack, frame: DeclFrame, decl: Decl, deep: u32) -> Result<(), NoMemory>
    ensures { OnOk result (forms stack.new ≡ step.with_decl (decl_view decl) deep
        (decl_frame_view frame ∷ forms stack.old)) }
{
    match frame {
        DeclFrame::Module { tree, deep: before } => {
            let frame = DeclFrame::Module {
                tree: with_decl(tree, decl)?,
                deep: before.max(deep),
            };
            stack.push(Frame::Decl(frame))
        }
        other => stack.push(Frame::Decl(other)),
    }
}

/// Puts a declaration into the module that is open.
#[tactic(auto, using(crate::proofs::NoModule::no_module))]
pub fn declare(stack: &mut Stack, decl: Decl, deep: u32) -> Result<(), NoMemory>
    ensures { OnOk result (forms stack.new ≡ step.with_decl (decl_view decl) deep (forms stack.old)) }
{
    match stack.pop() {
        Some(Frame::Decl(frame)) => declare_in(stack, frame, decl, deep),
        Some(other) => stack.push(other),
        None => Ok(()),
    }
}

fn import_in(stack: &mut Stack, frame: DeclFrame, import: Import) -> Result<(), NoMemory>
    ensures { OnOk result (forms stack.new ≡ step.with_import import (decl_frame_view frame ∷ forms stack.old)) }
{
    match frame {
        DeclFrame::Module { mut tree, deep } => {
            tree.imports.push(import)?;
            stack.push(Frame::Decl(DeclFrame::Module { tree, deep }))
        }
        other => stack.push(Frame::Decl(other)),
    }
}

/// Puts an import into the module that is open.
#[tactic(auto, using(crate::proofs::NoModule::no_module))]
fn add_import(stack: &mut Stack, import: Import) -> Result<(), NoMemory>
    ensures { OnOk result (forms stack.new ≡ step.with_import import (forms stack.old)) }
{
    match stack.pop() {
        Some(Frame::Decl(frame)) => import_in(stack, frame, import),
        Some(other) => stack.push(other),
        None => Ok(()),
    }
}

/// The first token of a declaration.
pub fn begin_decl(stack: &Stack, kind: &Tok, at: Span) -> Result<Focus, Refusal>
    ensures { Gives (step.begin_decl kind.now at (forms stack.now)) result stack.now }
{
    match kind {
        Tok::Word(Word::Def) => Ok(Focus::Head(HeadFocus::Name(at))),
        Tok::Word(Word::Bitdata) => Ok(Focus::Bits(BitsFocus::Name(at))),
        _ => Err(Refusal::Unexpected),
    }
}

/// The first token of an import or a declaration.
pub fn begin_import(stack: &Stack, kind: &Tok, at: Span) -> Result<Focus, Refusal>
    ensures { Gives (step.begin_import kind.now at (forms stack.now)) result stack.now }
{
    match kind {
        Tok::Word(Word::Import) => Ok(Focus::Head(HeadFocus::Import(at))),
        _ => begin_decl(stack, kind, at),
    }
}

/// The name of a module that is imported.
pub fn import_name(
    alloc: Global,
    stack: &mut Stack,
    kind: &Tok,
    at: Span,
    from: Span,
) -> Result<Focus, Refusal>
    ensures { Gives (step.import_name kind.now at from (forms stack.old)) result stack.new }
{
    match kind {
        Tok::Upper(name) => {
            let name = name_at(alloc, name, at)?;
            let span = joined(from, at);
            add_import(stack, Import { name, span })?;
            Ok(Focus::Import)
        }
        _ => Err(Refusal::Unexpected),
    }
}
