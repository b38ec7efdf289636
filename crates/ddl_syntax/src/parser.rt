ghost use Rattle.std.specs.Prelude.{◌≡◌, ◌≤◌, IfOk};
ghost use Rattle.ddl_reader.specs.Step.{begun as begun_state};
ghost use Rattle.ddl_syntax.specs.Answer.{Answers, place_of};
ghost use Rattle.ddl_states.specs.FocusView.{focus_view};
ghost use Rattle.ddl_states.specs.Gives.{state_of};
ghost use Rattle.ddl_states.specs.Heights.{coming, height};
ghost use Rattle.ddl_syntax.specs.Parses.{Advances, Completes, Parses, Within};
ghost use Rattle.ddl_states.specs.StackView.{forms};

use crate::error::SyntaxError;
use crate::finish::finish;
use crate::step::step;
use ddl_base::{NoMemory, Span};
use ddl_depths::limit::is_too_deep;
use ddl_states::{DeclFrame, Focus, Frame, Refusal, Stack};
use ddl_token::Token;
use ddl_tree::Module;
use std::alloc::Global;

/// A stack with an empty module.
fn begun(alloc: Global) -> Result<Stack, NoMemory>
    ensures { IfOk result (λ stack. forms stack ≡ begun_state.0) }
{
    let mut stack = Stack::new(alloc);
    stack.push(Frame::Decl(DeclFrame::Module {
        tree: Module {
            imports: Vec::new(alloc),
            decls: Vec::new(alloc),
        },
        deep: 0,
    }))?;
    Ok(stack)
}

/// Where a token of this module stands.
fn place(module: u32, token: &Token) -> Span
    ensures { result ≡ place_of «module» token.now }
{
    Span {
        module,
        from: token.from,
        to: token.to,
    }
}

/// What comes after token `k`.
fn advance(
    alloc: Global,
    module: u32,
    k: usize,
    token: &Token,
    stack: &mut Stack,
    focus: Focus,
) -> Result<Focus, SyntaxError>
    requires { height (forms stack.old) (coming (focus_view focus)) ≤ 400 }
    ensures { Advances «module» k token.now (state_of stack.old focus) result stack.new }
{
    match step(alloc, stack, &token.kind, place(module, token), focus) {
        Ok(next) => within_limit(stack, next, k),
        Err(Refusal::Unexpected) => Err(SyntaxError::Unexpected(k)),
        Err(Refusal::NoMemory) => Err(SyntaxError::NoMemory),
    }
}

/// The same focus, unless each module that begins so nests too many forms.
fn within_limit(stack: &Stack, focus: Focus, k: usize) -> Result<Focus, SyntaxError>
    ensures { Within k (state_of stack.now focus) result stack.now }
{
    if is_too_deep(stack, &focus) {
        Err(SyntaxError::TooNested(k))
    } else {
        Ok(focus)
    }
}

/// The module that ends after so many tokens.
fn complete(alloc: Global, tokens: usize, stack: Stack, focus: Focus) -> Result<Module, SyntaxError>
    requires { height (forms stack) (coming (focus_view focus)) ≤ 400 }
    ensures { Completes tokens (state_of stack focus) result }
{
    match finish(alloc, stack, focus) {
        Ok(tree) => Ok(tree),
        Err(Refusal::Unexpected) => Err(SyntaxError::Unexpected(tokens)),
        Err(Refusal::NoMemory) => Err(SyntaxError::NoMemory),
    }
}

/// The answer, in words of the machine.
fn read(alloc: Global, module: u32, tokens: &[Token]) -> Result<Module, SyntaxError>
    ensures { Parses «module» tokens.now result }
{
    let mut stack = begun(alloc)?;
    let mut focus = Focus::Import;
    for (k, token) in tokens.iter().enumerate() {
        focus = advance(alloc, module, k, token, &mut stack, focus)?;
    }
    complete(alloc, tokens.len(), stack, focus)
}

/// The module of the grammar whose tokens these are, as a layout gives them. `module` is its place
/// in the list of loaded modules: it goes into each span.
///
/// `Unexpected(k)` says that the first `k` tokens begin a module within 200 forms, one in another,
/// and that no module goes on with the next; with `k` the number of tokens, that they begin one and
/// are none. `TooNested(k)` says that with token `k` each module that goes on so nests more than 200.
pub fn parse(alloc: Global, module: u32, tokens: &[Token]) -> Result<Module, SyntaxError>
    ensures { Answers 200 «module» tokens.now result }
{
    read(alloc, module, tokens)
}
