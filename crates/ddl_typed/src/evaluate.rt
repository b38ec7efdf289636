ghost use Rattle.std.specs.Prelude.{◌≡◌, IfOk, OnOk, length, take, true};
ghost use Rattle.ddl_typed.specs.Blocks.{bound, nothing_built};
ghost use Rattle.ddl_typed.specs.Evaluated.{Gives, IsTextOf, byte_at, end_at, matched, meant, meant_item, meant_items};
ghost use Rattle.ddl_typed.specs.Evaluated.{rc_view, scope_view, simple_value_of};
ghost use Rattle.ddl_typed.specs.Simple.{AreSimple, IsSimple, IsSimpleItem, IsSimpleValue, IsText, names_after};
ghost use Rattle.ddl_ops.specs.Valued.{counts, gives};
ghost use Rattle.ddl_typed.specs.View.{item_view, items_view, view};

use crate::answer::Failure;
use crate::built::Built;
use crate::shared::{Shared, share};
use crate::step::{Parsed, Stop};
use crate::{TExpr, TForm, TItem};
use ddl_base::{NoMemory, Span, Why};
use std::alloc::Global;
use std::rc::Rc;

/// The value of a form at a place of the input, where the names in scope have these values. Where it gives one the scope
/// is as before.
#[cycle(eval)]
#[tactic(auto, using(crate::proofs::Layers::layers, crate::proofs::Meant::meants))]
pub fn eval(
    alloc: Global,
    input: &[u8],
    expr: &TExpr,
    scope: &mut Vec<Rc<Shared>>,
    at: usize,
) -> Result<Parsed, Stop>
    requires { IsSimple (view expr.now) (length scope.old.items) }
    ensures gives { Gives input.now (meant input.now (view expr.now) (scope_view scope.old.items) at) result }
    ensures kept { OnOk result (scope.new.items ≡ scope.old.items) }
{
    match &expr.form {
        TForm::Pure(value) => {
            let value = simple_value(alloc, value, scope)?;
            Ok(Parsed { value, at })
        }
        TForm::UInt8 => {
            let parsed = one_byte(alloc, input, expr.span, at)?;
            Ok(parsed)
        }
        TForm::Match(text) => {
            let parsed = match_bytes(alloc, input, text_of(text), expr.span, at)?;
            Ok(parsed)
        }
        TForm::End => {
            let parsed = at_end(alloc, input, expr.span, at)?;
            Ok(parsed)
        }
        TForm::Block(items) => {
            let names = scope.len();
            let parsed = eval_items(alloc, input, items, scope, at)?;
            scope.truncate(names);
            Ok(parsed)
        }
        _ => unreachable!(),
    }
}

#[cycle(eval)]
#[tactic(auto, using(crate::proofs::Layers::layers, crate::proofs::Meant::meants, crate::proofs::Items::steps))]
fn eval_items(
    alloc: Global,
    input: &[u8],
    items: &[TItem],
    scope: &mut Vec<Rc<Shared>>,
    at: usize,
) -> Result<Parsed, Stop>
    requires { AreSimple (items_view items.now) (length scope.old.items) }
    ensures gives { Gives input.now (meant_items input.now (items_view items.now) (scope_view scope.old.items)
        nothing_built at) result }
    ensures below { OnOk result (take (length scope.old.items) scope.new.items ≡ scope.old.items) }
{
    let mut built = Built::new(alloc);
    let mut here = at;
    for item in items {
        let parsed = eval_item(alloc, input, item, scope, here)?;
        bind(item, &parsed.value, scope)?;
        built.add(alloc, item, &parsed.value)?;
        here = parsed.at;
    }
    let value = built.value(alloc)?;
    Ok(Parsed { value, at: here })
}

#[cycle(eval)]
#[tactic(auto, using(crate::proofs::Layers::layers, crate::proofs::Meant::meants))]
fn eval_item(
    alloc: Global,
    input: &[u8],
    item: &TItem,
    scope: &mut Vec<Rc<Shared>>,
    at: usize,
) -> Result<Parsed, Stop>
    requires { IsSimpleItem (item_view item.now) (length scope.old.items) }
    ensures gives { Gives input.now (meant_item input.now (item_view item.now) (scope_view scope.old.items) at) result }
    ensures kept { OnOk result (scope.new.items ≡ scope.old.items) }
{
    match item {
        TItem::Plain(expr) => {
            let parsed = eval(alloc, input, expr, scope, at)?;
            Ok(parsed)
        }
        TItem::Let { body, .. } => {
            let parsed = eval(alloc, input, body, scope, at)?;
            Ok(parsed)
        }
        TItem::Field { body, .. } => {
            let parsed = eval(alloc, input, body, scope, at)?;
            Ok(parsed)
        }
        TItem::Result(expr) => {
            let parsed = eval(alloc, input, expr, scope, at)?;
            Ok(parsed)
        }
    }
}

// The name that an item binds, which is the next one.
#[tactic(auto, using(crate::proofs::Layers::layers, crate::proofs::Items::scopes))]
fn bind(item: &TItem, value: &Rc<Shared>, scope: &mut Vec<Rc<Shared>>) -> Result<(), NoMemory>
    requires { IsSimpleItem (item_view item.now) (length scope.old.items) }
    ensures bound { OnOk result (scope_view scope.new.items
        ≡ bound (item_view item.now) (rc_view value.now) (scope_view scope.old.items)) }
    ensures names { OnOk result (length scope.new.items ≡ names_after (item_view item.now) (length scope.old.items)) }
    ensures below { OnOk result (take (length scope.old.items) scope.new.items ≡ scope.old.items) }
{
    match item {
        TItem::Plain(_) => Ok(()),
        TItem::Let { .. } => {
            scope.push(value.clone()?)?;
            Ok(())
        }
        TItem::Field { .. } => {
            scope.push(value.clone()?)?;
            Ok(())
        }
        TItem::Result(_) => Ok(()),
    }
}

#[tactic(auto, using(crate::proofs::Layers::layers, crate::proofs::SharedLayers::shared_layers, crate::proofs::Items::scopes))]
fn simple_value(alloc: Global, expr: &TExpr, scope: &[Rc<Shared>]) -> Result<Rc<Shared>, NoMemory>
    requires { IsSimpleValue (view expr.now) (length scope.now) }
    ensures { IfOk result (λ value. simple_value_of (view expr.now) (scope_view scope.now)
        ≡ counts (gives (rc_view value))) }
{
    match &expr.form {
        TForm::Text(bytes) => Ok(share(alloc, Shared::Bytes(bytes.get().to_vec(alloc)?))?),
        TForm::Local(name) => Ok(scope[*name as usize].clone()?),
        _ => unreachable!(),
    }
}

// The bytes of a text.
#[tactic(auto, using(crate::proofs::Layers::layers))]
fn text_of(expr: &TExpr) -> &[u8]
    requires { IsText (view expr.now) }
    ensures { IsTextOf result.now (view expr.now) }
{
    match &expr.form {
        TForm::Text(bytes) => bytes.get(),
        _ => unreachable!(),
    }
}

#[tactic(auto, using(crate::proofs::SharedLayers::shared_layers, crate::proofs::Meant::meants))]
fn one_byte(alloc: Global, input: &[u8], span: Span, at: usize) -> Result<Parsed, Stop>
    ensures { Gives input.now (byte_at input.now span at) result }
{
    if at >= input.len() {
        return Err(missed(Why::Byte, at, span));
    }
    let value = share(alloc, Shared::Byte(input[at]))?;
    Ok(Parsed { value, at: at + 1 })
}

#[tactic(auto, using(crate::proofs::SharedLayers::shared_layers, crate::proofs::Meant::meants))]
fn at_end(alloc: Global, input: &[u8], span: Span, at: usize) -> Result<Parsed, Stop>
    ensures { Gives input.now (end_at input.now span at) result }
{
    if at < input.len() {
        return Err(missed(Why::End, at, span));
    }
    let value = share(alloc, Shared::Unit)?;
    Ok(Parsed { value, at })
}

#[tactic(auto, using(crate::proofs::SharedLayers::shared_layers, crate::proofs::Matching::matching))]
fn match_bytes(
    alloc: Global,
    input: &[u8],
    bytes: &[u8],
    span: Span,
    at: usize,
) -> Result<Parsed, Stop>
    ensures { Gives input.now (matched input.now bytes.now bytes.now span at) result }
{
    let mut here = at;
    for byte in bytes {
        if here >= input.len() || input[here] != *byte {
            return Err(missed(Why::Match, here, span));
        }
        here += 1;
    }
    let value = share(alloc, Shared::Bytes(bytes.to_vec(alloc)?))?;
    Ok(Parsed { value, at: here })
}

fn missed(why: Why, at: usize, span: Span) -> Stop
    ensures { result ≡ Stop.Failed (record { why = why; in_input = true; at = at; span = span }) }
{
    Stop::Failed(Failure {
        why,
        in_input: true,
        at: at as u64,
        span,
    })
}
