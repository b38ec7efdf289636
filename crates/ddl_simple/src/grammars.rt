ghost use Rattle.std.specs.Prelude.{◌≡◌, OnOk, length, take};
ghost use Rattle.ddl_tree.specs.View as tree;
ghost use Rattle.ddl_typed.specs.View.{item_view, view};
ghost use Rattle.ddl_simple.specs.Grammars as defined;
ghost use Rattle.ddl_simple.specs.Views.{Gives, IsAlone, bound, made_view, scope_view};

use crate::blocks::{block_type, item_type, may_stand};
use crate::form::{bare, match_of, primitive, pure_of};
use crate::scope::Scope;
use crate::stop::Stop;
use ddl_base::{Bytes, NoMemory, Span};
use ddl_tree::{Expr, Item, Name};
use ddl_typed::{TExpr, TForm, TItem};
use std::alloc::Global;

/// The typed tree of a grammar, where these names are in scope. Where there is one the scope is as before.
#[cycle(grammar)]
#[tactic(auto, using(ddl_tree::proofs::Layers::layers))]
pub(crate) fn grammar(alloc: Global, expr: &Expr, scope: &mut Scope) -> Result<TExpr, Stop>
    ensures typed { Gives view (defined.grammar (tree.view expr.now) (scope_view scope.old)) result }
    ensures kept { OnOk result (bound scope.new ≡ bound scope.old) }
{
    match expr {
        Expr::Upper(name) => {
            let typed = primitive(name)?;
            Ok(typed)
        }
        Expr::CallGrammar { name, args, span } => {
            let typed = call(alloc, name, args, *span)?;
            Ok(typed)
        }
        Expr::Paren {
            inner,
            typed: None,
            ..
        } => {
            let typed = grammar(alloc, inner, scope)?;
            Ok(typed)
        }
        Expr::Block { items, span } => {
            let typed = block(alloc, items, *span, scope)?;
            Ok(typed)
        }
        _ => Err(Stop::Outside),
    }
}

// A name with arguments.
#[tactic(auto, using(crate::proofs::Lists::arguments))]
fn call(alloc: Global, name: &Name, args: &[Expr], span: Span) -> Result<TExpr, Stop>
    ensures { Gives view (defined.call name.now (tree.exprs_view args.now) span) result }
{
    if args.len() != 1 {
        return Err(Stop::Outside);
    }
    let typed = match_of(alloc, name, &args[0], span)?;
    Ok(typed)
}

#[cycle(grammar)]
#[tactic(auto, using(ddl_typed::proofs::Layers::layers, crate::proofs::Names::names_in_order))]
fn block(alloc: Global, items: &[Item], span: Span, scope: &mut Scope) -> Result<TExpr, Stop>
    ensures typed { Gives view (defined.block_of span (tree.items_view items.now)
        (defined.items (tree.items_view items.now) (scope_view scope.old))) result }
    ensures kept { OnOk result (bound scope.new ≡ bound scope.old) }
{
    if !may_stand(alloc, items)? {
        return Err(Stop::Outside);
    }
    let names = scope.len();
    let items = typed_items(alloc, items, scope)?;
    scope.truncate(names);
    let of = block_type(alloc, &items, span)?;
    Ok(TExpr {
        form: TForm::Block(items),
        of,
        span,
    })
}

#[cycle(grammar)]
#[tactic(auto, using(crate::proofs::Items::item_steps))]
fn typed_items(alloc: Global, items: &[Item], scope: &mut Scope) -> Result<Vec<TItem>, Stop>
    ensures typed { Gives made_view (defined.items (tree.items_view items.now) (scope_view scope.old)) result }
    ensures below { OnOk result (take (length (bound scope.old)) (bound scope.new) ≡ bound scope.old) }
{
    let mut made = Vec::new(alloc);
    for item in items {
        let typed = typed_item(alloc, item, scope)?;
        bind(alloc, item, &typed, scope)?;
        made.push(typed)?;
    }
    Ok(made)
}

#[cycle(grammar)]
#[tactic(auto, using(ddl_tree::proofs::Layers::layers, ddl_typed::proofs::Layers::layers, crate::proofs::Names::names_in_order))]
fn typed_item(alloc: Global, item: &Item, scope: &mut Scope) -> Result<TItem, Stop>
    ensures typed { Gives item_view (defined.item (tree.item_view item.now) (scope_view scope.old)) result }
    ensures kept { OnOk result (bound scope.new ≡ bound scope.old) }
{
    match item {
        Item::Result { value, .. } => {
            let body = grammar(alloc, value, scope)?;
            Ok(TItem::Result(body))
        }
        Item::Let { value, .. } => {
            let name = scope.next()?;
            let body = grammar(alloc, value, scope)?;
            Ok(TItem::Let { name, body })
        }
        Item::Field { name, value, .. } => {
            let label = Bytes::of(alloc, name.text.get())?;
            let name = scope.next()?;
            let body = grammar(alloc, value, scope)?;
            Ok(TItem::Field { label, name, body })
        }
        Item::Plain(value) => match alone(alloc, value, scope)? {
            Some(body) => Ok(TItem::Plain(body)),
            None => {
                let body = grammar(alloc, value, scope)?;
                Ok(TItem::Plain(body))
            }
        },
    }
}

// `^` of a name; None where a plain item is no `^`.
#[tactic(auto, using(ddl_tree::proofs::Layers::layers, crate::proofs::Bare::alone))]
fn alone(alloc: Global, expr: &Expr, scope: &Scope) -> Result<Option<TExpr>, Stop>
    ensures { IsAlone (tree.view expr.now) (scope_view scope.now) result }
{
    match bare(expr) {
        Expr::Pure { value, span } => {
            let typed = pure_of(alloc, value, *span, scope)?;
            Ok(Some(typed))
        }
        _ => Ok(None),
    }
}

// What an item binds.
#[tactic(auto, using(ddl_tree::proofs::Layers::layers, crate::proofs::Names::names_in_order))]
fn bind(alloc: Global, item: &Item, typed: &TItem, scope: &mut Scope) -> Result<(), NoMemory>
    ensures bound { OnOk result (scope_view scope.new
        ≡ defined.scope_after (tree.item_view item.now) (item_view typed.now) (scope_view scope.old)) }
    ensures below { OnOk result (take (length (bound scope.old)) (bound scope.new) ≡ bound scope.old) }
{
    match item {
        Item::Result { .. } => Ok(()),
        Item::Let { name, .. } => {
            scope.bind(alloc, &name.text, item_type(alloc, typed)?)?;
            Ok(())
        }
        Item::Field { name, .. } => {
            scope.bind(alloc, &name.text, item_type(alloc, typed)?)?;
            Ok(())
        }
        Item::Plain(_) => Ok(()),
    }
}
