ghost use Rattle.std.specs.Prelude.{◌≡◌, ◌||◌, IfOk, List, OnOk, bytes_eq, if◌then◌else◌, not, option_copied};
ghost use Rattle.std.specs.Prelude.{option_map, ℕ};
ghost use Rattle.ddl_types.specs.TyView.{ty_view};
ghost use Rattle.ddl_tree.specs.View as tree;
ghost use Rattle.ddl_typed.specs.View.{item_view, items_view};
ghost use Rattle.ddl_simple.specs.Form.{record_type};
ghost use Rattle.ddl_simple.specs.Blocks.{all_different, block_type, dollar_type, field_name, field_names, given_type};
ghost use Rattle.ddl_simple.specs.Blocks.{has_field, is_field, is_result, item_type, last_type, may_stand, result_type};
ghost use Rattle.ddl_simple.specs.Blocks.{results};
ghost use Rattle.ddl_simple.specs.Views.{has_text};

use crate::types::{record_type, unit_type};
use ddl_base::{NoMemory, Span};
use ddl_tree::Item;
use ddl_typed::TItem;
use ddl_types::Ty;
use std::alloc::Global;
use std::collections::HashSet;

/// Whether these may be the items of one block: at most one `$$`, and no two fields of one name.
pub(crate) fn may_stand(alloc: Global, items: &[Item]) -> Result<bool, NoMemory>
    ensures { IfOk result (λ b. b ≡ may_stand (tree.items_view items.now)) }
{
    if results(items) > 1 {
        return Ok(false);
    }
    let different = has_different_fields(alloc, items)?;
    Ok(different)
}

// How many `$$` there are.
#[tactic(auto, using(crate::proofs::Steps::counting))]
fn results(items: &[Item]) -> usize
    ensures { result ≡ results (tree.items_view items.now) }
{
    let mut count = 0;
    for item in items {
        if is_result(item) {
            count += 1;
        }
    }
    count
}

#[tactic(auto, using(ddl_tree::proofs::Layers::layers))]
fn is_result(item: &Item) -> bool
    ensures { result ≡ is_result (tree.item_view item.now) }
{
    matches!(item, Item::Result { .. })
}

// Whether no two fields have one name.
#[tactic(auto, using(crate::proofs::Fields::fields))]
fn has_different_fields(alloc: Global, items: &[Item]) -> Result<bool, NoMemory>
    ensures { IfOk result (λ b. b ≡ all_different (field_names (tree.items_view items.now))) }
{
    let mut seen = HashSet::new(alloc);
    for item in items {
        if let Some(name) = field_name(item) {
            if !is_new(&mut seen, name)? {
                return Ok(false);
            }
        }
    }
    Ok(true)
}

// Whether a name was not seen, and it is seen from now on.
#[tactic(auto, using(crate::proofs::Fields::seen))]
fn is_new<'a>(seen: &mut HashSet<&'a [u8]>, name: &'a [u8]) -> Result<bool, NoMemory>
    ensures new { IfOk result (λ b. b ≡ not (has_text seen.old name.now)) }
    ensures seen { OnOk result ((q : List ℕ) → has_text seen.new q ≡ (bytes_eq name.now q || has_text seen.old q)) }
{
    let added = seen.insert(name)?;
    Ok(added)
}

#[tactic(auto, using(ddl_tree::proofs::Layers::layers))]
fn field_name(item: &Item) -> Option<&[u8]>
    ensures { option_copied result ≡ field_name (tree.item_view item.now) }
{
    match item {
        Item::Field { name, .. } => Some(name.text.get()),
        _ => None,
    }
}

/// The type of a block: of its `$$`, else a record where there is a field, else of its last item.
pub(crate) fn block_type(alloc: Global, items: &[TItem], span: Span) -> Result<Ty, NoMemory>
    ensures { IfOk result (λ of. ty_view of ≡ block_type span (items_view items.now)) }
{
    match result_type(items) {
        Some(of) => {
            let of = of.copy(alloc)?;
            Ok(of)
        }
        None => {
            let of = fields_type(alloc, items, span)?;
            Ok(of)
        }
    }
}

fn fields_type(alloc: Global, items: &[TItem], span: Span) -> Result<Ty, NoMemory>
    ensures { IfOk result (λ of. ty_view of ≡ (if has_field (items_view items.now) then record_type span.from else
        last_type (items_view items.now))) }
{
    if has_field(items) {
        Ok(record_type(alloc, span.from))
    } else {
        let of = last_type(alloc, items)?;
        Ok(of)
    }
}

// The type of the `$$`.
#[tactic(auto, using(crate::proofs::Steps::typing))]
fn result_type(items: &[TItem]) -> Option<&Ty>
    ensures { option_map (λ of. ty_view of.now) result ≡ result_type (items_view items.now) }
{
    for item in items {
        if let Some(of) = dollar_type(item) {
            return Some(of);
        }
    }
    None
}

#[tactic(auto, using(ddl_typed::proofs::Layers::layers))]
fn dollar_type(item: &TItem) -> Option<&Ty>
    ensures { option_map (λ of. ty_view of.now) result ≡ dollar_type (item_view item.now) }
{
    match item {
        TItem::Plain(_) => None,
        TItem::Let { .. } => None,
        TItem::Field { .. } => None,
        TItem::Result(body) => Some(&body.of),
    }
}

// Whether one of the items is a field.
#[tactic(auto, using(crate::proofs::Steps::typing))]
fn has_field(items: &[TItem]) -> bool
    ensures { result ≡ has_field (items_view items.now) }
{
    for item in items {
        if is_field(item) {
            return true;
        }
    }
    false
}

#[tactic(auto, using(ddl_typed::proofs::Layers::layers))]
fn is_field(item: &TItem) -> bool
    ensures { result ≡ is_field (item_view item.now) }
{
    match item {
        TItem::Plain(_) => false,
        TItem::Let { .. } => false,
        TItem::Field { .. } => true,
        TItem::Result(_) => false,
    }
}

// The type of what the last item gives.
#[tactic(auto, using(crate::proofs::Steps::typing))]
fn last_type(alloc: Global, items: &[TItem]) -> Result<Ty, NoMemory>
    ensures { IfOk result (λ of. ty_view of ≡ last_type (items_view items.now)) }
{
    match items.last() {
        Some(item) => {
            let of = given_type(alloc, item)?;
            Ok(of)
        }
        None => Ok(unit_type()),
    }
}

#[tactic(auto, using(ddl_typed::proofs::Layers::layers))]
fn given_type(alloc: Global, item: &TItem) -> Result<Ty, NoMemory>
    ensures { IfOk result (λ of. ty_view of ≡ given_type (item_view item.now)) }
{
    let of = match item {
        TItem::Plain(body) => body.of.copy(alloc)?,
        TItem::Let { .. } => unit_type(),
        TItem::Field { body, .. } => body.of.copy(alloc)?,
        TItem::Result(body) => body.of.copy(alloc)?,
    };
    Ok(of)
}

/// The type of what an item reads.
#[tactic(auto, using(ddl_typed::proofs::Layers::layers))]
pub(crate) fn item_type(alloc: Global, item: &TItem) -> Result<Ty, NoMemory>
    ensures { IfOk result (λ of. ty_view of ≡ item_type (item_view item.now)) }
{
    let of = match item {
        TItem::Plain(body) => body.of.copy(alloc)?,
        TItem::Let { body, .. } => body.of.copy(alloc)?,
        TItem::Field { body, .. } => body.of.copy(alloc)?,
        TItem::Result(body) => body.of.copy(alloc)?,
    };
    Ok(of)
}
