ghost use Rattle.std.specs.Prelude.{◌≡◌, ◌++◌, OnOk};
ghost use Rattle.ddl_tree.specs.View.{item_view};
ghost use Rattle.ddl_uses.specs.Forms.{dollars, once, once_again};
ghost use Rattle.ddl_kinds.specs.Found.{Finds};
ghost use Rattle.ddl_uses.specs.Held.{IsScope, IsSeen, scope_view, seen_view};
ghost use Rattle.ddl_uses.specs.Scope.{after_binder, after_item, after_names, after_pattern};

use crate::scope::Scope;
use crate::seen::Seen;
use ddl_base::{NoMemory, Span};
use ddl_kinds::{NameError, Use};
use ddl_tree::{Binder, Item, Kind, Names, Pat};

/// Binds the names for the elements of a list.
pub(crate) fn bind_names<'a>(scope: &mut Scope<'a>, names: &'a Names) -> Result<(), NoMemory>
    requires { IsScope scope.old }
    ensures bound { OnOk result (scope_view scope.new ≡ after_names names.now (scope_view scope.old)) }
    ensures sound { OnOk result (IsScope scope.new) }
{
    scope.bind(&names.first, Kind::Value)?;
    if let Some(second) = &names.second {
        scope.bind(second, Kind::Value)?;
    }
    Ok(())
}

fn bind_binder<'a>(scope: &mut Scope<'a>, binder: &'a Binder) -> Result<(), NoMemory>
    requires { IsScope scope.old }
    ensures bound { OnOk result (scope_view scope.new ≡ after_binder binder.now (scope_view scope.old)) }
    ensures sound { OnOk result (IsScope scope.new) }
{
    match binder {
        Binder::Called(name) => scope.bind(name, Kind::Value),
        Binder::Ignored(_) => Ok(()),
    }
}

/// Binds the name for the content of what a pattern fits.
pub(crate) fn bind_pattern<'a>(scope: &mut Scope<'a>, pattern: &'a Pat) -> Result<(), NoMemory>
    requires { IsScope scope.old }
    ensures bound { OnOk result (scope_view scope.new ≡ after_pattern pattern.now (scope_view scope.old)) }
    ensures sound { OnOk result (IsScope scope.new) }
{
    match pattern {
        Pat::Just { content, .. } => bind_binder(scope, content),
        Pat::Tag {
            content: Some(content),
            ..
        } => bind_binder(scope, content),
        Pat::Tag { content: None, .. }
        | Pat::Any(_)
        | Pat::Num(_)
        | Pat::Char { .. }
        | Pat::True(_)
        | Pat::False(_)
        | Pat::Nothing(_) => Ok(()),
    }
}

/// Binds what an item binds in what follows.
#[tactic(auto, using(ddl_tree::proofs::Layers::layers))]
pub(crate) fn bind_item<'a>(scope: &mut Scope<'a>, item: &'a Item) -> Result<(), NoMemory>
    requires { IsScope scope.old }
    ensures bound { OnOk result (scope_view scope.new ≡ after_item (item_view item.now) (scope_view scope.old)) }
    ensures sound { OnOk result (IsScope scope.new) }
{
    match item {
        Item::Let { name, .. } | Item::Field { name, .. } => scope.bind(name, Kind::Value),
        Item::Result { .. } | Item::Plain(_) => Ok(()),
    }
}

// Where the mark `$$` of an item stands.
fn dollars(item: Span) -> Span
    ensures { result ≡ (dollars item).span }
{
    Span {
        module: item.module,
        from: item.from,
        to: item.from.saturating_add(2).min(item.to),
    }
}

/// What may stand once in a block, or the refusal where it stood before.
#[tactic(auto, using(ddl_tree::proofs::Layers::layers, ddl_kinds::proofs::Finding::finding))]
pub(crate) fn once<'a>(seen: &mut Seen<'a>, uses: &[Use], item: &'a Item) -> Result<(), NameError>
    requires { IsSeen seen.old }
    ensures found { Finds (once_again (seen_view seen.old) (once (item_view item.now))) uses.now uses.now result }
    ensures seen { OnOk result (seen_view seen.new ≡ seen_view seen.old ++ once (item_view item.now)) }
    ensures sound { OnOk result (IsSeen seen.new) }
{
    match item {
        Item::Result { span, .. } => {
            seen.once(uses, b"$$", dollars(*span))?;
            Ok(())
        }
        Item::Field { name, .. } => {
            seen.once_named(uses, name)?;
            Ok(())
        }
        Item::Let { .. } | Item::Plain(_) => Ok(()),
    }
}
