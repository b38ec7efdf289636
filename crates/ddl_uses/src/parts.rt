ghost use Rattle.ddl_tree.specs.View.{class_view, type_view, typed_view};
ghost use Rattle.ddl_uses.specs.Forms.{class_findings, type_findings, typed_findings};
ghost use Rattle.ddl_uses.specs.Held.{IsScope, scope_view};
ghost use Rattle.ddl_kinds.specs.Found.{Finds};
ghost use Rattle.ddl_uses.specs.Walks.{IsOuter, site_view};

use crate::outer::Outer;
use crate::scope::Scope;
use ddl_kinds::{NameError, Use, Want, name_use, type_use};
use ddl_tree::{Cls, TypeExpr};

/// The names in a type.
#[tactic(auto, using(ddl_tree::proofs::Layers::layers, ddl_kinds::proofs::Finding::finding))]
pub fn take_type<'a>(
    outer: &Outer<'a>,
    scope: &Scope<'a>,
    uses: &mut Vec<Use>,
    of: &TypeExpr,
) -> Result<(), NameError>
    requires names { IsOuter outer.now }
    requires scope { IsScope scope.now }
    ensures { Finds (type_findings (site_view outer.now) (type_view of.now) (scope_view scope.now)) uses.old.items
        uses.new.items result }
{
    match of {
        TypeExpr::Maybe { content: inner, .. }
        | TypeExpr::ArrayOf { element: inner, .. }
        | TypeExpr::Within { inner, .. } => {
            take_type(outer, scope, uses, inner)?;
            Ok(())
        }
        TypeExpr::MapOf { key, value, .. } => {
            take_type(outer, scope, uses, key)?;
            take_type(outer, scope, uses, value)?;
            Ok(())
        }
        TypeExpr::Named(name) => {
            type_use(uses, name, outer.meaning(scope, name))?;
            Ok(())
        }
        TypeExpr::Int(_)
        | TypeExpr::Uint { .. }
        | TypeExpr::Sint { .. }
        | TypeExpr::Bool(_)
        | TypeExpr::Stream(_)
        | TypeExpr::Float(_)
        | TypeExpr::Double(_)
        | TypeExpr::Empty(_) => Ok(()),
    }
}

/// The names in a written type, where there is one.
#[tactic(auto, using(ddl_kinds::proofs::Finding::finding))]
pub fn take_typed<'a>(
    outer: &Outer<'a>,
    scope: &Scope<'a>,
    uses: &mut Vec<Use>,
    typed: &Option<TypeExpr>,
) -> Result<(), NameError>
    requires names { IsOuter outer.now }
    requires scope { IsScope scope.now }
    ensures { Finds (typed_findings (site_view outer.now) (typed_view typed.now) (scope_view scope.now)) uses.old.items
        uses.new.items result }
{
    if let Some(of) = typed {
        take_type(outer, scope, uses, of)?;
    }
    Ok(())
}

/// The names in a class, which are classes.
#[tactic(auto, using(ddl_tree::proofs::Layers::layers, ddl_kinds::proofs::Finding::finding))]
pub fn take_class<'a>(
    outer: &Outer<'a>,
    scope: &Scope<'a>,
    uses: &mut Vec<Use>,
    class: &Cls,
) -> Result<(), NameError>
    requires names { IsOuter outer.now }
    requires scope { IsScope scope.now }
    ensures { Finds (class_findings (site_view outer.now) (class_view class.now) (scope_view scope.now)) uses.old.items
        uses.new.items result }
{
    match class {
        Cls::Union { left, right, .. } => {
            take_class(outer, scope, uses, left)?;
            take_class(outer, scope, uses, right)?;
            Ok(())
        }
        Cls::Known(name) => {
            name_use(uses, Want::Class, name, 0, outer.meaning(scope, name))?;
            Ok(())
        }
        Cls::Other { inner, .. } | Cls::Grouped { inner, .. } | Cls::Set { inner, .. } => {
            take_class(outer, scope, uses, inner)?;
            Ok(())
        }
        Cls::One(_) | Cls::Range { .. } => Ok(()),
    }
}
