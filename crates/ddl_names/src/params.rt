ghost use Rattle.std.specs.Prelude.{◌≡◌, ◌++◌, IfOk, OnOk, [], ◌∷◌, map};
ghost use Rattle.ddl_tree.specs.ViewModule.{param_view};
ghost use Rattle.ddl_kinds.specs.declared.error.NameError.TheVariants.{WrongKind};
ghost use Rattle.ddl_kinds.specs.Findings.{again, demand};
ghost use Rattle.ddl_uses.specs.Forms.{typed_findings};
ghost use Rattle.ddl_kinds.specs.Found.{Finds};
ghost use Rattle.ddl_uses.specs.Walks.{IsOuter, site_view};
ghost use Rattle.ddl_uses.specs.Held.{IsScope, IsSeen, scope_view, seen_view};
ghost use Rattle.ddl_names.specs.Modules.{may_take, param_findings, param_type};
ghost use Rattle.ddl_uses.specs.Scope.{local_of, param_kind, param_name, param_scope};

use ddl_base::NoMemory;
use ddl_kinds::{NameError, Use};
use ddl_tree::{Kind, Name, Param};
use ddl_uses::{Outer, Scope, Seen, take_type};
use std::alloc::Global;

fn name_of(param: &Param) -> &Name
    ensures { result.now ≡ param_name (param_view param.now) }
{
    match param {
        Param::Upper(name)
        | Param::Lower(name)
        | Param::Class(name)
        | Param::TypedUpper { name, .. }
        | Param::TypedLower { name, .. } => name,
    }
}

/// What a parameter stands for.
pub(crate) fn kind_of(param: &Param) -> Kind
    ensures { result ≡ param_kind (param_view param.now) }
{
    match param {
        Param::Upper(_) | Param::TypedUpper { .. } => Kind::Grammar,
        Param::Lower(_) | Param::TypedLower { .. } => Kind::Value,
        Param::Class(_) => Kind::Class,
    }
}

// Whether a declaration of this kind may have a parameter of that kind.
fn may_take(kind: Kind, of: Kind) -> bool
    ensures { result ≡ may_take kind of }
{
    !(matches!(kind, Kind::Value) && matches!(of, Kind::Grammar | Kind::Class))
}

fn bind_param<'a>(scope: &mut Scope<'a>, param: &'a Param) -> Result<(), NoMemory>
    requires { IsScope scope.old }
    ensures bound { OnOk result (scope_view scope.new ≡ local_of (param_view param.now) ∷ scope_view scope.old) }
    ensures sound { OnOk result (IsScope scope.new) }
{
    scope.bind(name_of(param), kind_of(param))
}

/// The scope of a declaration with these parameters.
#[tactic(auto, using(crate::proofs::Declared::declared))]
pub(crate) fn scope_of<'a>(alloc: Global, params: &'a [Param]) -> Result<Scope<'a>, NoMemory>
    ensures bound { IfOk result (λ s. scope_view s ≡ param_scope (map param_view params.now)) }
    ensures sound { IfOk result (λ s. IsScope s) }
{
    let mut scope = Scope::new(alloc);
    for param in params {
        bind_param(&mut scope, param)?;
    }
    Ok(scope)
}

// A parameter that the declaration may have, or the refusal of its kind.
#[tactic(auto, using(ddl_kinds::proofs::Finding::finding))]
fn allowed(uses: &[Use], kind: Kind, param: &Param) -> Result<(), NameError>
    ensures { Finds (demand (may_take kind (param_kind (param_view param.now)))
        (WrongKind (param_name (param_view param.now)).span)) uses.now uses.now result }
{
    if may_take(kind, kind_of(param)) {
        Ok(())
    } else {
        Err(NameError::WrongKind(name_of(param).span))
    }
}

// The names in the type of a parameter.
#[tactic(auto, using(ddl_kinds::proofs::Finding::finding))]
fn take_param_type<'a>(
    outer: &Outer<'a>,
    scope: &Scope<'a>,
    uses: &mut Vec<Use>,
    param: &Param,
) -> Result<(), NameError>
    requires names { IsOuter outer.now }
    requires scope { IsScope scope.now }
    ensures { Finds (typed_findings (site_view outer.now) (param_type (param_view param.now)) (scope_view scope.now))
        uses.old.items uses.new.items result }
{
    match param {
        Param::TypedUpper { of, .. } | Param::TypedLower { of, .. } => {
            take_type(outer, scope, uses, of)?;
            Ok(())
        }
        Param::Upper(_) | Param::Lower(_) | Param::Class(_) => Ok(()),
    }
}

// What is found in a parameter, after those that were seen.
#[tactic(auto, using(ddl_kinds::proofs::Finding::finding))]
fn take_param<'a>(
    outer: &Outer<'a>,
    scope: &Scope<'a>,
    uses: &mut Vec<Use>,
    seen: &mut Seen<'a>,
    kind: Kind,
    param: &'a Param,
) -> Result<(), NameError>
    requires names { IsOuter outer.now }
    requires scope { IsScope scope.now }
    requires seen { IsSeen seen.old }
    ensures found { let p = param_view param.now
        in Finds (again (seen_view seen.old) (param_name p)
        ++ demand (may_take kind (param_kind p)) (WrongKind (param_name p).span)
        ++ typed_findings (site_view outer.now) (param_type p) (scope_view scope.now)) uses.old.items uses.new.items
        result }
    ensures seen { OnOk result (seen_view seen.new ≡ seen_view seen.old ++ param_name (param_view param.now) ∷ []) }
    ensures sound { OnOk result (IsSeen seen.new) }
{
    let name = name_of(param);
    seen.once_named(uses, name)?;
    allowed(uses, kind, param)?;
    take_param_type(outer, scope, uses, param)?;
    Ok(())
}

/// What is found in the parameters of a declaration of this kind.
#[tactic(auto, using(ddl_kinds::proofs::Finding::finding, crate::proofs::Declared::declared))]
pub(crate) fn take_params<'a>(
    alloc: Global,
    outer: &Outer<'a>,
    scope: &Scope<'a>,
    uses: &mut Vec<Use>,
    kind: Kind,
    params: &'a [Param],
) -> Result<(), NameError>
    requires names { IsOuter outer.now }
    requires scope { IsScope scope.now }
    ensures { Finds (param_findings (site_view outer.now) kind [] (scope_view scope.now) (map param_view params.now))
        uses.old.items uses.new.items result }
{
    let mut seen = Seen::new(alloc);
    for param in params {
        take_param(outer, scope, uses, &mut seen, kind, param)?;
    }
    Ok(())
}
