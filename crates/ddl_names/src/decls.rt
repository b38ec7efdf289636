ghost use Rattle.std.specs.Prelude.{◌≡◌, ◌++◌, OnOk, [], ◌∷◌, length, map, flat_map};
ghost use Rattle.ddl_tree.specs.View.{typed_view, view};
ghost use Rattle.ddl_tree.specs.ViewModule.{decl_view, param_view};
ghost use Rattle.ddl_names.specs.Cutting.{begins};
ghost use Rattle.ddl_uses.specs.Forms.{findings, typed_findings};
ghost use Rattle.ddl_kinds.specs.Found.{Finds};
ghost use Rattle.ddl_uses.specs.Walks.{IsOuter, site_view};
ghost use Rattle.ddl_names.specs.Modules.{decl_findings, param_findings, uses_in_each};
ghost use Rattle.ddl_uses.specs.Scope.{param_scope};

use crate::layouts::{take_bits, take_cons};
use crate::params::{scope_of, take_params};
use ddl_kinds::{NameError, Want};
use ddl_tree::{Decl, Expr, Kind, Param, TypeExpr};
use ddl_uses::{Scope, Walk, take_class, take_typed};

// What is found in a declaration of this kind with these parameters, this type and a body of which this is wanted.
#[tactic(auto, using(ddl_kinds::proofs::Finding::finding))]
fn take_definition<'a>(
    walk: &mut Walk<'a>,
    kind: Kind,
    params: &'a [Param],
    typed: &Option<TypeExpr>,
    want: Want,
    body: &'a Expr,
) -> Result<(), NameError>
    requires { IsOuter walk.old.outer }
    ensures found { let scope = param_scope (map param_view params.now)
        in Finds (param_findings (site_view walk.old.outer) kind [] scope (map param_view params.now)
        ++ typed_findings (site_view walk.old.outer) (typed_view typed.now) scope
        ++ findings (site_view walk.old.outer) (view body.now) want scope) walk.old.uses.items walk.new.uses.items
        result }
    ensures here { OnOk result (walk.new.outer ≡ walk.old.outer) }
{
    walk.scope = scope_of(walk.alloc, params)?;
    take_params(
        walk.alloc,
        &walk.outer,
        &walk.scope,
        &mut walk.uses,
        kind,
        params,
    )?;
    take_typed(&walk.outer, &walk.scope, &mut walk.uses, typed)?;
    walk.take_expr(want, body)?;
    Ok(())
}

// What is found in a declaration.
#[tactic(auto, using(ddl_kinds::proofs::Finding::finding))]
fn take_decl<'a>(walk: &mut Walk<'a>, decl: &'a Decl) -> Result<(), NameError>
    requires { IsOuter walk.old.outer }
    ensures found { Finds (decl_findings (site_view walk.old.outer) (decl_view decl.now)) walk.old.uses.items
        walk.new.uses.items result }
    ensures here { OnOk result (walk.new.outer ≡ walk.old.outer) }
{
    match decl {
        Decl::Grammar {
            params,
            result: typed,
            body,
            ..
        } => {
            take_definition(walk, Kind::Grammar, params, typed, Want::Grammar, body)?;
            Ok(())
        }
        Decl::Value {
            params,
            result: typed,
            body,
            ..
        } => {
            take_definition(walk, Kind::Value, params, typed, Want::Value, body)?;
            Ok(())
        }
        Decl::Class { body, .. } => {
            let scope = Scope::new(walk.alloc);
            take_class(&walk.outer, &scope, &mut walk.uses, body)?;
            Ok(())
        }
        Decl::Bits { bits, .. } => {
            take_bits(walk.alloc, &walk.outer, &mut walk.uses, bits)?;
            Ok(())
        }
        Decl::BitsUnion { cons, .. } => {
            take_cons(walk.alloc, &walk.outer, &mut walk.uses, cons)?;
            Ok(())
        }
    }
}

// What is found in the next declaration, of which the place of the first use is noted.
#[tactic(auto, using(ddl_kinds::proofs::Finding::finding))]
fn take_next<'a>(
    walk: &mut Walk<'a>,
    firsts: &mut Vec<usize>,
    decl: &'a Decl,
) -> Result<(), NameError>
    requires { IsOuter walk.old.outer }
    ensures found { Finds (decl_findings (site_view walk.old.outer) (decl_view decl.now)) walk.old.uses.items
        walk.new.uses.items result }
    ensures first { OnOk result (firsts.new.items ≡ firsts.old.items ++ length walk.old.uses.items ∷ []) }
    ensures here { OnOk result (walk.new.outer ≡ walk.old.outer) }
{
    let first = walk.uses.len();
    take_decl(walk, decl)?;
    firsts.push(first)?;
    Ok(())
}

/// What is found in the declarations of a module whose names mean this: the uses are added, and the place of the first one of each declaration; or the first refusal is told.
#[tactic(auto, using(ddl_kinds::proofs::Finding::finding, crate::proofs::Declared::declared))]
pub(crate) fn take_decls<'a>(
    walk: &mut Walk<'a>,
    firsts: &mut Vec<usize>,
    decls: &'a [Decl],
) -> Result<(), NameError>
    requires { IsOuter walk.old.outer }
    ensures found { Finds (flat_map (decl_findings (site_view walk.old.outer)) (map decl_view decls.now))
        walk.old.uses.items walk.new.uses.items result }
    ensures firsts { OnOk result (firsts.new.items ≡ firsts.old.items
        ++ begins (length walk.old.uses.items) (uses_in_each (site_view walk.old.outer) (map decl_view decls.now))) }
    ensures here { OnOk result (walk.new.outer ≡ walk.old.outer) }
{
    for decl in decls {
        take_next(walk, firsts, decl)?;
    }
    Ok(())
}
