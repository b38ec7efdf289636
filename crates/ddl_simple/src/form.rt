ghost use Rattle.std.specs.Prelude.{◌≡◌};
ghost use Rattle.ddl_simple.specs.Form.{bare, local_at, match_of, primitive, pure_of, text_at};
ghost use Rattle.ddl_simple.specs.Views.{Gives, scope_view};
ghost use Rattle.ddl_tree.specs.View as tree;
ghost use Rattle.ddl_typed.specs.View.{view};

use crate::scope::Scope;
use crate::stop::Stop;
use crate::types::{byte_type, text_type, unit_type};
use ddl_base::{Bytes, Span};
use ddl_tree::{Expr, Name};
use ddl_typed::{TExpr, TForm};
use std::alloc::Global;

/// A form without the parentheses around it.
#[tactic(auto, using(ddl_tree::proofs::Layers::layers))]
pub(crate) fn bare(expr: &Expr) -> &Expr
    ensures { tree.view result.now ≡ bare (tree.view expr.now) }
{
    match expr {
        Expr::Paren {
            inner,
            typed: None,
            ..
        } => bare(inner),
        _ => expr,
    }
}

/// `UInt8` or `END`.
#[tactic(auto, using(ddl_typed::proofs::Layers::layers))]
pub(crate) fn primitive(name: &Name) -> Result<TExpr, Stop>
    ensures { Gives view (primitive name.now) result }
{
    if name.text.get() == b"UInt8".as_slice() {
        Ok(TExpr {
            form: TForm::UInt8,
            of: byte_type(),
            span: name.span,
        })
    } else if name.text.get() == b"END".as_slice() {
        Ok(TExpr {
            form: TForm::End,
            of: unit_type(),
            span: name.span,
        })
    } else {
        Err(Stop::Outside)
    }
}

/// `Match` of a text.
#[tactic(auto, using(ddl_typed::proofs::Layers::layers))]
pub(crate) fn match_of(
    alloc: Global,
    name: &Name,
    argument: &Expr,
    span: Span,
) -> Result<TExpr, Stop>
    ensures { Gives view (match_of name.now (tree.view argument.now) span) result }
{
    if name.text.get() == b"Match".as_slice() {
        let text = Box::new(alloc, text_at(alloc, bare(argument))?)?;
        Ok(TExpr {
            form: TForm::Match(text),
            of: text_type(alloc)?,
            span,
        })
    } else {
        Err(Stop::Outside)
    }
}

#[tactic(auto, using(ddl_tree::proofs::Layers::layers, ddl_typed::proofs::Layers::layers))]
fn text_at(alloc: Global, expr: &Expr) -> Result<TExpr, Stop>
    ensures { Gives view (text_at (tree.view expr.now)) result }
{
    match expr {
        Expr::Text { bytes, span } => Ok(TExpr {
            form: TForm::Text(Bytes::of(alloc, bytes.get())?),
            of: text_type(alloc)?,
            span: *span,
        }),
        _ => Err(Stop::Outside),
    }
}

/// `^` of a name that is in scope.
#[tactic(auto, using(ddl_tree::proofs::Layers::layers, ddl_typed::proofs::Layers::layers))]
pub(crate) fn pure_of(alloc: Global, value: &Expr, span: Span, scope: &Scope) -> Result<TExpr, Stop>
    ensures { Gives view (pure_of span (local_at (bare (tree.view value.now)) (scope_view scope.now))) result }
{
    let local = local_at(alloc, bare(value), scope)?;
    Ok(TExpr {
        of: local.of.copy(alloc)?,
        form: TForm::Pure(Box::new(alloc, local)?),
        span,
    })
}

#[tactic(auto, using(ddl_tree::proofs::Layers::layers, ddl_typed::proofs::Layers::layers))]
fn local_at(alloc: Global, expr: &Expr, scope: &Scope) -> Result<TExpr, Stop>
    ensures { Gives view (local_at (tree.view expr.now) (scope_view scope.now)) result }
{
    match expr {
        Expr::Lower(name) => {
            let meaning = scope.find(alloc, &name.text)?;
            Ok(TExpr {
                form: TForm::Local(meaning.number),
                of: meaning.of,
                span: name.span,
            })
        }
        _ => Err(Stop::Outside),
    }
}
