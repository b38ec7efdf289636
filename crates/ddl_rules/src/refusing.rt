//! Written types that are none.

ghost use Rattle.std.specs.Prelude.{◌≡◌};
ghost use Rattle.ddl_tree.specs.View.{type_view};
ghost use Rattle.ddl_rules.specs.Refusing.{first_of, type_refusal, width_refusal};

use ddl_base::Span;
use ddl_tree::TypeExpr;

/// Why a written type is none.
#[derive(Clone, Copy, PartialEq, Eq)]
pub enum TypeRefusal {
    /// A width is 1 to 128.
    WidthRange { span: Span, width: u128 },
    /// `float` and `double` are out of the language.
    FloatOut(Span),
}

fn width_refusal(span: Span, width: u128) -> Option<TypeRefusal>
    ensures { result ≡ width_refusal span width }
{
    if 1 <= width && width <= 128 {
        None
    } else {
        Some(TypeRefusal::WidthRange { span, width })
    }
}

/// The first refusal in a written type, in text order.
#[cycle(type_refusal)]
#[tactic(auto, using(ddl_tree::proofs::Layers::layers))]
pub fn type_refusal(of: &TypeExpr) -> Option<TypeRefusal>
    ensures { result ≡ type_refusal (type_view of.now) }
{
    match of {
        TypeExpr::Uint { width, span } | TypeExpr::Sint { width, span } => {
            width_refusal(*span, width.value)
        }
        TypeExpr::Float(span) | TypeExpr::Double(span) => Some(TypeRefusal::FloatOut(*span)),
        TypeExpr::Maybe { content, .. } => type_refusal(content),
        TypeExpr::ArrayOf { element, .. } => type_refusal(element),
        TypeExpr::Within { inner, .. } => type_refusal(inner),
        TypeExpr::MapOf { key, value, .. } => match type_refusal(key) {
            Some(refusal) => Some(refusal),
            None => type_refusal(value),
        },
        TypeExpr::Int(_)
        | TypeExpr::Bool(_)
        | TypeExpr::Stream(_)
        | TypeExpr::Empty(_)
        | TypeExpr::Named(_) => None,
    }
}
