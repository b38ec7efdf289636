ghost use Rattle.std.specs.Prelude.{◌≡◌, ◌++◌, ◌∷◌, [], IfOk, map};
ghost use Rattle.ddl_tree.specs.View.{view, binding_view, item_view, alt_view};
ghost use Rattle.ddl_states.specs.FrameView.{found_view, start_view};
ghost use Rattle.ddl_reader.specs.StepLists as step_list;
ghost use Rattle.ddl_reader.specs.StepParts as step_part;

use crate::frame::{Found, Start};
use crate::part::joined;
use ddl_base::NoMemory;
use ddl_tree::{Alt, Binding, Expr, Item, Name, Pat};

/// One more element of a list.
#[tactic(auto, using(std::proofs::lemmas::List::map_push))]
pub fn with_expr(mut elements: Vec<Expr>, last: Box<Expr>) -> Result<Vec<Expr>, NoMemory>
    ensures { IfOk result (λ all. map view all.items ≡ map view elements.items ++ view last.value ∷ []) }
{
    elements.push(Box::into_inner(last))?;
    Ok(elements)
}

/// `x = e`
#[tactic(auto, using(ddl_tree::proofs::Layers::layers))]
fn bound_to(name: Name, value: Found) -> Binding
    ensures { binding_view result ≡ step_part.bound_to name (found_view value) }
{
    let span = joined(name.span, value.expr.span());
    Binding {
        name,
        value: Box::into_inner(value.expr),
        span,
    }
}

/// One more field of a record, or alternative with its tag.
#[tactic(auto, using(std::proofs::lemmas::List::map_push))]
pub fn with_binding(
    mut bindings: Vec<Binding>,
    name: Name,
    value: Found,
) -> Result<Vec<Binding>, NoMemory>
    ensures { IfOk result (λ all. map binding_view all.items ≡ map binding_view bindings.items
        ++ step_part.bound_to name (found_view value) ∷ []) }
{
    bindings.push(bound_to(name, value))?;
    Ok(bindings)
}

/// A part of a block, by what began it.
#[tactic(auto, using(ddl_tree::proofs::Layers::layers))]
fn started(start: Start, value: Found) -> Item
    ensures { item_view result ≡ step_list.started (start_view start) (found_view value) }
{
    let end = value.expr.span();
    let value = Box::into_inner(value.expr);
    match start {
        Start::Plainly => Item::Plain(value),
        Start::Result(from) => Item::Result {
            value,
            span: joined(from, end),
        },
        Start::Let(from, name) => Item::Let {
            name,
            value,
            span: joined(from, end),
        },
        Start::Field(name) => {
            let span = joined(name.span, end);
            Item::Field { name, value, span }
        }
    }
}

/// One more part of a block.
#[tactic(auto, using(std::proofs::lemmas::List::map_push))]
pub fn with_item(mut items: Vec<Item>, start: Start, value: Found) -> Result<Vec<Item>, NoMemory>
    ensures { IfOk result (λ all. map item_view all.items ≡ map item_view items.items
        ++ step_list.started (start_view start) (found_view value) ∷ []) }
{
    items.push(started(start, value))?;
    Ok(items)
}

/// `p -> e`
#[tactic(auto, using(ddl_tree::proofs::Layers::layers))]
fn alt_of(pattern: Pat, body: Found) -> Alt
    ensures { alt_view result ≡ step_list.alt_of pattern (found_view body) }
{
    let span = joined(pattern.span(), body.expr.span());
    Alt {
        pattern,
        body: Box::into_inner(body.expr),
        span,
    }
}

/// One more alternative of a `case`.
#[tactic(auto, using(std::proofs::lemmas::List::map_push))]
pub fn with_alt(mut alts: Vec<Alt>, pattern: Pat, body: Found) -> Result<Vec<Alt>, NoMemory>
    ensures { IfOk result (λ all. map alt_view all.items ≡ map alt_view alts.items
        ++ step_list.alt_of pattern (found_view body) ∷ []) }
{
    alts.push(alt_of(pattern, body))?;
    Ok(alts)
}
