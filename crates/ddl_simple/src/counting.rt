ghost use Rattle.ddl_tree.specs.View.{item_view, items_view, view};
ghost use Rattle.ddl_simple.specs.Blocks.{blocks, blocks_of_item, blocks_of_items};
ghost use Rattle.ddl_simple.specs.Views.{LeavesBlocks};

use ddl_tree::{Expr, Item};

/// How many blocks are left of so many, once those of a grammar are taken; None where there are too few.
#[cycle(counting)]
#[tactic(auto, using(ddl_tree::proofs::Layers::layers))]
pub(crate) fn left_after(expr: &Expr, left: usize) -> Option<usize>
    ensures { LeavesBlocks (blocks (view expr.now)) left result }
{
    match expr {
        Expr::Paren {
            inner,
            typed: None,
            ..
        } => left_after(inner, left),
        Expr::Block { items, .. } => {
            if left == 0 {
                return None;
            }
            left_after_items(items, left - 1)
        }
        _ => Some(left),
    }
}

#[cycle(counting)]
#[tactic(auto, using(ddl_tree::proofs::Layers::layers, crate::proofs::Steps::counting))]
fn left_after_items(items: &[Item], left: usize) -> Option<usize>
    ensures { LeavesBlocks (blocks_of_items (items_view items.now)) left result }
{
    let mut rest = left;
    for item in items {
        rest = left_after_item(item, rest)?;
    }
    Some(rest)
}

#[cycle(counting)]
#[tactic(auto, using(ddl_tree::proofs::Layers::layers))]
fn left_after_item(item: &Item, left: usize) -> Option<usize>
    ensures { LeavesBlocks (blocks_of_item (item_view item.now)) left result }
{
    match item {
        Item::Result { value, .. } => left_after(value, left),
        Item::Let { value, .. } => left_after(value, left),
        Item::Field { value, .. } => left_after(value, left),
        Item::Plain(value) => left_after(value, left),
    }
}
