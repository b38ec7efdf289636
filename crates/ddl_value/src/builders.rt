ghost use Rattle.std.specs.Prelude.{◌≡◌, ◌∷◌, [], IfSome, IfOk, OnErr};
ghost use Rattle.ddl_slots.specs.declared.node.NodeKind.TheVariants as K;
ghost use Rattle.ddl_slots.specs.declared.word.Word.TheVariants as W;
ghost use Rattle.ddl_slots.specs.Slots.{entry, release_all};
ghost use Rattle.ddl_slot_map.specs.Fits.{FitAll};
ghost use Rattle.ddl_blocks.specs.Placing.{node_of};
ghost use Rattle.ddl_value.specs.Builders.{IsBuilder, HasCounts, GivesNode, Pushed};

use ddl_base::{Bytes, NoMemory};
use ddl_slot_map::{Node, Slots};
use ddl_slots::{NodeKind, SlotId, Word};
use std::alloc::Global;

/// An element in a node of its own, after the builder before it.
fn push_beside(
    alloc: Global,
    slots: &mut Slots,
    builder: Word,
    item: Word,
) -> Result<Word, NoMemory>
    requires fits { FitAll (builder ∷ item ∷ []) slots.old }
    ensures gives { IfOk result (λ w.
        GivesNode slots.old (builder ∷ item ∷ []) (node_of K.Builder (builder ∷ item ∷ [])) w slots.new) }
    ensures refused { OnErr result (slots.new ≡ release_all (builder ∷ item ∷ []) slots.old) }
{
    let Ok(words) = vec![in alloc; builder, item] else {
        slots.release_all(&[builder, item]);
        return Err(NoMemory);
    };
    let node = Node::new(NodeKind::Builder, words, Bytes::from(Vec::new(alloc)));
    match slots.exchange(&[builder, item], node) {
        Ok(id) => Ok(Word::Ref(id)),
        Err(_) => Err(NoMemory),
    }
}

/// An element in the node of a builder that nothing else refers to.
fn push_inside(slots: &mut Slots, id: SlotId, item: Word) -> Result<Word, NoMemory>
    requires builder { IsBuilder slots.old (W.Ref id) }
    requires alone { IfSome (entry slots.old id.key) (λ e. e.count ≡ 1) }
    requires counts { HasCounts slots.old (W.Ref id ∷ item ∷ []) }
    ensures pushed { IfOk result (λ w. Pushed slots.old (W.Ref id ∷ item ∷ []) w slots.new) }
    ensures refused { OnErr result (slots.new ≡ release_all (W.Ref id ∷ item ∷ []) slots.old) }
{
    match slots.push(id, item) {
        Ok(()) => Ok(Word::Ref(id)),
        Err(_) => {
            slots.release_all(&[Word::Ref(id), item]);
            Err(NoMemory)
        }
    }
}

/// One element more on a builder, which is taken over with the element. Where nothing else refers to the builder it grows in
/// place, else the element stands in a node of its own.
pub fn array_push(
    alloc: Global,
    slots: &mut Slots,
    builder: Word,
    item: Word,
) -> Result<Word, NoMemory>
    requires builder { IsBuilder slots.old builder }
    requires fits { FitAll (builder ∷ item ∷ []) slots.old }
    requires counts { HasCounts slots.old (builder ∷ item ∷ []) }
    ensures pushed { IfOk result (λ w. Pushed slots.old (builder ∷ item ∷ []) w slots.new) }
    ensures refused { OnErr result (slots.new ≡ release_all (builder ∷ item ∷ []) slots.old) }
{
    if let Word::Ref(id) = builder {
        if slots.alone(id) {
            return push_inside(slots, id, item);
        }
    }
    push_beside(alloc, slots, builder, item)
}
