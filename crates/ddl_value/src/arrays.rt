ghost use Rattle.std.specs.Prelude.{◌≡◌, ◌∷◌, [], Some, IsSome, IfSome, IfNone, unwrap_or};
ghost use Rattle.ddl_slots.specs.declared.word.Word.TheVariants as W;
ghost use Rattle.ddl_slots.specs.Slots.{release_all};
ghost use Rattle.ddl_value.specs.Values.{element_by, element_at, size_by, size_at, MayShare, GivesWord};

use ddl_slot_map::{Node, Slots};
use ddl_slots::{NodeKind, SlotId, Word};

/// The element at a place of an array's node; none past its end.
fn element(node: &Node, at: u64) -> Option<Word>
    ensures { result ≡ element_by node.now at }
{
    match node.kind() {
        NodeKind::Array => node.words().get(at as usize).copied(),
        NodeKind::ByteArray => match node.bytes().get(at as usize) {
            Some(byte) => Some(Word::Uint(u128::from(*byte))),
            None => None,
        },
        _ => None,
    }
}

/// How many elements an array's node has.
fn size(node: &Node) -> u64
    requires there { IsSome (size_by node.now) }
    ensures { size_by node.now ≡ Some result }
{
    match node.kind() {
        NodeKind::ByteArray => node.bytes().len() as u64,
        _ => node.words().len() as u64,
    }
}

/// An element of an array, which is taken over; none past its end.
pub fn array_get(slots: &mut Slots, array: SlotId, at: u64) -> Option<Word>
    requires there { IsSome (size_at slots.old (W.Ref array)) }
    requires shares { MayShare (element_at slots.old (W.Ref array) at) slots.old }
    ensures word { result ≡ element_at slots.old (W.Ref array) at }
    ensures slots { IfSome result (λ w. GivesWord slots.old (W.Ref array ∷ W.Uint at ∷ []) w slots.new) }
    ensures absent { IfNone result (slots.new ≡ release_all (W.Ref array ∷ W.Uint at ∷ []) slots.old) }
{
    match element(slots.node(array), at) {
        Some(word) => {
            slots.dup_all(&[word]);
            slots.release(array);
            Some(word)
        }
        None => {
            slots.release(array);
            None
        }
    }
}

/// How many elements an array has. It stays as it is.
pub fn array_length(slots: &Slots, array: SlotId) -> u64
    requires there { IsSome (size_at slots.now (W.Ref array)) }
    ensures { size_at slots.now (W.Ref array) ≡ Some result }
{
    size(slots.node(array))
}
