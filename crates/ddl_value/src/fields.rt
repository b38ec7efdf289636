ghost use Rattle.std.specs.Prelude.{◌≡◌, ◌∷◌, [], Some, IsSome};
ghost use Rattle.ddl_slots.specs.declared.word.Word.TheVariants as W;
ghost use Rattle.ddl_value.specs.Values.{word_at, MayShare, GivesWord};

use ddl_slot_map::Slots;
use ddl_slots::{SlotId, Word};

/// A field of a record, which is taken over.
pub fn field(slots: &mut Slots, rec: SlotId, at: u32) -> Word
    requires there { IsSome (word_at slots.old (W.Ref rec) at) }
    requires shares { MayShare (word_at slots.old (W.Ref rec) at) slots.old }
    ensures word { word_at slots.old (W.Ref rec) at ≡ Some result }
    ensures slots { GivesWord slots.old (W.Ref rec ∷ []) result slots.new }
{
    let word = slots.node(rec).words()[at as usize];
    slots.dup_all(&[word]);
    slots.release(rec);
    word
}
