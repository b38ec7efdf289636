ghost use Rattle.std.specs.Prelude.{◌≡◌, Some};
ghost use Rattle.ddl_slots.specs.Slots.{dup_slot, dup_all};
ghost use Rattle.ddl_slot_map.specs.Fits.{FitsSlot, FitAll};
ghost use Rattle.ddl_slot_map.specs.View.{shown, gone, SameRoom};

use crate::cell::{Cell, State};
use crate::release::slot;
use ddl_slots::Word;
use slab::Slab;

/// One reference more.
pub fn raise(slab: &mut Slab<Cell>, key: usize)
    requires none { gone slab.old.slots ≡ 0 }
    requires fits { FitsSlot (Some key) (shown slab.old.slots) }
    ensures shown { shown slab.new.slots ≡ dup_slot (Some key) (shown slab.old.slots) }
    ensures none { gone slab.new.slots ≡ 0 }
    ensures room { SameRoom slab.old slab.new }
{
    if let Some(cell) = slab.get_mut(key) {
        if let State::Live(count) = cell.state {
            cell.state = State::Live(count + 1);
        }
    }
}

/// One reference more for each of these words.
pub fn raise_all(slab: &mut Slab<Cell>, words: &[Word])
    requires none { gone slab.old.slots ≡ 0 }
    requires fit { FitAll words.now (shown slab.old.slots) }
    ensures shown { shown slab.new.slots ≡ dup_all words.now (shown slab.old.slots) }
    ensures none { gone slab.new.slots ≡ 0 }
    ensures room { SameRoom slab.old slab.new }
{
    for word in words {
        if let Some(key) = slot(*word) {
            raise(slab, key);
        }
    }
}
