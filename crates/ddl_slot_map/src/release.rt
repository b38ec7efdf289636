ghost use Rattle.std.specs.Prelude.{◌≡◌, Some};
ghost use Rattle.ddl_slots.specs.Slots.{slot_of};
ghost use Rattle.ddl_slot_map.specs.View.{WalksAll, WalksRef, SettlesAll, SameRoom, HasAsMuch};

use crate::cell::{Cell, State};
use ddl_slots::{Origin, Word};
use slab::Slab;

/// The slot that a word refers to.
pub fn slot(word: Word) -> Option<usize>
    ensures { result ≡ slot_of word }
{
    match word {
        Word::Ref(id) => Some(id.key),
        Word::Stream(stream) => match stream.origin {
            Origin::Array(id) => Some(id.key),
            Origin::Input => None,
        },
        _ => None,
    }
}

/// One reference less; a slot that has none left goes to the front of those that wait.
pub fn lower(slab: &mut Slab<Cell>, dead: Option<usize>, key: usize) -> Option<usize>
    ensures walks { WalksRef slab.old.slots dead (Some key) slab.new.slots result }
    ensures room { SameRoom slab.old slab.new }
{
    if let Some(cell) = slab.get_mut(key) {
        if let State::Live(count) = cell.state {
            if count > 1 {
                cell.state = State::Live(count - 1);
                return dead;
            }
            if count == 1 {
                cell.state = State::Gone(dead);
                return Some(key);
            }
        }
    }
    dead
}

/// The references of some words go.
pub fn walk(slab: &mut Slab<Cell>, mut dead: Option<usize>, words: &[Word]) -> Option<usize>
    ensures walks { WalksAll slab.old.slots dead words.now slab.new.slots result }
    ensures room { SameRoom slab.old slab.new }
{
    for word in words {
        if let Some(key) = slot(*word) {
            dead = lower(slab, dead, key);
        }
    }
    dead
}

/// The words of the slots that wait are followed, those of the last one first, until none waits. It takes no memory.
pub fn settle(slab: &mut Slab<Cell>, mut dead: Option<usize>)
    ensures settles { SettlesAll slab.old.slots dead slab.new.slots }
    ensures room { HasAsMuch slab.old slab.new }
{
    while let Some(first) = dead {
        let Some(cell) = slab.try_remove(first) else {
            return;
        };
        let next = match cell.state {
            State::Gone(next) => next,
            State::Live(_) => None,
        };
        dead = walk(slab, next, cell.node.words());
    }
}
