ghost use Rattle.std.specs.Prelude.{◌≡◌, ◌<◌, ◌+◌, ◌^◌, ◌==◌, Some, None, IfOk, IfErr, OnOk, OnErr, IfSome, IfNone};
ghost use Rattle.std.specs.Prelude.{OnSome};
ghost use Rattle.std.specs.Prelude.{IsSome, []};
ghost use Rattle.ddl_slots.specs.Slots.{entry, put, made, dup_slot, dup_all, release, release_all, live};
ghost use Rattle.ddl_slot_map.specs.Fits.{FitsSlot, FitAll};
ghost use Rattle.ddl_slot_map.specs.Pushed.{pushed_entry};

use crate::cell::{Cell, State};
use crate::node::Node;
use crate::release::{lower, settle, walk};
use crate::sharing::{raise, raise_all};
use ddl_base::NoMemory;
use ddl_slots::{SlotId, Word};
use slab::Slab;
use std::alloc::Global;
use std::marker::Model;

/// Counted nodes under the numbers of slots. Contracts see a finite map.
#[derive(Drop)]
pub struct Slots {
    slab: Slab<Cell>,
}

impl Model for Slots {
    ghost use Rattle.std.specs.Prelude.{◌≡◌};
    ghost use Rattle.ddl_slots.specs.Slots.{Slots as Map};
    ghost use Rattle.ddl_slot_map.specs.View.{shown, gone};

    ghost Value = { Map };

    ghost view = { λ s. shown s.slab.slots };

    ghost invariant = { λ s. gone s.slab.slots ≡ 0 };
}

/// There is no memory for a slot; the node comes back.
#[derive(Drop)]
pub struct NoRoom {
    pub node: Node,
}

impl Slots {
    /// No slot.
    pub fn new(alloc: Global) -> Self
        ensures { result ≡ [] }
    {
        Slots {
            slab: Slab::new(alloc),
        }
    }

    /// A new slot with a count of 1, under a number that no live slot has.
    pub fn make(&mut self, node: Node) -> Result<SlotId, NoRoom>
        ensures vacant { IfOk result (λ id. entry self.old id.key ≡ None) }
        ensures made { IfOk result (λ id. self.new ≡ made id.key node self.old) }
        ensures kept { OnErr result (self.new ≡ self.old) }
        ensures back { IfErr result (λ refused. refused.node ≡ node) }
    {
        match self.slab.insert(Cell {
            state: State::Live(1),
            node,
        }) {
            Ok(key) => Ok(SlotId { key }),
            Err(failed) => Err(NoRoom {
                node: failed.value.node,
            }),
        }
    }

    /// One reference more.
    pub fn dup(&mut self, id: SlotId)
        requires fits { FitsSlot (Some id.key) self.old }
        ensures { self.new ≡ dup_slot (Some id.key) self.old }
    {
        raise(&mut self.slab, id.key);
    }

    /// One reference more for each of these words.
    pub fn dup_all(&mut self, words: &[Word])
        requires fit { FitAll words.now self.old }
        ensures { self.new ≡ dup_all words.now self.old }
    {
        raise_all(&mut self.slab, words);
    }

    /// One reference less. A slot that has none left goes, and so does one reference to each slot that its words refer to. It
    /// takes no memory, and no depth of calls however long the chain is.
    pub fn release(&mut self, id: SlotId)
        ensures { self.new ≡ release id.key self.old }
    {
        let dead = lower(&mut self.slab, None, id.key);
        settle(&mut self.slab, dead);
    }

    /// The references of these words go, as in `release`.
    pub fn release_all(&mut self, words: &[Word])
        ensures { self.new ≡ release_all words.now self.old }
    {
        let dead = walk(&mut self.slab, None, words);
        settle(&mut self.slab, dead);
    }

    /// A new slot for a node that is made of some words, whose references go: those of the node are added first. Where there is
    /// no memory they go all the same, and the node comes back.
    pub fn exchange(&mut self, given: &[Word], node: Node) -> Result<SlotId, NoRoom>
        requires fit { FitAll node.words self.old }
        ensures vacant { IfOk result (λ id. entry (release_all given.now (dup_all node.words self.old)) id.key ≡ None) }
        ensures made { IfOk result (λ id. self.new
            ≡ made id.key node (release_all given.now (dup_all node.words self.old))) }
        ensures kept { OnErr result (self.new ≡ release_all given.now self.old) }
        ensures back { IfErr result (λ refused. refused.node ≡ node) }
    {
        if self.slab.reserve(1).is_err() {
            let dead = walk(&mut self.slab, None, given);
            settle(&mut self.slab, dead);
            return Err(NoRoom { node });
        }
        raise_all(&mut self.slab, node.words());
        let dead = walk(&mut self.slab, None, given);
        settle(&mut self.slab, dead);
        let key = self.slab.insert_reserved(Cell {
            state: State::Live(1),
            node,
        });
        Ok(SlotId { key })
    }

    /// The node of a slot.
    pub fn node(&self, id: SlotId) -> &Node
        requires live { IsSome (entry self.now id.key) }
        ensures { IfSome (entry self.now id.key) (λ e. result.now ≡ e.node) }
    {
        match self.slab.get(id.key) {
            Some(cell) => &cell.node,
            None => unreachable!(),
        }
    }

    /// How many slots are live.
    pub fn live(&self) -> usize
        ensures { result ≡ live self.now }
    {
        self.slab.len()
    }

    /// Whether nothing else refers to the slot.
    pub fn alone(&self, id: SlotId) -> bool
        requires live { IsSome (entry self.now id.key) }
        ensures { IfSome (entry self.now id.key) (λ e. result ≡ (e.count == 1)) }
    {
        match self.slab.get(id.key) {
            Some(cell) => match cell.state {
                State::Live(count) => count == 1,
                State::Gone(_) => unreachable!(),
            },
            None => unreachable!(),
        }
    }

    /// One word more in the node of a slot. Where there is no memory nothing changes.
    pub fn push(&mut self, id: SlotId, word: Word) -> Result<(), NoMemory>
        requires live { IsSome (entry self.old id.key) }
        ensures pushed { OnOk result (self.new ≡ put self.old id.key (pushed_entry (entry self.old id.key) word)) }
        ensures kept { OnErr result (self.new ≡ self.old) }
    {
        match self.slab.get_mut(id.key) {
            Some(cell) => cell.node.push(word),
            None => unreachable!(),
        }
    }

    /// The node of a slot that nothing else refers to; the slot goes, and what its words refer to stays.
    pub fn take(&mut self, id: SlotId) -> Node
        requires alone { IfSome (entry self.old id.key) (λ e. e.count ≡ 1) }
        requires live { IsSome (entry self.old id.key) }
        ensures node { IfSome (entry self.old id.key) (λ e. result ≡ e.node) }
        ensures gone { self.new ≡ put self.old id.key None }
    {
        self.slab.remove(id.key).node
    }
}
