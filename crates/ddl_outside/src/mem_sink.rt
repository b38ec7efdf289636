ghost use Rattle.std.specs.Prelude.{◌≡◌, ◌∷◌, ◌++◌, [], IfOk, OnOk, OnErr};
ghost use Rattle.ddl_outside.specs.Counts.{one_more};

use crate::{Offer, Sink, Took};
use ddl_base::NoMemory;
use std::alloc::Global;
use std::marker::Model;

/// A sink in memory with room for so many bytes, which fails at the calls that it is told.
#[derive(Drop)]
pub struct MemSink {
    bytes: Vec<u8>,
    offers: Vec<Offer>,
    room: usize,
    failing: Vec<u64>,
    calls: u64,
    faults: u64,
}

impl Model for MemSink {
    ghost use Rattle.std.specs.Prelude.{◌+◌, ◌≤◌, vec_capacity, vec_len};
    ghost use Rattle.ddl_outside.specs.MemSink.{MemSinkState};

    ghost Value = { MemSinkState };

    ghost view = { λ s. record {
      bytes = s.bytes.items;
      offers = s.offers.items;
      room = s.room;
      failing = s.failing.items;
      calls = s.calls;
      faults = s.faults;
    } };

    ghost invariant = { λ s. (vec_len s.bytes + s.room ≤ vec_capacity s.bytes)
        × (vec_len s.offers + s.room ≤ vec_capacity s.offers) };
}

impl MemSink {
    ghost use Rattle.ddl_outside.specs.MemSink.{empty_sink, sink_counted, sink_fails};

    /// A sink with room for so many bytes, and for what their writes were offered, which it takes at once.
    pub fn new(alloc: Global, room: usize) -> Result<Self, NoMemory>
        ensures { IfOk result (λ sink. sink ≡ empty_sink room) }
    {
        Ok(MemSink {
            bytes: Vec::with_capacity(alloc, room)?,
            offers: Vec::with_capacity(alloc, room)?,
            room,
            failing: Vec::new(alloc),
            calls: 0,
            faults: 0,
        })
    }

    /// Makes the write of this number fail, counted from 1.
    pub fn fail_at(&mut self, call: u64) -> Result<(), NoMemory>
        ensures ok { OnOk result (self.new ≡ record self.old {
          failing = self.old.failing ++ call ∷ [];
        }) }
        ensures err { OnErr result (self.new ≡ self.old) }
    {
        self.failing.push(call)?;
        Ok(())
    }

    /// What was written.
    pub fn bytes(&self) -> &[u8]
        ensures { result.now ≡ self.now.bytes }
    {
        &self.bytes
    }

    /// Counts a failure.
    fn fault(&mut self)
        ensures { self.new ≡ record self.old { faults = one_more self.old.faults } }
    {
        self.faults = self.faults.saturating_add(1);
    }

    /// Counts a call, and says whether it fails.
    fn counts_failing(&mut self) -> bool
        ensures state { self.new ≡ sink_counted self.old }
        ensures fails { result ≡ sink_fails self.new }
    {
        self.calls = self.calls.saturating_add(1);
        let calls = self.calls;
        self.failing.iter().any(|call| *call == calls)
    }
}

impl Sink for MemSink {
    ghost use Rattle.std.specs.Prelude.{◌<◌, length};
    ghost use Rattle.ddl_outside.specs.MemSink.{sink_state, FailsAsNamed, IsCounted};
    ghost use Rattle.ddl_outside.specs.Sink.{IsTook};

    ghost state = { sink_state };

    /// The write that `fail_at` names fails, by the count of all writes.
    #[tactic(auto, using(crate::proofs::SinkLemmas::sink_lemmas))]
    fn write(&mut self, piece: &[u8]) -> Took
        requires { 0 < length piece.now }
        ensures answer { IsTook (sink_state self.old) (sink_state self.new) piece.now result }
        ensures named { FailsAsNamed self.old result }
        ensures calls { IsCounted self.old self.new }
    {
        if self.counts_failing() || self.room == 0 {
            self.fault();
            return Took::Failed;
        }
        let count = piece.len().min(self.room);
        self.bytes.extend_from_slice(&piece[..count]).unwrap();
        let left = piece.len() - count;
        self.offers.push(Offer { took: count, left }).unwrap();
        self.room -= count;
        Took::Took(count)
    }
}
