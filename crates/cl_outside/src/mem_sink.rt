//! A sink in memory, which fails where it is told to.
ghost use Rattle.std.specs.Prelude.{◌≡◌, ◌↔◌, ◌⊎◌, ◌-◌, ◌≤◌, ◌<◌, [], length, Some, IfOk};
ghost use Rattle.cl_outside.specs.Lent.{told_only};
ghost use Rattle.cl_outside.specs.Outside.{WriteTook, FailedRose};
ghost use Rattle.cl_outside.specs.Memory.{AllPositive, IsToFail, counted, new_plan, CountsFault, WritesPiece};

use crate::answers::Took;
use crate::pieces::Pieces;
use crate::plan::{FaultPlan, raised};
use crate::sinks::Sink;
use std::alloc::{AllocError, Global};
use std::marker::Model;

/// A sink in memory, whose room is taken when it is made.
#[derive(Drop)]
pub struct MemSink {
    taken: Vec<u8>,
    room: usize,
    pieces: Pieces,
    plan: FaultPlan,
    faults: u64,
}

impl Model for MemSink {
    ghost use Rattle.std.specs.Prelude.{◌≤◌, length, vec_capacity};
    ghost use Rattle.cl_outside.specs.Memory.{MemorySink};

    ghost Value = { MemorySink };

    ghost view = { λ s. record {
      taken = s.taken.items;
      room = s.room;
      pieces = s.pieces;
      plan = s.plan;
      faults = s.faults;
    } };

    ghost invariant = { λ s. (length s.taken.items ≤ s.room) × (s.room ≤ vec_capacity s.taken) };
}

impl MemSink {
    /// `room` is the number of bytes that may be written. The n-th of `pieces` says how many bytes
    /// the n-th write that does not fail takes, where as many are offered and there is room; behind
    /// the last piece a write takes all that is offered and has room. `fails` lists the numbers,
    /// from 1, of the calls of `write` that are to fail.
    pub fn new(
        alloc: Global,
        room: usize,
        pieces: Vec<usize>,
        fails: Vec<u64>,
    ) -> Result<MemSink, AllocError>
        requires { AllPositive pieces.items }
        ensures taken { IfOk result (λ s. s.taken ≡ []) }
        ensures room { IfOk result (λ s. s.room ≡ room) }
        ensures pieces { IfOk result (λ s. s.pieces ≡ pieces.items) }
        ensures plan { IfOk result (λ s. s.plan ≡ new_plan fails.items) }
        ensures faults { IfOk result (λ s. s.faults ≡ 0) }
    {
        Ok(MemSink {
            taken: Vec::with_capacity(alloc, room)?,
            room,
            pieces: Pieces::new(pieces),
            plan: FaultPlan::new(fails),
            faults: 0,
        })
    }

    /// The bytes that were taken so far.
    pub fn taken(&self) -> &[u8]
        ensures { result.now ≡ self.now.taken }
    {
        self.taken.as_slice()
    }
}

impl Sink for MemSink {
    ghost taken = { λ s. Some s.taken };

    ghost faults = { λ s. s.faults };

    ghost lent = { λ _. told_only };

    fn write(&mut self, bytes: &[u8]) -> Took
        requires { 0 < length bytes.now }
        ensures bytes { WriteTook (Some self.old.taken) (Some self.new.taken) bytes.now result }
        ensures cause { FailedRose self.old.faults self.new.faults result }
        ensures fails { (result ≡ Took.Failed)
            ↔ (IsToFail self.old.plan ⊎ (length self.old.taken ≡ self.old.room)) }
        ensures plan { self.new.plan ≡ counted self.old.plan }
        ensures count { CountsFault self.old.faults self.new.faults result }
        ensures room { self.new.room ≡ self.old.room }
        ensures piece { WritesPiece self.old self.new bytes.now result }
    {
        let fails = self.plan.next_fails();
        let room = self.room - self.taken.len();
        if fails || room == 0 {
            self.faults = raised(self.faults);
            return Took::Failed;
        }
        let n = self.pieces.next(bytes.len()).min(room);
        if self.taken.extend_from_slice(&bytes[..n]).is_err() {
            unreachable!();
        }
        Took::Bytes(n)
    }
}
