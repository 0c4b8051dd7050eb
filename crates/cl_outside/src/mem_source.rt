//! A source in memory, which fails where it is told to.
ghost use Rattle.std.specs.Prelude.{◌≡◌, ◌↔◌, ◌+◌, ◌-◌, ◌≤◌, ◌<◌, length, drop, Some};
ghost use Rattle.cl_outside.specs.Outside.{ReadTook, FailedRose};
ghost use Rattle.cl_outside.specs.Memory.{IsToFail, counted, new_plan, CountsFault, ReadsAll};

use crate::answers::Took;
use crate::handing::hand_over;
use crate::plan::{FaultPlan, raised};
use crate::sources::Source;
use crate::tallies::Tally;
use std::marker::Model;

/// A source over bytes in memory. It hands over as much as the buffer holds.
#[derive(Drop)]
pub struct MemSource {
    content: Vec<u8>,
    at: usize,
    plan: FaultPlan,
    faults: u64,
    reads: Tally,
}

impl Model for MemSource {
    ghost use Rattle.std.specs.Prelude.{drop, length, ◌≤◌};
    ghost use Rattle.cl_outside.specs.Memory.{MemorySource};

    ghost Value = { MemorySource };

    ghost view = { λ s. record
        { left = drop s.at s.content.items; plan = s.plan; faults = s.faults; reads = s.reads.count } };

    ghost invariant = { λ s. s.at ≤ length s.content.items };
}

impl MemSource {
    /// `fails` lists the numbers, from 1, of the calls of `read` that are to fail.
    pub fn new(content: Vec<u8>, fails: Vec<u64>) -> MemSource
        ensures left { result.left ≡ content.items }
        ensures plan { result.plan ≡ new_plan fails.items }
        ensures faults { result.faults ≡ 0 }
        ensures reads { result.reads ≡ 0 }
    {
        MemSource {
            content,
            at: 0,
            plan: FaultPlan::new(fails),
            faults: 0,
            reads: Tally::new(),
        }
    }
}

impl Source for MemSource {
    ghost left = { λ s. Some s.left };

    ghost calls = { λ s. s.reads };

    ghost faults = { λ s. s.faults };

    fn read(&mut self, buf: &mut [u8]) -> Took
        requires { 0 < length buf.old }
        ensures bytes { ReadTook (Some self.old.left) (Some self.new.left) buf.new result }
        ensures calls { self.new.reads ≡ self.old.reads + 1 }
        ensures cause { FailedRose self.old.faults self.new.faults result }
        ensures fails { (result ≡ Took.Failed) ↔ IsToFail self.old.plan }
        ensures plan { self.new.plan ≡ counted self.old.plan }
        ensures count { CountsFault self.old.faults self.new.faults result }
        ensures amount { ReadsAll self.old.left buf.new result }
    {
        self.reads.up();
        if self.plan.next_fails() {
            self.faults = raised(self.faults);
            return Took::Failed;
        }
        let n = hand_over(self.content.as_slice(), self.at, buf);
        self.at += n;
        Took::Bytes(n)
    }
}
