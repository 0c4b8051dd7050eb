//! What was spent and kept so far.
ghost use Rattle.std.specs.Prelude.{◌≡◌, ◌+◌, ◌≤◌, if◌then◌else◌, IfOk, None, OnOk};
ghost use Rattle.cl_damage.specs.Keeps.{none, with_last};
ghost use Rattle.cl_updating.specs.Levels.{old_of};
ghost use Rattle.cl_updating.specs.Openings.{opening_of};
ghost use Rattle.cl_updating.specs.Tallies.{LeavesTrapped, with_kept};

use crate::levels::Old;
use crate::openings::Opening;
use cl_damage::Keeps;
use cl_eval::{Meter, Stop};
use cl_outside::{Ledger, OwnLedger, Steps, own_steps};
use std::alloc::{AllocError, Global};

/// The steps that were made, how many updates were kept where they stood and how many were moved, how many items these hold, and what was
/// kept of the updates of the level that is being drawn.
#[derive(Drop)]
pub struct Tally {
    pub steps: Steps<OwnLedger>,
    pub kept: u64,
    pub moved: u64,
    pub items: u64,
    pub keeps: Keeps,
}

impl Tally {
    /// Nothing so far.
    pub fn new(alloc: Global) -> Tally
        ensures { result ≡ record { steps = 0; kept = 0; moved = 0; items = 0; keeps = none } }
    {
        Tally {
            steps: own_steps(),
            kept: 0,
            moved: 0,
            items: 0,
            keeps: Keeps::new(alloc),
        }
    }

    /// Counts an old update that is kept at this opening; it fails where there are more than can be counted, and where memory is wanting.
    pub fn add(&mut self, old: &Old<'_>, opening: &Opening<'_>) -> Result<(), AllocError>
        ensures { OnOk result (self.new ≡ with_kept (old_of old.now) (opening_of opening.now) self.old) }
    {
        let still = opening.is_still(old);
        let items = sum(old.piece.inside().count(), self.items)?;
        let kept = one_more(still, self.kept)?;
        let moved = one_more(!still, self.moved)?;
        self.keeps.push_kept(opening.moved(old)?)?;
        self.items = items;
        self.kept = kept;
        self.moved = moved;
        Ok(())
    }

    /// Begins the body of an update that is drawn anew, of whose updates nothing is kept yet. It gives what was kept around it.
    pub fn enter(&mut self, alloc: Global) -> Keeps
        ensures outer { result ≡ self.old.keeps }
        ensures inside { self.new ≡ record self.old { keeps = none } }
    {
        std::mem::replace(&mut self.keeps, Keeps::new(alloc))
    }

    /// Ends the body of an update that is drawn anew: what was kept inside stands behind what was kept around it. It fails where memory is
    /// wanting.
    pub fn leave(&mut self, outer: Keeps) -> Result<(), AllocError>
        ensures { OnOk result (self.new ≡ record self.old { keeps = with_last outer None self.old.keeps }) }
    {
        let inside = std::mem::replace(&mut self.keeps, outer);
        self.keeps.push_anew(inside)
    }

    /// The same of a body that trapped: the trap, or want of memory.
    pub fn leave_trapped(&mut self, outer: Keeps, kind: u8) -> Stop
        ensures { LeavesTrapped result kind outer self.old self.new }
    {
        match self.leave(outer) {
            Ok(()) => Stop::Trap(kind),
            Err(_) => Stop::Memory,
        }
    }

    /// Makes as many steps as were counted, which are no more than this meter's cost.
    pub fn pass_on<L: Ledger>(&self, meter: &Meter, steps: &mut Steps<L>)
        requires { self.now.steps ≤ meter.now.cost }
        ensures { steps.new ≡ steps.old + self.now.steps }
    {
        let count = self.steps.ledger().seen().min(meter.cost);
        'ticks: for _tick in 0..count {
            steps.tick();
        }
    }
}

// One more, where this is so.
fn one_more(is_so: bool, count: u64) -> Result<u64, AllocError>
    ensures { IfOk result (λ all. all ≡ (if is_so then 1 else 0) + count) }
{
    if is_so { sum(1, count) } else { Ok(count) }
}

// The sum of two counts.
fn sum(first: u64, second: u64) -> Result<u64, AllocError>
    ensures { IfOk result (λ all. all ≡ first + second) }
{
    first.checked_add(second).ok_or(AllocError)
}
