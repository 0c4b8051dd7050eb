//! The limits of an evaluation, what it has spent so far, and why it stops.
ghost use Rattle.std.specs.Prelude.{◌≡◌, ℕ, ◌+◌, ◌≤◌, ◌<◌, ◌^◌};
ghost use Rattle.cl_eval.specs.Meaning.{entering};
ghost use Rattle.cl_eval.specs.Agrees.{Entered};

use cl_outside::{Ledger, Steps};
use cl_value::Value;
use std::alloc::{AllocError, AllocFailed};

/// How many forms may be entered in all, and how many may be entered and not left.
#[derive(Clone, Copy, Debug)]
pub struct Limits {
    pub budget: u64,
    pub depth: u32,
}

/// How many forms may be entered in what is worked out on a counter of its own: the opening value of a slot, a default, a condition of a
/// dialog, a tester or a body of a translator, a predicate, an accept method.
pub const OWN_BUDGET: u64 = 10_000;

/// How many forms may be entered and not left.
pub const MAX_DEPTH: u32 = 512;

/// The limits of what is worked out on a counter of its own.
pub const OWN_LIMITS: Limits = Limits {
    budget: OWN_BUDGET,
    depth: MAX_DEPTH,
};

/// Why a run ended with no value: a trap of some kind, or want of memory.
#[derive(Debug, Drop)]
pub enum Stop {
    Trap(u8),
    Memory,
}

impl From<AllocError> for Stop {
    ghost use Rattle.cl_eval.specs.declared.metering.Stop.TheVariants.{Memory};

    ghost from_gives = { λ _ s. s ≡ Memory };

    fn from(_: AllocError) -> Stop {
        Stop::Memory
    }
}

impl From<AllocFailed<Value>> for Stop {
    ghost use Rattle.cl_eval.specs.declared.metering.Stop.TheVariants.{Memory};

    ghost from_gives = { λ _ s. s ≡ Memory };

    fn from(_: AllocFailed<Value>) -> Stop {
        Stop::Memory
    }
}

/// The forms entered so far, and the greatest number of them that were entered and not left.
#[derive(Debug, Drop)]
pub struct Meter {
    pub cost: u64,
    pub deepest: u32,
}

impl Meter {
    pub fn new() -> Meter
        ensures cost { result.cost ≡ 0 }
        ensures deepest { result.deepest ≡ 0 }
    {
        Meter {
            cost: 0,
            deepest: 0,
        }
    }

    /// Enters a form below `level` others, where `left` more levels may be entered. A form that
    /// traps here is not counted.
    pub fn enter<L: Ledger>(
        &mut self,
        left: u32,
        budget: u64,
        level: u32,
        steps: &mut Steps<L>,
    ) -> Result<(), Stop>
        requires { level + left < 2 ^ 32 }
        ensures meaning { Entered result self.new
            (entering left budget level self.old.cost self.old.deepest) }
        ensures ledger { steps.new + self.old.cost ≡ steps.old + self.new.cost }
    {
        if self.cost >= budget {
            return Err(Stop::Trap(5));
        }
        if left == 0 {
            return Err(Stop::Trap(6));
        }
        self.cost += 1;
        self.deepest = self.deepest.max(level + 1);
        steps.tick();
        Ok(())
    }
}
