//! The numbers of the calls that fail.
ghost use Rattle.std.specs.Prelude.{◌≡◌, ◌↔◌, ◌+◌, ◌-◌, IsTrue, Contains};
ghost use Rattle.cl_outside.specs.Memory.{IsToFail, counted, new_plan, one_more};

use std::marker::Model;

// Which calls of an object in memory are to fail: their numbers, from 1, and how many there were.
#[derive(Drop)]
pub(crate) struct FaultPlan {
    numbers: Vec<u64>,
    calls: u64,
}

impl Model for FaultPlan {
    ghost use Rattle.cl_outside.specs.Memory.{Plan};

    ghost Value = { Plan };

    ghost view = { λ p. record { numbers = p.numbers.items; calls = p.calls } };
}

impl FaultPlan {
    pub(crate) fn new(numbers: Vec<u64>) -> FaultPlan
        ensures { result ≡ new_plan numbers.items }
    {
        FaultPlan { numbers, calls: 0 }
    }

    // Counts a call, and says whether it is to fail. After 2^64 - 1 calls none is.
    pub(crate) fn next_fails(&mut self) -> bool
        ensures listed { IsTrue result ↔ IsToFail self.old }
        ensures counted { self.new ≡ counted self.old }
    {
        let fails = is_listed(self.numbers.as_slice(), self.calls);
        self.calls = raised(self.calls);
        fails
    }
}

// One more of a count, which stands still at 2^64 - 1.
pub(crate) fn raised(count: u64) -> u64
    ensures { result ≡ one_more count }
{
    count.saturating_add(1)
}

// Whether the number after this one is listed.
fn is_listed(numbers: &[u64], before: u64) -> bool
    ensures { IsTrue result ↔ Contains numbers.now (before + 1) }
{
    numbers
        .iter()
        .any(|number| *number > 0 && *number - 1 == before)
}
