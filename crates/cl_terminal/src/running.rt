//! The run of an application in a terminal: the terminal is taken over, and given back whatever happens.
ghost use Rattle.std.specs.Prelude.{◌≡◌, ◌≤◌};
ghost use Rattle.cl_application.specs.Panes.{IsPlaced};
ghost use Rattle.cl_frame.specs.Ground.{ground_of, meanings_of};
ghost use Rattle.cl_tables.specs.Rings.{HasNoRing};
ghost use Rattle.cl_terminal.specs.Running.{IsGivenBack, Ran, RanEntered, despite_fault};
ghost use Rattle.cl_updating.specs.Redisplays.{CanReuse};

use crate::flows::Closing;
use crate::seats::Seat;
use cl_ansi::AnsiDevice;
use cl_eval::{Program, Slots, Types};
use cl_outside::{Ledger, Sent, Sink, Source, Steps};
use std::alloc::AllocError;

/// How a run in a terminal ended.
#[derive(Clone, Copy, PartialEq, Eq, Debug)]
pub enum RunEnd {
    /// Out of memory before the first key.
    Memory,
    /// The keys were served.
    Served(Closing),
}

/// Runs an application in a terminal that is whole: takes the terminal over, opens the frame on these slots, serves the keys, and gives the
/// terminal back, whatever happened.
pub fn run<T: Types, G: Source, S: Sink, L: Ledger>(
    program: &Program<'_, T>,
    slots: &Slots,
    keys: &mut G,
    device: &mut AnsiDevice<S>,
    steps: &mut Steps<L>,
) -> RunEnd
    requires depth { program.now.limits.depth ≤ 512 }
    requires placed { IsPlaced program.now.app.now.frame }
    requires no_ring { HasNoRing program.now.app.now.tables }
    requires reuse { CanReuse program.now.app.now (meanings_of T.holds T.presents program.now.types.now) }
    ensures ran { Ran (ground_of T.holds T.presents T.reads T.hierarchy program.now) slots.now (G.left keys.old) (G.left keys.new)
        (G.faults keys.old) (G.faults keys.new) device.old device.new result }
    ensures given_back { IsGivenBack device.new }
    ensures lent { G.lent keys.new ≡ G.lent keys.old }
    ensures later { G.faults keys.old ≤ G.faults keys.new }
    ensures device_later { device.old.faults ≤ device.new.faults }
    ensures steps_later { steps.old ≤ steps.new }
{
    let end = match device.enter() {
        Sent::Done => run_entered(program, slots, keys, device, steps),
        Sent::Failed => RunEnd::Served(Closing::OutputFault),
    };
    match device.leave() {
        Sent::Done => end,
        Sent::Failed => end.despite_fault(),
    }
}

// Opens the frame, and serves the keys.
fn run_entered<T: Types, G: Source, S: Sink, L: Ledger>(
    program: &Program<'_, T>,
    slots: &Slots,
    keys: &mut G,
    device: &mut AnsiDevice<S>,
    steps: &mut Steps<L>,
) -> RunEnd
    requires depth { program.now.limits.depth ≤ 512 }
    requires placed { IsPlaced program.now.app.now.frame }
    requires no_ring { HasNoRing program.now.app.now.tables }
    requires reuse { CanReuse program.now.app.now (meanings_of T.holds T.presents program.now.types.now) }
    ensures ran { RanEntered (ground_of T.holds T.presents T.reads T.hierarchy program.now) slots.now (G.left keys.old) (G.left keys.new)
        (G.faults keys.old) (G.faults keys.new) device.old.faults device.new result }
    ensures lent { G.lent keys.new ≡ G.lent keys.old }
    ensures later { G.faults keys.old ≤ G.faults keys.new }
    ensures device_later { device.old.faults ≤ device.new.faults }
    ensures steps_later { steps.old ≤ steps.new }
{
    match Seat::open(program, slots, device, steps) {
        Ok(mut seat) => RunEnd::Served(seat.serve(program, keys, device, steps)),
        Err(AllocError) => RunEnd::Memory,
    }
}

impl RunEnd {
    // The same where the terminal failed to be given back.
    fn despite_fault(self) -> RunEnd
        ensures { result ≡ despite_fault self }
    {
        match self {
            RunEnd::Memory => RunEnd::Memory,
            RunEnd::Served(_) => RunEnd::Served(Closing::OutputFault),
        }
    }
}
