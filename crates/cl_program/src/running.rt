//! The run of an application: its frame is opened on a device, and gestures are served.
ghost use Rattle.std.specs.Prelude.{◌≡◌, ◌≤◌, ◌+◌, ℕ, [], IfOk, false};
ghost use Rattle.cl_application.specs.Panes.{IsPlaced};
ghost use Rattle.cl_frame.specs.Ground.{ground_of, meanings_of};
ghost use Rattle.cl_frame.specs.Sending.{Wire, wire_of};
ghost use Rattle.cl_opening.specs.Opening.{opening_slots};
ghost use Rattle.cl_redisplay.specs.Screens.{Agree};
ghost use Rattle.cl_program.specs.Run.{EndsAs, IsOpening, OpensOn, RanLoaded, limits_of, opening_cost};
ghost use Rattle.cl_program.specs.Surroundings.{streams};
ghost use Rattle.cl_tables.specs.Rings.{HasNoRing};
ghost use Rattle.cl_updating.specs.Redisplays.{CanReuse};

use cl_eval::{Limits, MAX_DEPTH, Program, Slots, Types};
use cl_gesture::{Ahead, Gestures};
use cl_outside::{Device, Ledger, LentSource, Sink, Source, Steps};
use cl_session::{End, Session};
use std::alloc::AllocError;

/// How many forms a display or a command may enter, where the words give no budget.
const BUDGET: u32 = 1_000_000;

/// How a run ended.
#[derive(Clone, Copy)]
pub enum How {
    /// The words are no command, and the usage line was written.
    Usage,
    /// The words are no command, and the output failed in the usage line.
    UsageCut,
    /// The place failed with the application's file.
    AppFault,
    /// The text is refused, and the refusal line was written.
    Refused,
    /// The text is refused, and the output failed in the refusal line.
    RefusalCut,
    /// The text that was to be checked declares an application, and the line of that was written.
    Loads,
    /// The same, and the output failed in that line.
    LoadsCut,
    /// The place failed to make the wire's file.
    WireFault,
    /// Want of memory before the first gesture, or in a bench.
    Memory,
    /// The bench was run, and its line was written.
    Benched,
    /// The bench was run, and the output failed in its line.
    BenchCut,
    /// The gestures were served.
    Ended(End),
}

/// A session whose frame was just opened, with the slots.
#[derive(Drop)]
pub(crate) struct Opening {
    pub(crate) session: Session,
    slots: Slots,
}

/// The limits of a run with this budget.
pub fn limits_of(budget: Option<u32>) -> Limits
    ensures { result ≡ limits_of budget }
{
    let budget = match budget {
        Some(forms) => forms,
        None => BUDGET,
    };
    Limits {
        budget: u64::from(budget),
        depth: MAX_DEPTH,
    }
}

/// Runs a program from the opening slots of its application, on a device that is whole.
pub fn run_program<T: Types, D: Device, G: Source, O: Sink, L: Ledger>(
    program: &Program<'_, T>,
    slots: &Slots,
    device: &mut D,
    gestures: &mut G,
    out: &mut O,
    steps: &mut Steps<L>,
) -> How
    requires depth { program.now.limits.depth ≤ 512 }
    requires placed { IsPlaced program.now.app.now.frame }
    requires no_ring { HasNoRing program.now.app.now.tables }
    requires reuse { CanReuse program.now.app.now (meanings_of T.holds T.presents program.now.types.now) }
    requires opening { slots.now ≡ opening_slots program.now.app.now }
    requires whole { D.broken device.old ≡ false }
    ensures ran { RanLoaded (ground_of T.holds T.presents T.reads T.hierarchy program.now) (streams (G.left gestures.old)
        (G.faults gestures.old) (O.taken out.old) (O.faults out.old) steps.old)
        (streams (G.left gestures.new) (G.faults gestures.new) (O.taken out.new) (O.faults out.new)
        steps.new) (wire_of (D.wire device.old) (D.faults device.old) (D.lent device.old).told)
        (wire_of (D.wire device.new) (D.faults device.new) (D.lent device.new).told) result }
    ensures lent { G.lent gestures.new ≡ G.lent gestures.old }
    ensures later { G.faults gestures.old ≤ G.faults gestures.new }
    ensures out_lent { O.lent out.new ≡ O.lent out.old }
    ensures out_later { O.faults out.old ≤ O.faults out.new }
    ensures device_lent { D.lent device.new ≡ D.lent device.old }
    ensures device_later { D.faults device.old ≤ D.faults device.new }
    ensures steps_later { steps.old ≤ steps.new }
{
    let Ok(room) = Ahead::new(program.alloc) else {
        return How::Memory;
    };
    match open(program, slots, device, steps) {
        Ok(mut opening) => How::Ended(opening.serve(program, room, device, gestures, out, steps)),
        Err(AllocError) => How::Memory,
    }
}

/// Opens the frame of an application.
pub(crate) fn open<T: Types, D: Device, L: Ledger>(
    program: &Program<'_, T>,
    slots: &Slots,
    device: &mut D,
    steps: &mut Steps<L>,
) -> Result<Opening, AllocError>
    requires depth { program.now.limits.depth ≤ 512 }
    requires placed { IsPlaced program.now.app.now.frame }
    requires no_ring { HasNoRing program.now.app.now.tables }
    requires reuse { CanReuse program.now.app.now (meanings_of T.holds T.presents program.now.types.now) }
    requires opening { slots.now ≡ opening_slots program.now.app.now }
    requires whole { D.broken device.old ≡ false }
    ensures opening { IfOk result
        (λ o. IsOpening (ground_of T.holds T.presents T.reads T.hierarchy program.now) o (D.broken device.new)) }
    ensures opens { IfOk result (λ o. OpensOn (ground_of T.holds T.presents T.reads T.hierarchy program.now) o.session.frame.screen.stale
        (wire_of (D.wire device.old) (D.faults device.old) (D.lent device.old).told)
        (wire_of (D.wire device.new) (D.faults device.new) (D.lent device.new).told)) }
    ensures agree { IfOk result (λ o. Agree o.session.frame.screen.stale
        o.session.frame.screen.raster (D.broken device.new) (D.cleared device.new)
        (D.picture device.new)) }
    ensures ledger { IfOk result
        (λ _. steps.new ≡ steps.old + opening_cost (ground_of T.holds T.presents T.reads T.hierarchy program.now)) }
    ensures later { steps.old ≤ steps.new }
    ensures at_most { steps.new ≤ steps.old + opening_cost (ground_of T.holds T.presents T.reads T.hierarchy program.now) }
    ensures lent { D.lent device.new ≡ D.lent device.old }
    ensures device_later { D.faults device.old ≤ D.faults device.new }
{
    let slots = slots.copy(program.alloc)?;
    let session = Session::new(program, &slots, device, steps)?;
    Ok(Opening { session, slots })
}

impl Opening {
    /// Serves the gestures.
    pub(crate) fn serve<T: Types, D: Device, G: Source, O: Sink, L: Ledger>(
        &mut self,
        program: &Program<'_, T>,
        room: Ahead,
        device: &mut D,
        gestures: &mut G,
        out: &mut O,
        steps: &mut Steps<L>,
    ) -> End
        requires depth { program.now.limits.depth ≤ 512 }
        requires opening { IsOpening (ground_of T.holds T.presents T.reads T.hierarchy program.now) self.old (D.broken device.old) }
        requires agree { Agree self.old.session.frame.screen.stale
            self.old.session.frame.screen.raster (D.broken device.old) (D.cleared device.old)
            (D.picture device.old) }
        requires none_ahead { room ≡ [] }
        ensures ended { (spent : ℕ) (begun : Wire)
            → steps.old ≡ spent + opening_cost (ground_of T.holds T.presents T.reads T.hierarchy program.now)
            → OpensOn (ground_of T.holds T.presents T.reads T.hierarchy program.now) self.old.session.frame.screen.stale begun
            (wire_of (D.wire device.old) (D.faults device.old) (D.lent device.old).told)
            → EndsAs (ground_of T.holds T.presents T.reads T.hierarchy program.now) (streams (G.left gestures.old) (G.faults gestures.old)
            (O.taken out.old) (O.faults out.old) spent)
            (streams (G.left gestures.new) (G.faults gestures.new) (O.taken out.new)
            (O.faults out.new) steps.new) begun
            (wire_of (D.wire device.new) (D.faults device.new) (D.lent device.new).told) self.new.session.totals result }
        ensures lent { G.lent gestures.new ≡ G.lent gestures.old }
        ensures later { G.faults gestures.old ≤ G.faults gestures.new }
        ensures out_lent { O.lent out.new ≡ O.lent out.old }
        ensures out_later { O.faults out.old ≤ O.faults out.new }
        ensures device_lent { D.lent device.new ≡ D.lent device.old }
        ensures device_later { D.faults device.old ≤ D.faults device.new }
        ensures steps_later { steps.old ≤ steps.new }
    {
        let mut reader = Gestures::with_room(program.alloc, room, LentSource::new(gestures));
        let end = self
            .session
            .serve(program, &mut self.slots, &mut reader, out, device, steps);
        let lent = reader.into_source();
        let _source = lent.source;
        end
    }
}
