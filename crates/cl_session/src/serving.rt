//! The serving of a stream of gestures.
ghost use Rattle.std.specs.Prelude.{◌≡◌, ◌≤◌, Some, true};
ghost use Rattle.cl_frame.specs.Ground.{ground_of};
ghost use Rattle.cl_frame.specs.Sending.{wire_of};
ghost use Rattle.cl_gesture.specs.declared.answers.Stop.TheVariants as stop;
ghost use Rattle.cl_gesture.specs.Reader.{progress_of, source_of, stop_of};
ghost use Rattle.cl_redisplay.specs.Screens.{Agree};
ghost use Rattle.cl_session.specs.Session.{Fits, world_of};
ghost use Rattle.cl_session.specs.Serving.{ServesTo, stand};
ghost use Rattle.cl_session.specs.Transcript.{meters};
ghost use Rattle.cl_session.specs.Turns.{IsSame, StaysAt, Turns, end_unless};

use crate::sessions::Session;
use crate::speaking::{say_bad, say_lost, say_replies};
use cl_eval::{Program, Slots, Types};
use cl_gesture::{Gestures, Next};
use cl_outside::{Device, Ledger, Sink, Source, Steps};

/// One turn reads at least one of at most a million lines, and the last one reads none.
const MOST_TURNS: u32 = 1_000_001;

/// Why serving ended.
#[derive(Clone, Copy, PartialEq, Eq, Debug)]
pub enum End {
    /// The source's end came.
    Done,
    /// The source failed.
    ReadFault,
    /// A million lines were read, and a further byte came.
    TooMany,
    /// The sink failed.
    OutputFault,
}

impl Session {
    /// Handles the gestures of a stream, one after another, and writes the lines of each before the
    /// next is read. The run stops at the gesture in whose lines the sink fails. A reader that has
    /// stopped gives its end again.
    pub fn serve<T: Types, G: Source, O: Sink, D: Device, L: Ledger>(
        &mut self,
        program: &Program<'_, T>,
        slots: &mut Slots,
        gestures: &mut Gestures<G>,
        out: &mut O,
        device: &mut D,
        steps: &mut Steps<L>,
    ) -> End
        requires depth { program.now.limits.depth ≤ 512 }
        requires fits { Fits (ground_of T.holds T.presents T.reads T.hierarchy program.now) slots.old self.old }
        requires agree { Agree self.old.frame.screen.stale self.old.frame.screen.raster
            (D.broken device.old) (D.cleared device.old) (D.picture device.old) }
        requires breaks { self.old.frame.screen.stale ≡ true → D.broken device.old ≡ true }
        ensures serves { stop_of gestures.old ≡ stop.Going
            → ServesTo (ground_of T.holds T.presents T.reads T.hierarchy program.now)
            (stand (world_of self.old slots.old) (meters steps.old (wire_of (D.wire device.old)
            (D.faults device.old) (D.lent device.old).told) self.old.totals)
            (progress_of G.left G.faults gestures.old) (O.taken out.old) (O.faults out.old))
            (stand (world_of self.new slots.new) (meters steps.new (wire_of (D.wire device.new)
            (D.faults device.new) (D.lent device.new).told) self.new.totals)
            (progress_of G.left G.faults gestures.new) (O.taken out.new) (O.faults out.new)) result }
        ensures stays { StaysAt (stop_of gestures.old) (Some result)
            (IsSame gestures.old gestures.new out.old out.new device.old device.new steps.old
            steps.new self.old.totals self.new.totals (world_of self.old slots.old) (world_of self.new slots.new)) }
        ensures lent { G.lent (source_of gestures.new) ≡ G.lent (source_of gestures.old) }
        ensures out_lent { O.lent out.new ≡ O.lent out.old }
        ensures device_lent { D.lent device.new ≡ D.lent device.old }
        ensures later { G.faults (source_of gestures.old) ≤ G.faults (source_of gestures.new) }
        ensures out_later { O.faults out.old ≤ O.faults out.new }
        ensures device_later { D.faults device.old ≤ D.faults device.new }
        ensures steps_later { steps.old ≤ steps.new }
        ensures fits { Fits (ground_of T.holds T.presents T.reads T.hierarchy program.now) slots.new self.new }
        ensures agree { Agree self.new.frame.screen.stale self.new.frame.screen.raster
            (D.broken device.new) (D.cleared device.new) (D.picture device.new) }
        ensures breaks { self.new.frame.screen.stale ≡ true → D.broken device.new ≡ true }
    {
        'turns: for _turn in 0..MOST_TURNS {
            match self.turn(program, slots, gestures, out, device, steps) {
                None => {}
                Some(end) => return end,
            }
        }
        unreachable!()
    }

    // Answers the next line that is neither empty nor a comment; the end, where there is none.
    fn turn<T: Types, G: Source, O: Sink, D: Device, L: Ledger>(
        &mut self,
        program: &Program<'_, T>,
        slots: &mut Slots,
        gestures: &mut Gestures<G>,
        out: &mut O,
        device: &mut D,
        steps: &mut Steps<L>,
    ) -> Option<End>
        requires depth { program.now.limits.depth ≤ 512 }
        requires fits { Fits (ground_of T.holds T.presents T.reads T.hierarchy program.now) slots.old self.old }
        requires agree { Agree self.old.frame.screen.stale self.old.frame.screen.raster
            (D.broken device.old) (D.cleared device.old) (D.picture device.old) }
        requires breaks { self.old.frame.screen.stale ≡ true → D.broken device.old ≡ true }
        ensures turns { stop_of gestures.old ≡ stop.Going
            → Turns (ground_of T.holds T.presents T.reads T.hierarchy program.now)
            (stand (world_of self.old slots.old) (meters steps.old (wire_of (D.wire device.old)
            (D.faults device.old) (D.lent device.old).told) self.old.totals)
            (progress_of G.left G.faults gestures.old) (O.taken out.old) (O.faults out.old))
            (stand (world_of self.new slots.new) (meters steps.new (wire_of (D.wire device.new)
            (D.faults device.new) (D.lent device.new).told) self.new.totals)
            (progress_of G.left G.faults gestures.new) (O.taken out.new) (O.faults out.new)) result }
        ensures stays { StaysAt (stop_of gestures.old) result
            (IsSame gestures.old gestures.new out.old out.new device.old device.new steps.old
            steps.new self.old.totals self.new.totals (world_of self.old slots.old) (world_of self.new slots.new)) }
        ensures lent { G.lent (source_of gestures.new) ≡ G.lent (source_of gestures.old) }
        ensures out_lent { O.lent out.new ≡ O.lent out.old }
        ensures device_lent { D.lent device.new ≡ D.lent device.old }
        ensures later { G.faults (source_of gestures.old) ≤ G.faults (source_of gestures.new) }
        ensures out_later { O.faults out.old ≤ O.faults out.new }
        ensures device_later { D.faults device.old ≤ D.faults device.new }
        ensures steps_later { steps.old ≤ steps.new }
        ensures fits { Fits (ground_of T.holds T.presents T.reads T.hierarchy program.now) slots.new self.new }
        ensures agree { Agree self.new.frame.screen.stale self.new.frame.screen.raster
            (D.broken device.new) (D.cleared device.new) (D.picture device.new) }
        ensures breaks { self.new.frame.screen.stale ≡ true → D.broken device.new ≡ true }
    {
        match gestures.next() {
            Next::Gesture(gesture) => {
                let replies = self.step(program, &gesture, slots, device, steps);
                goes_on(say_replies(out, program.app, &self.frame, &replies))
            }
            Next::Bad(number) => goes_on(say_bad(out, number)),
            Next::Memory => {
                self.totals = self.totals.with_memory();
                goes_on(say_lost(out))
            }
            Next::End => Some(End::Done),
            Next::ReadFault => Some(End::ReadFault),
            Next::TooMany => Some(End::TooMany),
        }
    }
}

// The end where the sink failed.
fn goes_on(written: bool) -> Option<End>
    ensures { result ≡ end_unless written }
{
    if written {
        None
    } else {
        Some(End::OutputFault)
    }
}
