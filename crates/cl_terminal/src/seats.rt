//! A session in a terminal: bytes are taken one by one.
ghost use Rattle.std.specs.Prelude.{◌≡◌, ◌≤◌, ◌∷◌, []};
ghost use Rattle.cl_frame.specs.Ground.{ground_of};
ghost use Rattle.cl_session.specs.Session.{world_of};
ghost use Rattle.cl_terminal.specs.Handled.{is_end};
ghost use Rattle.cl_terminal.specs.Live.{IsReady};
ghost use Rattle.cl_terminal.specs.Serving.{HandlesOne, Takes, standing};

use crate::flows::Flow;
use crate::said::said_of;
use cl_ansi::AnsiDevice;
use cl_eval::{Program, Slots, Types};
use cl_gesture::Gesture;
use cl_keys::{Decoder, Key, gesture_of};
use cl_outside::{Ledger, MemSink, Sink, Steps};
use cl_session::Session;

/// A session that a person works with in a terminal: the session with its slots, the decoder of what the terminal sends, and what was said of
/// the last gesture, where there was memory for it.
#[derive(Drop)]
pub struct Seat {
    pub session: Session,
    pub slots: Slots,
    pub decoder: Decoder,
    pub said: Option<MemSink>,
}

impl Seat {
    /// Takes bytes one after another, and handles the gesture of each key that one of them ends, up to the key that ends the run and to
    /// a fault of the terminal.
    pub fn take_all<T: Types, S: Sink, L: Ledger>(
        &mut self,
        program: &Program<'_, T>,
        bytes: &[u8],
        device: &mut AnsiDevice<S>,
        steps: &mut Steps<L>,
    ) -> Flow
        requires depth { program.now.limits.depth ≤ 512 }
        requires ready { IsReady (ground_of T.holds T.presents T.reads T.hierarchy program.now) self.old.slots self.old.session device.old }
        ensures takes { Takes (ground_of T.holds T.presents T.reads T.hierarchy program.now)
            (standing self.old.decoder (world_of self.old.session self.old.slots)) (standing self.new.decoder (world_of self.new.session self.new.slots))
            bytes.now device.old.faults device.new.faults result }
        ensures ready { IsReady (ground_of T.holds T.presents T.reads T.hierarchy program.now) self.new.slots self.new.session device.new }
        ensures later { device.old.faults ≤ device.new.faults }
        ensures steps_later { steps.old ≤ steps.new }
    {
        for byte in bytes {
            match self.take(program, *byte, device, steps) {
                Flow::On => {}
                flow => return flow,
            }
        }
        Flow::On
    }

    // Takes one byte, and handles the gesture of the key that it ends.
    fn take<T: Types, S: Sink, L: Ledger>(
        &mut self,
        program: &Program<'_, T>,
        byte: u8,
        device: &mut AnsiDevice<S>,
        steps: &mut Steps<L>,
    ) -> Flow
        requires depth { program.now.limits.depth ≤ 512 }
        requires ready { IsReady (ground_of T.holds T.presents T.reads T.hierarchy program.now) self.old.slots self.old.session device.old }
        ensures takes { Takes (ground_of T.holds T.presents T.reads T.hierarchy program.now)
            (standing self.old.decoder (world_of self.old.session self.old.slots)) (standing self.new.decoder (world_of self.new.session self.new.slots))
            (byte ∷ []) device.old.faults device.new.faults result }
        ensures ready { IsReady (ground_of T.holds T.presents T.reads T.hierarchy program.now) self.new.slots self.new.session device.new }
        ensures later { device.old.faults ≤ device.new.faults }
        ensures steps_later { steps.old ≤ steps.new }
    {
        let Some(key) = self.decoder.take(byte) else {
            return Flow::On;
        };
        if is_end(&key) {
            return Flow::End;
        }
        match gesture_of(program.alloc, program.app, &key) {
            Ok(Some(gesture)) => self.handle(program, &gesture, device, steps),
            Ok(None) => Flow::On,
            Err(_) => {
                self.said = None;
                Flow::On
            }
        }
    }

    // Handles one gesture.
    fn handle<T: Types, S: Sink, L: Ledger>(
        &mut self,
        program: &Program<'_, T>,
        gesture: &Gesture,
        device: &mut AnsiDevice<S>,
        steps: &mut Steps<L>,
    ) -> Flow
        requires depth { program.now.limits.depth ≤ 512 }
        requires ready { IsReady (ground_of T.holds T.presents T.reads T.hierarchy program.now) self.old.slots self.old.session device.old }
        ensures handles { HandlesOne (ground_of T.holds T.presents T.reads T.hierarchy program.now)
            (world_of self.old.session self.old.slots) gesture.now (world_of self.new.session self.new.slots) device.old.faults device.new.faults result }
        ensures decoder { self.new.decoder ≡ self.old.decoder }
        ensures ready { IsReady (ground_of T.holds T.presents T.reads T.hierarchy program.now) self.new.slots self.new.session device.new }
        ensures later { device.old.faults ≤ device.new.faults }
        ensures steps_later { steps.old ≤ steps.new }
    {
        let replies = self
            .session
            .step(program, gesture, &mut self.slots, device, steps);
        self.said = said_of(program.alloc, program.app, &self.session.frame, &replies);
        if replies.wire { Flow::Fault } else { Flow::On }
    }
}

// Whether a key ends the run.
fn is_end(key: &Key) -> bool
    ensures { result ≡ is_end key.now }
{
    matches!(key, Key::End)
}
