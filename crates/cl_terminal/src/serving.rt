//! The serving of a terminal.
ghost use Rattle.std.specs.Prelude.{◌≡◌, ◌≤◌};
ghost use Rattle.cl_application.specs.Panes.{IsPlaced};
ghost use Rattle.cl_frame.specs.Ground.{ground_of};
ghost use Rattle.cl_session.specs.Session.{world_of};
ghost use Rattle.cl_terminal.specs.Live.{IsReady};
ghost use Rattle.cl_terminal.specs.Serving.{IsReadyAt, IsReadyBehind, Serves, Turns, closing_of, standing};

use crate::flows::{Closing, Flow};
use crate::seats::Seat;
use cl_ansi::AnsiDevice;
use cl_eval::{Program, Types};
use cl_outside::{Ledger, Sent, Sink, Source, Steps, Took};

/// How often the keys are read at most.
pub const MOST_READS: u32 = 1_000_000_000;

/// How many bytes are asked for at most in one read.
const PIECE: usize = 64;

impl Seat {
    /// Shows the rows below the screen, reads what the terminal sends and takes it, again and again, up to the key for the end, the end of
    /// the keys, or a fault.
    pub fn serve<T: Types, G: Source, S: Sink, L: Ledger>(
        &mut self,
        program: &Program<'_, T>,
        keys: &mut G,
        device: &mut AnsiDevice<S>,
        steps: &mut Steps<L>,
    ) -> Closing
        requires depth { program.now.limits.depth ≤ 512 }
        requires placed { IsPlaced program.now.app.now.frame }
        requires ready { IsReady (ground_of T.holds T.presents T.reads T.hierarchy program.now) self.old.slots self.old.session device.old }
        ensures serves { Serves (ground_of T.holds T.presents T.reads T.hierarchy program.now)
            (standing self.old.decoder (world_of self.old.session self.old.slots)) (standing self.new.decoder (world_of self.new.session self.new.slots))
            (G.left keys.old) (G.left keys.new) (G.faults keys.old) (G.faults keys.new) device.old.faults device.new.faults result }
        ensures ready { IsReadyAt (ground_of T.holds T.presents T.reads T.hierarchy program.now) self.new.slots self.new.session device.new result }
        ensures lent { G.lent keys.new ≡ G.lent keys.old }
        ensures later { G.faults keys.old ≤ G.faults keys.new }
        ensures device_later { device.old.faults ≤ device.new.faults }
        ensures steps_later { steps.old ≤ steps.new }
    {
        for _read in 0..MOST_READS {
            match self.turn(program, keys, device, steps) {
                None => {}
                Some(closing) => return closing,
            }
        }
        Closing::TooLong
    }

    // Shows the rows, and takes the bytes of one read.
    fn turn<T: Types, G: Source, S: Sink, L: Ledger>(
        &mut self,
        program: &Program<'_, T>,
        keys: &mut G,
        device: &mut AnsiDevice<S>,
        steps: &mut Steps<L>,
    ) -> Option<Closing>
        requires depth { program.now.limits.depth ≤ 512 }
        requires placed { IsPlaced program.now.app.now.frame }
        requires ready { IsReady (ground_of T.holds T.presents T.reads T.hierarchy program.now) self.old.slots self.old.session device.old }
        ensures turns { Turns (ground_of T.holds T.presents T.reads T.hierarchy program.now)
            (standing self.old.decoder (world_of self.old.session self.old.slots)) (standing self.new.decoder (world_of self.new.session self.new.slots))
            (G.left keys.old) (G.left keys.new) (G.faults keys.old) (G.faults keys.new) device.old.faults device.new.faults result }
        ensures ready { IsReadyBehind (ground_of T.holds T.presents T.reads T.hierarchy program.now) self.new.slots self.new.session device.new result }
        ensures lent { G.lent keys.new ≡ G.lent keys.old }
        ensures later { G.faults keys.old ≤ G.faults keys.new }
        ensures device_later { device.old.faults ≤ device.new.faults }
        ensures steps_later { steps.old ≤ steps.new }
    {
        match self.show(program.alloc, program.app, device) {
            Sent::Done => {}
            Sent::Failed => return Some(Closing::OutputFault),
        }
        let mut piece = [0; PIECE];
        match keys.read(&mut piece) {
            Took::Bytes(0) => Some(Closing::Done),
            Took::Bytes(count) => closing_of(self.take_all(
                program,
                &piece[..count],
                device,
                steps,
            )),
            Took::Failed => Some(Closing::ReadFault),
        }
    }
}

// How the bytes of a read close the run, if they do.
fn closing_of(flow: Flow) -> Option<Closing>
    ensures { result ≡ closing_of flow }
{
    match flow {
        Flow::On => None,
        Flow::End => Some(Closing::Done),
        Flow::Fault => Some(Closing::OutputFault),
    }
}
