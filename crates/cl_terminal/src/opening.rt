//! The opening of a session in a terminal.
ghost use Rattle.std.specs.Prelude.{◌≡◌, ◌≤◌, [], IfOk};
ghost use Rattle.cl_application.specs.Panes.{IsPlaced};
ghost use Rattle.cl_frame.specs.Ground.{ground_of, meanings_of};
ghost use Rattle.cl_keys.specs.Decoding.{at_rest};
ghost use Rattle.cl_session.specs.Session.{world_of};
ghost use Rattle.cl_session.specs.Transcript.{RoseIf};
ghost use Rattle.cl_session.specs.World.{opening};
ghost use Rattle.cl_tables.specs.Rings.{HasNoRing};
ghost use Rattle.cl_terminal.specs.Live.{IsReady};
ghost use Rattle.cl_updating.specs.Redisplays.{CanReuse};

use crate::seats::Seat;
use cl_ansi::AnsiDevice;
use cl_eval::{Program, Slots, Types};
use cl_keys::Decoder;
use cl_outside::{Ledger, MemSink, Sink, Steps};
use cl_session::Session;
use std::alloc::{AllocError, Global};

impl Seat {
    /// Opens the frame of an application on these slots, in a terminal, where nothing was typed and nothing was said yet.
    pub fn open<T: Types, S: Sink, L: Ledger>(
        program: &Program<'_, T>,
        slots: &Slots,
        device: &mut AnsiDevice<S>,
        steps: &mut Steps<L>,
    ) -> Result<Seat, AllocError>
        requires depth { program.now.limits.depth ≤ 512 }
        requires placed { IsPlaced program.now.app.now.frame }
        requires no_ring { HasNoRing program.now.app.now.tables }
        requires reuse { CanReuse program.now.app.now (meanings_of T.holds T.presents program.now.types.now) }
        ensures decoder { IfOk result (λ s. s.decoder ≡ at_rest) }
        ensures world { IfOk result (λ s. world_of s.session s.slots
            ≡ opening (ground_of T.holds T.presents T.reads T.hierarchy program.now) slots.now s.session.frame.screen.stale) }
        ensures failed { IfOk result (λ s. RoseIf s.session.frame.screen.stale device.old.faults device.new.faults) }
        ensures ready { IfOk result (λ s. IsReady (ground_of T.holds T.presents T.reads T.hierarchy program.now) s.slots s.session device.new) }
        ensures later { device.old.faults ≤ device.new.faults }
        ensures steps_later { steps.old ≤ steps.new }
    {
        let said = nothing_said(program.alloc)?;
        let slots = slots.copy(program.alloc)?;
        let session = Session::new(program, &slots, device, steps)?;
        Ok(Seat {
            session,
            slots,
            decoder: Decoder::new(),
            said: Some(said),
        })
    }
}

// Of no gesture yet anything was said.
fn nothing_said(alloc: Global) -> Result<MemSink, AllocError>
    ensures { IfOk result (λ said. said.taken ≡ []) }
{
    MemSink::new(alloc, 0, Vec::new(alloc), Vec::new(alloc))
}
