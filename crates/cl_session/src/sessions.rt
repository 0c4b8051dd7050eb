//! A session: an application with its slots, its command line and its panes.
ghost use Rattle.std.specs.Prelude.{◌≡◌, ◌≤◌, ◌+◌, IfOk, true, false, not};
ghost use Rattle.cl_application.specs.Panes.{IsPlaced};
ghost use Rattle.cl_frame.specs.Ground.{ground_of, meanings_of};
ghost use Rattle.cl_frame.specs.Sending.{SendsOn, ShowsPanes, frame_ops, wire_of};
ghost use Rattle.cl_outside.specs.Operations.{mended, ops_bytes};
ghost use Rattle.cl_redisplay.specs.Screens.{Agree};
ghost use Rattle.cl_session.specs.Replies.{met_of};
ghost use Rattle.cl_session.specs.Handling.{AreRepliesOf};
ghost use Rattle.cl_session.specs.Session.{Fits, StepsTo, cost_of_panes, world_of};
ghost use Rattle.cl_session.specs.Step.{Spends, gesture_bytes};
ghost use Rattle.cl_session.specs.Totals.{no_totals};
ghost use Rattle.cl_session.specs.Transcript.{RoseIf};
ghost use Rattle.cl_session.specs.World.{opening};
ghost use Rattle.cl_tables.specs.Rings.{HasNoRing};
ghost use Rattle.cl_updating.specs.Redisplays.{CanReuse};

use crate::accessible::{Accessible, accessible_of};
use crate::answers::Replies;
use crate::handling::{Desk, Handling, handle};
use crate::naming::enabled_of;
use crate::totals::Totals;
use cl_eval::{Lines, Program, Slots, Types};
use cl_frame::{Frame, State, Which};
use cl_gesture::Gesture;
use cl_line::Line;
use cl_outside::{Device, Ledger, Steps};
use cl_redisplay::Painted;
use std::alloc::{AllocError, Global};

/// An application's frame between two gestures, what lies on its desk, what is accessible from its command table, and the sums
/// over what was told of its panes. The slots stand apart.
#[derive(Drop)]
pub struct Session {
    pub accessible: Accessible,
    pub desk: Desk,
    pub frame: Frame,
    pub totals: Totals,
}

impl Session {
    /// Opens the frame, settles all panes, which are drawn from nothing, and redraws the screen in full, with no reply. A pane that
    /// meets want of memory here makes the whole call answer want of memory. The screen is stale
    /// afterwards exactly where the device failed here.
    pub fn new<T: Types, D: Device, L: Ledger>(
        program: &Program<'_, T>,
        slots: &Slots,
        device: &mut D,
        steps: &mut Steps<L>,
    ) -> Result<Session, AllocError>
        requires depth { program.now.limits.depth ≤ 512 }
        requires placed { IsPlaced program.now.app.now.frame }
        requires no_ring { HasNoRing program.now.app.now.tables }
        requires reuse { CanReuse program.now.app.now (meanings_of T.holds T.presents program.now.types.now) }
        ensures world { IfOk result (λ s. world_of s slots.now
            ≡ opening (ground_of T.holds T.presents T.reads T.hierarchy program.now) slots.now s.frame.screen.stale) }
        ensures failed { IfOk result
            (λ s. RoseIf s.frame.screen.stale (D.faults device.old) (D.faults device.new)) }
        ensures sent { IfOk result (λ s. SendsOn (not s.frame.screen.stale) (wire_of (D.wire device.old) (D.faults device.old) (D.lent device.old).told) (wire_of (D.wire device.new) (D.faults device.new) (D.lent device.new).told)
            (mended (D.broken device.old) (ops_bytes (frame_ops program.now.app.now
            (world_of s slots.now).panes)))) }
        ensures shows { IfOk result (λ s. s.frame.screen.stale ≡ false
            → ShowsPanes program.now.app.now (world_of s slots.now).panes (wire_of (D.wire device.new) (D.faults device.new) (D.lent device.new).told)) }
        ensures ledger { IfOk result (λ _. steps.new
            ≡ steps.old + cost_of_panes (ground_of T.holds T.presents T.reads T.hierarchy program.now) slots.now) }
        ensures later { steps.old ≤ steps.new }
        ensures at_most { steps.new
            ≤ steps.old + cost_of_panes (ground_of T.holds T.presents T.reads T.hierarchy program.now) slots.now }
        ensures fits { IfOk result
            (Fits (ground_of T.holds T.presents T.reads T.hierarchy program.now) slots.now) }
        ensures agree { IfOk result (λ s. Agree s.frame.screen.stale s.frame.screen.raster
            (D.broken device.new) (D.cleared device.new) (D.picture device.new)) }
        ensures breaks { IfOk result
            (λ s. s.frame.screen.stale ≡ true → D.broken device.new ≡ true) }
        ensures lent { D.lent device.new ≡ D.lent device.old }
        ensures device_later { D.faults device.old ≤ D.faults device.new }
        ensures totals { IfOk result (λ s. s.totals ≡ no_totals) }
    {
        let accessible = accessible_of(program.alloc, program.app)?;
        let desk = Desk {
            line: Line::new(program.alloc)?,
            enabled: enabled_of(program.alloc, program.app)?,
            dialog: None,
        };
        let mut frame = Frame::open(program.alloc, program.app)?;
        let state = State {
            slots,
            filling: None,
        };
        let _ = frame.update(program, Which::All, &state, device, steps);
        if frame.met_memory() {
            return Err(AllocError);
        }
        Ok(Session {
            accessible,
            desk,
            frame,
            totals: Totals::new(),
        })
    }

    /// Handles one gesture, and settles all panes where a command committed, a dialog was set or closed, or where it is `force`,
    /// and else those that are blank for want of memory. A screen that was stale before is redrawn in
    /// full at the end. The own replies are made before anything changes. What is told is counted.
    pub fn step<T: Types, D: Device, L: Ledger>(
        &mut self,
        program: &Program<'_, T>,
        gesture: &Gesture,
        slots: &mut Slots,
        device: &mut D,
        steps: &mut Steps<L>,
    ) -> Replies
        requires depth { program.now.limits.depth ≤ 512 }
        requires fits { Fits (ground_of T.holds T.presents T.reads T.hierarchy program.now) slots.old self.old }
        requires agree { Agree self.old.frame.screen.stale self.old.frame.screen.raster
            (D.broken device.old) (D.cleared device.old) (D.picture device.old) }
        requires breaks { self.old.frame.screen.stale ≡ true → D.broken device.old ≡ true }
        ensures steps { StepsTo (ground_of T.holds T.presents T.reads T.hierarchy program.now) self.old self.new
            slots.old slots.new gesture.now result }
        ensures ledger { Spends (ground_of T.holds T.presents T.reads T.hierarchy program.now)
            (world_of self.old slots.old) gesture.now (met_of self.new.frame result) steps.old
            steps.new }
        ensures failed { RoseIf result.wire (D.faults device.old) (D.faults device.new) }
        ensures sent { SendsOn (not result.wire) (wire_of (D.wire device.old) (D.faults device.old) (D.lent device.old).told) (wire_of (D.wire device.new) (D.faults device.new) (D.lent device.new).told)
            (gesture_bytes (ground_of T.holds T.presents T.reads T.hierarchy program.now)
            (world_of self.old slots.old) gesture.now (met_of self.new.frame result)) }
        ensures shows { result.wire ≡ false → ShowsPanes program.now.app.now
            (world_of self.new slots.new).panes (wire_of (D.wire device.new) (D.faults device.new) (D.lent device.new).told) }
        ensures later { steps.old ≤ steps.new }
        ensures fits { Fits (ground_of T.holds T.presents T.reads T.hierarchy program.now) slots.new self.new }
        ensures agree { Agree self.new.frame.screen.stale self.new.frame.screen.raster
            (D.broken device.new) (D.cleared device.new) (D.picture device.new) }
        ensures breaks { self.new.frame.screen.stale ≡ true → D.broken device.new ≡ true }
        ensures lent { D.lent device.new ≡ D.lent device.old }
    {
        let handling = handle(
            program,
            gesture,
            &self.accessible,
            &self.frame,
            slots,
            &mut self.desk,
            steps,
        );
        let which = handling.which();
        let state = State {
            slots,
            filling: self.desk.filling(program.app),
        };
        let painted = self.frame.update(program, which, &state, device, steps);
        let replies = replies_of(program.alloc, handling, painted);
        self.totals = self.totals.with_gesture(replies.memory, &self.frame);
        replies
    }

    /// The sums over what the replies so far told of panes, and how often they told of want of memory; the opening is not told.
    pub fn totals(&self) -> Totals
        ensures { result ≡ self.now.totals }
    {
        self.totals
    }
}

// The replies behind a handling.
fn replies_of(alloc: Global, handling: Handling, painted: Painted) -> Replies
    ensures { AreRepliesOf handling painted result }
{
    let wire = painted == Painted::DeviceFault;
    match handling {
        Handling::Replied(own, _) => Replies {
            own,
            memory: false,
            wire,
        },
        Handling::Memory => Replies {
            own: Lines::new(alloc),
            memory: true,
            wire,
        },
    }
}
