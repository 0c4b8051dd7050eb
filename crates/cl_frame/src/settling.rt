//! Panes that are settled, one after another.
ghost use Rattle.std.specs.Prelude.{◌≡◌, ◌≤◌, ◌<◌, true, false, not, length, map, None, Some, slice_get, slice_set};
ghost use Rattle.cl_application.specs.Panes.{panes_of};
ghost use Rattle.cl_raster.specs.Raster.{SameSize};
ghost use Rattle.cl_redisplay.specs.Paint.{LiesIn, Repaints};
ghost use Rattle.cl_frame.specs.Damages.{CanShow, IsDamage, Leaves, damage_holds, touched_with};
ghost use Rattle.cl_frame.specs.Frames.{ArePanesFaithful, AreShown, GoesStale, IsFrameOf, Replaces, Settles, SettlesAt, fault_between, is_stale_under, marks_of_frame, reports_of_frame};
ghost use Rattle.cl_frame.specs.Ground.{ground_of, meanings_of};
ghost use Rattle.cl_frame.specs.Panes.{marks_in, marks_of_pane};
ghost use Rattle.cl_frame.specs.States.{state_of};
ghost use Rattle.cl_frame.specs.Settling.{SpendsPanes, is_due, met_memory, settle_panes};
ghost use Rattle.cl_frame.specs.Sending.{SendsAt, SendsOn, SendsPane, ShowsPanes, settled_ops, update_bytes, wire_of};
ghost use Rattle.cl_outside.specs.Operations.{ops_bytes};
ghost use Rattle.cl_redisplay.specs.Operations.{pane_ops};
ghost use Rattle.cl_redisplay.specs.Touching.{touched_pane_ops};
ghost use Rattle.cl_redisplay.specs.Screens.{Agree, BreaksAt, PaintedRose, StaleAfter, is_fault};
ghost use Rattle.cl_updating.specs.Redisplays.{CanReuse};

use crate::frames::Frame;
use crate::panes::{Evaluated, Pane};
use crate::reports::PaneReport;
use crate::states::State;
use cl_eval::{Program, Types};
use cl_outside::{Device, Ledger, Steps};
use cl_redisplay::{Painted, Screen, repaint, repaint_touched};
use cl_spans::Spans;
use std::alloc::{AllocError, Global};

// A pane that takes the place of another one, and what has to be shown of it: None is all of its area.
#[derive(Drop)]
struct ShownPane {
    pane: Pane,
    damage: Option<Spans>,
}

/// Which panes are settled.
#[derive(Clone, Copy, PartialEq, Eq, Debug)]
pub enum Which {
    /// Each of them.
    All,
    /// Those that are blank for want of memory.
    Blank,
    /// Each of them, from nothing: all old histories are taken as empty, and the screen is redrawn in full afterwards.
    Force,
}

impl Which {
    // Whether a pane is settled.
    fn is_due(self, pane: &Pane) -> bool
        ensures { result ≡ is_due self (marks_of_pane pane.now) }
    {
        match self {
            Which::All => true,
            Which::Blank => pane.history.is_none(),
            Which::Force => true,
        }
    }

    // Whether a screen is redrawn in full once its panes were settled.
    fn redraws(self, is_stale: bool) -> bool
        ensures { result ≡ is_stale_under self is_stale }
    {
        match self {
            Which::All => is_stale,
            Which::Blank => is_stale,
            Which::Force => true,
        }
    }

    // Makes a screen stale whose panes are settled from nothing.
    fn start(self, screen: &mut Screen)
        ensures raster { screen.new.raster ≡ screen.old.raster }
        ensures stale { screen.new.stale ≡ is_stale_under self screen.old.stale }
    {
        match self {
            Which::All => {}
            Which::Blank => {}
            Which::Force => screen.make_stale(),
        }
    }
}

impl Frame {
    /// Settles panes in their order: each that is asked for shows its display, evaluated once over its
    /// old history, and is blank where it meets want of memory. What the display would draw as it
    /// stands in the old history, there or moved, is kept of it; the steps are those of what is drawn
    /// anew. A pane that is not asked for stays as it is, and its report is `Quiet`. What is touched of
    /// each settled pane is sent to the device, unless the screen is stale: where its new history and
    /// the old one show other items, or all of it where one of both is blank for want of memory. `Force` takes all old histories
    /// as empty, sends nothing and leaves the screen stale, so that a refresh must follow.
    pub fn settle<T: Types, D: Device, L: Ledger>(
        &mut self,
        program: &Program<'_, T>,
        which: Which,
        state: &State<'_>,
        device: &mut D,
        steps: &mut Steps<L>,
    ) -> Painted
        requires depth { program.now.limits.depth ≤ 512 }
        requires frame { IsFrameOf program.now.app.now self.old }
        requires reuse { CanReuse program.now.app.now (meanings_of T.holds T.presents program.now.types.now) }
        requires faithful { ArePanesFaithful program.now.app.now (meanings_of T.holds T.presents program.now.types.now) self.old.panes.items }
        requires agree { Agree self.old.screen.stale self.old.screen.raster (D.broken device.old)
            (D.cleared device.old) (D.picture device.old) }
        ensures settles { Settles (ground_of T.holds T.presents T.reads T.hierarchy program.now) which (state_of state.now)
            self.old self.new }
        ensures ledger { SpendsPanes (settle_panes (ground_of T.holds T.presents T.reads T.hierarchy program.now)
            which (state_of state.now) (panes_of program.now.app.now) (marks_of_frame self.old)
            (map met_memory (reports_of_frame self.new))) steps.old steps.new }
        ensures frame { IsFrameOf program.now.app.now self.new }
        ensures faithful { ArePanesFaithful program.now.app.now (meanings_of T.holds T.presents program.now.types.now) self.new.panes.items }
        ensures agree { Agree self.new.screen.stale self.new.screen.raster (D.broken device.new)
            (D.cleared device.new) (D.picture device.new) }
        ensures stale { StaleAfter (is_stale_under which self.old.screen.stale)
            self.new.screen.stale result }
        ensures fresh { is_stale_under which self.old.screen.stale ≡ true → result ≡ Painted.Done }
        ensures idle { is_stale_under which self.old.screen.stale ≡ true → device.new ≡ device.old }
        ensures breaks { BreaksAt result (D.broken device.new) }
        ensures bytes { is_stale_under which self.old.screen.stale ≡ false
            → SendsOn (not (is_fault result)) (wire_of (D.wire device.old) (D.faults device.old) (D.lent device.old).told) (wire_of (D.wire device.new) (D.faults device.new) (D.lent device.new).told)
            (ops_bytes (settled_ops (ground_of T.holds T.presents T.reads T.hierarchy program.now) which (state_of state.now)
            (panes_of program.now.app.now) (marks_of_frame self.old) (marks_of_frame self.new))) }
        ensures lent { D.lent device.new ≡ D.lent device.old }
        ensures cause { PaintedRose (D.faults device.old) (D.faults device.new) result }
        ensures later { steps.old ≤ steps.new }
    {
        which.start(&mut self.screen);
        let was_stale = self.screen.stale();
        'panes: for place in 0..self.panes.len() {
            self.settle_at(place, program, which, state, device, steps);
        }
        fault_between(was_stale, self.screen.stale())
    }

    /// Settles panes, and then redraws in full a screen that was stale before or whose histories were
    /// discarded. The screen is stale afterwards exactly where the device failed here.
    pub fn update<T: Types, D: Device, L: Ledger>(
        &mut self,
        program: &Program<'_, T>,
        which: Which,
        state: &State<'_>,
        device: &mut D,
        steps: &mut Steps<L>,
    ) -> Painted
        requires depth { program.now.limits.depth ≤ 512 }
        requires frame { IsFrameOf program.now.app.now self.old }
        requires reuse { CanReuse program.now.app.now (meanings_of T.holds T.presents program.now.types.now) }
        requires faithful { ArePanesFaithful program.now.app.now (meanings_of T.holds T.presents program.now.types.now) self.old.panes.items }
        requires agree { Agree self.old.screen.stale self.old.screen.raster (D.broken device.old)
            (D.cleared device.old) (D.picture device.old) }
        ensures settles { Settles (ground_of T.holds T.presents T.reads T.hierarchy program.now) which (state_of state.now)
            self.old self.new }
        ensures ledger { SpendsPanes (settle_panes (ground_of T.holds T.presents T.reads T.hierarchy program.now)
            which (state_of state.now) (panes_of program.now.app.now) (marks_of_frame self.old)
            (map met_memory (reports_of_frame self.new))) steps.old steps.new }
        ensures frame { IsFrameOf program.now.app.now self.new }
        ensures faithful { ArePanesFaithful program.now.app.now (meanings_of T.holds T.presents program.now.types.now) self.new.panes.items }
        ensures agree { Agree self.new.screen.stale self.new.screen.raster (D.broken device.new)
            (D.cleared device.new) (D.picture device.new) }
        ensures stale { self.new.screen.stale ≡ is_fault result }
        ensures breaks { BreaksAt result (D.broken device.new) }
        ensures bytes { SendsOn (not (is_fault result)) (wire_of (D.wire device.old) (D.faults device.old) (D.lent device.old).told) (wire_of (D.wire device.new) (D.faults device.new) (D.lent device.new).told)
            (update_bytes (ground_of T.holds T.presents T.reads T.hierarchy program.now) which (state_of state.now) self.old.screen.stale (D.broken device.old)
            (marks_of_frame self.old) (marks_of_frame self.new)) }
        ensures shows { is_fault result ≡ false
            → ShowsPanes program.now.app.now (marks_of_frame self.new) (wire_of (D.wire device.new) (D.faults device.new) (D.lent device.new).told) }
        ensures lent { D.lent device.new ≡ D.lent device.old }
        ensures cause { PaintedRose (D.faults device.old) (D.faults device.new) result }
        ensures later { steps.old ≤ steps.new }
    {
        let redraws = which.redraws(self.screen.stale());
        let painted = self.settle(program, which, state, device, steps);
        if redraws {
            self.refresh(device)
        } else {
            painted
        }
    }

    // Settles the pane in this place, where that is asked for.
    fn settle_at<T: Types, D: Device, L: Ledger>(
        &mut self,
        place: usize,
        program: &Program<'_, T>,
        which: Which,
        state: &State<'_>,
        device: &mut D,
        steps: &mut Steps<L>,
    )
        requires depth { program.now.limits.depth ≤ 512 }
        requires place { place < length self.old.panes.items }
        requires stale { is_stale_under which self.old.screen.stale ≡ self.old.screen.stale }
        requires frame { IsFrameOf program.now.app.now self.old }
        requires reuse { CanReuse program.now.app.now (meanings_of T.holds T.presents program.now.types.now) }
        requires faithful { ArePanesFaithful program.now.app.now (meanings_of T.holds T.presents program.now.types.now) self.old.panes.items }
        requires agree { Agree self.old.screen.stale self.old.screen.raster (D.broken device.old)
            (D.cleared device.old) (D.picture device.old) }
        ensures settles { SettlesAt (ground_of T.holds T.presents T.reads T.hierarchy program.now) which (state_of state.now)
            place self.old.panes.items self.new.panes.items steps.old steps.new }
        ensures idle { self.old.screen.stale ≡ true → device.new ≡ device.old }
        ensures breaks { self.old.screen.stale ≡ false → self.new.screen.stale ≡ true
            → D.broken device.new ≡ true }
        ensures bytes { SendsAt (ground_of T.holds T.presents T.reads T.hierarchy program.now) which (state_of state.now) place self.old.panes.items
            self.new.panes.items self.old.screen.stale self.new.screen.stale (wire_of (D.wire device.old) (D.faults device.old) (D.lent device.old).told) (wire_of (D.wire device.new) (D.faults device.new) (D.lent device.new).told) }
        ensures frame { IsFrameOf program.now.app.now self.new }
        ensures faithful { ArePanesFaithful program.now.app.now (meanings_of T.holds T.presents program.now.types.now) self.new.panes.items }
        ensures agree { Agree self.new.screen.stale self.new.screen.raster (D.broken device.new)
            (D.cleared device.new) (D.picture device.new) }
        ensures goes_stale { GoesStale self.old.screen.stale self.new.screen.stale
            (D.faults device.old) (D.faults device.new) }
        ensures lent { D.lent device.new ≡ D.lent device.old }
        ensures later { steps.old ≤ steps.new }
    {
        let Some(declared) = program.app.frame.panes.at(place) else {
            unreachable!()
        };
        if !which.is_due(&self.panes[place]) {
            self.panes[place].report = PaneReport::Quiet;
            return;
        }
        let evaluated = self.panes[place].evaluated(program, which, declared, state, steps);
        let shown = self.damaged(program.alloc, place, evaluated);
        self.put(place, shown, device);
    }

    // A pane that was evaluated, with what has to be shown of it: all of it on a screen that is stale. Where
    // memory is wanting for that, the pane is blank.
    fn damaged(&self, alloc: Global, place: usize, evaluated: Evaluated) -> ShownPane
        requires place { place < length self.now.panes.items }
        ensures leaves { Leaves evaluated.pane result.pane }
        ensures whole { result.pane.history ≡ None → result.damage ≡ None }
        ensures stale { self.now.screen.stale ≡ true → result.damage ≡ None }
        ensures damage { self.now.screen.stale ≡ false → (before : Pane) → slice_get self.now.panes.items place ≡ Some before
            → IsDamage result.pane.area (touched_with (marks_of_pane before) (marks_of_pane result.pane) evaluated.keeps) result.damage }
    {
        let Evaluated { pane, keeps } = evaluated;
        if self.screen.stale() {
            return ShownPane { pane, damage: None };
        }
        match self.panes[place].damage(alloc, &pane, &keeps) {
            Ok(damage) => ShownPane { pane, damage },
            Err(AllocError) => ShownPane {
                pane: Pane::blank_for_memory(pane.area),
                damage: None,
            },
        }
    }

    // Puts a pane in the place of one with the same area, and shows it.
    fn put<D: Device>(&mut self, place: usize, shown: ShownPane, device: &mut D)
        requires place { place < length self.old.panes.items }
        requires replaces { Replaces self.old.panes.items place shown.pane }
        requires can_show { CanShow self.old.screen.raster shown.pane shown.damage }
        requires shown { AreShown self.old.panes.items self.old.screen.raster }
        requires agree { Agree self.old.screen.stale self.old.screen.raster (D.broken device.old)
            (D.cleared device.old) (D.picture device.old) }
        ensures panes { self.new.panes.items ≡ slice_set self.old.panes.items place shown.pane }
        ensures idle { self.old.screen.stale ≡ true → device.new ≡ device.old }
        ensures breaks { self.old.screen.stale ≡ false → self.new.screen.stale ≡ true
            → D.broken device.new ≡ true }
        ensures bytes { SendsPane self.old.screen.stale self.new.screen.stale (wire_of (D.wire device.old) (D.faults device.old) (D.lent device.old).told) (wire_of (D.wire device.new) (D.faults device.new) (D.lent device.new).told)
            (ops_bytes (touched_pane_ops shown.pane.area (marks_in (marks_of_pane shown.pane)) (damage_holds shown.damage))) }
        ensures size { SameSize self.old.screen.raster self.new.screen.raster }
        ensures shown { AreShown self.new.panes.items self.new.screen.raster }
        ensures agree { Agree self.new.screen.stale self.new.screen.raster (D.broken device.new)
            (D.cleared device.new) (D.picture device.new) }
        ensures goes_stale { GoesStale self.old.screen.stale self.new.screen.stale
            (D.faults device.old) (D.faults device.new) }
        ensures lent { D.lent device.new ≡ D.lent device.old }
    {
        self.show(&shown, device);
        self.panes[place] = shown.pane;
    }

    // Shows what has to be shown of a pane in its area of the screen.
    fn show<D: Device>(&mut self, shown: &ShownPane, device: &mut D)
        requires lies { LiesIn shown.now.pane.area self.old.screen.raster }
        requires can_show { CanShow self.old.screen.raster shown.now.pane shown.now.damage }
        requires agree { Agree self.old.screen.stale self.old.screen.raster (D.broken device.old)
            (D.cleared device.old) (D.picture device.old) }
        ensures panes { self.new.panes ≡ self.old.panes }
        ensures idle { self.old.screen.stale ≡ true → device.new ≡ device.old }
        ensures breaks { self.old.screen.stale ≡ false → self.new.screen.stale ≡ true
            → D.broken device.new ≡ true }
        ensures bytes { SendsPane self.old.screen.stale self.new.screen.stale (wire_of (D.wire device.old) (D.faults device.old) (D.lent device.old).told) (wire_of (D.wire device.new) (D.faults device.new) (D.lent device.new).told)
            (ops_bytes (touched_pane_ops shown.now.pane.area (marks_in (marks_of_pane shown.now.pane)) (damage_holds shown.now.damage))) }
        ensures repaints { Repaints self.old.screen.raster self.new.screen.raster shown.now.pane.area
            (marks_in (marks_of_pane shown.now.pane)) }
        ensures agree { Agree self.new.screen.stale self.new.screen.raster (D.broken device.new)
            (D.cleared device.new) (D.picture device.new) }
        ensures goes_stale { GoesStale self.old.screen.stale self.new.screen.stale
            (D.faults device.old) (D.faults device.new) }
        ensures lent { D.lent device.new ≡ D.lent device.old }
    {
        let Some(touched) = &shown.damage else {
            self.show_whole(&shown.pane, device);
            return;
        };
        let Some(history) = &shown.pane.history else {
            unreachable!()
        };
        let _ = repaint_touched(&mut self.screen, shown.pane.area, history, touched, device);
    }

    // Shows all of a pane in its area of the screen.
    fn show_whole<D: Device>(&mut self, pane: &Pane, device: &mut D)
        requires lies { LiesIn pane.now.area self.old.screen.raster }
        requires agree { Agree self.old.screen.stale self.old.screen.raster (D.broken device.old)
            (D.cleared device.old) (D.picture device.old) }
        ensures panes { self.new.panes ≡ self.old.panes }
        ensures idle { self.old.screen.stale ≡ true → device.new ≡ device.old }
        ensures breaks { self.old.screen.stale ≡ false → self.new.screen.stale ≡ true
            → D.broken device.new ≡ true }
        ensures bytes { SendsPane self.old.screen.stale self.new.screen.stale (wire_of (D.wire device.old) (D.faults device.old) (D.lent device.old).told) (wire_of (D.wire device.new) (D.faults device.new) (D.lent device.new).told)
            (ops_bytes (pane_ops pane.now.area (marks_in (marks_of_pane pane.now)))) }
        ensures repaints { Repaints self.old.screen.raster self.new.screen.raster pane.now.area
            (marks_in (marks_of_pane pane.now)) }
        ensures agree { Agree self.new.screen.stale self.new.screen.raster (D.broken device.new)
            (D.cleared device.new) (D.picture device.new) }
        ensures goes_stale { GoesStale self.old.screen.stale self.new.screen.stale
            (D.faults device.old) (D.faults device.new) }
        ensures lent { D.lent device.new ≡ D.lent device.old }
    {
        let _ = match &pane.history {
            Some(history) => repaint(&mut self.screen, pane.area, Some(history), device),
            None => repaint(&mut self.screen, pane.area, None, device),
        };
    }
}

// A fault of the device, where a screen has become stale.
fn fault_between(was_stale: bool, is_stale: bool) -> Painted
    ensures { result ≡ fault_between was_stale is_stale }
{
    if !was_stale && is_stale {
        Painted::DeviceFault
    } else {
        Painted::Done
    }
}
