//! The panes of a frame on one screen.
ghost use Rattle.std.specs.Prelude.{◌≡◌, ◌<◌, true, false, not, All, IfOk, map};
ghost use Rattle.cl_application.specs.Panes.{IsPlaced, panes_of};
ghost use Rattle.cl_application.specs.declared.applications.App.{App};
ghost use Rattle.cl_eval.specs.TypeMeanings.{TypeMeanings};
ghost use Rattle.cl_frame.specs.Frames.{ArePanesFaithful, AreShown, IsFrameOf, IsBlankPane, pane_met};
ghost use Rattle.cl_frame.specs.Panes.{area_of, area_of_pane, shown_of_pane};
ghost use Rattle.std.specs.List.{list_any};
ghost use Rattle.cl_frame.specs.Sending.{SendsOn, wire_of};
ghost use Rattle.cl_outside.specs.Operations.{mended, ops_bytes};
ghost use Rattle.cl_redisplay.specs.Operations.{redraw_ops};
ghost use Rattle.cl_redisplay.specs.Paint.{cell_at};
ghost use Rattle.cl_redisplay.specs.Screens.{Agree, BreaksAt, PaintedRose, is_fault};
ghost use Rattle.cl_redisplay.specs.Shown.{ink_digit, shown_ink_row, shown_row};
ghost use Rattle.cl_raster.specs.Raster.{IsInk};

use crate::panes::{Pane, area_of};
use cl_application::App;
use cl_outside::Device;
use cl_redisplay::{Painted, Screen, redraw_all};
use std::alloc::{AllocError, Global};

/// The panes of an application's frame, in order of declaration, and the screen that they lie on.
#[derive(Drop)]
pub struct Frame {
    pub screen: Screen,
    pub panes: Vec<Pane>,
}

impl Frame {
    /// The frame of an application, its panes blank, on a screen that is stale.
    pub fn open(alloc: Global, app: &App) -> Result<Frame, AllocError>
        requires { IsPlaced app.now.frame }
        ensures frame { IfOk result (IsFrameOf app.now) }
        ensures blank { IfOk result (λ f. All IsBlankPane f.panes.items) }
        ensures faithful { IfOk result (λ f. (types : TypeMeanings) → ArePanesFaithful app.now types f.panes.items) }
        ensures stale { IfOk result (λ f. f.screen.stale ≡ true) }
    {
        let screen = Screen::new(alloc, app.frame.width, app.frame.height)?;
        let panes = blank_panes(alloc, app)?;
        Ok(Frame { screen, panes })
    }

    /// Redraws the screen in full, where it is stale.
    pub fn refresh<D: Device>(&mut self, device: &mut D) -> Painted
        requires agree { Agree self.old.screen.stale self.old.screen.raster (D.broken device.old)
            (D.cleared device.old) (D.picture device.old) }
        ensures panes { self.new.panes ≡ self.old.panes }
        ensures raster { self.new.screen.raster ≡ self.old.screen.raster }
        ensures stale { self.new.screen.stale ≡ is_fault result }
        ensures breaks { BreaksAt result (D.broken device.new) }
        ensures idle { self.old.screen.stale ≡ false → device.new ≡ device.old }
        ensures bytes { self.old.screen.stale ≡ true → SendsOn (not (is_fault result)) (wire_of (D.wire device.old) (D.faults device.old) (D.lent device.old).told) (wire_of (D.wire device.new) (D.faults device.new) (D.lent device.new).told)
            (mended (D.broken device.old) (ops_bytes (redraw_ops (cell_at self.old.screen.raster)
            self.old.screen.raster.width self.old.screen.raster.height))) }
        ensures agree { Agree self.new.screen.stale self.new.screen.raster (D.broken device.new)
            (D.cleared device.new) (D.picture device.new) }
        ensures lent { D.lent device.new ≡ D.lent device.old }
        ensures cause { PaintedRose (D.faults device.old) (D.faults device.new) result }
    {
        if self.screen.stale() {
            redraw_all(&mut self.screen, device)
        } else {
            Painted::Done
        }
    }

    /// Whether a pane met want of memory when the frame was settled last.
    pub fn met_memory(&self) -> bool
        ensures { result ≡ list_any pane_met self.now.panes.items }
    {
        self.panes.iter().any(|pane| pane.report.met_memory())
    }

    /// The glyphs of a row of the screen.
    pub fn row(&self, y: u16) -> &[u8]
        requires shown { AreShown self.now.panes.items self.now.screen.raster }
        requires row { y < self.now.screen.raster.height }
        ensures { result.now
            ≡ shown_row (map shown_of_pane self.now.panes.items) self.now.screen.raster.width y }
    {
        self.screen.raster().row(y)
    }

    /// The inks of a row of the screen, numbers from 0 to 7.
    pub fn inks(&self, y: u16) -> &[u8]
        requires shown { AreShown self.now.panes.items self.now.screen.raster }
        requires row { y < self.now.screen.raster.height }
        ensures digits { map ink_digit result.now
            ≡ shown_ink_row (map shown_of_pane self.now.panes.items) self.now.screen.raster.width y }
        ensures range { All IsInk result.now }
    {
        self.screen.raster().inks(y)
    }
}

// A blank pane in each place where the application has one.
fn blank_panes(alloc: Global, app: &App) -> Result<Vec<Pane>, AllocError>
    ensures areas { IfOk result (λ ps. map area_of_pane ps.items ≡ map area_of (panes_of app.now)) }
    ensures blank { IfOk result (λ ps. All IsBlankPane ps.items) }
{
    let mut panes = Vec::new(alloc);
    for place in 0..app.frame.panes.len() {
        let Some(declared) = app.frame.panes.at(place) else {
            unreachable!()
        };
        panes.push(Pane::blank(area_of(declared)))?;
    }
    Ok(panes)
}
