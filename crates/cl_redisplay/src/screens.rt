//! A screen of cells, and the device that shows it.
ghost use Rattle.std.specs.Prelude.{◌≡◌, ◌≤◌, IfOk, option_copied, true};
ghost use Rattle.cl_raster.specs.Raster.{blank_picture};
ghost use Rattle.cl_outside.specs.Operations.{mended, ops_bytes};
ghost use Rattle.cl_redisplay.specs.Operations.{pane_ops, redraw_ops};
ghost use Rattle.cl_redisplay.specs.Paint.{LiesIn, Repaints, cell_at};
ghost use Rattle.cl_redisplay.specs.Screens.{Agree, BreaksAt, PaintedRose, StaleAfter, is_fault, pane_marks};
ghost use Rattle.cl_redisplay.specs.Wires.{PaintSends, SendsUnless};

use crate::areas::Area;
use crate::painting::paint_pane;
use crate::sending::{send_all, send_area};
use cl_medium::AnyLeaf;
use cl_outside::{Device, Sent};
use cl_raster::Raster;
use cl_record::History;
use std::alloc::{AllocError, Global};
use std::marker::Model;

/// The cells of a screen, and whether it is stale: whether what its device shows may be anything else
/// than these cells. Nothing but a redraw is sent to the device of a stale screen.
#[derive(Drop)]
pub struct Screen {
    pub(crate) raster: Raster,
    pub(crate) stale: bool,
}

impl Model for Screen {
    ghost use Rattle.cl_redisplay.specs.Screens as screens;

    ghost Value = { screens.Screen };

    ghost view = { λ s. record { raster = s.raster; stale = s.stale } };
}

/// What a paint answers.
#[derive(Clone, Copy, PartialEq, Eq, Debug)]
pub enum Painted {
    Done,
    /// The device failed; its count of faults rose, and the screen is stale.
    DeviceFault,
}

impl Screen {
    /// A blank screen that no device shows yet.
    pub fn new(alloc: Global, width: u16, height: u16) -> Result<Screen, AllocError>
        requires columns { (1 ≤ width) × (width ≤ 512) }
        requires rows { (1 ≤ height) × (height ≤ 256) }
        ensures { IfOk result
            (λ s. s ≡ record { raster = blank_picture width height; stale = true }) }
    {
        Ok(Screen {
            raster: Raster::new(alloc, width, height)?,
            stale: true,
        })
    }

    /// The cells.
    pub fn raster(&self) -> &Raster
        ensures { result.now ≡ self.now.raster }
    {
        &self.raster
    }

    /// Whether the device may show anything else.
    pub fn stale(&self) -> bool
        ensures { result ≡ self.now.stale }
    {
        self.stale
    }

    /// From now on the device may show anything else.
    pub fn make_stale(&mut self)
        ensures { self.new ≡ record { raster = self.old.raster; stale = true } }
    {
        self.stale = true;
    }
}

/// Gives the area the cells of a history, or makes it blank where there is none, and sends the rows of
/// the area to the device, from the top: each as spans of cells of one ink that are as long as can be.
/// At the first fault nothing more is sent, and the screen is stale. Nothing at all is sent where it was
/// stale before.
pub fn repaint<D: Device>(
    screen: &mut Screen,
    area: Area,
    history: Option<&History<AnyLeaf>>,
    device: &mut D,
) -> Painted
    requires lies { LiesIn area screen.old.raster }
    requires agree { Agree screen.old.stale screen.old.raster (D.broken device.old)
        (D.cleared device.old) (D.picture device.old) }
    ensures repaints { Repaints screen.old.raster screen.new.raster area
        (pane_marks (option_copied history.entry)) }
    ensures agree { Agree screen.new.stale screen.new.raster (D.broken device.new)
        (D.cleared device.new) (D.picture device.new) }
    ensures stale { StaleAfter screen.old.stale screen.new.stale result }
    ensures bytes { SendsUnless screen.old.stale result (D.wire device.old) (D.wire device.new)
        (ops_bytes (pane_ops area (pane_marks (option_copied history.entry))))
        (D.faults device.old) (D.faults device.new) }
    ensures idle { screen.old.stale ≡ true → device.new ≡ device.old }
    ensures lent { D.lent device.new ≡ D.lent device.old }
    ensures cause { PaintedRose (D.faults device.old) (D.faults device.new) result }
    ensures breaks { BreaksAt result (D.broken device.new) }
{
    paint_pane(&mut screen.raster, area, history);
    if screen.stale {
        return Painted::Done;
    }
    match send_area(&screen.raster, area, device) {
        Sent::Done => Painted::Done,
        Sent::Failed => {
            screen.stale = true;
            Painted::DeviceFault
        }
    }
}

/// Clears the device, and sends it every row of the screen, blanks too. Where it answers `Done`, the
/// device shows the cells of the screen, whatever it showed before. At the first fault nothing more is
/// sent.
pub fn redraw_all<D: Device>(screen: &mut Screen, device: &mut D) -> Painted
    ensures raster { screen.new.raster ≡ screen.old.raster }
    ensures agree { Agree screen.new.stale screen.new.raster (D.broken device.new)
        (D.cleared device.new) (D.picture device.new) }
    ensures stale { screen.new.stale ≡ is_fault result }
    ensures bytes { PaintSends result (D.wire device.old) (D.wire device.new)
        (mended (D.broken device.old)
        (ops_bytes (redraw_ops (cell_at screen.old.raster) screen.old.raster.width
        screen.old.raster.height)))
        (D.faults device.old) (D.faults device.new) }
    ensures lent { D.lent device.new ≡ D.lent device.old }
    ensures cause { PaintedRose (D.faults device.old) (D.faults device.new) result }
    ensures breaks { BreaksAt result (D.broken device.new) }
{
    screen.stale = true;
    match send_all(&screen.raster, device) {
        Sent::Done => {
            screen.stale = false;
            Painted::Done
        }
        Sent::Failed => Painted::DeviceFault,
    }
}
