//! A device in memory, which fails where it is told to.
ghost use Rattle.std.specs.Prelude.{◌≡◌, ◌↔◌, ◌≤◌, ◌<◌, true, false, None, IfOk};
ghost use Rattle.cl_outside.specs.Device.{IsBlank, IsSpan, ClearSent, SpanSent, SentRose};
ghost use Rattle.cl_outside.specs.Memory.{IsToFail, counted, new_plan};
ghost use Rattle.cl_outside.specs.MemoryDevice.{picture_of, told_picture, CountsFailure};

use crate::answers::Sent;
use crate::cells::Cell;
use crate::devices::Device;
use crate::grid::Grid;
use crate::plan::{FaultPlan, raised};
use std::alloc::{AllocError, Global};
use std::marker::Model;

/// A device in memory. It takes the room for 512 by 256 cells when it is made, and no call takes
/// more.
#[derive(Drop)]
pub struct MemDevice {
    grid: Grid,
    width: u16,
    height: u16,
    broken: bool,
    cleared: bool,
    plan: FaultPlan,
    faults: u64,
}

impl Model for MemDevice {
    ghost use Rattle.std.specs.Prelude.{◌≤◌};
    ghost use Rattle.cl_outside.specs.MemoryDevice.{MemoryDevice};

    ghost Value = { MemoryDevice };

    ghost view = { λ d. record {
      cells = d.grid;
      width = d.width;
      height = d.height;
      broken = d.broken;
      cleared = d.cleared;
      plan = d.plan;
      faults = d.faults;
    } };

    ghost invariant = { λ d. (d.width ≤ 512) × (d.height ≤ 256) };
}

impl MemDevice {
    /// Not broken, not yet cleared, with a blank picture of 1 by 1. `fails` lists the numbers, from
    /// 1, of the calls of `clear` and `span` that are to fail.
    pub fn new(alloc: Global, fails: Vec<u64>) -> Result<MemDevice, AllocError>
        ensures picture { IfOk result (λ d. IsBlank 1 1 (picture_of d)) }
        ensures broken { IfOk result (λ d. d.broken ≡ false) }
        ensures cleared { IfOk result (λ d. d.cleared ≡ false) }
        ensures plan { IfOk result (λ d. d.plan ≡ new_plan fails.items) }
        ensures faults { IfOk result (λ d. d.faults ≡ 0) }
    {
        Ok(MemDevice {
            grid: Grid::new(alloc)?,
            width: 1,
            height: 1,
            broken: false,
            cleared: false,
            plan: FaultPlan::new(fails),
            faults: 0,
        })
    }

    /// The cell at column `x` of row `y`.
    pub fn cell(&self, x: u16, y: u16) -> Cell
        requires whole { self.now.broken ≡ false }
        requires column { x < (picture_of self.now).width }
        requires row { y < (picture_of self.now).height }
        ensures glyph { result.glyph ≡ (picture_of self.now).glyph_at x y }
        ensures ink { result.ink ≡ (picture_of self.now).ink_at x y }
    {
        self.grid.cell(x, y)
    }

    // Notes that an operation failed.
    fn fail(&mut self) -> Sent
        ensures answer { result ≡ Sent.Failed }
        ensures broken { self.new.broken ≡ true }
        ensures cleared { self.new.cleared ≡ self.old.cleared }
        ensures plan { self.new.plan ≡ self.old.plan }
        ensures count { CountsFailure self.old.faults self.new.faults Sent.Failed }
    {
        self.faults = raised(self.faults);
        self.broken = true;
        Sent::Failed
    }
}

impl Device for MemDevice {
    ghost use Rattle.cl_outside.specs.Operations.{clears, mended, op_bytes, shows};
    ghost use Rattle.cl_outside.specs.Sending.{Sends};
    ghost use Rattle.cl_outside.specs.Untied.{untied};

    ghost picture = { λ d. told_picture d.broken (picture_of d) };

    ghost broken = { λ d. d.broken };

    ghost cleared = { λ d. d.cleared };

    ghost faults = { λ d. d.faults };

    ghost tied = { λ d. untied None d.broken (told_picture d.broken (picture_of d)) };

    fn clear(&mut self, width: u16, height: u16) -> Sent
        requires columns { (1 ≤ width) × (width ≤ 512) }
        requires rows { (1 ≤ height) × (height ≤ 256) }
        ensures shows { ClearSent width height (told_picture self.new.broken (picture_of self.new))
            self.new.broken self.new.cleared result }
        ensures sends { Sends result None None
            (mended self.old.broken (op_bytes (clears width height))) self.old.faults
            self.new.faults }
        ensures cause { SentRose self.old.faults self.new.faults result }
        ensures fails { (result ≡ Sent.Failed) ↔ IsToFail self.old.plan }
        ensures plan { self.new.plan ≡ counted self.old.plan }
        ensures count { CountsFailure self.old.faults self.new.faults result }
    {
        if self.plan.next_fails() {
            return self.fail();
        }
        self.grid.clear();
        self.width = width;
        self.height = height;
        self.broken = false;
        self.cleared = true;
        Sent::Done
    }

    fn span(&mut self, x: u16, y: u16, ink: u8, glyphs: &[u8]) -> Sent
        requires whole { self.old.broken ≡ false }
        requires span { IsSpan ink glyphs.now }
        ensures cleared { self.new.cleared ≡ self.old.cleared }
        ensures shows { SpanSent self.old.cleared (told_picture self.old.broken (picture_of self.old)) (told_picture self.new.broken (picture_of self.new)) x y ink glyphs.now
            self.new.broken result }
        ensures sends { Sends result None None (op_bytes (shows x y ink glyphs.now))
            self.old.faults self.new.faults }
        ensures cause { SentRose self.old.faults self.new.faults result }
        ensures fails { (result ≡ Sent.Failed) ↔ IsToFail self.old.plan }
        ensures plan { self.new.plan ≡ counted self.old.plan }
        ensures count { CountsFailure self.old.faults self.new.faults result }
    {
        if self.plan.next_fails() {
            return self.fail();
        }
        if self.cleared && x < self.width && y < self.height {
            self.grid.paint_row(self.width, x, y, ink, glyphs);
        }
        Sent::Done
    }
}
