//! Areas of a screen.
ghost use Rattle.std.specs.Prelude.{◌≡◌, ◌+◌, ◌≤◌};
ghost use Rattle.cl_redisplay.specs.Paint.{own_rect};
ghost use Rattle.cl_redisplay.specs.Parts.{IsPart};

use cl_raster::clip;
use cl_region::Rect;

/// A rectangle of cells: its left column and its top row on the screen, and how many columns and rows
/// it has.
#[derive(Clone, Copy, PartialEq, Eq, Debug)]
pub struct Area {
    pub x: u16,
    pub y: u16,
    pub width: u16,
    pub height: u16,
}

impl Area {
    /// Its cells, counted from its left column and its top row on.
    pub fn own_rect(self) -> Rect
        ensures { result ≡ own_rect self }
    {
        Rect {
            x1: 0,
            y1: 0,
            x2: i64::from(self.width),
            y2: i64::from(self.height),
        }
    }

    // The part of the area that a rectangle holds, whose coordinates are counted in the area.
    pub(crate) fn part(self, rect: &Rect) -> Area
        requires { (self.x + self.width ≤ 512) × (self.y + self.height ≤ 256) }
        ensures { IsPart result self rect.now }
    {
        let left = clip(rect.x1, self.width);
        let right = clip(rect.x2, self.width);
        let top = clip(rect.y1, self.height);
        let bottom = clip(rect.y2, self.height);
        Area {
            x: self.x + left,
            y: self.y + top,
            width: right.saturating_sub(left),
            height: bottom.saturating_sub(top),
        }
    }
}
