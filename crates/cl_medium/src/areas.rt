//! The part of a pane that an item takes.
ghost use Rattle.std.specs.Prelude.{◌≡◌, ◌↔◌, ℤ, IsTrue};
ghost use Rattle.cl_region.specs.Places.{IsInRange, holds, move_rect};
ghost use Rattle.cl_medium.specs.Items.{IsArea, IsDistance, bounds_of, move_area};

use cl_region::{Rect, Shift};

/// A rectangle of cells by its left upper corner and its sizes, and the ink of what is drawn in it.
#[derive(Clone, Copy, PartialEq, Eq, Debug)]
pub struct Area {
    pub x: i64,
    pub y: i64,
    pub width: i64,
    pub height: i64,
    pub ink: u8,
}

impl Area {
    /// The rectangle.
    pub fn bounds(&self) -> Rect
        requires { IsArea self.now }
        ensures value { result ≡ bounds_of self.now }
        ensures range { IsInRange result }
    {
        Rect {
            x1: self.x,
            y1: self.y,
            x2: self.x + self.width,
            y2: self.y + self.height,
        }
    }

    /// Whether the cell is one of the rectangle's.
    pub fn contains(&self, x: i64, y: i64) -> bool
        requires { IsArea self.now }
        ensures { result ≡ holds (bounds_of self.now) x y }
    {
        self.bounds().contains(x, y)
    }

    /// How far to the right of the left upper corner and below it the cell lies; None exactly where the
    /// area does not hold it.
    pub fn distance(&self, x: i64, y: i64) -> Option<(i64, i64)>
        requires { IsArea self.now }
        ensures { IsDistance self.now x y result }
    {
        if !self.contains(x, y) {
            return None;
        }
        Some((x - self.x, y - self.y))
    }

    // Whether both are the same.
    pub(crate) fn same(&self, other: &Area) -> bool
        ensures { IsTrue result ↔ (self.now ≡ other.now) }
    {
        self.x == other.x
            && self.y == other.y
            && self.width == other.width
            && self.height == other.height
            && self.ink == other.ink
    }

    /// The same area elsewhere.
    pub fn shifted(&self, by: Shift) -> Area
        requires area { IsArea self.now }
        requires range { IsInRange (move_rect by (bounds_of self.now)) }
        ensures value { result ≡ move_area by self.now }
        ensures area { IsArea result }
    {
        Area {
            x: self.x + by.dx,
            y: self.y + by.dy,
            width: self.width,
            height: self.height,
            ink: self.ink,
        }
    }
}
