//! The extent of a drawing, and the lowest end of its items.
ghost use Rattle.std.specs.Prelude.{◌≡◌, Some, None, IfSome};
ghost use Rattle.std.specs.Option.{unwrap_or};
ghost use Rattle.cl_region.specs.Places.{IsInRange, IsNear, box};
ghost use Rattle.cl_display.specs.Drawings.{cursor_box, lower_end};
ghost use Rattle.cl_display.specs.Settings.{margin_box};

use cl_medium::Ambient;
use cl_region::Rect;
use std::marker::Model;

/// The least and the greatest coordinates of what was taken in, none of them further out than
/// 1,000,000.
#[derive(Drop)]
pub struct Extent {
    corners: Rect,
}

impl Model for Extent {
    ghost use Rattle.cl_region.specs.Places.{IsInRange};
    ghost use Rattle.cl_region.specs.declared.rects.Rect.{Rect};

    ghost Value = { Rect };

    ghost view = { λ e. e.corners };

    ghost invariant = { λ e. IsInRange e.corners };
}

impl Extent {
    /// That of a cursor alone.
    pub fn at_cursor(ambient: &Ambient) -> Extent
        ensures { result ≡ cursor_box ambient.now }
    {
        Extent {
            corners: cursor_box(ambient),
        }
    }

    /// Its corners.
    pub fn corners(&self) -> Rect
        ensures corners { result ≡ self.now }
        ensures range { IsInRange result }
    {
        self.corners
    }

    /// Takes in the corners of a rectangle, also of one without cells.
    pub fn take(&mut self, rect: &Rect)
        requires { IsInRange rect.now }
        ensures { self.new ≡ box self.old rect.now }
    {
        self.corners = self.corners.corners_box(rect);
    }

    /// Takes in the place of the cursor.
    pub fn take_cursor(&mut self, ambient: &Ambient)
        ensures { self.new ≡ box self.old (cursor_box ambient.now) }
    {
        self.take(&cursor_box(ambient));
    }

    /// Takes in the margin, in the row of the cursor.
    pub fn take_margin(&mut self, ambient: &Ambient)
        ensures { self.new ≡ box self.old (margin_box ambient.now) }
    {
        self.take(&margin_box(ambient));
    }
}

/// The greatest end of an item down, if there is an item. It is from -1,000,000 to 1,000,000.
#[derive(Drop)]
pub struct Lowest {
    end: Option<i64>,
}

impl Model for Lowest {
    ghost use Rattle.std.specs.Prelude.{Option, ℤ, IfSome};
    ghost use Rattle.cl_region.specs.Places.{IsNear};

    ghost Value = { Option ℤ };

    ghost view = { λ l. l.end };

    ghost invariant = { λ l. IfSome l.end IsNear };
}

impl Lowest {
    /// No item yet.
    pub fn none() -> Lowest
        ensures { result ≡ None }
    {
        Lowest { end: None }
    }

    /// The end, or else this row.
    pub fn unwrap_or(&self, row: i64) -> i64
        requires { IsNear row }
        ensures value { result ≡ unwrap_or self.now row }
        ensures range { IsNear result }
    {
        self.end.unwrap_or(row)
    }

    /// Takes in an item with these bounds.
    pub fn take(&mut self, bounds: &Rect)
        requires { IsInRange bounds.now }
        ensures { self.new ≡ lower_end self.old (Some bounds.now.y2) }
    {
        self.end = match self.end {
            Some(end) => Some(end.max(bounds.y2)),
            None => Some(bounds.y2),
        };
    }

    /// Takes in what another took in.
    pub fn join(&mut self, other: &Lowest)
        ensures { self.new ≡ lower_end self.old other.now }
    {
        self.take_end(other.end);
    }

    /// Takes in the end of other items, if there are any.
    pub fn take_end(&mut self, end: Option<i64>)
        requires { IfSome end IsNear }
        ensures { self.new ≡ lower_end self.old end }
    {
        let Some(end) = end else {
            return;
        };
        self.end = match self.end {
            Some(before) => Some(before.max(end)),
            None => Some(end),
        };
    }
}

// The place of the cursor, as a rectangle without sides.
fn cursor_box(ambient: &Ambient) -> Rect
    ensures corners { result ≡ cursor_box ambient.now }
    ensures range { IsInRange result }
{
    Rect {
        x1: ambient.x,
        y1: ambient.y,
        x2: ambient.x,
        y2: ambient.y,
    }
}

// The margin in the row of the cursor, as a rectangle without sides.
fn margin_box(ambient: &Ambient) -> Rect
    ensures corners { result ≡ margin_box ambient.now }
    ensures range { IsInRange result }
{
    Rect {
        x1: ambient.margin,
        y1: ambient.y,
        x2: ambient.margin,
        y2: ambient.y,
    }
}
