//! The state from which items are drawn: the cursor, the left margin, the origin and the ink.
ghost use Rattle.std.specs.Prelude.{◌≡◌, pos, ◌+ℤ◌};
ghost use Rattle.cl_region.specs.Places.{IsNear};
ghost use Rattle.cl_medium.specs.Ambients.{IsAmbient, IsNearSum, MovesWhereNear, after_indent, after_newline, after_room, ambient_start, in_room};

use cl_region::MAX_COORDINATE;
use std::marker::Model;

/// The cursor, the left margin, the origin, all of them from -1,000,000 to 1,000,000, and the ink, from
/// 0 to 7.
#[derive(Clone, Copy)]
pub struct Ambient {
    pub x: i64,
    pub y: i64,
    pub margin: i64,
    pub origin_x: i64,
    pub origin_y: i64,
    pub ink: u8,
}

impl Model for Ambient {
    ghost use Rattle.cl_medium.specs.Ambients.{AmbientAt, IsAmbient};

    ghost Value = { AmbientAt };

    ghost view = { λ ambient. record {
      x = ambient.x;
      y = ambient.y;
      margin = ambient.margin;
      origin_x = ambient.origin_x;
      origin_y = ambient.origin_y;
      ink = ambient.ink;
    } };

    ghost invariant = { λ ambient. IsAmbient
        (record {
          x = ambient.x;
          y = ambient.y;
          margin = ambient.margin;
          origin_x = ambient.origin_x;
          origin_y = ambient.origin_y;
          ink = ambient.ink;
        }) };

    ghost inverse = { λ ambient. record {
      x = ambient.x;
      y = ambient.y;
      margin = ambient.margin;
      origin_x = ambient.origin_x;
      origin_y = ambient.origin_y;
      ink = ambient.ink;
    } };
}

impl Ambient {
    /// That of the start of a pane: all numbers are 0.
    pub fn start() -> Ambient
        ensures { result ≡ ambient_start }
    {
        Ambient {
            x: 0,
            y: 0,
            margin: 0,
            origin_x: 0,
            origin_y: 0,
            ink: 0,
        }
    }
}

/// Sets the cursor to the margin of the next row. It is false exactly where that row is past
/// 1,000,000, and then nothing changes.
pub fn newline(ambient: &mut Ambient) -> bool
    ensures { MovesWhereNear (ambient.old.y +ℤ pos 1) ambient.old (after_newline ambient.old)
        ambient.new result }
{
    match near_sum(ambient.y, 1) {
        Some(y) => {
            ambient.x = ambient.margin;
            ambient.y = y;
            true
        }
        None => false,
    }
}

/// Adds to the margin, and leaves the cursor. It is false exactly where the margin would leave the
/// range, and then nothing changes.
pub fn indent(ambient: &mut Ambient, n: i64) -> bool
    ensures { MovesWhereNear (ambient.old.margin +ℤ n) ambient.old (after_indent ambient.old n)
        ambient.new result }
{
    match near_sum(ambient.margin, n) {
        Some(margin) => {
            ambient.margin = margin;
            true
        }
        None => false,
    }
}

/// Sets the origin to the cursor, and gives what was before.
pub fn enter_room(ambient: &mut Ambient) -> Ambient
    ensures before { result ≡ ambient.old }
    ensures inside { ambient.new ≡ in_room ambient.old }
{
    let before = *ambient;
    ambient.origin_x = ambient.x;
    ambient.origin_y = ambient.y;
    before
}

/// Restores the origin, and sets the cursor to the margin of the row below what was drawn in the
/// room: `bottom` is the greatest end of an item there. The cursor does not come to stand above where
/// it was at the entry.
pub fn leave_room(ambient: &mut Ambient, before: &Ambient, bottom: i64)
    requires { IsNear bottom }
    ensures { ambient.new ≡ after_room ambient.old before.now bottom }
{
    ambient.x = ambient.margin;
    ambient.y = bottom.max(before.y);
    ambient.origin_x = before.origin_x;
    ambient.origin_y = before.origin_y;
}

// The sum, where it is no further out than a coordinate may be.
pub(crate) fn near_sum(a: i64, b: i64) -> Option<i64>
    ensures { IsNearSum (a +ℤ b) result }
{
    match a.checked_add(b) {
        Some(sum) => near(sum),
        None => None,
    }
}

// The number, where it is no further out than a coordinate may be.
fn near(z: i64) -> Option<i64>
    ensures { IsNearSum z result }
{
    if z < -MAX_COORDINATE {
        return None;
    }
    if z > MAX_COORDINATE {
        return None;
    }
    Some(z)
}
