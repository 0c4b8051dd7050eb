//! Whether the measures of an update are so.
ghost use Rattle.std.specs.Prelude.{◌↔◌, IsTrue};
ghost use Rattle.cl_region.specs.Places.{IsInRange};
ghost use Rattle.cl_record.specs.Heads.{measures_of};
ghost use Rattle.cl_record.specs.Ranges.{HoldsCorners, HoldsPoint, IsHeld, IsMeasured};
ghost use Rattle.cl_record.specs.Trees.{trees_of};

use crate::heads::{Head, Measures};
use crate::nodes::Nodes;
use crate::shifts::STILL;
use cl_medium::{Ambient, Leaf};
use cl_region::Rect;

/// Whether the head's extent is in the range, and holds its start, its end, the items of these records
/// and the extents of their updates.
pub fn is_measured<L: Leaf>(head: &Head, inside: &Nodes<L>) -> bool
    ensures { IsTrue result ↔ IsMeasured L.bounds L.moved_by head.now (trees_of inside.now) }
{
    hold(&head.measures(), inside.summary().extents)
}

fn hold(measures: &Measures, extents: Option<Rect>) -> bool
    ensures { IsTrue result ↔ IsHeld (measures_of measures.now) extents }
{
    if !is_in_range(&measures.extent) {
        return false;
    }
    if !holds_start(&measures.extent, &measures.start) {
        return false;
    }
    if !holds_end(measures) {
        return false;
    }
    match extents {
        Some(other) => holds_corners(&measures.extent, &other),
        None => true,
    }
}

fn is_in_range(rect: &Rect) -> bool
    ensures { IsTrue result ↔ IsInRange rect.now }
{
    rect.fits(STILL)
}

fn holds_start(rect: &Rect, start: &Ambient) -> bool
    ensures { IsTrue result ↔ HoldsPoint rect.now (record { x = start.now.x; y = start.now.y }) }
{
    holds_place(*rect, start.x, start.y)
}

fn holds_end(measures: &Measures) -> bool
    ensures { IsTrue result
        ↔ HoldsPoint measures.now.extent (record { x = measures.now.end_x; y = measures.now.end_y }) }
{
    holds_place(measures.extent, measures.end_x, measures.end_y)
}

// Whether all corners of a rectangle lie between the sides of another one, or on them.
fn holds_corners(rect: &Rect, other: &Rect) -> bool
    ensures { IsTrue result ↔ HoldsCorners rect.now other.now }
{
    if !holds_first(rect, other) {
        return false;
    }
    holds_last(rect, other)
}

fn holds_first(rect: &Rect, other: &Rect) -> bool
    ensures { IsTrue result ↔ HoldsPoint rect.now (record { x = other.now.x1; y = other.now.y1 }) }
{
    holds_place(*rect, other.x1, other.y1)
}

fn holds_last(rect: &Rect, other: &Rect) -> bool
    ensures { IsTrue result ↔ HoldsPoint rect.now (record { x = other.now.x2; y = other.now.y2 }) }
{
    holds_place(*rect, other.x2, other.y2)
}

// Whether a place lies between the sides of a rectangle, or on them.
fn holds_place(rect: Rect, x: i64, y: i64) -> bool
    ensures { IsTrue result ↔ HoldsPoint rect (record { x = x; y = y }) }
{
    if x < rect.x1 {
        return false;
    }
    if x > rect.x2 {
        return false;
    }
    if y < rect.y1 {
        return false;
    }
    y <= rect.y2
}
