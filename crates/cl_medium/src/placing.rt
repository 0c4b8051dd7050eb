//! Where an item comes to stand.
ghost use Rattle.std.specs.Prelude.{◌≡◌, pos, ◌+ℤ◌, ◌≤ℤ◌};
ghost use Rattle.cl_medium.specs.Drawing.{IsFit, IsPlaced, IsStart, shape_area, text_area};

use crate::ambients::{Ambient, near_sum};
use crate::areas::Area;

/// No two near places are further from each other.
const WIDEST: usize = 2_000_000;

// An area of cells, none, or one that may not be.
pub enum Fit {
    Within(Area),
    Nothing,
    Range,
}

// The area of so many cells from the cursor on.
pub(crate) fn place_text(ambient: &Ambient, count: usize) -> Option<Area>
    ensures { IsPlaced (text_area ambient.now count) result }
{
    if count > WIDEST {
        return None;
    }
    let width = count as i64;
    near_sum(ambient.x, width)?;
    near_sum(ambient.y, 1)?;
    Some(Area {
        x: ambient.x,
        y: ambient.y,
        width,
        height: 1,
        ink: ambient.ink,
    })
}

// The area so far from the origin.
fn place(ambient: &Ambient, x: i64, y: i64, width: i64, height: i64) -> Option<Area>
    requires width { pos 0 ≤ℤ width }
    requires height { pos 0 ≤ℤ height }
    ensures { IsPlaced (shape_area ambient.now x y width height) result }
{
    let x = start_of(ambient.origin_x, x, width)?;
    match start_of(ambient.origin_y, y, height) {
        Some(y) => Some(Area {
            x,
            y,
            width,
            height,
            ink: ambient.ink,
        }),
        None => None,
    }
}

// The start of a side, where neither end of it is further out than a coordinate may be.
fn start_of(origin: i64, distance: i64, size: i64) -> Option<i64>
    ensures { IsStart (origin +ℤ distance) size result }
{
    let start = near_sum(origin, distance)?;
    near_sum(start, size)?;
    Some(start)
}

// The sizes first, and then the range.
pub(crate) fn fit_area(ambient: &Ambient, x: i64, y: i64, width: i64, height: i64) -> Fit
    ensures { IsFit (shape_area ambient.now x y width height) result }
{
    if width < 0 {
        return Fit::Range;
    }
    if height < 0 {
        return Fit::Range;
    }
    if width == 0 {
        return Fit::Nothing;
    }
    if height == 0 {
        return Fit::Nothing;
    }
    match place(ambient, x, y, width, height) {
        Some(area) => Fit::Within(area),
        None => Fit::Range,
    }
}
