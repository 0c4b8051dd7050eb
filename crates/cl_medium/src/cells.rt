//! The cells that a shape paints in its area.
ghost use Rattle.std.specs.Prelude.{◌≡◌, ◌≤◌, ◌+ℤ◌, pos, IfSome, length, option_map};
ghost use Rattle.cl_region.specs.Places.{IsNear};
ghost use Rattle.cl_medium.specs.Items.{AreCells, IsArea, item_cell, painted_of, with_ink};

use crate::areas::Area;
use crate::glyphs::shape_glyph;
use crate::shapes::LeafShape;
use cl_outside::Cell;

// What the shape paints in a column of a row.
pub(crate) fn cell_in(shape: &LeafShape, area: &Area, x: i64, y: i64) -> Option<Cell>
    requires { IsArea area.now }
    ensures { option_map painted_of result
        ≡ item_cell (record { area = area.now; shape = shape.now }) x y }
{
    match area.distance(x, y) {
        Some((across, down)) => inked(area.ink, shape_glyph(shape, area, across, down)),
        None => None,
    }
}

// The glyph in this ink.
fn inked(ink: u8, glyph: Option<u8>) -> Option<Cell>
    requires ink { ink ≤ 7 }
    requires glyph { IfSome glyph (λ g. (32 ≤ g) × (g ≤ 126)) }
    ensures { option_map painted_of result ≡ with_ink ink glyph }
{
    match glyph {
        Some(glyph) => Some(Cell { glyph, ink }),
        None => None,
    }
}

// What the shape paints in a row, from a column on.
pub(crate) fn put_shape(shape: &LeafShape, area: &Area, x: i64, y: i64, cells: &mut [Option<Cell>])
    requires area { IsArea area.now }
    requires first { IsNear x }
    requires last { IsNear (x +ℤ pos (length cells.old)) }
    ensures { AreCells (item_cell (record { area = area.now; shape = shape.now })) x y cells.old
        cells.new }
{
    for place in 0..cells.len() {
        cells[place] = cell_in(shape, area, column(x, place), y);
    }
}

// The column so many places to the right.
fn column(x: i64, count: usize) -> i64
    requires first { IsNear x }
    requires last { IsNear (x +ℤ pos count) }
    ensures { result ≡ x +ℤ pos count }
{
    x + count as i64
}
