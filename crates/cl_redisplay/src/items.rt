//! Painting of one item in an area.
ghost use Rattle.std.specs.Prelude.{◌≡◌, ◌+◌, ◌<◌, ◌≤◌, ◌∷◌, [], length};
ghost use Rattle.cl_region.specs.Places.{IsInRange, move_rect};
ghost use Rattle.cl_redisplay.specs.Paint.{LiesIn};
ghost use Rattle.cl_redisplay.specs.Parts.{IsIn, PaintsAll, PaintsPart, row_cell};

use crate::areas::Area;
use cl_medium::Leaf;
use cl_outside::Cell;
use cl_raster::Raster;
use cl_region::Shift;

/// No row is longer.
pub(crate) const WIDEST: usize = 512;

// Paints an item, moved by `at`, in the area. It looks at those places alone that its bounds have in the
// area, a row at a time, for which the cells are lent.
pub(crate) fn paint_item<L: Leaf>(
    raster: &mut Raster,
    area: Area,
    item: &L,
    at: Shift,
    cells: &mut [Option<Cell>; 512],
)
    requires lies { LiesIn area raster.old }
    requires range { IsInRange (move_rect at (L.bounds item.now)) }
    ensures { PaintsAll L.cell raster.old raster.new area (L.moved_by at item.now ∷ []) }
{
    let part = area.part(&item.bounds().shifted(at));
    paint_part(raster, area, part, item, at, cells);
}

// Paints an item, moved by `at`, at the places of a part of the area.
pub(crate) fn paint_part<L: Leaf>(
    raster: &mut Raster,
    area: Area,
    part: Area,
    item: &L,
    at: Shift,
    cells: &mut [Option<Cell>; 512],
)
    requires lies { LiesIn area raster.old }
    requires inside { IsIn part area }
    requires range { IsInRange (move_rect at (L.bounds item.now)) }
    ensures { PaintsPart L.cell raster.old raster.new area part (L.moved_by at item.now) }
{
    for row in 0..part.height {
        let line = Area {
            x: part.x,
            y: part.y + row,
            width: part.width,
            height: 1,
        };
        paint_line(raster, area, line, item, at, cells);
    }
}

// The same of a part of one row.
fn paint_line<L: Leaf>(
    raster: &mut Raster,
    area: Area,
    line: Area,
    item: &L,
    at: Shift,
    cells: &mut [Option<Cell>; 512],
)
    requires lies { LiesIn area raster.old }
    requires inside { IsIn line area }
    requires one { line.height ≡ 1 }
    requires range { IsInRange (move_rect at (L.bounds item.now)) }
    ensures { PaintsPart L.cell raster.old raster.new area line (L.moved_by at item.now) }
{
    let stretch = &mut cells[..line.width as usize];
    item.put_row(
        at,
        i64::from(line.x - area.x),
        i64::from(line.y - area.y),
        &mut *stretch,
    );
    put_cells(raster, line, &*stretch);
}

// Gives each place of the row the cell that stands there among these, if one does.
fn put_cells(raster: &mut Raster, line: Area, cells: &[Option<Cell>])
    requires lies { LiesIn line raster.old }
    requires one { line.height ≡ 1 }
    requires count { length cells.now ≡ line.width }
    ensures { PaintsPart row_cell raster.old raster.new line line cells.now }
{
    for column in 0..line.width {
        put_cell(raster, line, column, cells);
    }
}

// The same of one place.
fn put_cell(raster: &mut Raster, line: Area, column: u16, cells: &[Option<Cell>])
    requires lies { LiesIn line raster.old }
    requires one { line.height ≡ 1 }
    requires count { length cells.now ≡ line.width }
    requires place { column < line.width }
    ensures { PaintsPart row_cell raster.old raster.new line
        (record { x = line.x + column; y = line.y; width = 1; height = 1 }) cells.now }
{
    if let Some(cell) = cells[column as usize] {
        raster.set(line.x + column, line.y, cell);
    }
}
