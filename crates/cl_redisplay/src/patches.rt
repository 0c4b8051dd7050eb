//! Painting of one item at the touched places of an area.
ghost use Rattle.std.specs.Prelude.{◌≡◌, ◌∷◌, [], ℤ, false, true};
ghost use Rattle.cl_region.specs.Places.{IsInRange, holds, move_rect};
ghost use Rattle.cl_spans.specs.Runs.{row_holds};
ghost use Rattle.cl_spans.specs.SpanRows.{spans_hold};
ghost use Rattle.cl_redisplay.specs.Paint.{LiesIn};
ghost use Rattle.cl_redisplay.specs.Patches.{AreApartFrom, blank_everywhere, row_places, strip};
ghost use Rattle.cl_redisplay.specs.Touching.{PaintsThose};

use crate::areas::Area;
use crate::items::paint_part;
use crate::painting::blank;
use cl_medium::Leaf;
use cl_outside::Cell;
use cl_raster::{Raster, clip};
use cl_region::{Rect, Shift};
use cl_spans::{Span, Spans};

// The columns of a span in one row.
fn strip(span: &Span, row: u16) -> Rect
    ensures { result ≡ strip span.now row }
{
    let top = i64::from(row);
    Rect {
        x1: span.x1,
        y1: top,
        x2: span.x2,
        y2: top + 1,
    }
}

// Blanks the places of the area that one of the spans of this row holds.
fn blank_row(raster: &mut Raster, area: Area, spans: &[Span], row: u16)
    requires lies { LiesIn area raster.old }
    ensures { PaintsThose blank_everywhere raster.old raster.new area (row_places spans.now row) (tt ∷ []) }
{
    for span in spans {
        let part = area.part(&strip(span, row));
        blank(raster, part);
    }
}

// Blanks the touched places of the area.
pub(crate) fn blank_touched(raster: &mut Raster, area: Area, touched: &Spans)
    requires lies { LiesIn area raster.old }
    ensures { PaintsThose blank_everywhere raster.old raster.new area (spans_hold touched.now) (tt ∷ []) }
{
    for row in 0..area.height {
        blank_row(raster, area, touched.row(i64::from(row)), row);
    }
}

// Paints an item, moved by `at`, at those places of the area that a span of a row holds. It looks at those of
// them alone that its bounds have.
fn paint_strip<L: Leaf>(
    raster: &mut Raster,
    area: Area,
    places: &Rect,
    item: &L,
    at: Shift,
    cells: &mut [Option<Cell>; 512],
)
    requires lies { LiesIn area raster.old }
    requires range { IsInRange (move_rect at (L.bounds item.now)) }
    ensures { PaintsThose L.cell raster.old raster.new area (holds places.now) (L.moved_by at item.now ∷ []) }
{
    let bounds = item.bounds().shifted(at);
    let part = area.part(&bounds.meet(places));
    paint_part(raster, area, part, item, at, cells);
}

// The same of all spans of one row.
fn paint_row<L: Leaf>(
    raster: &mut Raster,
    area: Area,
    spans: &[Span],
    row: u16,
    item: &L,
    at: Shift,
    cells: &mut [Option<Cell>; 512],
)
    requires lies { LiesIn area raster.old }
    requires range { IsInRange (move_rect at (L.bounds item.now)) }
    ensures { PaintsThose L.cell raster.old raster.new area (row_places spans.now row) (L.moved_by at item.now ∷ []) }
{
    for span in spans {
        paint_strip(raster, area, &strip(span, row), item, at, cells);
    }
}

// Paints an item, moved by `at`, at the touched places of the area. It looks at the rows alone that its bounds
// have, and there at the touched places alone.
pub(crate) fn paint_there<L: Leaf>(
    raster: &mut Raster,
    area: Area,
    touched: &Spans,
    item: &L,
    at: Shift,
    cells: &mut [Option<Cell>; 512],
)
    requires lies { LiesIn area raster.old }
    requires range { IsInRange (move_rect at (L.bounds item.now)) }
    ensures { PaintsThose L.cell raster.old raster.new area (spans_hold touched.now) (L.moved_by at item.now ∷ []) }
{
    let bounds = item.bounds().shifted(at);
    let top = clip(bounds.y1, area.height);
    let bottom = clip(bounds.y2, area.height);
    for row in top..bottom {
        paint_row(
            raster,
            area,
            touched.row(i64::from(row)),
            row,
            item,
            at,
            cells,
        );
    }
}

// Whether one of the spans has a column of the rectangle.
fn row_meets(spans: &[Span], rect: &Rect) -> bool
    ensures { result ≡ false → (x y : ℤ) → holds rect.now x y ≡ true → row_holds spans.now x ≡ false }
{
    for span in spans {
        if span.x1.max(rect.x1) < span.x2.min(rect.x2) {
            return true;
        }
    }
    false
}

// Whether a touched place may lie in the rectangle, of those in the first so many rows.
pub(crate) fn meets(touched: &Spans, height: u16, rect: &Rect) -> bool
    ensures { result ≡ false → AreApartFrom (spans_hold touched.now) height rect.now }
{
    for row in clip(rect.y1, height)..clip(rect.y2, height) {
        if row_meets(touched.row(i64::from(row)), rect) {
            return true;
        }
    }
    false
}
