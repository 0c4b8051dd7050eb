//! The drawing calls.
ghost use Rattle.std.specs.Prelude.{pos};
ghost use Rattle.cl_medium.specs.Drawing.{IsDrawn, IsWritten, box_leaf, fill_leaf, hline_leaf, point_leaf, shape_area, vline_leaf};

use crate::ambients::Ambient;
use crate::any_leaf::AnyLeaf;
use crate::columns::columns_of;
use crate::placing::{Fit, fit_area, place_text};
use crate::shapes::{Direction, LeafShape};
use cl_value::Text;

/// What a drawing call answers.
#[derive(Drop)]
pub enum Drawn {
    /// This item.
    Item(AnyLeaf),
    /// A text without bytes, or a size of 0.
    Nothing,
    /// A negative size, or a corner further out than 1,000,000.
    Range,
    /// Memory was wanting.
    Memory,
}

/// A text at the cursor, which moves to its end. The item shares it, so memory is wanting only where one
/// text has as many owners as can be counted. Where the answer is no item, nothing changes.
pub fn draw_text(ambient: &mut Ambient, text: &Text) -> Drawn
    ensures { IsWritten ambient.old ambient.new text.now result }
{
    let count = columns_of(text.as_slice());
    if count == 0 {
        return Drawn::Nothing;
    }
    let Some(area) = place_text(ambient, count) else {
        return Drawn::Range;
    };
    let Ok(shared) = text.copy() else {
        return Drawn::Memory;
    };
    ambient.x += area.width;
    Drawn::Item(AnyLeaf::new(area, LeafShape::Text(shared)))
}

/// One byte in one cell. Here and below x and y are those from the origin, and the cursor stays.
pub fn draw_point(ambient: &Ambient, x: i64, y: i64, byte: u8) -> Drawn
    ensures { let area = shape_area ambient.now x y (pos 1) (pos 1) in IsDrawn
        (point_leaf area byte) area result }
{
    match fit_area(ambient, x, y, 1, 1) {
        Fit::Within(area) => Drawn::Item(AnyLeaf::new(area, LeafShape::Point(byte))),
        Fit::Nothing => Drawn::Nothing,
        Fit::Range => Drawn::Range,
    }
}

/// `length` cells to the right.
pub fn draw_hline(ambient: &Ambient, x: i64, y: i64, length: i64) -> Drawn
    ensures { let area = shape_area ambient.now x y length (pos 1) in IsDrawn (hline_leaf area) area
        result }
{
    match fit_area(ambient, x, y, length, 1) {
        Fit::Within(area) => {
            Drawn::Item(AnyLeaf::new(area, LeafShape::Line(Direction::Horizontal)))
        }
        Fit::Nothing => Drawn::Nothing,
        Fit::Range => Drawn::Range,
    }
}

/// `length` cells down.
pub fn draw_vline(ambient: &Ambient, x: i64, y: i64, length: i64) -> Drawn
    ensures { let area = shape_area ambient.now x y (pos 1) length in IsDrawn (vline_leaf area) area
        result }
{
    match fit_area(ambient, x, y, 1, length) {
        Fit::Within(area) => Drawn::Item(AnyLeaf::new(area, LeafShape::Line(Direction::Vertical))),
        Fit::Nothing => Drawn::Nothing,
        Fit::Range => Drawn::Range,
    }
}

/// The outline of `width` columns and `height` rows.
pub fn draw_box(ambient: &Ambient, x: i64, y: i64, width: i64, height: i64) -> Drawn
    ensures { let area = shape_area ambient.now x y width height in IsDrawn (box_leaf area) area
        result }
{
    match fit_area(ambient, x, y, width, height) {
        Fit::Within(area) => Drawn::Item(AnyLeaf::new(area, LeafShape::Outline)),
        Fit::Nothing => Drawn::Nothing,
        Fit::Range => Drawn::Range,
    }
}

/// One byte all over `width` columns and `height` rows.
pub fn fill_box(ambient: &Ambient, x: i64, y: i64, width: i64, height: i64, byte: u8) -> Drawn
    ensures { let area = shape_area ambient.now x y width height in IsDrawn (fill_leaf area byte)
        area result }
{
    match fit_area(ambient, x, y, width, height) {
        Fit::Within(area) => Drawn::Item(AnyLeaf::new(area, LeafShape::Fill(byte))),
        Fit::Nothing => Drawn::Nothing,
        Fit::Range => Drawn::Range,
    }
}
