//! Figures, which are drawn from the origin and leave the cursor.
ghost use Rattle.std.specs.Prelude.{◌≡◌, Some, map};
ghost use Rattle.cl_value.specs.Value.{data_of};
ghost use Rattle.cl_eval.specs.Agrees.{Comes, always};
ghost use Rattle.cl_medium.specs.Drawing.{IsDrawn};
ghost use Rattle.cl_medium.specs.Items.{Item};
ghost use Rattle.cl_medium.specs.declared.areas.Area.{Area};
ghost use Rattle.cl_display.specs.Drawings.{drawing_of};
ghost use Rattle.cl_display.specs.Figures.{area_at, byte_of, draw_figure, draw_parts, draw_shape, figure_parts, leaf_in, number_of, parts_at};

use crate::drawings::Drawing;
use cl_eval::Stop;
use cl_medium::{Ambient, Drawn, draw_box, draw_hline, draw_point, draw_vline, fill_box};
use cl_syntax::Figure;
use cl_value::Value;

/// What a figure draws, by its length, or by its width and height, and by a byte.
#[derive(Clone, Copy)]
pub enum FigureItem {
    Point(u8),
    HorizontalLine(i64),
    VerticalLine(i64),
    Outline(i64, i64),
    Filled(i64, i64, u8),
}

/// The place of a figure from the origin, and what it draws there.
#[derive(Clone, Copy)]
pub struct FigureParts {
    pub x: i64,
    pub y: i64,
    pub item: FigureItem,
}

fn number_in(value: &Value) -> Option<i64>
    ensures { result ≡ number_of (data_of value.now) }
{
    match value {
        Value::Int(number) => Some(*number),
        _ => None,
    }
}

// The byte of a text that has one alone.
fn byte_in(value: &Value) -> Option<u8>
    ensures { result ≡ byte_of (data_of value.now) }
{
    let Value::Text(text) = value else {
        return None;
    };
    match text.as_slice() {
        [byte] => Some(*byte),
        _ => None,
    }
}

// The parts of a figure by its values, if they are of the right kinds and as many as it asks for.
fn figure_parts(figure: Figure, values: &[Value]) -> Option<FigureParts>
    ensures { result ≡ figure_parts figure (map data_of values.now) }
{
    match (figure, values) {
        (Figure::Point, [x, y, text]) => parts_at(x, y, FigureItem::Point(byte_in(text)?)),
        (Figure::HorizontalLine, [x, y, length]) => {
            parts_at(x, y, FigureItem::HorizontalLine(number_in(length)?))
        }
        (Figure::VerticalLine, [x, y, length]) => {
            parts_at(x, y, FigureItem::VerticalLine(number_in(length)?))
        }
        (Figure::Outline, [x, y, width, height]) => {
            let item = FigureItem::Outline(number_in(width)?, number_in(height)?);
            parts_at(x, y, item)
        }
        (Figure::Filled, [x, y, width, height, text]) => {
            let item = FigureItem::Filled(number_in(width)?, number_in(height)?, byte_in(text)?);
            parts_at(x, y, item)
        }
        _ => None,
    }
}

// What is drawn so far from the origin, if these are numbers.
fn parts_at(x: &Value, y: &Value, item: FigureItem) -> Option<FigureParts>
    ensures { result ≡ parts_at (data_of x.now) (data_of y.now) item }
{
    Some(FigureParts {
        x: number_in(x)?,
        y: number_in(y)?,
        item,
    })
}

// A figure, drawn from the origin.
fn draw(ambient: &Ambient, parts: FigureParts) -> Drawn
    ensures { IsDrawn (leaf_in (area_at ambient.now parts) parts.item) (area_at ambient.now parts) result }
{
    let FigureParts { x, y, item } = parts;
    match item {
        FigureItem::Point(byte) => draw_point(ambient, x, y, byte),
        FigureItem::HorizontalLine(length) => draw_hline(ambient, x, y, length),
        FigureItem::VerticalLine(length) => draw_vline(ambient, x, y, length),
        FigureItem::Outline(width, height) => draw_box(ambient, x, y, width, height),
        FigureItem::Filled(width, height, byte) => fill_box(ambient, x, y, width, height, byte),
    }
}

impl Drawing {
    /// Draws a figure by the values of its parts, where all together weighs no more than the most.
    pub fn figure(&mut self, most: u64, figure: Figure, values: &[Value]) -> Result<(), Stop>
        ensures { Comes (always (drawing_of self.new)) result
            (draw_figure most figure (map data_of values.now) (drawing_of self.old)) }
    {
        match figure_parts(figure, values) {
            Some(parts) => self.figure_of(most, parts),
            None => Err(Stop::Trap(1)),
        }
    }

    fn figure_of(&mut self, most: u64, parts: FigureParts) -> Result<(), Stop>
        ensures { Comes (always (drawing_of self.new)) result
            (draw_parts most (Some parts) (drawing_of self.old)) }
    {
        let ambient = self.ambient;
        self.add_shape(most, draw(&ambient, parts))
    }

    // What was drawn from the origin.
    fn add_shape(&mut self, most: u64, drawn: Drawn) -> Result<(), Stop>
        ensures { (leaf : Item) (area : Area) → IsDrawn leaf area drawn
            → Comes (always (drawing_of self.new)) result (draw_shape most leaf area (drawing_of self.old)) }
    {
        match drawn {
            Drawn::Item(leaf) => {
                self.add(most, leaf, 1)?;
                self.part.origin_used = true;
                Ok(())
            }
            Drawn::Nothing => Ok(()),
            Drawn::Range => Err(Stop::Trap(9)),
            Drawn::Memory => Err(Stop::Memory),
        }
    }
}
