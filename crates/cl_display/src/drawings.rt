//! What display forms draw.
ghost use Rattle.std.specs.Prelude.{◌≡◌, ◌+◌, ◌<◌, ◌≤◌, MatchOption, Ok};
ghost use Rattle.cl_value.specs.Value.{data_of};
ghost use Rattle.cl_eval.specs.Agrees.{Comes, always};
ghost use Rattle.cl_display.specs.Drawings.{add_item, blank_drawing, cursor_to, drawing_of, join, newline, part_of, start, write_text};
ghost use Rattle.cl_display.specs.Presentations.{write_value};

use crate::parts::Part;
use crate::siblings::Siblings;
use cl_eval::Stop;
use cl_medium::{Ambient, AnyLeaf, Drawn, draw_text, newline};
use cl_value::{Text, Value};
use std::alloc::Global;

/// No history weighs more.
pub const MAX_WEIGHT: u64 = 1_000_000;

/// A display so far: the state that is drawn from, the weight of what was drawn, the updates so far at this level, and what the
/// present body drew.
#[derive(Drop)]
pub struct Drawing {
    pub ambient: Ambient,
    pub weight: u64,
    pub siblings: Siblings,
    pub part: Part,
}

impl Drawing {
    /// Nothing drawn yet, the cursor at the corner.
    pub fn blank(alloc: Global) -> Drawing
        ensures { drawing_of result ≡ blank_drawing }
    {
        let ambient = Ambient::start();
        Drawing {
            ambient,
            weight: 0,
            siblings: Siblings::new(alloc),
            part: Part::start(alloc, &ambient),
        }
    }

    /// Starts a new part at the cursor, and gives the one before.
    pub fn start(&mut self, alloc: Global) -> Part
        ensures inside { drawing_of self.new ≡ start (drawing_of self.old) }
        ensures outer { part_of result ≡ (drawing_of self.old).part }
    {
        let inner = Part::start(alloc, &self.ambient);
        std::mem::replace(&mut self.part, inner)
    }

    /// Puts the part that was drawn last behind the one around it.
    pub fn join(&mut self, outer: Part) -> Result<(), Stop>
        ensures { Comes (always (drawing_of self.new)) result
            (Ok (join (part_of outer) (drawing_of self.old))) }
    {
        let inner = std::mem::replace(&mut self.part, outer);
        self.part.join(inner)?;
        Ok(())
    }

    /// Draws a text at the cursor, where all together weighs no more than the most.
    pub fn write(&mut self, most: u64, value: &Value) -> Result<(), Stop>
        ensures { Comes (always (drawing_of self.new)) result
            (write_value most (drawing_of self.old) (data_of value.now)) }
    {
        match value {
            Value::Text(text) => self.write_text(most, text),
            _ => Err(Stop::Trap(1)),
        }
    }

    fn write_text(&mut self, most: u64, text: &Text) -> Result<(), Stop>
        ensures { Comes (always (drawing_of self.new)) result
            (write_text most text.now (drawing_of self.old)) }
    {
        let mut ambient = self.ambient;
        match draw_text(&mut ambient, text) {
            Drawn::Item(leaf) => {
                self.add(most, leaf, text.as_slice().len() as u64 + 1)?;
                self.move_to(ambient);
                Ok(())
            }
            Drawn::Nothing => Ok(()),
            Drawn::Range => Err(Stop::Trap(9)),
            Drawn::Memory => Err(Stop::Memory),
        }
    }

    /// Moves the cursor to the margin of the next row.
    pub fn newline(&mut self) -> Result<(), Stop>
        ensures { Comes (always (drawing_of self.new)) result (newline (drawing_of self.old)) }
    {
        let mut ambient = self.ambient;
        if !newline(&mut ambient) {
            return Err(Stop::Trap(9));
        }
        self.part.margin_used = true;
        self.move_to(ambient);
        Ok(())
    }

    // One more item of this weight.
    pub(crate) fn add(&mut self, most: u64, leaf: AnyLeaf, weight: u64) -> Result<(), Stop>
        ensures { Comes (always (drawing_of self.new)) result
            (add_item most leaf weight (drawing_of self.old)) }
    {
        let Some(whole) = heavier(most, self.weight, weight) else {
            return Err(Stop::Trap(10));
        };
        self.part.push(leaf)?;
        self.weight = whole;
        Ok(())
    }

    // The cursor and what else is drawn from are these.
    fn move_to(&mut self, ambient: Ambient)
        ensures { drawing_of self.new ≡ cursor_to ambient (drawing_of self.old) }
    {
        self.part.take_cursor(&ambient);
        self.ambient = ambient;
    }
}

// The sum of two weights, where it is no more than the most.
pub(crate) fn heavier(most: u64, weight: u64, more: u64) -> Option<u64>
    ensures { MatchOption result (most < weight + more)
        (λ sum. (sum ≡ weight + more) × (sum ≤ most)) }
{
    let sum = weight.checked_add(more)?;
    if sum <= most { Some(sum) } else { None }
}
