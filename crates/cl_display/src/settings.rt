//! What display forms set for their bodies, and how the bodies are left.
ghost use Rattle.std.specs.Prelude.{◌≡◌, Ok};
ghost use Rattle.cl_value.specs.Value.{data_of};
ghost use Rattle.cl_eval.specs.Agrees.{Comes, always};
ghost use Rattle.cl_display.specs.Drawings.{drawing_of, part_of};
ghost use Rattle.cl_display.specs.Settings.{close_room, enter_room, indent, leave_room, restore_ink, restore_margin, set_ink};

use crate::drawings::Drawing;
use crate::parts::Part;
use cl_eval::Stop;
use cl_medium::{Ambient, enter_room, indent, leave_room};
use cl_value::Value;
use std::alloc::Global;

/// What was around a room at its entry: what was drawn from there, and what had been drawn.
#[derive(Drop)]
pub struct Outer {
    pub ambient: Ambient,
    pub part: Part,
}

impl Drawing {
    /// Adds a number to the margin.
    pub fn indent(&mut self, value: &Value) -> Result<(), Stop>
        ensures { Comes (always (drawing_of self.new)) result
            (indent (data_of value.now) (drawing_of self.old)) }
    {
        let Value::Int(number) = value else {
            return Err(Stop::Trap(1));
        };
        let mut ambient = self.ambient;
        if !indent(&mut ambient, *number) {
            return Err(Stop::Trap(9));
        }
        self.part.extent.take_margin(&ambient);
        self.part.margin_used = true;
        self.ambient = ambient;
        Ok(())
    }

    /// Sets one of the eight inks.
    pub fn set_ink(&mut self, value: &Value) -> Result<(), Stop>
        ensures { Comes (always (drawing_of self.new)) result
            (set_ink (data_of value.now) (drawing_of self.old)) }
    {
        let Value::Int(number) = value else {
            return Err(Stop::Trap(1));
        };
        let Ok(ink) = u8::try_from(*number) else {
            return Err(Stop::Trap(9));
        };
        if ink > 7 {
            return Err(Stop::Trap(9));
        }
        self.ambient.ink = ink;
        Ok(())
    }

    /// Takes the margin of before.
    pub fn restore_margin(&mut self, before: &Ambient)
        ensures { drawing_of self.new ≡ restore_margin before.now (drawing_of self.old) }
    {
        self.ambient.margin = before.margin;
    }

    /// Takes the ink of before.
    pub fn restore_ink(&mut self, before: &Ambient)
        ensures { drawing_of self.new ≡ restore_ink before.now (drawing_of self.old) }
    {
        self.ambient.ink = before.ink;
    }

    /// Sets the origin to the cursor, and starts a new part there. It gives what was before.
    pub fn enter_room(&mut self, alloc: Global) -> Outer
        ensures inside { drawing_of self.new ≡ enter_room (drawing_of self.old) }
        ensures ambient { result.ambient ≡ (drawing_of self.old).ambient }
        ensures part { part_of result.part ≡ (drawing_of self.old).part }
    {
        let before = enter_room(&mut self.ambient);
        Outer {
            ambient: before,
            part: self.start(alloc),
        }
    }

    /// Restores the origin, sets the cursor to the margin below the items of the room, and puts the
    /// part of the room behind the one around it.
    pub fn leave_room(&mut self, outer: Outer) -> Result<(), Stop>
        ensures { Comes (always (drawing_of self.new)) result
            (Ok (leave_room outer.ambient (part_of outer.part) (drawing_of self.old))) }
    {
        self.close_room(&outer.ambient);
        self.join(outer.part)
    }

    // Ends a room, whose part is not yet behind the one around it.
    fn close_room(&mut self, before: &Ambient)
        ensures { drawing_of self.new ≡ close_room before.now (drawing_of self.old) }
    {
        let row = self.part.lowest.unwrap_or(before.y);
        let mut ambient = self.ambient;
        leave_room(&mut ambient, before, row);
        self.part.take_cursor(&ambient);
        self.part.margin_used = true;
        self.part.origin_used = false;
        self.ambient = ambient;
    }
}
