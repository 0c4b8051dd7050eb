//! The lines of items and of openings.
ghost use Rattle.std.specs.Prelude.{◌≡◌, ◌++◌, ◌∷◌, [], OnOk, pos};
ghost use Rattle.std.specs.Fmt.{signed_decimal};
ghost use Rattle.cl_region.specs.Places.{IsInRange, move_rect};
ghost use Rattle.cl_record.specs.Lines.{head_line, item_line, label_line, numbers, shape_line};

use crate::heads::Head;
use crate::labels::Label;
use cl_medium::{AnyLeaf, Area, Direction, Leaf, LeafShape};
use cl_print::put_value;
use cl_region::Shift;
use itoa::Buffer;
use std::alloc::AllocError;

/// A leaf that has a line in the printed form of a history.
pub trait Printable: Leaf {
    ghost use Rattle.std.specs.Prelude.{List, ℕ};

    // its kind, its place and what else there is to say of it
    ghost line_of: { Self → List ℕ };

    /// Puts its line behind a line, moved by `at`. Where memory is wanting, what stands in `out` then is
    /// not said.
    fn put_line(&self, at: Shift, out: &mut Vec<u8>) -> Result<(), AllocError>
        requires { IsInRange (move_rect at (Self.bounds self.now)) }
        ensures { OnOk result
            (out.new.items ≡ out.old.items ++ line_of (Self.moved_by at self.now)) };
}

impl Printable for AnyLeaf {
    ghost line_of = { item_line };

    fn put_line(&self, at: Shift, out: &mut Vec<u8>) -> Result<(), AllocError> {
        put_shape(out, self.shape(), self.area().shifted(at))
    }
}

// Puts the line of a shape in an area behind a line.
fn put_shape(line: &mut Vec<u8>, shape: &LeafShape, area: Area) -> Result<(), AllocError>
    ensures { OnOk result (line.new.items ≡ line.old.items ++ shape_line shape.now area) }
{
    match shape {
        LeafShape::Text(text) => {
            put_small(line, b"text", area)?;
            put_bytes(line, text.as_slice())?
        }
        LeafShape::Point(byte) => {
            put_small(line, b"point", area)?;
            put_bytes(line, &[*byte])?
        }
        LeafShape::Line(Direction::Horizontal) => put_long(line, b"hline", area, area.width)?,
        LeafShape::Line(Direction::Vertical) => put_long(line, b"vline", area, area.height)?,
        LeafShape::Outline => put_sized(line, b"box", area)?,
        LeafShape::Fill(byte) => {
            put_sized(line, b"fill", area)?;
            put_bytes(line, &[*byte])?
        }
    }
    Ok(())
}

// Puts the line of a label behind a line.
pub(crate) fn put_label(line: &mut Vec<u8>, label: &Label) -> Result<(), AllocError>
    ensures { OnOk result (line.new.items ≡ line.old.items ++ label_line label.now) }
{
    line.extend_from_slice(b"presentation ")?;
    line.extend_from_slice(label.spec().name().as_slice())?;
    line.push(b' ')?;
    put_value(line, label.object())?;
    Ok(())
}

// Puts the line of a head behind a line.
pub(crate) fn put_head(line: &mut Vec<u8>, head: &Head) -> Result<(), AllocError>
    ensures { OnOk result (line.new.items ≡ line.old.items ++ head_line head.now) }
{
    let site = head.site();
    line.extend_from_slice(b"update ")?;
    line.extend_from_slice(Buffer::new().format(site.form).as_bytes())?;
    line.push(b'.')?;
    line.extend_from_slice(Buffer::new().format(site.query).as_bytes())?;
    line.push(b' ')?;
    put_value(line, head.id())?;
    Ok(())
}

// The kind, the place, the length and the ink.
fn put_long(line: &mut Vec<u8>, kind: &[u8], area: Area, length: i64) -> Result<(), AllocError>
    ensures { OnOk result (line.new.items
        ≡ line.old.items
        ++ (kind.now ++ numbers (area.x ∷ area.y ∷ length ∷ pos area.ink ∷ []))) }
{
    put_place(line, kind, area)?;
    put_number(line, length)?;
    put_number(line, i64::from(area.ink))?;
    Ok(())
}

// The kind, the place and the ink.
fn put_small(line: &mut Vec<u8>, kind: &[u8], area: Area) -> Result<(), AllocError>
    ensures { OnOk result (line.new.items
        ≡ line.old.items ++ (kind.now ++ numbers (area.x ∷ area.y ∷ pos area.ink ∷ []))) }
{
    put_place(line, kind, area)?;
    put_number(line, i64::from(area.ink))?;
    Ok(())
}

// The kind, the place, both sizes and the ink.
fn put_sized(line: &mut Vec<u8>, kind: &[u8], area: Area) -> Result<(), AllocError>
    ensures { OnOk result (line.new.items
        ≡ line.old.items
        ++ (kind.now
        ++ numbers
        (area.x ∷ area.y ∷ area.width ∷ area.height ∷ pos area.ink ∷ []))) }
{
    put_place(line, kind, area)?;
    put_sizes(line, area)?;
    Ok(())
}

// Both sizes and the ink.
fn put_sizes(line: &mut Vec<u8>, area: Area) -> Result<(), AllocError>
    ensures { OnOk result (line.new.items
        ≡ line.old.items ++ numbers (area.width ∷ area.height ∷ pos area.ink ∷ [])) }
{
    put_number(line, area.width)?;
    put_number(line, area.height)?;
    put_number(line, i64::from(area.ink))?;
    Ok(())
}

// The kind and the place.
fn put_place(line: &mut Vec<u8>, kind: &[u8], area: Area) -> Result<(), AllocError>
    ensures { OnOk result
        (line.new.items ≡ line.old.items ++ (kind.now ++ numbers (area.x ∷ area.y ∷ []))) }
{
    line.extend_from_slice(kind)?;
    put_number(line, area.x)?;
    put_number(line, area.y)?;
    Ok(())
}

// Puts a number, behind a space, behind a line.
fn put_number(line: &mut Vec<u8>, value: i64) -> Result<(), AllocError>
    ensures { OnOk result (line.new.items ≡ line.old.items ++ 32 ∷ signed_decimal value) }
{
    line.push(b' ')?;
    line.extend_from_slice(Buffer::new().format(value).as_bytes())?;
    Ok(())
}

// Puts a space and bytes behind a line.
fn put_bytes(line: &mut Vec<u8>, bytes: &[u8]) -> Result<(), AllocError>
    ensures { OnOk result (line.new.items ≡ line.old.items ++ 32 ∷ bytes.now) }
{
    line.push(b' ')?;
    line.extend_from_slice(bytes)?;
    Ok(())
}
