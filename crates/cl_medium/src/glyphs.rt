//! The glyphs of items.
ghost use Rattle.std.specs.Prelude.{◌≡◌, ◌≤◌, ◌<ℤ◌, IfSome};
ghost use Rattle.cl_medium.specs.Items.{byte_at, glyph_of, is_end, line_byte, outline, shape_glyph};

use crate::areas::Area;
use crate::shapes::{Direction, LeafShape};

// What is drawn of a byte: outside 32 to 126 it is `#`.
fn glyph(byte: u8) -> u8
    ensures value { result ≡ glyph_of byte }
    ensures first { 32 ≤ result }
    ensures last { result ≤ 126 }
{
    if byte >= 32 && byte <= 126 {
        byte
    } else {
        b'#'
    }
}

// Whether a distance is that of the first or the last place of a side.
fn is_end(distance: i64, size: i64) -> bool
    requires { distance <ℤ size }
    ensures { result ≡ is_end distance size }
{
    distance <= 0 || size <= distance + 1
}

// The byte of an outline, by whether the place is at an end across and down.
fn outline(across: bool, down: bool) -> Option<u8>
    ensures value { result ≡ outline across down }
    ensures range { IfSome result (λ g. (32 ≤ g) × (g ≤ 126)) }
{
    match (across, down) {
        (true, true) => Some(b'+'),
        (true, false) => Some(b'|'),
        (false, true) => Some(b'-'),
        (false, false) => None,
    }
}

// What is drawn of the byte at a distance from the first.
fn byte_glyph(bytes: &[u8], distance: i64) -> Option<u8>
    ensures value { result ≡ byte_at bytes.now distance }
    ensures range { IfSome result (λ g. (32 ≤ g) × (g ≤ 126)) }
{
    if distance < 0 {
        return None;
    }
    let byte = bytes.get(distance as usize)?;
    Some(glyph(*byte))
}

// The glyph of a line.
fn line_glyph(direction: Direction) -> u8
    ensures value { result ≡ line_byte direction }
    ensures first { 32 ≤ result }
    ensures last { result ≤ 126 }
{
    match direction {
        Direction::Horizontal => b'-',
        Direction::Vertical => b'|',
    }
}

// What is drawn of a shape in an area, so far to the right of the corner and below it.
pub(crate) fn shape_glyph(shape: &LeafShape, area: &Area, across: i64, down: i64) -> Option<u8>
    requires across { across <ℤ area.now.width }
    requires down { down <ℤ area.now.height }
    ensures value { result ≡ shape_glyph shape.now area.now.width area.now.height across down }
    ensures range { IfSome result (λ g. (32 ≤ g) × (g ≤ 126)) }
{
    match shape {
        LeafShape::Text(text) => byte_glyph(text.as_slice(), across),
        LeafShape::Point(byte) => Some(glyph(*byte)),
        LeafShape::Line(direction) => Some(line_glyph(*direction)),
        LeafShape::Outline => outline(is_end(across, area.width), is_end(down, area.height)),
        LeafShape::Fill(byte) => Some(glyph(*byte)),
    }
}
