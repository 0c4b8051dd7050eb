//! The picture that the bytes of a wire show.
ghost use Rattle.std.specs.Prelude.{◌≡◌, ◌∷◌, ◌+◌, ◌≤◌, ◌<◌, IfOk, length};
ghost use Rattle.cl_outside.specs.Device.{IsPainted, IsSpan};
ghost use Rattle.cl_outside.specs.Play.{op_of, play};
ghost use Rattle.cl_raster.specs.Playback.{Acts, HasCellsOf, cells_of};

use crate::lines::{cut, read_clear, read_span};
use crate::rasters::Raster;
use cl_outside::Cell;
use std::alloc::{AllocError, Global};

/// The picture that these bytes show: what their whole lines make of a blank picture of 1 by 1, one after
/// another. A line that is no operation changes nothing, nor does a span before the first `C`, nor
/// bytes behind the last line feed. The only error is want of memory.
pub fn play(alloc: Global, bytes: &[u8]) -> Result<Raster, AllocError>
    ensures { IfOk result (λ r. HasCellsOf r (play bytes.now)) }
{
    let mut shown = None;
    let mut rest = bytes;
    while let Some((line, behind)) = cut(rest, b'\n') {
        shown = act(alloc, shown, line)?;
        rest = behind;
    }
    match shown {
        Some(raster) => Ok(raster),
        None => Raster::new(alloc, 1, 1),
    }
}

// What a line makes of what is shown; None: nothing is shown yet.
fn act(alloc: Global, shown: Option<Raster>, line: &[u8]) -> Result<Option<Raster>, AllocError>
    ensures { IfOk result (λ new. Acts shown new (op_of line.now)) }
{
    match line {
        [b'C', b' ', text @ ..] => clear(alloc, shown, text),
        [b'S', b' ', text @ ..] => Ok(span(shown, text)),
        _ => Ok(shown),
    }
}

// What the line of a `C` makes of it, of which the text stands behind the first space.
fn clear(alloc: Global, shown: Option<Raster>, text: &[u8]) -> Result<Option<Raster>, AllocError>
    ensures { IfOk result (λ new. Acts shown new (op_of (67 ∷ 32 ∷ text.now))) }
{
    match read_clear(text) {
        Some(size) => Ok(Some(Raster::new(alloc, size.width, size.height)?)),
        None => Ok(shown),
    }
}

// What the line of an `S` makes of it, of which the text stands behind the first space.
fn span(shown: Option<Raster>, text: &[u8]) -> Option<Raster>
    ensures { Acts shown result (op_of (83 ∷ 32 ∷ text.now)) }
{
    let mut raster = shown?;
    if let Some(span) = read_span(text) {
        paint(&mut raster, span.x, span.y, span.ink, span.glyphs);
    }
    Some(raster)
}

// Shows the glyphs from column `x` of row `y` on, with this ink; those that lie outside are dropped.
fn paint(raster: &mut Raster, x: u16, y: u16, ink: u8, glyphs: &[u8])
    requires { IsSpan ink glyphs.now }
    ensures { IsPainted (cells_of raster.old) (cells_of raster.new) x y ink glyphs.now }
{
    if x >= raster.width() {
        return;
    }
    if y >= raster.height() {
        return;
    }
    let count = glyphs.len().min(usize::from(raster.width() - x));
    paint_row(raster, x, y, ink, &glyphs[..count]);
}

// The same, where all glyphs lie inside.
fn paint_row(raster: &mut Raster, x: u16, y: u16, ink: u8, glyphs: &[u8])
    requires columns { x + length glyphs.now ≤ raster.old.width }
    requires width { raster.old.width ≤ 512 }
    requires row { y < raster.old.height }
    requires span { IsSpan ink glyphs.now }
    ensures { IsPainted (cells_of raster.old) (cells_of raster.new) x y ink glyphs.now }
{
    for (at, glyph) in glyphs.iter().enumerate() {
        let cell = Cell { glyph: *glyph, ink };
        raster.set(x + at as u16, y, cell);
    }
}
