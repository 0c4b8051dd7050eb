//! The cells of a device in memory.
ghost use Rattle.std.specs.Prelude.{◌≡◌, ℕ, ◌+◌, ◌≤◌, ◌<◌, length, All, IfOk, replicate};
ghost use Rattle.cl_outside.specs.Device.{IsGlyph, IsSpan, IsPainted};
ghost use Rattle.cl_outside.specs.MemoryDevice.{AllBlank, IsPut, IsFilled, glyph_in, ink_in, picture_in, place_of};

use crate::cells::Cell;
use std::alloc::{AllocError, Global};
use std::marker::Model;

// The cells of the greatest picture, 256 rows of 512, one row behind the other.
#[derive(Drop)]
pub(crate) struct Grid {
    glyphs: Vec<u8>,
    inks: Vec<u8>,
}

const STRIDE: usize = 512;

const PLACES: usize = 131072;

impl Model for Grid {
    ghost use Rattle.cl_outside.specs.MemoryDevice.{Cells, IsCells};

    ghost Value = { Cells };

    ghost view = { λ g. record { glyphs = g.glyphs.items; inks = g.inks.items } };

    ghost invariant = { λ g. IsCells g.glyphs.items g.inks.items };
}

impl Grid {
    pub(crate) fn new(alloc: Global) -> Result<Grid, AllocError>
        ensures { IfOk result AllBlank }
    {
        let glyphs = copies(alloc, Cell::BLANK.glyph)?;
        let inks = copies(alloc, Cell::BLANK.ink)?;
        Ok(Grid { glyphs, inks })
    }

    pub(crate) fn clear(&mut self)
        ensures { AllBlank self.new }
    {
        self.glyphs.as_mut_slice().fill(Cell::BLANK.glyph);
        self.inks.as_mut_slice().fill(Cell::BLANK.ink);
    }

    // The cell at column `x` of row `y`.
    pub(crate) fn cell(&self, x: u16, y: u16) -> Cell
        requires column { x < 512 }
        requires row { y < 256 }
        ensures glyph { result.glyph ≡ glyph_in self.now x y }
        ensures ink { result.ink ≡ ink_in self.now x y }
    {
        let at = place(x, y);
        Cell {
            glyph: self.glyphs[at],
            ink: self.inks[at],
        }
    }

    // Paints glyphs of one ink from column `x` of row `y` on, up to the last column of a picture of
    // this width.
    pub(crate) fn paint_row(&mut self, width: u16, x: u16, y: u16, ink: u8, glyphs: &[u8])
        requires width { width ≤ 512 }
        requires column { x < width }
        requires row { y < 256 }
        requires span { IsSpan ink glyphs.now }
        ensures { (height : ℕ)
            → IsPainted (picture_in self.old width height) (picture_in self.new width height) x y
            ink glyphs.now }
    {
        let count = glyphs.len().min(usize::from(width - x));
        self.paint(place(x, y), ink, &glyphs[..count]);
    }

    // Paints glyphs of one ink from a place on.
    fn paint(&mut self, at: usize, ink: u8, glyphs: &[u8])
        requires within { at + length glyphs.now ≤ 131072 }
        requires ink { ink ≤ 7 }
        requires glyphs { All IsGlyph glyphs.now }
        ensures glyphs { IsPut self.old.glyphs self.new.glyphs at glyphs.now }
        ensures inks { IsFilled self.old.inks self.new.inks at (length glyphs.now) ink }
    {
        put(self.glyphs.as_mut_slice(), at, glyphs);
        fill(self.inks.as_mut_slice(), at, glyphs.len(), ink);
    }
}

fn place(x: u16, y: u16) -> usize
    ensures { result ≡ place_of x y }
{
    usize::from(y) * STRIDE + usize::from(x)
}

fn copies(alloc: Global, value: u8) -> Result<Vec<u8>, AllocError>
    ensures { IfOk result (λ v. v.items ≡ replicate 131072 value) }
{
    let values = vec![in alloc; value; PLACES]?;
    Ok(values)
}

fn put(cells: &mut [u8], at: usize, values: &[u8])
    requires { at + length values.now ≤ length cells.old }
    ensures { IsPut cells.old cells.new at values.now }
{
    cells[at..at + values.len()].copy_from_slice(values);
}

fn fill(cells: &mut [u8], at: usize, count: usize, value: u8)
    requires { at + count ≤ length cells.old }
    ensures { IsFilled cells.old cells.new at count value }
{
    cells[at..at + count].fill(value);
}
