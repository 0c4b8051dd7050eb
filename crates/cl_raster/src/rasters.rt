//! The glyphs and inks of a screen of cells.
ghost use Rattle.std.specs.Prelude.{◌≡◌, ◌<◌, ◌≤◌, All, IfOk, length};
ghost use Rattle.cl_outside.specs.Device.{IsGlyph};
ghost use Rattle.cl_raster.specs.Raster.{Blanks, IsInk, Sets, blank_picture, glyph_at, ink_at, row_of};

use crate::filling::{clip, fill_box, put};
use cl_outside::Cell;
use cl_region::Rect;
use std::alloc::{AllocError, Global};
use std::marker::Model;

/// Cells in rows, 1 to 512 columns and 1 to 256 rows, which contracts see as a `Picture`.
#[derive(Drop)]
pub struct Raster {
    width: u16,
    height: u16,
    glyphs: Vec<u8>,
    inks: Vec<u8>,
}

impl Model for Raster {
    ghost use Rattle.cl_raster.specs.Raster.{AreCells, Picture};

    ghost Value = { Picture };

    ghost view = { λ r. record
        { width = r.width; height = r.height; glyphs = r.glyphs.items; inks = r.inks.items } };

    ghost invariant = { λ r. AreCells r.width r.height r.glyphs.items r.inks.items };
}

impl Raster {
    /// Blank cells: spaces with ink 0.
    pub fn new(alloc: Global, width: u16, height: u16) -> Result<Raster, AllocError>
        requires columns { (1 ≤ width) × (width ≤ 512) }
        requires rows { (1 ≤ height) × (height ≤ 256) }
        ensures { IfOk result (λ r. r ≡ blank_picture width height) }
    {
        let count = width as usize * height as usize;
        Ok(Raster {
            width,
            height,
            glyphs: vec![in alloc; b' '; count]?,
            inks: vec![in alloc; 0; count]?,
        })
    }

    /// How many columns there are.
    pub fn width(&self) -> u16
        ensures value { result ≡ self.now.width }
        ensures range { (1 ≤ result) × (result ≤ 512) }
    {
        self.width
    }

    /// How many rows there are.
    pub fn height(&self) -> u16
        ensures value { result ≡ self.now.height }
        ensures range { (1 ≤ result) × (result ≤ 256) }
    {
        self.height
    }

    /// The cell at a place.
    pub fn cell(&self, x: u16, y: u16) -> Cell
        requires column { x < self.now.width }
        requires row { y < self.now.height }
        ensures glyph { result.glyph ≡ glyph_at self.now x y }
        ensures ink { result.ink ≡ ink_at self.now x y }
    {
        let at = y as usize * self.width as usize + x as usize;
        Cell {
            glyph: self.glyphs[at],
            ink: self.inks[at],
        }
    }

    /// Gives one place this cell, and looks at no other.
    pub fn set(&mut self, x: u16, y: u16, cell: Cell)
        requires column { x < self.old.width }
        requires row { y < self.old.height }
        ensures { Sets self.old self.new x y cell.glyph cell.ink }
    {
        let at = y as usize * self.width as usize + x as usize;
        put(&mut self.glyphs, at, cell.glyph);
        put(&mut self.inks, at, cell.ink);
    }

    /// The glyphs of a row, from left to right.
    pub fn row(&self, y: u16) -> &[u8]
        requires { y < self.now.height }
        ensures cells { result.now ≡ row_of self.now.glyphs self.now.width y }
        ensures count { length result.now ≡ self.now.width }
        ensures range { All IsGlyph result.now }
    {
        let from = y as usize * self.width as usize;
        &self.glyphs[from..from + self.width as usize]
    }

    /// The inks of a row, numbers from 0 to 7, from left to right.
    pub fn inks(&self, y: u16) -> &[u8]
        requires { y < self.now.height }
        ensures cells { result.now ≡ row_of self.now.inks self.now.width y }
        ensures count { length result.now ≡ self.now.width }
        ensures range { All IsInk result.now }
    {
        let from = y as usize * self.width as usize;
        &self.inks[from..from + self.width as usize]
    }

    /// The places of the rectangle that lie in the raster become blank cells. It walks these places
    /// alone.
    pub fn blank(&mut self, rect: &Rect)
        ensures { Blanks self.old self.new rect.now }
    {
        let width = self.width as usize;
        let x1 = clip(rect.x1, self.width) as usize;
        let x2 = clip(rect.x2, self.width) as usize;
        let y1 = clip(rect.y1, self.height) as usize;
        let y2 = clip(rect.y2, self.height) as usize;
        fill_box(&mut self.glyphs, width, x1, x2, y1, y2, b' ');
        fill_box(&mut self.inks, width, x1, x2, y1, y2, 0);
    }

    /// Blanks every cell.
    pub fn clear(&mut self)
        ensures { self.new ≡ blank_picture self.old.width self.old.height }
    {
        self.glyphs.fill(b' ');
        self.inks.fill(0);
    }
}
