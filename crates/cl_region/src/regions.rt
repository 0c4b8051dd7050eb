//! Regions: sets of cells, kept as rectangles that share none.
ghost use Rattle.std.specs.Prelude.{◌≡◌, ℤ, ◌*◌, ◌≤◌, ◌&&◌, ◌||◌, ◌++◌, ◌↔◌, [], ◌∷◌, not, length, take, IsTrue, OnOk, OnErr, IfOk};
ghost use Rattle.cl_region.specs.Places.{one_holds, holds};
ghost use Rattle.cl_region.specs.Pieces.{ArePieces, ArePiecesOf, IsApart};
ghost use Rattle.cl_region.specs.Cutting.{Continues, IsBelow, IsBeside, parts_around, cut_rect, cut_all, unless_thin};

use crate::rects::Rect;
use std::alloc::{AllocError, Global};
use std::marker::Model;

/// A set of cells. A contract sees its rectangles: no two of them share a cell, and each has one.
#[derive(Drop)]
pub struct Region {
    alloc: Global,
    rects: Vec<Rect>,
}

impl Model for Region {
    ghost use Rattle.std.specs.Prelude.{List};
    ghost use Rattle.cl_region.specs.declared.rects.Rect.{Rect};
    ghost use Rattle.cl_region.specs.Pieces.{ArePieces};

    ghost Value = { List Rect };

    ghost view = { λ r. r.rects.items };

    ghost invariant = { λ r. ArePieces r.rects.items };
}

impl Region {
    /// No cells, which takes no memory.
    pub fn new(alloc: Global) -> Region
        ensures { result ≡ [] }
    {
        Region {
            alloc,
            rects: Vec::new(alloc),
        }
    }

    /// Whether this cell is one of the region's.
    pub fn contains(&self, x: i64, y: i64) -> bool
        ensures { result ≡ one_holds self.now x y }
    {
        some_contains(self.rects.as_slice(), x, y)
    }

    /// The rectangles, of which no two share a cell and none is empty.
    pub fn rects(&self) -> &[Rect]
        ensures rects { result.now ≡ self.now }
        ensures pieces { ArePieces result.now }
    {
        self.rects.as_slice()
    }

    /// Adds the cells of a rectangle. Where memory is wanting, nothing changes.
    pub fn add(&mut self, rect: Rect) -> Result<(), AllocError>
        ensures cells { OnOk result ((x y : ℤ) → one_holds self.new x y ≡ one_holds self.old x y || holds rect x y) }
        ensures unchanged { OnErr result (self.new ≡ self.old) }
    {
        if rect.is_empty() {
            return Ok(());
        }
        if is_apart(self.rects.as_slice(), &rect) {
            return put_in(&mut self.rects, rect);
        }
        let new = outside_of_each(self.alloc, self.rects.as_slice(), rect)?;
        self.rects.extend_from_slice(new.as_slice())?;
        Ok(())
    }

    /// Takes the cells of a rectangle away. Each rectangle that was there leaves at most four. Where memory is
    /// wanting, nothing changes.
    pub fn minus(&mut self, rect: Rect) -> Result<(), AllocError>
        ensures cells { OnOk result ((x y : ℤ) → one_holds self.new x y ≡ one_holds self.old x y && not (holds rect x y)) }
        ensures few { length self.new ≤ 4 * length self.old }
        ensures unchanged { OnErr result (self.new ≡ self.old) }
    {
        let left = without(self.alloc, self.rects.as_slice(), &rect)?;
        self.rects = left;
        Ok(())
    }
}

// Whether one of the rectangles holds the cell.
fn some_contains(rects: &[Rect], x: i64, y: i64) -> bool
    ensures { result ≡ one_holds rects.now x y }
{
    for rect in rects {
        if rect.contains(x, y) {
            return true;
        }
    }
    false
}

// Whether a rectangle shares no cell with any of the others.
fn is_apart(rects: &[Rect], rect: &Rect) -> bool
    ensures { IsTrue result ↔ IsApart rect.now rects.now }
{
    for other in rects {
        if other.overlaps(rect) {
            return false;
        }
    }
    true
}

// One rectangle more, which shares no cell with the others. It is joined with the last of them, and what they make
// with the one before, as long as the two make one. Where memory is wanting, nothing changes.
fn put_in(rects: &mut Vec<Rect>, rect: Rect) -> Result<(), AllocError>
    requires { ArePieces (rect ∷ rects.old.items) }
    ensures pieces { OnOk result (ArePiecesOf (rect ∷ rects.old.items) rects.new.items) }
    ensures unchanged { OnErr result (rects.new.items ≡ rects.old.items) }
{
    let (left, whole) = joined_with_last(rects.as_slice(), rect);
    if left == rects.len() {
        rects.push(whole)?;
        return Ok(());
    }
    rects[left] = whole;
    rects.truncate(left + 1);
    Ok(())
}

// How many of the rectangles are left, and the one that the others make together with the rectangle.
fn joined_with_last(rects: &[Rect], rect: Rect) -> (usize, Rect)
    requires { ArePieces (rect ∷ rects.now) }
    ensures count { result.0 ≤ length rects.now }
    ensures pieces { ArePiecesOf (rect ∷ rects.now) (result.1 ∷ take result.0 rects.now) }
{
    let mut whole = rect;
    let mut left = rects.len();
    while left > 0 && continues(&rects[left - 1], &whole) {
        left -= 1;
        whole = rects[left].corners_box(&whole);
    }
    (left, whole)
}

// Whether the next rectangle makes one with the first, to the right of it or below it.
fn continues(first: &Rect, next: &Rect) -> bool
    ensures { IsTrue result ↔ Continues first.now next.now }
{
    is_beside(first, next) || is_below(first, next)
}

fn is_beside(first: &Rect, next: &Rect) -> bool
    ensures { IsTrue result ↔ IsBeside first.now next.now }
{
    next.y1 == first.y1 && next.y2 == first.y2 && next.x1 == first.x2
}

fn is_below(first: &Rect, next: &Rect) -> bool
    ensures { IsTrue result ↔ IsBelow first.now next.now }
{
    next.x1 == first.x1 && next.x2 == first.x2 && next.y1 == first.y2
}

// What a rectangle has outside of each of the others. Only those that share a cell with it cut it.
fn outside_of_each(alloc: Global, holes: &[Rect], rect: Rect) -> Result<Vec<Rect>, AllocError>
    ensures pieces { IfOk result (λ v. ArePieces v.items) }
    ensures cells { IfOk result (λ v. (x y : ℤ) → one_holds v.items x y ≡ holds rect x y && not (one_holds holes.now x y)) }
{
    let mut parts = one_piece(alloc, rect)?;
    for hole in holes {
        if hole.overlaps(&rect) {
            parts = without(alloc, parts.as_slice(), hole)?;
        }
    }
    Ok(parts)
}

// The rectangle alone, or nothing where it is empty.
fn one_piece(alloc: Global, rect: Rect) -> Result<Vec<Rect>, AllocError>
    ensures { IfOk result (λ v. v.items ≡ unless_thin rect) }
{
    let mut pieces = Vec::new(alloc);
    keep(&mut pieces, rect)?;
    Ok(pieces)
}

// One rectangle more, unless it is empty.
fn keep(pieces: &mut Vec<Rect>, rect: Rect) -> Result<(), AllocError>
    ensures { OnOk result (pieces.new.items ≡ pieces.old.items ++ unless_thin rect) }
{
    if rect.is_empty() {
        return Ok(());
    }
    pieces.push(rect)?;
    Ok(())
}

// What the rectangles have outside of another one.
fn without(alloc: Global, rects: &[Rect], hole: &Rect) -> Result<Vec<Rect>, AllocError>
    ensures { IfOk result (λ v. v.items ≡ cut_all hole.now rects.now) }
{
    let mut pieces = Vec::new(alloc);
    for rect in rects {
        cut(&mut pieces, *rect, hole)?;
    }
    Ok(pieces)
}

// Pieces more: what a rectangle has outside of another one.
fn cut(pieces: &mut Vec<Rect>, rect: Rect, hole: &Rect) -> Result<(), AllocError>
    ensures { OnOk result (pieces.new.items ≡ pieces.old.items ++ cut_rect hole.now rect) }
{
    let middle = rect.meet(hole);
    if middle.is_empty() {
        return keep(pieces, rect);
    }
    keep_around(pieces, rect, middle)
}

// Pieces more: what is above, to the left, to the right and below of a part of a rectangle.
fn keep_around(pieces: &mut Vec<Rect>, rect: Rect, part: Rect) -> Result<(), AllocError>
    ensures { OnOk result (pieces.new.items ≡ pieces.old.items ++ parts_around rect part) }
{
    let beside = Rect {
        y1: part.y1,
        y2: part.y2,
        ..rect
    };
    keep(
        pieces,
        Rect {
            y2: part.y1,
            ..rect
        },
    )?;
    keep(
        pieces,
        Rect {
            x2: part.x1,
            ..beside
        },
    )?;
    keep(
        pieces,
        Rect {
            x1: part.x2,
            ..beside
        },
    )?;
    keep(
        pieces,
        Rect {
            y1: part.y2,
            ..rect
        },
    )?;
    Ok(())
}
