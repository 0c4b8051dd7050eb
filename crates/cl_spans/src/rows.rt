//! Rows of spans.
ghost use Rattle.std.specs.Prelude.{◌≡◌, ℤ, ℕ, ◌&&◌, ◌↔◌, [], false, length, IsTrue, OnOk, IfOk};
ghost use Rattle.std.specs.List.Sorted.{IsPermutation};
ghost use Rattle.cl_region.specs.Places.{holds, one_holds};
ghost use Rattle.cl_spans.specs.Runs.{AreRuns};
ghost use Rattle.cl_spans.specs.SpanRows.{row_of, spans_hold};
ghost use Rattle.cl_spans.specs.Filling.{IsAdded, IsAscending, IsWithin, row_count_of, row_in, rows_from};

use crate::runs::{Span, extend};
use cl_region::Rect;
use std::alloc::{AllocError, Global};
use std::marker::Model;

/// Places, row after row. A contract sees the first row and the spans of each row from it on.
#[derive(Drop)]
pub struct Spans {
    first: i64,
    rows: Vec<Vec<Span>>,
}

impl Model for Spans {
    ghost use Rattle.cl_spans.specs.SpanRows.{AllAreRuns, SpanRows, rows_in};

    ghost Value = { SpanRows };

    ghost view = { λ s. record { first = s.first; rows = rows_in s.rows.items } };

    ghost invariant = { λ s. AllAreRuns (rows_in s.rows.items) };
}

impl Spans {
    /// The places that one of the rectangles holds and the clip too. Each row has as few spans as can be.
    pub fn of(alloc: Global, rects: &[Rect], clip: &Rect) -> Result<Spans, AllocError>
        ensures places { IfOk result (λ s. (x y : ℤ) → spans_hold s x y ≡ one_holds rects.now x y && holds clip.now x y) }
        ensures rows { IfOk result (λ s. (y : ℤ) → AreRuns (row_of s y)) }
    {
        let sorted = by_left(alloc, rects)?;
        let mut rows = empty_rows(alloc, row_count(clip))?;
        for rect in &sorted {
            add(&mut rows, clip.y1, &rect.meet(clip))?;
        }
        Ok(Spans {
            first: clip.y1,
            rows,
        })
    }

    /// The spans of a row, from left to right, with a free column between two of them; none outside of the rows.
    pub fn row(&self, y: i64) -> &[Span]
        ensures row { result.now ≡ row_of self.now y }
        ensures runs { AreRuns result.now }
    {
        if y < self.first {
            return &[];
        }
        match self.rows.get(y.abs_diff(self.first) as usize) {
            Some(row) => row.as_slice(),
            None => &[],
        }
    }

    /// Whether there is no place.
    pub fn is_empty(&self) -> bool
        ensures { IsTrue result ↔ ((x y : ℤ) → spans_hold self.now x y ≡ false) }
    {
        are_empty(self.rows.as_slice())
    }
}

// Whether each row is without a span.
fn are_empty(rows: &[Vec<Span>]) -> bool
    ensures { IsTrue result ↔ ((i : ℕ) → row_in rows.now i ≡ []) }
{
    for row in rows {
        if !row.is_empty() {
            return false;
        }
    }
    true
}

// The rectangles by where they begin, from the left.
fn by_left(alloc: Global, rects: &[Rect]) -> Result<Vec<Rect>, AllocError>
    ensures order { IfOk result (λ v. IsAscending v.items) }
    ensures same { IfOk result (λ v. IsPermutation rects.now v.items) }
{
    let mut sorted = Vec::from_slice(alloc, rects)?;
    sorted.sort_unstable_by_key(|rect| rect.x1);
    Ok(sorted)
}

// How many rows the clip has; none where it is empty.
fn row_count(clip: &Rect) -> usize
    ensures { result ≡ row_count_of clip.now }
{
    if clip.is_empty() {
        return 0;
    }
    clip.y2.abs_diff(clip.y1) as usize
}

// So many rows without a span.
fn empty_rows(alloc: Global, count: usize) -> Result<Vec<Vec<Span>>, AllocError>
    ensures count { IfOk result (λ v. length v.items ≡ count) }
    ensures empty { IfOk result (λ v. (i : ℕ) → row_in v.items i ≡ []) }
{
    let mut rows = Vec::new(alloc);
    for _i in 0..count {
        rows.push(Vec::new(alloc))?;
    }
    Ok(rows)
}

// The columns of a part more in each of its rows. Each is put behind the spans that are there.
fn add(rows: &mut Vec<Vec<Span>>, first: i64, part: &Rect) -> Result<(), AllocError>
    requires { IsWithin first (length rows.old.items) part.now }
    ensures rows { OnOk result (IsAdded part.now (rows_from first rows.old.items) (rows_from first rows.new.items)) }
    ensures count { OnOk result (length rows.new.items ≡ length rows.old.items) }
{
    if part.is_empty() {
        return Ok(());
    }
    let span = Span {
        x1: part.x1,
        x2: part.x2,
    };
    for y in part.y1..part.y2 {
        let place = y.abs_diff(first) as usize;
        extend(&mut rows[place], span)?;
    }
    Ok(())
}
