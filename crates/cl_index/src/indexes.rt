//! The index over a list of rectangles.
ghost use Rattle.std.specs.Prelude.{◌≡◌, ◌≤◌, ◌<◌, ◌^◌, ◌↔◌, [], length, reverse, IfOk, IsTrue};
ghost use Rattle.cl_index.specs.Found.{overlaps, is_at, places_where};
ghost use Rattle.cl_index.specs.Boxes.{head_of, after, before};
ghost use Rattle.cl_index.specs.Looks.{looked_in};

use crate::hits::{Hits, HitsAt};
use crate::trees::Tree;
use cl_region::Rect;
use std::alloc::{AllocError, Global};
use std::marker::Model;

/// A list of rectangles that tells which of them share a place with one, or hold a place, without looking at all. A
/// contract sees the list.
#[derive(Drop)]
pub struct Bounds {
    count: usize,
    tree: Tree,
}

impl Model for Bounds {
    ghost use Rattle.std.specs.Prelude.{List};
    ghost use Rattle.cl_region.specs.declared.rects.Rect.{Rect};
    ghost use Rattle.cl_index.specs.Boxes.{IsIndexed, rects_in};

    ghost Value = { List Rect };

    ghost view = { λ b. rects_in b.tree };

    ghost invariant = { λ b. IsIndexed b.count b.tree };
}

impl Bounds {
    /// The index of these rectangles, in a time that is near linear. It takes as much memory as they, and boxes over each
    /// four to eight.
    pub fn build(alloc: Global, rects: &[Rect]) -> Result<Bounds, AllocError>
        ensures { IfOk result (λ b. b ≡ rects.now) }
    {
        let tree = Tree::of(alloc, rects)?;
        Ok(Bounds {
            count: rects.len(),
            tree,
        })
    }

    /// How many rectangles the list has.
    pub fn len(&self) -> usize
        ensures { result ≡ length self.now }
    {
        self.count
    }

    /// Whether the list has none.
    pub fn is_empty(&self) -> bool
        ensures { IsTrue result ↔ (self.now ≡ []) }
    {
        self.count == 0
    }

    /// The places in the list, ascending and counted from 0, of exactly the rectangles that share a place with this one.
    /// Each is looked for when it is asked for, and none takes memory.
    pub fn overlapping(&self, rect: &Rect) -> Hits<'_>
        ensures { result ≡ places_where (overlaps rect.now) self.now }
    {
        Hits::new(self, *rect)
    }

    /// The places in the list, descending and counted from 0, of exactly the rectangles that hold the place in column x and
    /// row y. Each is looked for when it is asked for, and none takes memory.
    pub fn at(&self, x: i64, y: i64) -> HitsAt<'_>
        ensures { result ≡ reverse (places_where (is_at x y) self.now) }
    {
        HitsAt::new(self, x, y)
    }

    /// How many rectangles of the list `overlapping`, run to its end, looks at: all but those under a box that shares no
    /// place with this one. The boxes are those of the list, of its halves, of their halves, and so on until eight or fewer
    /// are left.
    pub fn probes(&self, rect: &Rect) -> u64
        ensures exact { result ≡ looked_in rect.now (length self.now) self.now }
        ensures hits { length (places_where (overlaps rect.now) self.now) ≤ result }
        ensures list { result ≤ length self.now }
    {
        self.tree.looked_at(rect) as u64
    }

    // The first place, `from` or behind it, of a rectangle that overlaps.
    pub(crate) fn first_from(&self, rect: &Rect, from: usize) -> Option<usize>
        ensures first { result ≡ head_of (after from (overlaps rect.now) 0 self.now) }
        ensures inside { length self.now < 2 ^ 64 }
    {
        self.tree.first_from(rect, 0, from)
    }

    // The last place before `end` of a rectangle that holds x, y.
    pub(crate) fn last_before(&self, x: i64, y: i64, end: usize) -> Option<usize>
        ensures { result ≡ head_of (before end (is_at x y) 0 self.now) }
    {
        self.tree.last_before(x, y, 0, end)
    }
}
