//! Boxes of boxes over a list of rectangles.
ghost use Rattle.std.specs.Prelude.{◌≡◌, ◌+◌, ◌/◌, ◌<◌, ◌≤◌, ◌^◌, ◌++◌, length, IfOk};
ghost use Rattle.cl_index.specs.Found.{overlaps, is_at};
ghost use Rattle.cl_index.specs.Boxes.{IsSound, box_of, rects_in, looked_at, head_of, after, before};
ghost use Rattle.cl_index.specs.Looks.{box_in};

use cl_region::Rect;
use std::alloc::{AllocError, Global};

// At most so many rectangles stand in one box that is not cut further.
const FEW: usize = 8;

// A list of rectangles under boxes, each the least box of those under it. `count` is how many the first half has.
#[derive(Drop)]
pub(crate) enum Tree {
    Few {
        around: Rect,
        rects: Vec<Rect>,
    },
    Many {
        around: Rect,
        count: usize,
        first: Box<Tree>,
        second: Box<Tree>,
    },
}

impl Tree {
    // The boxes over a list of rectangles.
    pub(crate) fn of(alloc: Global, rects: &[Rect]) -> Result<Tree, AllocError>
        ensures rects { IfOk result (λ t. rects_in t ≡ rects.now) }
        ensures sound { IfOk result IsSound }
    {
        if rects.len() <= FEW {
            return tree_of_few(alloc, rects);
        }
        let half = rects.len() / 2;
        let (front, back) = rects.split_at(half);
        let first = Tree::of(alloc, front)?;
        let second = Tree::of(alloc, back)?;
        tree_of_halves(alloc, half, first, second)
    }

    // The box of all.
    fn around(&self) -> &Rect
        ensures { result.now ≡ box_of self.now }
    {
        match self {
            Tree::Few { around, .. } => around,
            Tree::Many { around, .. } => around,
        }
    }

    // The first place, `from` or behind it, of a rectangle that overlaps, where the first of all has the place `base`.
    pub(crate) fn first_from(&self, rect: &Rect, base: usize, from: usize) -> Option<usize>
        requires sound { IsSound self.now }
        requires fits { base + length (rects_in self.now) < 2 ^ 64 }
        ensures { result ≡ head_of (after from (overlaps rect.now) base (rects_in self.now)) }
    {
        if !rect.overlaps(self.around()) {
            return None;
        }
        match self {
            Tree::Few { rects, .. } => first_of(rects.as_slice(), rect, base, from),
            Tree::Many {
                count,
                first,
                second,
                ..
            } => {
                let middle = base + *count;
                if from < middle {
                    if let Some(place) = first.first_from(rect, base, from) {
                        return Some(place);
                    }
                }
                second.first_from(rect, middle, from)
            }
        }
    }

    // The last place before `end` of a rectangle that holds x, y, where the first of all has the place `base`.
    pub(crate) fn last_before(&self, x: i64, y: i64, base: usize, end: usize) -> Option<usize>
        requires sound { IsSound self.now }
        requires fits { base + length (rects_in self.now) < 2 ^ 64 }
        ensures { result ≡ head_of (before end (is_at x y) base (rects_in self.now)) }
    {
        if !self.around().contains(x, y) {
            return None;
        }
        match self {
            Tree::Few { rects, .. } => last_of(rects.as_slice(), x, y, base, end),
            Tree::Many {
                count,
                first,
                second,
                ..
            } => {
                let middle = base + *count;
                if middle < end {
                    if let Some(place) = second.last_before(x, y, middle, end) {
                        return Some(place);
                    }
                }
                first.last_before(x, y, base, end)
            }
        }
    }

    // How many rectangles are looked at for all that overlap.
    pub(crate) fn looked_at(&self, rect: &Rect) -> usize
        requires sound { IsSound self.now }
        requires fits { length (rects_in self.now) < 2 ^ 64 }
        ensures { result ≡ looked_at rect.now self.now }
    {
        if !rect.overlaps(self.around()) {
            return 0;
        }
        match self {
            Tree::Few { rects, .. } => rects.len(),
            Tree::Many { first, second, .. } => first.looked_at(rect) + second.looked_at(rect),
        }
    }
}

// A box that is not cut further.
fn tree_of_few(alloc: Global, rects: &[Rect]) -> Result<Tree, AllocError>
    requires { length rects.now ≤ FEW }
    ensures rects { IfOk result (λ t. rects_in t ≡ rects.now) }
    ensures sound { IfOk result IsSound }
{
    Ok(Tree::Few {
        around: box_around(rects),
        rects: Vec::from_slice(alloc, rects)?,
    })
}

// A box of two halves, of which the first has `count` rectangles.
fn tree_of_halves(
    alloc: Global,
    count: usize,
    first: Tree,
    second: Tree,
) -> Result<Tree, AllocError>
    requires sound_first { IsSound first }
    requires sound_second { IsSound second }
    requires count { count ≡ length (rects_in first) }
    requires half { count ≡ (length (rects_in first) + length (rects_in second)) / 2 }
    requires many { FEW < length (rects_in first) + length (rects_in second) }
    ensures rects { IfOk result (λ t. rects_in t ≡ rects_in first ++ rects_in second) }
    ensures sound { IfOk result IsSound }
{
    let around = first.around().join_box(second.around());
    Ok(Tree::Many {
        around,
        count,
        first: Box::new(alloc, first)?,
        second: Box::new(alloc, second)?,
    })
}

// The least box of all; one without places where there is none.
fn box_around(rects: &[Rect]) -> Rect
    ensures { result ≡ box_in rects.now }
{
    let mut around = Rect {
        x1: 0,
        y1: 0,
        x2: 0,
        y2: 0,
    };
    for rect in rects {
        around = around.join_box(rect);
    }
    around
}

// The same of few rectangles, one by one: the first place, `from` or behind it, of one that overlaps.
fn first_of(rects: &[Rect], rect: &Rect, base: usize, from: usize) -> Option<usize>
    requires { base + length rects.now < 2 ^ 64 }
    ensures { result ≡ head_of (after from (overlaps rect.now) base rects.now) }
{
    for (i, other) in rects.iter().enumerate() {
        if from <= base + i && rect.overlaps(other) {
            return Some(base + i);
        }
    }
    None
}

// The same of few rectangles, one by one: the last place before `end` of one that holds x, y.
fn last_of(rects: &[Rect], x: i64, y: i64, base: usize, end: usize) -> Option<usize>
    requires { base + length rects.now < 2 ^ 64 }
    ensures { result ≡ head_of (before end (is_at x y) base rects.now) }
{
    let mut left = rects.len();
    while left > 0 {
        left -= 1;
        if base + left < end && rects[left].contains(x, y) {
            return Some(base + left);
        }
    }
    None
}
