//! Places in a list of rectangles, found one after another.
ghost use Rattle.std.specs.Prelude.{◌≡◌, reverse};
ghost use Rattle.std.specs.Iterator.{YieldsFirst, item_count};
ghost use Rattle.cl_index.specs.Found.{overlaps, is_at, places_where};

use crate::indexes::Bounds;
use cl_region::Rect;
use std::marker::Model;

/// The places, ascending, of the rectangles of a list that share a place with one. A contract sees those that are still
/// to come.
#[derive(Drop)]
pub struct Hits<'a> {
    bounds: &'a Bounds,
    rect: Rect,
    from: usize,
}

impl<'a> Model for Hits<'a> {
    ghost use Rattle.std.specs.Prelude.{ℕ, List};
    ghost use Rattle.cl_index.specs.Found.{overlaps};
    ghost use Rattle.cl_index.specs.Boxes.{after};

    ghost Value = { List ℕ };

    ghost view = { λ h. after h.from (overlaps h.rect) 0 h.bounds.now };
}

impl<'a> Hits<'a> {
    pub(crate) fn new(bounds: &'a Bounds, rect: Rect) -> Hits<'a>
        ensures { result ≡ places_where (overlaps rect) bounds.now }
    {
        Hits {
            bounds,
            rect,
            from: 0,
        }
    }
}

impl<'a> Iterator for Hits<'a> {
    type Item = usize;

    ghost next_gives = { YieldsFirst (λ rest. rest) };

    ghost remaining = { item_count (λ rest. rest) };

    fn next(&mut self) -> Option<usize> {
        let bounds = self.bounds;
        let place = bounds.first_from(&self.rect, self.from)?;
        self.from = place + 1;
        Some(place)
    }
}

/// The places, descending, of the rectangles of a list that hold a place. A contract sees those that are still to come.
#[derive(Drop)]
pub struct HitsAt<'a> {
    bounds: &'a Bounds,
    x: i64,
    y: i64,
    end: usize,
}

impl<'a> Model for HitsAt<'a> {
    ghost use Rattle.std.specs.Prelude.{ℕ, List};
    ghost use Rattle.cl_index.specs.Found.{is_at};
    ghost use Rattle.cl_index.specs.Boxes.{before};

    ghost Value = { List ℕ };

    ghost view = { λ h. before h.end (is_at h.x h.y) 0 h.bounds.now };
}

impl<'a> HitsAt<'a> {
    pub(crate) fn new(bounds: &'a Bounds, x: i64, y: i64) -> HitsAt<'a>
        ensures { result ≡ reverse (places_where (is_at x y) bounds.now) }
    {
        HitsAt {
            bounds,
            x,
            y,
            end: bounds.len(),
        }
    }
}

impl<'a> Iterator for HitsAt<'a> {
    type Item = usize;

    ghost next_gives = { YieldsFirst (λ rest. rest) };

    ghost remaining = { item_count (λ rest. rest) };

    fn next(&mut self) -> Option<usize> {
        let bounds = self.bounds;
        let place = bounds.last_before(self.x, self.y, self.end)?;
        self.end = place;
        Some(place)
    }
}
