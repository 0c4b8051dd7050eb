//! The openings of updates, and which old updates may be kept there.
ghost use Rattle.std.specs.Prelude.{◌≡◌, ◌&&◌, ◌+ℤ◌, ◌-ℤ◌, IfOk, map};
ghost use Rattle.cl_value.specs.Value.{data_of};
ghost use Rattle.cl_region.specs.Places.{IsNear, move_rect};
ghost use Rattle.cl_record.specs.Heads.{measures_of};
ghost use Rattle.cl_display.specs.Drawings.{is_in_range};
ghost use Rattle.cl_reuse.specs.Keeping.{limits_fit, margin_fits, may_keep, measures_fit, origin_fits, same_cache, same_number, same_values, shift_at, shift_to};
ghost use Rattle.cl_reuse.specs.Kept.{is_still, kept_here};
ghost use Rattle.cl_untouched.specs.Keeps.{moved_to};
ghost use Rattle.cl_updating.specs.Levels.{old_of};
ghost use Rattle.cl_updating.specs.Openings.{opening_of};

use crate::levels::Old;
use cl_display::Key;
use cl_medium::{Ambient, AnyLeaf};
use cl_record::{Head, Measures, Piece};
use cl_region::{Rect, Shift};
use cl_value::{Value, Values};
use std::alloc::AllocError;

/// An update at its opening: its key, what its body is drawn from, and what is left there of the budget, the weight and the depth.
#[derive(Drop)]
pub struct Opening<'k> {
    pub key: &'k Key,
    pub ambient: Ambient,
    pub budget: u64,
    pub weight: u64,
    pub depth: u32,
}

impl Opening<'_> {
    /// Whether an old update may be kept here.
    pub fn may_keep(&self, piece: &Piece<AnyLeaf>) -> bool
        ensures { result ≡ may_keep piece.now.head (opening_of self.now) }
    {
        let head = piece.head();
        has_cache(head, &self.key.cache) && self.fits(&head.measures())
    }

    /// How far it is moved then, from its own coordinates.
    pub fn shift(&self, piece: &Piece<AnyLeaf>) -> Shift
        ensures { result ≡ shift_at piece.now.head (opening_of self.now) }
    {
        shift_to(&piece.head().measures(), &self.ambient)
    }

    /// Whether it stays where it stands.
    pub fn is_still(&self, old: &Old<'_>) -> bool
        ensures { result ≡ is_still (kept_here (old_of old.now) (opening_of self.now)) }
    {
        let measures = old.piece.head().measures();
        is_cursor_moved(old.place, &measures.start, &self.ambient)
    }

    /// How far it is moved, from where it stands. What stands in the range does not fail.
    pub fn moved(&self, old: &Old<'_>) -> Result<Shift, AllocError>
        ensures { IfOk result (λ v. v ≡ moved_to (old_of old.now) (opening_of self.now)) }
    {
        let measures = old.piece.head().measures();
        move_to(old.place, &measures.start, &self.ambient)
    }

    // Whether these measures fit.
    fn fits(&self, measures: &Measures) -> bool
        ensures { result ≡ measures_fit (shift_to (measures_of measures.now).start self.now.ambient) (measures_of measures.now)
            (opening_of self.now) }
    {
        let by = shift_to(measures, &self.ambient);
        measures.start.ink == self.ambient.ink
            && fits_margin(by, measures, &self.ambient)
            && fits_origin(by, measures, &self.ambient)
            && self.allows(measures)
            && stays_in_range(by, &measures.extent)
    }

    // Whether no more is needed than what is left.
    fn allows(&self, measures: &Measures) -> bool
        ensures { result ≡ limits_fit (measures_of measures.now) (opening_of self.now) }
    {
        measures.cost <= self.budget
            && measures.weight <= self.weight
            && measures.reach <= self.depth
    }
}

// From the start of these measures to a cursor.
fn shift_to(measures: &Measures, ambient: &Ambient) -> Shift
    ensures { result ≡ shift_to (measures_of measures.now).start ambient.now }
{
    Shift {
        dx: distance(measures.start.x, ambient.x),
        dy: distance(measures.start.y, ambient.y),
    }
}

// From one number to another one.
fn distance(from: i64, to: i64) -> i64
    requires first { IsNear from }
    requires last { IsNear to }
    ensures { result ≡ to -ℤ from }
{
    to - from
}

// From the cursor of the first, moved so far, to that of the second; it fails where that is too far to be told.
fn move_to(by: Shift, from: &Ambient, to: &Ambient) -> Result<Shift, AllocError>
    ensures { IfOk result (λ v. v ≡ record { dx = to.now.x -ℤ (from.now.x +ℤ by.dx); dy = to.now.y -ℤ (from.now.y +ℤ by.dy) }) }
{
    let dx = distance_on(by.dx, from.x, to.x)?;
    let dy = distance_on(by.dy, from.y, to.y)?;
    Ok(Shift { dx, dy })
}

// From one number, moved so far, to another one; it fails where that is too far to be told.
fn distance_on(by: i64, from: i64, to: i64) -> Result<i64, AllocError>
    ensures { IfOk result (λ far. far ≡ to -ℤ (from +ℤ by)) }
{
    let moved = from.checked_add(by).ok_or(AllocError)?;
    to.checked_sub(moved).ok_or(AllocError)
}

// Whether the cursor of the second is that of the first, moved so far.
fn is_cursor_moved(by: Shift, from: &Ambient, to: &Ambient) -> bool
    ensures { result ≡ same_number (from.now.x +ℤ by.dx) to.now.x && same_number (from.now.y +ℤ by.dy) to.now.y }
{
    is_place_moved(by, from.x, from.y, to.x, to.y)
}

// Whether both have a cache, of the same values.
fn has_cache(head: &Head, cache: &Option<Values>) -> bool
    ensures { result ≡ same_cache head.now.cache cache.now }
{
    match (head.cache(), cache) {
        (Some(old), Some(new)) => are_same(old.as_slice(), new.as_slice()),
        _ => false,
    }
}

// Whether these are the same values.
#[tactic(auto, using(crate::proofs::OpeningLemmas::all_same))]
fn are_same(old: &[Value], new: &[Value]) -> bool
    ensures { result ≡ same_values (map data_of old.now) (map data_of new.now) }
{
    old == new
}

// Whether two numbers are the same.
fn is_same(first: i64, second: i64) -> bool
    ensures { result ≡ same_number first second }
{
    first == second
}

// Whether a margin that was used is moved as far across.
fn fits_margin(by: Shift, measures: &Measures, ambient: &Ambient) -> bool
    ensures { result ≡ margin_fits by (measures_of measures.now).margin ambient.now }
{
    match used_margin(measures) {
        Some(margin) => is_moved(by.dx, margin, ambient.margin),
        None => true,
    }
}

// The margin at the start, if it was used.
fn used_margin(measures: &Measures) -> Option<i64>
    ensures { result ≡ (measures_of measures.now).margin }
{
    if measures.margin_used {
        Some(measures.start.margin)
    } else {
        None
    }
}

// Whether an origin that was used is moved as far.
fn fits_origin(by: Shift, measures: &Measures, ambient: &Ambient) -> bool
    ensures { result ≡ origin_fits by (measures_of measures.now).origin ambient.now }
{
    !measures.origin_used || is_origin_moved(by, &measures.start, ambient)
}

// Whether the origin of the second is that of the first, moved so far.
fn is_origin_moved(by: Shift, from: &Ambient, to: &Ambient) -> bool
    ensures { result ≡ same_number (from.now.origin_x +ℤ by.dx) to.now.origin_x
        && same_number (from.now.origin_y +ℤ by.dy) to.now.origin_y }
{
    is_place_moved(by, from.origin_x, from.origin_y, to.origin_x, to.origin_y)
}

// Whether the place of the last two numbers is that of the first two, moved so far.
fn is_place_moved(by: Shift, x: i64, y: i64, to_x: i64, to_y: i64) -> bool
    ensures { result ≡ same_number (x +ℤ by.dx) to_x && same_number (y +ℤ by.dy) to_y }
{
    is_moved(by.dx, x, to_x) && is_moved(by.dy, y, to_y)
}

// Whether the second number is the first, moved so far.
fn is_moved(by: i64, from: i64, to: i64) -> bool
    ensures { result ≡ same_number (from +ℤ by) to }
{
    match from.checked_add(by) {
        Some(moved) => is_same(moved, to),
        None => false,
    }
}

// Whether a rectangle, moved so far, is in the range.
fn stays_in_range(by: Shift, rect: &Rect) -> bool
    ensures { result ≡ is_in_range (move_rect by rect.now) }
{
    rect.fits(by)
}
