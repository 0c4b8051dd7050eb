//! What a row of records comes to: how many items it draws, and the boxes of what it holds.
ghost use Rattle.std.specs.Prelude.{◌≡◌, ◌+◌, ◌<◌, ◌^◌, Some, None, IfSome};
ghost use Rattle.std.specs.Int.{int_max, int_min};
ghost use Rattle.std.specs.Option.{option_map};
ghost use Rattle.cl_record.specs.Boxes.{corner_box, join_boxes, join_summaries, move_summary};
ghost use Rattle.cl_region.specs.Places.{IsInRange, box, move_rect};

use cl_region::{Rect, Shift};

/// How many items there are, the least left and upper and the greatest right and lower sides of their
/// bounds, and the least box of these and of the extents of the updates. There is no box of nothing.
#[derive(Clone, Copy)]
pub struct Summary {
    pub count: u64,
    pub items: Option<Rect>,
    pub extents: Option<Rect>,
}

/// The summary of no record.
pub(crate) const NOTHING: Summary = Summary {
    count: 0,
    items: None,
    extents: None,
};

impl Summary {
    // The summary of an item.
    pub(crate) fn of_item(bounds: Rect) -> Summary
        ensures { result ≡ record { count = 1; items = Some bounds; extents = Some bounds } }
    {
        Summary {
            count: 1,
            items: Some(bounds),
            extents: Some(bounds),
        }
    }

    // The summary of records behind others; None where there are more items than can be counted.
    pub(crate) fn join(self, other: Summary) -> Option<Summary>
        ensures { IfSome result (λ both. both ≡ join_summaries self other) }
    {
        let count = self.count.checked_add(other.count)?;
        Some(Summary {
            count,
            items: join_items(self.items, other.items),
            extents: join_extents(self.extents, other.extents),
        })
    }

    // The summary of the same records elsewhere.
    pub(crate) fn shifted(self, by: Shift) -> Summary
        requires items { IfSome self.items (λ r. IsInRange (move_rect by r)) }
        requires extents { IfSome self.extents (λ r. IsInRange (move_rect by r)) }
        ensures { result ≡ move_summary by self }
    {
        Summary {
            count: self.count,
            items: shifted_box(self.items, by),
            extents: shifted_box(self.extents, by),
        }
    }
}

// The box of two, with the sides as they are.
fn join_items(first: Option<Rect>, second: Option<Rect>) -> Option<Rect>
    ensures { result ≡ join_boxes box first second }
{
    match (first, second) {
        (None, other) => other,
        (Some(rect), None) => Some(rect),
        (Some(rect), Some(other)) => Some(rect.corners_box(&other)),
    }
}

// The box of all corners of two.
fn join_extents(first: Option<Rect>, second: Option<Rect>) -> Option<Rect>
    ensures { result ≡ join_boxes corner_box first second }
{
    match (first, second) {
        (None, other) => other,
        (Some(rect), None) => Some(rect),
        (Some(rect), Some(other)) => Some(around(rect, other)),
    }
}

/// The least box of all corners of both, in whatever order the sides of each are.
pub fn around(first: Rect, second: Rect) -> Rect
    ensures { result ≡ corner_box first second }
{
    Rect {
        x1: least(first.x1, first.x2, second.x1, second.x2),
        y1: least(first.y1, first.y2, second.y1, second.y2),
        x2: greatest(first.x1, first.x2, second.x1, second.x2),
        y2: greatest(first.y1, first.y2, second.y1, second.y2),
    }
}

fn least(a: i64, b: i64, c: i64, d: i64) -> i64
    ensures { result ≡ int_min (int_min a b) (int_min c d) }
{
    a.min(b).min(c.min(d))
}

fn greatest(a: i64, b: i64, c: i64, d: i64) -> i64
    ensures { result ≡ int_max (int_max a b) (int_max c d) }
{
    a.max(b).max(c.max(d))
}

// A box elsewhere.
pub(crate) fn shifted_box(rect: Option<Rect>, by: Shift) -> Option<Rect>
    requires { IfSome rect (λ r. IsInRange (move_rect by r)) }
    ensures { result ≡ option_map (move_rect by) rect }
{
    Some(rect?.shifted(by))
}
