//! Old updates that are kept.
ghost use Rattle.std.specs.Prelude.{◌≡◌, ◌+◌, ◌+ℤ◌, ◌<◌, ◌^◌, ◌||◌, true, IfSome, Ok};
ghost use Rattle.cl_value.specs.Value.{data_of};
ghost use Rattle.cl_region.specs.Places.{IsInRange, IsNear, move_rect};
ghost use Rattle.cl_medium.specs.Items.{item_bounds, move_item};
ghost use Rattle.cl_eval.specs.Agrees.{Comes, always};
ghost use Rattle.cl_record.specs.Heads.{measures_of, move_head};
ghost use Rattle.cl_record.specs.Marks.{history_marks, marks_of};
ghost use Rattle.cl_record.specs.Ranges.{HoldsPoint};
ghost use Rattle.cl_record.specs.Replays.{items_drawn};
ghost use Rattle.cl_record.specs.Seen.{tree_of};
ghost use Rattle.cl_display.specs.Drawings.{drawing_of, join_parts, part_of};
ghost use Rattle.cl_display.specs.Sums.{lowest_of};
ghost use Rattle.cl_display.specs.Updates.{key_of, leave_update};
ghost use Rattle.cl_reuse.specs.Keeping.{kept_head, kept_part, may_keep, shift_at};
ghost use Rattle.cl_reuse.specs.Kept.{is_that};
ghost use Rattle.cl_updating.specs.Keeping.{KeepsUpdate};
ghost use Rattle.cl_updating.specs.Openings.{opening_of};
ghost use Rattle.cl_updating.specs.Putting.{cursor_at_end, measured_part};

use crate::levels::Old;
use crate::openings::Opening;
use crate::tallies::Tally;
use cl_display::{Drawing, Part};
use cl_eval::{Meter, Stop};
use cl_medium::{Ambient, AnyLeaf};
use cl_record::{Measures, Node, Piece};
use cl_region::Shift;

/// Puts an old update that may be kept at this opening behind what was drawn so far: its records are shared, and none of them is
/// looked at.
pub fn keep(drawing: &mut Drawing, old: &Old<'_>, opening: &Opening<'_>) -> Result<(), Stop>
    requires here { opening.now.ambient ≡ drawing.old.ambient }
    requires same { is_that opening.now.key.now.site (data_of opening.now.key.now.id) old.now.piece.now.head ≡ true }
    requires kept { may_keep old.now.piece.now.head (opening_of opening.now) ≡ true }
    requires light { drawing.old.weight + old.now.piece.now.head.measures.weight < 2 ^ 64 }
    ensures { Comes (always (drawing_of drawing.new)) result (Ok (leave_update
        (kept_head (shift_at old.now.piece.now.head (opening_of opening.now)) (key_of opening.now.key.now) old.now.piece.now.head)
        (kept_part (shift_at old.now.piece.now.head (opening_of opening.now)) old.now.piece.now.head
        (history_marks move_item old.now.piece.now.inside)) (drawing_of drawing.old))) }
{
    let by = opening.shift(old.piece);
    put_piece(drawing, old.piece.copy_at(by)?)
}

/// Keeps an old update at this opening, below this level: it is put behind what was drawn so far, its cost and its reach are taken as they
/// were, and it is counted.
pub fn keep_update(
    level: u32,
    old: &Old<'_>,
    opening: &Opening<'_>,
    drawing: &mut Drawing,
    meter: &mut Meter,
    tally: &mut Tally,
) -> Result<(), Stop>
    requires here { opening.now.ambient ≡ drawing.old.ambient }
    requires same { is_that opening.now.key.now.site (data_of opening.now.key.now.id) old.now.piece.now.head ≡ true }
    requires kept { may_keep old.now.piece.now.head (opening_of opening.now) ≡ true }
    requires light { drawing.old.weight + old.now.piece.now.head.measures.weight < 2 ^ 64 }
    requires cheap { meter.old.cost + old.now.piece.now.head.measures.cost < 2 ^ 64 }
    requires shallow { level + old.now.piece.now.head.measures.reach < 2 ^ 32 }
    ensures { KeepsUpdate level old.now opening.now drawing.old result drawing.new meter.old meter.new tally.old tally.new }
{
    let measures = old.piece.head().measures();
    keep(drawing, old, opening)?;
    tally.add(old, opening)?;
    meter.cost += measures.cost;
    meter.deepest = meter.deepest.max(level + measures.reach);
    Ok(())
}

// Puts an update behind what was drawn so far, with the cursor where it ends.
fn put_piece(drawing: &mut Drawing, piece: Piece<AnyLeaf>) -> Result<(), Stop>
    requires range { IsInRange (move_rect piece.place piece.head.measures.extent) }
    requires light { drawing.old.weight + piece.head.measures.weight < 2 ^ 64 }
    ensures { Comes (always (drawing_of drawing.new)) result (Ok (leave_update (move_head piece.place piece.head)
        (kept_part piece.place piece.head (history_marks move_item piece.inside)) (drawing_of drawing.old))) }
{
    let by = piece.place();
    let measures = piece.head().measures();
    let node = Node::Update(piece);
    // What the update keeps is known from here on.
    let _ = node.summary();
    let end = end_cursor(by, &measures, &drawing.ambient);
    put_record(&mut drawing.part, by, &measures, node)?;
    drawing.weight += measures.weight;
    drawing.ambient = end;
    Ok(())
}

// The cursor where these measures, moved so far, end.
fn end_cursor(by: Shift, measures: &Measures, before: &Ambient) -> Ambient
    requires range { IsInRange (move_rect by measures.now.extent) }
    requires end { HoldsPoint measures.now.extent (measures_of measures.now).end }
    ensures { result ≡ cursor_at_end by (measures_of measures.now) before.now }
{
    let mut end = *before;
    end.x = moved(measures.end_x, by.dx);
    end.y = moved(measures.end_y, by.dy);
    end
}

// A number moved so far.
fn moved(number: i64, by: i64) -> i64
    requires { IsNear (number +ℤ by) }
    ensures sum { result ≡ number +ℤ by }
    ensures range { IsNear result }
{
    number + by
}

// Puts a record that has these measures, moved so far, behind the others.
fn put_record(
    part: &mut Part,
    by: Shift,
    measures: &Measures,
    node: Node<AnyLeaf>,
) -> Result<(), Stop>
    requires { IsInRange (move_rect by measures.now.extent) }
    ensures { Comes (always (part_of part.new)) result (Ok (join_parts (part_of part.old)
        (measured_part by (measures_of measures.now) (marks_of move_item (tree_of node))))) }
{
    let lowest = lowest_end(&node);
    part.nodes.push(node)?;
    part.extent.take(&measures.extent.shifted(by));
    part.lowest.take_end(lowest);
    part.margin_used = either(measures.margin_used, part.margin_used);
    part.origin_used = either(measures.origin_used, part.origin_used);
    Ok(())
}

// Whether one of these is so.
fn either(first: bool, second: bool) -> bool
    ensures { result ≡ first || second }
{
    first || second
}

// The greatest end of an item of a record down, if there is an item.
fn lowest_end(node: &Node<AnyLeaf>) -> Option<i64>
    ensures end { result ≡ lowest_of (items_drawn (marks_of move_item (tree_of node.now))) }
    ensures range { IfSome result IsNear }
{
    // What the record keeps is known from here on.
    let _ = node.summary();
    node.bottom()
}
