//! The replay of records.
ghost use Rattle.std.specs.Prelude.{◌≡◌, ◌∷◌, [], IsFalse};
ghost use Rattle.cl_region.specs.Places.{IsInRange, move_rect};
ghost use Rattle.cl_record.specs.Marks.{move_marks, marks_of, marks_of_all};
ghost use Rattle.cl_record.specs.Ranges.{ArePlaced, IsPlaced};
ghost use Rattle.cl_record.specs.Replays.{Paints, items_drawn, meets_one, items_touching};
ghost use Rattle.cl_record.specs.Seen.{tree_of};
ghost use Rattle.cl_record.specs.Trees.{trees_of};

use crate::canvases::Canvas;
use crate::nodes::{Node, Nodes};
use crate::shifts::join_shifts;
use cl_medium::Leaf;
use cl_region::{Rect, Shift};

// Whether the rectangle shares a place with one of the others.
fn meets_one(rects: &[Rect], rect: &Rect) -> bool
    ensures { result ≡ meets_one rects.now rect.now }
{
    for other in rects {
        if !other.meet(rect).is_empty() {
            return true;
        }
    }
    false
}

// Paints a leaf, moved by `at`, where it shares a place with one of the rectangles.
fn replay_leaf<L: Leaf, C: Canvas<L>>(leaf: &L, at: Shift, rects: &[Rect], canvas: &mut C)
    requires { IsInRange (move_rect at (L.bounds leaf.now)) }
    ensures { Paints C.shows C.cell C.keeps L.cell canvas.old canvas.new
        (items_touching L.bounds rects.now (L.moved_by at leaf.now ∷ [])) }
{
    let bounds = leaf.bounds().shifted(at);
    if meets_one(rects, &bounds) {
        canvas.paint(leaf, at);
    }
}

// Paints the leaves of a record, moved by `at`, that share a place with one of the rectangles.
#[cycle(replay)]
fn replay_node<L: Leaf, C: Canvas<L>>(node: &Node<L>, at: Shift, rects: &[Rect], canvas: &mut C)
    requires { IsPlaced L.bounds L.moved_by at (tree_of node.now) }
    ensures { Paints C.shows C.cell C.keeps L.cell canvas.old canvas.new
        (items_touching L.bounds rects.now
        (items_drawn (move_marks L.moved_by at (marks_of L.moved_by (tree_of node.now))))) }
{
    match node {
        Node::Leaf(leaf) => replay_leaf(leaf, at, rects, canvas),
        Node::Presentation(presented) => {
            let at = join_shifts(presented.place(), at);
            replay_inside(presented.inside(), at, rects, canvas)
        }
        Node::Update(piece) => {
            let at = join_shifts(piece.place(), at);
            replay_inside(piece.inside(), at, rects, canvas)
        }
    }
}

// Paints the leaves of what a branch holds, moved by `at`, that share a place with one of the
// rectangles. It looks no further where the box of all of them shares none.
#[cycle(replay)]
pub(crate) fn replay_inside<L: Leaf, C: Canvas<L>>(
    inside: &Nodes<L>,
    at: Shift,
    rects: &[Rect],
    canvas: &mut C,
)
    requires { ArePlaced L.bounds L.moved_by at (trees_of inside.now) }
    ensures { Paints C.shows C.cell C.keeps L.cell canvas.old canvas.new
        (items_touching L.bounds rects.now (items_drawn (move_marks L.moved_by at
        (marks_of_all L.moved_by (trees_of inside.now))))) }
{
    if row_meets(inside, at, rects) {
        for node in inside.as_slice() {
            replay_node(node, at, rects, canvas);
        }
    }
}

// Whether the box of the items of a row, moved by `at`, shares a place with one of the rectangles. Where
// it does not, no item of them does.
fn row_meets<L: Leaf>(inside: &Nodes<L>, at: Shift, rects: &[Rect]) -> bool
    requires { ArePlaced L.bounds L.moved_by at (trees_of inside.now) }
    ensures { IsFalse result → items_touching L.bounds rects.now
        (items_drawn (move_marks L.moved_by at (marks_of_all L.moved_by (trees_of inside.now)))) ≡ [] }
{
    match inside.summary().items {
        Some(items) => meets_one(rects, &items.shifted(at)),
        None => false,
    }
}
