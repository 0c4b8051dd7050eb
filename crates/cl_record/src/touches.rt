//! Which presentations a place touches, by the CLIM II specification's rules on presentations and their
//! sensitivity. That the one that began latest comes first is a rule of our own.
ghost use Rattle.std.specs.Prelude.{◌≡◌, ◌∷◌, [], IfSome, if◌then◌else◌, option_map, reverse};
ghost use Rattle.cl_region.specs.Places.{IsInRange, holds, move_rect};
ghost use Rattle.cl_record.specs.Boxes.{items_box};
ghost use Rattle.cl_record.specs.Marks.{move_marks, marks_of, marks_of_all};
ghost use Rattle.cl_record.specs.Ranges.{ArePlaced, IsPlaced};
ghost use Rattle.cl_record.specs.Replays.{items_drawn};
ghost use Rattle.cl_record.specs.Seen.{tree_of};
ghost use Rattle.cl_record.specs.Touches.{box_holds, item_holds, touch_of_label, touched_labels, touches};
ghost use Rattle.cl_record.specs.TouchWalks.{seek, sought_of, touch_of};
ghost use Rattle.cl_record.specs.Trees.{trees_of};

use crate::branches::Presented;
use crate::labels::Label;
use crate::nodes::{Node, Nodes};
use crate::shifts::join_shifts;
use cl_medium::Leaf;
use cl_region::{Rect, Shift};
use cl_syntax::TypeSpec;
use cl_value::Value;

/// What a presentation at a place presents, and the specifier of its type. Both are lent.
#[derive(Clone, Copy)]
pub struct Touch<'a> {
    pub object: &'a Value,
    pub spec: &'a TypeSpec,
}

/// What a search came to.
#[derive(Clone, Copy)]
pub(crate) enum Search<'a> {
    /// The label that was looked for.
    Found(&'a Label),
    /// So many more are to be passed over.
    Passed(u32),
}

/// A column and a row.
#[derive(Clone, Copy)]
pub(crate) struct Spot {
    pub(crate) x: i64,
    pub(crate) y: i64,
}

impl<'a> Touch<'a> {
    // What a label says.
    pub(crate) fn of_label(label: &'a Label) -> Touch<'a>
        ensures { touch_of result ≡ touch_of_label label.now }
    {
        Touch {
            object: label.object(),
            spec: label.spec(),
        }
    }
}

// Whether a rectangle, moved by `at`, holds the place.
fn moved_holds(rect: Rect, at: Shift, spot: Spot) -> bool
    requires { IsInRange (move_rect at rect) }
    ensures { result ≡ holds (move_rect at rect) spot.x spot.y }
{
    rect.shifted(at).contains(spot.x, spot.y)
}

// Whether a box, moved by `at`, holds the place. Where there is no box nothing does.
fn box_holds(items: Option<Rect>, at: Shift, spot: Spot) -> bool
    requires { IfSome items (λ r. IsInRange (move_rect at r)) }
    ensures { result ≡ box_holds (option_map (move_rect at) items) spot.x spot.y }
{
    match items {
        Some(rect) => moved_holds(rect, at, spot),
        None => false,
    }
}

// Whether the box of the items of a row, moved by `at`, holds the place.
pub(crate) fn row_box_holds<L: Leaf>(inside: &Nodes<L>, at: Shift, spot: Spot) -> bool
    requires { ArePlaced L.bounds L.moved_by at (trees_of inside.now) }
    ensures { result ≡ box_holds (items_box L.bounds (items_drawn (move_marks L.moved_by at
        (marks_of_all L.moved_by (trees_of inside.now))))) spot.x spot.y }
{
    box_holds(inside.summary().items, at, spot)
}

// Whether the bounds of a leaf, moved by `at`, hold the place.
fn leaf_holds<L: Leaf>(leaf: &L, at: Shift, spot: Spot) -> bool
    requires { IsInRange (move_rect at (L.bounds leaf.now)) }
    ensures { result ≡ item_holds L.bounds spot.x spot.y (L.moved_by at leaf.now ∷ []) }
{
    moved_holds(leaf.bounds(), at, spot)
}

// Whether the bounds of one of the items of a record, moved by `at`, hold the place.
#[cycle(hold)]
fn node_holds<L: Leaf>(node: &Node<L>, at: Shift, spot: Spot) -> bool
    requires { IsPlaced L.bounds L.moved_by at (tree_of node.now) }
    ensures { result ≡ item_holds L.bounds spot.x spot.y
        (items_drawn (move_marks L.moved_by at (marks_of L.moved_by (tree_of node.now)))) }
{
    match node {
        Node::Leaf(leaf) => leaf_holds(leaf, at, spot),
        Node::Presentation(presented) => {
            let at = join_shifts(presented.place(), at);
            row_holds(presented.inside(), at, spot)
        }
        Node::Update(piece) => {
            let at = join_shifts(piece.place(), at);
            row_holds(piece.inside(), at, spot)
        }
    }
}

// The same of what a branch holds. It looks no further where the box of all of them does not hold the
// place.
#[cycle(hold)]
fn row_holds<L: Leaf>(inside: &Nodes<L>, at: Shift, spot: Spot) -> bool
    requires { ArePlaced L.bounds L.moved_by at (trees_of inside.now) }
    ensures { result ≡ item_holds L.bounds spot.x spot.y (items_drawn (move_marks L.moved_by at
        (marks_of_all L.moved_by (trees_of inside.now)))) }
{
    if !row_box_holds(inside, at, spot) {
        return false;
    }
    for node in inside.as_slice() {
        if node_holds(node, at, spot) {
            return true;
        }
    }
    false
}

// Whether the place touches a presentation, the inside of which is moved by `at`.
pub(crate) fn is_touched<L: Leaf>(presented: &Presented<L>, at: Shift, spot: Spot) -> bool
    requires { ArePlaced L.bounds L.moved_by at (trees_of presented.now.inside) }
    ensures { result ≡ touches L.bounds spot.x spot.y presented.now.label (items_drawn (move_marks L.moved_by at
        (marks_of_all L.moved_by (trees_of presented.now.inside)))) }
{
    if presented.label().is_single_box() {
        row_box_holds(presented.inside(), at, spot)
    } else {
        row_holds(presented.inside(), at, spot)
    }
}

// Finds the presentation itself, or passes it over, where the place touches it.
fn visit<L: Leaf>(presented: &Presented<L>, at: Shift, spot: Spot, k: u32) -> Search<'_>
    requires { ArePlaced L.bounds L.moved_by at (trees_of presented.now.inside) }
    ensures { sought_of result ≡ seek k (if touches L.bounds spot.x spot.y presented.now.label
        (items_drawn (move_marks L.moved_by at (marks_of_all L.moved_by (trees_of presented.now.inside))))
        then presented.now.label ∷ [] else []) }
{
    if !is_touched(presented, at, spot) {
        return Search::Passed(k);
    }
    match k.checked_sub(1) {
        Some(less) => Search::Passed(less),
        None => Search::Found(presented.label()),
    }
}

// Finds the label behind `k` others among those of the presentations of a record, moved by `at`, that
// the place touches, from the latest on. What is inside of a presentation began after it.
#[cycle(seek)]
fn seek_node<L: Leaf>(node: &Node<L>, at: Shift, spot: Spot, k: u32) -> Search<'_>
    requires { IsPlaced L.bounds L.moved_by at (tree_of node.now) }
    ensures { sought_of result ≡ seek k (reverse (touched_labels L.bounds spot.x spot.y
        (move_marks L.moved_by at (marks_of L.moved_by (tree_of node.now))))) }
{
    match node {
        Node::Leaf(_) => Search::Passed(k),
        Node::Presentation(presented) => {
            let at = join_shifts(presented.place(), at);
            match seek_row(presented.inside(), at, spot, k) {
                Search::Found(label) => Search::Found(label),
                Search::Passed(left) => visit(presented, at, spot, left),
            }
        }
        Node::Update(piece) => {
            let at = join_shifts(piece.place(), at);
            seek_row(piece.inside(), at, spot, k)
        }
    }
}

// The same of what a branch holds. It looks no further where the box of all of its items does not hold
// the place.
#[cycle(seek)]
pub(crate) fn seek_row<L: Leaf>(inside: &Nodes<L>, at: Shift, spot: Spot, k: u32) -> Search<'_>
    requires { ArePlaced L.bounds L.moved_by at (trees_of inside.now) }
    ensures { sought_of result ≡ seek k (reverse (touched_labels L.bounds spot.x spot.y (move_marks L.moved_by at
        (marks_of_all L.moved_by (trees_of inside.now))))) }
{
    if !row_box_holds(inside, at, spot) {
        return Search::Passed(k);
    }
    let mut left = k;
    let mut row = inside.as_slice();
    while let Some((last, before)) = row.split_last() {
        match seek_node(last, at, spot, left) {
            Search::Found(label) => return Search::Found(label),
            Search::Passed(more) => left = more,
        }
        row = before;
    }
    Search::Passed(left)
}
