//! All presentations that a place touches.
ghost use Rattle.std.specs.Prelude.{◌≡◌, ◌++◌, ◌∷◌, [], OnOk, if◌then◌else◌, map, reverse};
ghost use Rattle.cl_record.specs.Marks.{move_marks, marks_of, marks_of_all};
ghost use Rattle.cl_record.specs.Ranges.{ArePlaced, IsPlaced};
ghost use Rattle.cl_record.specs.Replays.{items_drawn};
ghost use Rattle.cl_record.specs.Seen.{tree_of};
ghost use Rattle.cl_record.specs.Touches.{touch_of_label, touched_labels, touches};
ghost use Rattle.cl_record.specs.TouchWalks.{touch_of};
ghost use Rattle.cl_record.specs.Trees.{trees_of};

use crate::branches::Presented;
use crate::nodes::{Node, Nodes};
use crate::shifts::join_shifts;
use crate::touches::{Spot, Touch, is_touched, row_box_holds};
use cl_medium::Leaf;
use cl_region::Shift;
use std::alloc::AllocError;

// Puts the presentation itself behind the others, where the place touches it.
fn gather_itself<'a, L: Leaf>(
    presented: &'a Presented<L>,
    at: Shift,
    spot: Spot,
    gathered: &mut Vec<Touch<'a>>,
) -> Result<(), AllocError>
    requires { ArePlaced L.bounds L.moved_by at (trees_of presented.now.inside) }
    ensures { OnOk result (map touch_of gathered.new.items ≡ map touch_of gathered.old.items
        ++ map touch_of_label (if touches L.bounds spot.x spot.y presented.now.label
        (items_drawn (move_marks L.moved_by at (marks_of_all L.moved_by (trees_of presented.now.inside))))
        then presented.now.label ∷ [] else [])) }
{
    if is_touched(presented, at, spot) {
        gathered.push(Touch::of_label(presented.label()))?;
    }
    Ok(())
}

// Puts all presentations of a record, moved by `at`, that the place touches behind the others, from the
// latest on. What is inside of a presentation began after it.
#[cycle(gather)]
fn gather_node<'a, L: Leaf>(
    node: &'a Node<L>,
    at: Shift,
    spot: Spot,
    gathered: &mut Vec<Touch<'a>>,
) -> Result<(), AllocError>
    requires { IsPlaced L.bounds L.moved_by at (tree_of node.now) }
    ensures { OnOk result (map touch_of gathered.new.items ≡ map touch_of gathered.old.items
        ++ map touch_of_label (reverse (touched_labels L.bounds spot.x spot.y
        (move_marks L.moved_by at (marks_of L.moved_by (tree_of node.now)))))) }
{
    match node {
        Node::Leaf(_) => Ok(()),
        Node::Presentation(presented) => {
            let at = join_shifts(presented.place(), at);
            gather_row(presented.inside(), at, spot, gathered)?;
            gather_itself(presented, at, spot, gathered)
        }
        Node::Update(piece) => {
            let at = join_shifts(piece.place(), at);
            gather_row(piece.inside(), at, spot, gathered)
        }
    }
}

// The same of what a branch holds. It looks no further where the box of all of its items does not hold
// the place.
#[cycle(gather)]
pub(crate) fn gather_row<'a, L: Leaf>(
    inside: &'a Nodes<L>,
    at: Shift,
    spot: Spot,
    gathered: &mut Vec<Touch<'a>>,
) -> Result<(), AllocError>
    requires { ArePlaced L.bounds L.moved_by at (trees_of inside.now) }
    ensures { OnOk result (map touch_of gathered.new.items ≡ map touch_of gathered.old.items
        ++ map touch_of_label (reverse (touched_labels L.bounds spot.x spot.y (move_marks L.moved_by at
        (marks_of_all L.moved_by (trees_of inside.now)))))) }
{
    if !row_box_holds(inside, at, spot) {
        return Ok(());
    }
    let mut row = inside.as_slice();
    while let Some((last, before)) = row.split_last() {
        gather_node(last, at, spot, gathered)?;
        row = before;
    }
    Ok(())
}
