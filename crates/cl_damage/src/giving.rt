//! The bounds of the items of children.
ghost use Rattle.std.specs.Prelude.{◌≡◌, ◌++◌, ◌∷◌, [], OnOk, map};
ghost use Rattle.cl_region.specs.Places.{IsInRange, move_rect};
ghost use Rattle.cl_record.specs.Ranges.{ArePlaced, IsPlaced};
ghost use Rattle.cl_record.specs.Seen.{tree_of};
ghost use Rattle.cl_record.specs.Trees.{trees_of};
ghost use Rattle.cl_damage.specs.Children.{child_before, children_before, items_in, none};
ghost use Rattle.cl_damage.specs.Lents.{AllStand, Stands, child_lent};
ghost use Rattle.cl_damage.specs.Touched.{all_give, gives};

use crate::lents::Lent;
use cl_medium::Leaf;
use cl_record::{Node, Nodes, join_shifts};
use cl_region::{Rect, Shift};
use std::alloc::AllocError;

// Puts the bounds of each item of a record, moved by `at`, behind the others.
#[cycle(give)]
fn give_node<L: Leaf>(node: &Node<L>, at: Shift, rects: &mut Vec<Rect>) -> Result<(), AllocError>
    requires { IsPlaced L.bounds L.moved_by at (tree_of node.now) }
    ensures { OnOk result (rects.new.items ≡ rects.old.items
        ++ map L.bounds (items_in (child_before L.moved_by at (tree_of node.now) none))) }
{
    match node {
        Node::Leaf(leaf) => give_item(leaf, at, rects),
        Node::Presentation(presented) => {
            let at = join_shifts(presented.place(), at);
            give_row(presented.inside(), at, rects)
        }
        Node::Update(piece) => {
            let at = join_shifts(piece.place(), at);
            give_row(piece.inside(), at, rects)
        }
    }
}

// The same of records in a row.
#[cycle(give)]
fn give_row<L: Leaf>(row: &Nodes<L>, at: Shift, rects: &mut Vec<Rect>) -> Result<(), AllocError>
    requires { ArePlaced L.bounds L.moved_by at (trees_of row.now) }
    ensures { OnOk result (rects.new.items ≡ rects.old.items
        ++ map L.bounds (items_in (children_before L.moved_by at (trees_of row.now) none))) }
{
    for node in row.as_slice() {
        give_node(node, at, rects)?;
    }
    Ok(())
}

// Puts the bounds of an item, moved by `at`, behind the others.
fn give_item<L: Leaf>(leaf: &L, at: Shift, rects: &mut Vec<Rect>) -> Result<(), AllocError>
    requires { IsInRange (move_rect at (L.bounds leaf.now)) }
    ensures { OnOk result (rects.new.items ≡ rects.old.items ++ L.bounds (L.moved_by at leaf.now) ∷ []) }
{
    rects.push(leaf.bounds().shifted(at))?;
    Ok(())
}

// Puts the bounds of each item of a child behind the others.
pub(crate) fn give<L: Leaf>(child: &Lent<'_, L>, rects: &mut Vec<Rect>) -> Result<(), AllocError>
    requires { Stands L.bounds L.moved_by child.now }
    ensures { OnOk result (rects.new.items ≡ rects.old.items ++ gives L.bounds (child_lent L.moved_by child.now)) }
{
    match child {
        Lent::Item(at, leaf) => give_item(*leaf, *at, rects),
        Lent::Update(branch) => give_row(branch.piece.inside(), branch.place, rects),
    }
}

// The same of children in a row.
pub(crate) fn give_all<L: Leaf>(
    children: &[Lent<'_, L>],
    rects: &mut Vec<Rect>,
) -> Result<(), AllocError>
    requires { AllStand L.bounds L.moved_by children.now }
    ensures { OnOk result (rects.new.items ≡ rects.old.items ++ all_give L.bounds (map (child_lent L.moved_by) children.now)) }
{
    for child in children {
        give(child, rects)?;
    }
    Ok(())
}
