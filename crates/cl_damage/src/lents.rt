//! The children of a level of records, with presentations taken apart. The records lend them: no item is copied.
ghost use Rattle.std.specs.Prelude.{◌≡◌, ◌++◌, IfOk, OnOk, drop, map};
ghost use Rattle.cl_record.specs.Ranges.{ArePlaced, IsPlaced};
ghost use Rattle.cl_record.specs.Seen.{tree_of};
ghost use Rattle.cl_record.specs.Trees.{trees_of};
ghost use Rattle.cl_damage.specs.Children.{Children, list_of, none};
ghost use Rattle.cl_damage.specs.KeepRows.{keeps_of};
ghost use Rattle.cl_damage.specs.Keeps.{Keeps};
ghost use Rattle.cl_damage.specs.Lents.{AllStand, all_but_first, child_lent, first_inside, first_moved};
ghost use Rattle.cl_damage.specs.NewChildren.{new_child_before, new_children_before};

use crate::keeps::Keep;
use cl_medium::Leaf;
use cl_record::{Node, Nodes, Piece, join_shifts};
use cl_region::Shift;
use std::alloc::{AllocError, Global};

// A child of a level.
#[derive(Drop)]
pub(crate) enum Lent<'a, L: Leaf> {
    // An item, which is moved so far.
    Item(Shift, &'a L),
    Update(Branch<'a, L>),
}

// An update, which stands so far from the start; how far it was moved, if it was kept, and what was kept of the updates
// inside of it.
#[derive(Drop)]
pub(crate) struct Branch<'a, L: Leaf> {
    pub(crate) place: Shift,
    pub(crate) piece: &'a Piece<L>,
    pub(crate) moved: Option<Shift>,
    pub(crate) inside: &'a [Keep],
}

// How far the update at this place was moved, if it was kept; one that is not told of was not.
fn moved_at(keeps: &[Keep], place: usize) -> Option<Shift>
    ensures { result ≡ first_moved (keeps_of (drop place keeps.now)) }
{
    match keeps.get(place) {
        Some(Keep::Kept(moved)) => Some(*moved),
        Some(Keep::Anew(_)) => None,
        None => None,
    }
}

// What was kept of the updates inside of the one at this place.
fn inside_at(keeps: &[Keep], place: usize) -> &[Keep]
    ensures { keeps_of result.now ≡ first_inside (keeps_of (drop place keeps.now)) }
{
    match keeps.get(place) {
        Some(Keep::Kept(_)) => &[],
        Some(Keep::Anew(inside)) => inside.as_slice(),
        None => &[],
    }
}

// The place of the next update, if there is one.
fn after(keeps: &[Keep], place: usize) -> usize
    ensures { keeps_of (drop result keeps.now) ≡ all_but_first (keeps_of (drop place keeps.now)) }
{
    if place < keeps.len() {
        place + 1
    } else {
        place
    }
}

// Puts the children that a record is, moved by `at`, behind the others. What became of its updates is told from place `next` of
// the keeps on. Answers from which place on it is told of those behind it.
#[cycle(meet)]
fn meet_node<'a, L: Leaf>(
    node: &'a Node<L>,
    at: Shift,
    keeps: &'a [Keep],
    next: usize,
    met: &mut Vec<Lent<'a, L>>,
) -> Result<usize, AllocError>
    requires placed { IsPlaced L.bounds L.moved_by at (tree_of node.now) }
    requires stand { AllStand L.bounds L.moved_by met.old.items }
    ensures stand { OnOk result (AllStand L.bounds L.moved_by met.new.items) }
    ensures children { IfOk result (λ left. (rest : Keeps → Children L)
        → map (child_lent L.moved_by) met.old.items
        ++ list_of (new_child_before L.moved_by at (tree_of node.now) (keeps_of (drop next keeps.now)) rest)
        ≡ map (child_lent L.moved_by) met.new.items ++ list_of (rest (keeps_of (drop left keeps.now)))) }
{
    match node {
        Node::Leaf(leaf) => {
            met.push(Lent::Item(at, leaf))?;
            Ok(next)
        }
        Node::Presentation(presented) => {
            let at = join_shifts(presented.place(), at);
            meet_row(presented.inside(), at, keeps, next, met)
        }
        Node::Update(piece) => {
            let place = join_shifts(piece.place(), at);
            let moved = moved_at(keeps, next);
            let inside = inside_at(keeps, next);
            met.push(Lent::Update(Branch {
                place,
                piece,
                moved,
                inside,
            }))?;
            Ok(after(keeps, next))
        }
    }
}

// The same of records in a row.
#[cycle(meet)]
fn meet_row<'a, L: Leaf>(
    row: &'a Nodes<L>,
    at: Shift,
    keeps: &'a [Keep],
    mut next: usize,
    met: &mut Vec<Lent<'a, L>>,
) -> Result<usize, AllocError>
    requires placed { ArePlaced L.bounds L.moved_by at (trees_of row.now) }
    requires stand { AllStand L.bounds L.moved_by met.old.items }
    ensures stand { OnOk result (AllStand L.bounds L.moved_by met.new.items) }
    ensures children { IfOk result (λ left. (rest : Keeps → Children L)
        → map (child_lent L.moved_by) met.old.items
        ++ list_of (new_children_before L.moved_by at (trees_of row.now) (keeps_of (drop next keeps.now)) rest)
        ≡ map (child_lent L.moved_by) met.new.items ++ list_of (rest (keeps_of (drop left keeps.now)))) }
{
    for node in row.as_slice() {
        next = meet_node(node, at, keeps, next, met)?;
    }
    Ok(next)
}

// The children of the level of these records, which stand so far from the start, where this was kept of its updates.
pub(crate) fn level_of<'a, L: Leaf>(
    alloc: Global,
    row: &'a Nodes<L>,
    at: Shift,
    keeps: &'a [Keep],
) -> Result<Vec<Lent<'a, L>>, AllocError>
    requires { ArePlaced L.bounds L.moved_by at (trees_of row.now) }
    ensures children { IfOk result (λ met. map (child_lent L.moved_by) met.items
        ≡ list_of (new_children_before L.moved_by at (trees_of row.now) (keeps_of keeps.now) (λ _. none))) }
    ensures stand { IfOk result (λ met. AllStand L.bounds L.moved_by met.items) }
{
    let mut met = Vec::new(alloc);
    meet_row(row, at, keeps, 0, &mut met)?;
    Ok(met)
}
