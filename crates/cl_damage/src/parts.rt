//! Parts of a level.
ghost use Rattle.std.specs.Prelude.{◌≡◌, ◌-◌, ◌≤◌, IfOk, drop, length, map, take};
ghost use Rattle.cl_damage.specs.Children.{inside_of};
ghost use Rattle.cl_damage.specs.Lents.{AllStand, Stands, child_lent};
ghost use Rattle.cl_damage.specs.Steps.{sizes_of};
ghost use Rattle.cl_damage.specs.Touched.{but_last};

use crate::lents::{Lent, level_of};
use cl_medium::Leaf;
use std::alloc::{AllocError, Global};

// The children behind so many.
pub(crate) fn behind<'s, 'a, L: Leaf>(
    children: &'s [Lent<'a, L>],
    count: usize,
) -> &'s [Lent<'a, L>]
    ensures children { map (child_lent L.moved_by) result.now ≡ drop count (map (child_lent L.moved_by) children.now) }
    ensures stand { AllStand L.bounds L.moved_by children.now → AllStand L.bounds L.moved_by result.now }
    ensures fewer { sizes_of (map (child_lent L.moved_by) result.now) ≤ sizes_of (map (child_lent L.moved_by) children.now) }
{
    if count < children.len() {
        &children[count..]
    } else {
        &[]
    }
}

// The first ones, so many.
pub(crate) fn first<'s, 'a, L: Leaf>(children: &'s [Lent<'a, L>], count: usize) -> &'s [Lent<'a, L>]
    ensures children { map (child_lent L.moved_by) result.now ≡ take count (map (child_lent L.moved_by) children.now) }
    ensures stand { AllStand L.bounds L.moved_by children.now → AllStand L.bounds L.moved_by result.now }
    ensures fewer { sizes_of (map (child_lent L.moved_by) result.now) ≤ sizes_of (map (child_lent L.moved_by) children.now) }
{
    if count < children.len() {
        &children[..count]
    } else {
        children
    }
}

// All but so many at the end.
pub(crate) fn before_last<'s, 'a, L: Leaf>(
    children: &'s [Lent<'a, L>],
    count: usize,
) -> &'s [Lent<'a, L>]
    ensures children { map (child_lent L.moved_by) result.now ≡ but_last count (map (child_lent L.moved_by) children.now) }
    ensures stand { AllStand L.bounds L.moved_by children.now → AllStand L.bounds L.moved_by result.now }
    ensures fewer { sizes_of (map (child_lent L.moved_by) result.now) ≤ sizes_of (map (child_lent L.moved_by) children.now) }
{
    first(children, children.len().saturating_sub(count))
}

// What is inside of a child; an item has nothing inside.
pub(crate) fn inside_of<'a, L: Leaf>(
    alloc: Global,
    child: &Lent<'a, L>,
) -> Result<Vec<Lent<'a, L>>, AllocError>
    requires { Stands L.bounds L.moved_by child.now }
    ensures children { IfOk result (λ inside. map (child_lent L.moved_by) inside.items ≡ inside_of (child_lent L.moved_by child.now)) }
    ensures stand { IfOk result (λ inside. AllStand L.bounds L.moved_by inside.items) }
{
    match child {
        Lent::Item(_, _) => Ok(Vec::new(alloc)),
        Lent::Update(branch) => level_of(alloc, branch.piece.inside(), branch.place, branch.inside),
    }
}
