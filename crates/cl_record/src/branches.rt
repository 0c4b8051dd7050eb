//! Presentations and updates.
ghost use Rattle.std.specs.Prelude.{◌≡◌, if◌then◌else◌, IfOk};
ghost use Rattle.cl_region.specs.Places.{IsInRange, move_rect};
ghost use Rattle.cl_record.specs.Boxes.{summary_of};
ghost use Rattle.cl_record.specs.Marks.{marks_of};
ghost use Rattle.cl_record.specs.Ranges.{IsMeasured, IsSound, StaysInRange};
ghost use Rattle.cl_record.specs.Shifts.{join_shifts, still};
ghost use Rattle.cl_record.specs.Trees.{are_bare, update, presentation, trees_of};

use crate::heads::Head;
use crate::labels::Label;
use crate::nodes::Nodes;
use crate::shifts::{STILL, join_shifts};
use crate::summaries::{Summary, shifted_box};
use cl_medium::Leaf;
use cl_region::Shift;
use std::alloc::{AllocError, Global};
use std::marker::Model;
use std::rc::Rc;

/// What is presented, with the records that present it, which stand relative to its place.
#[cycle(node)]
#[derive(Drop)]
pub struct Presented<L: Leaf> {
    place: Shift,
    body: Rc<PresentedBody<L>>,
}

#[cycle(node)]
#[derive(Drop)]
struct PresentedBody<L: Leaf> {
    label: Label,
    inside: Nodes<L>,
}

/// What an update's body drew. The records inside and the head stand relative to its place. Copies share
/// them.
#[cycle(node)]
#[derive(Drop)]
pub struct Piece<L: Leaf> {
    place: Shift,
    body: Rc<PieceBody<L>>,
}

#[cycle(node)]
#[derive(Drop)]
struct PieceBody<L: Leaf> {
    head: Head,
    inside: Nodes<L>,
}

impl<L: Leaf> Model for Presented<L> {
    ghost use Rattle.std.specs.Prelude.{◌+◌};
    ghost use Rattle.std.proofs.Common.{arith};
    ghost use Rattle.cl_record.specs.Branches.{PresentationAt, presentation_code};
    ghost use Rattle.cl_record.specs.Ranges.{IsKept};
    ghost use Rattle.cl_record.specs.Trees.{presentation, size_of_all, trees_of};

    ghost Value = { PresentationAt L };

    ghost coded = { presentation_code L.code };

    ghost view = { λ s. record
        { label = s.body.value.label; place = s.place; inside = s.body.value.inside } };

    ghost invariant = { λ s. IsKept L.Leaf
        (presentation s.body.value.label s.place (trees_of s.body.value.inside)) };

    ghost size = { λ s. 3 + size_of_all (trees_of s.inside) };

    ghost size_decreases = { λ s h. Prim.omega arith };
}

impl<L: Leaf> Model for Piece<L> {
    ghost use Rattle.std.specs.Prelude.{◌+◌};
    ghost use Rattle.std.proofs.Common.{arith};
    ghost use Rattle.cl_record.specs.Branches.{UpdateAt, update_code};
    ghost use Rattle.cl_record.specs.Ranges.{IsKept};
    ghost use Rattle.cl_record.specs.Trees.{update, size_of_all, trees_of};

    ghost Value = { UpdateAt L };

    ghost coded = { update_code L.code };

    ghost view = { λ p. record
        { head = p.body.value.head; place = p.place; inside = p.body.value.inside } };

    ghost invariant = { λ p. IsKept L.Leaf
        (update p.body.value.head p.place (trees_of p.body.value.inside)) };

    ghost size = { λ p. 3 + size_of_all (trees_of p.inside) };

    ghost size_decreases = { λ p h. Prim.omega arith };
}

impl<L: Leaf> Presented<L> {
    // It leaves the records where they are.
    pub(crate) fn new(
        alloc: Global,
        label: Label,
        inside: Nodes<L>,
    ) -> Result<Presented<L>, AllocError>
        ensures { IfOk result (λ s. s ≡ record { label = label; place = still; inside = inside }) }
    {
        // What the row keeps is known from here on.
        let _ = inside.summary();
        let body = Rc::new(alloc, PresentedBody { label, inside })?;
        Ok(Presented { place: STILL, body })
    }

    /// What it presents.
    pub fn label(&self) -> &Label
        ensures { result.now ≡ self.now.label }
    {
        &self.body.label
    }

    /// Where it stands.
    pub fn place(&self) -> Shift
        ensures { result ≡ self.now.place }
    {
        self.place
    }

    /// The records that it holds, relative to its place.
    pub fn inside(&self) -> &Nodes<L>
        ensures { result.now ≡ self.now.inside }
    {
        &self.body.inside
    }

    pub(crate) fn summary(&self) -> Summary
        ensures value { result ≡ summary_of L.bounds
            (marks_of L.moved_by (presentation self.now.label self.now.place (trees_of self.now.inside))) }
        ensures sound { IsSound L.bounds L.moved_by
            (presentation self.now.label self.now.place (trees_of self.now.inside)) }
    {
        self.body.inside.summary().shifted(self.place)
    }

    pub(crate) fn shift(&mut self, by: Shift)
        requires { StaysInRange L.bounds L.moved_by by
            (presentation self.old.label self.old.place (trees_of self.old.inside)) }
        ensures { self.new ≡ record self.old
            { place = if are_bare (trees_of self.old.inside) then self.old.place else join_shifts self.old.place by } }
    {
        if self.body.inside.summary().extents.is_some() {
            self.place = join_shifts(self.place, by);
        }
    }
}

impl<L: Leaf> Piece<L> {
    // It leaves the records where they are.
    pub(crate) fn new(alloc: Global, head: Head, inside: Nodes<L>) -> Result<Piece<L>, AllocError>
        requires { IsMeasured L.bounds L.moved_by head (trees_of inside) }
        ensures { IfOk result (λ p. p ≡ record { head = head; place = still; inside = inside }) }
    {
        // What the row keeps is known from here on.
        let _ = inside.summary();
        let body = Rc::new(alloc, PieceBody { head, inside })?;
        Ok(Piece { place: STILL, body })
    }

    /// What it says of itself, relative to its place.
    pub fn head(&self) -> &Head
        ensures { result.now ≡ self.now.head }
    {
        &self.body.head
    }

    /// Where it stands.
    pub fn place(&self) -> Shift
        ensures { result ≡ self.now.place }
    {
        self.place
    }

    /// The records that it holds, relative to its place.
    pub fn inside(&self) -> &Nodes<L>
        ensures { result.now ≡ self.now.inside }
    {
        &self.body.inside
    }

    /// The same piece at this place. It shares what this one holds, and takes no memory: it fails only
    /// where one piece has as many owners as can be counted.
    pub fn copy_at(&self, place: Shift) -> Result<Piece<L>, AllocError>
        requires { IsInRange (move_rect place self.now.head.measures.extent) }
        ensures { IfOk result (λ p. p ≡ record self.now { place = place }) }
    {
        let body = self.body.clone()?;
        Ok(Piece { place, body })
    }

    pub(crate) fn summary(&self) -> Summary
        ensures value { result ≡ summary_of L.bounds
            (marks_of L.moved_by (update self.now.head self.now.place (trees_of self.now.inside))) }
        ensures sound { IsSound L.bounds L.moved_by
            (update self.now.head self.now.place (trees_of self.now.inside)) }
    {
        let inside = self.body.inside.summary();
        let extent = self.body.head.measures().extent;
        Summary {
            count: inside.count,
            items: shifted_box(inside.items, self.place),
            extents: Some(extent.shifted(self.place)),
        }
    }

    pub(crate) fn shift(&mut self, by: Shift)
        requires { StaysInRange L.bounds L.moved_by by
            (update self.old.head self.old.place (trees_of self.old.inside)) }
        ensures { self.new ≡ record self.old { place = join_shifts self.old.place by } }
    {
        self.place = join_shifts(self.place, by);
    }
}
