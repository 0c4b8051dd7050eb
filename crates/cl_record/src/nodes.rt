//! The tree of records.
ghost use Rattle.std.specs.Prelude.{◌≡◌, ◌++◌, ◌∷◌, ◌↔◌, [], IfOk, IsTrue, OnErr, OnOk, map};
ghost use Rattle.cl_record.specs.Seen.{forest_of, tree_of};
ghost use Rattle.cl_record.specs.Boxes.{bottom_of, summary_of};
ghost use Rattle.cl_record.specs.Counts.{count_of};
ghost use Rattle.cl_record.specs.Marks.{move_marks, history_marks, marks_of};
ghost use Rattle.cl_record.specs.Ranges.{AreSound, IsMeasured, IsSound, StaysInRange};
ghost use Rattle.cl_record.specs.Replays.{items_drawn};
ghost use Rattle.cl_record.specs.Shifts.{still};
ghost use Rattle.cl_record.specs.Trees.{children_of, leaf, update, place_of, presentation, move_tree, trees_of};

use crate::branches::{Piece, Presented};
use crate::heads::Head;
use crate::labels::Label;
use crate::shifts::STILL;
use crate::summaries::{NOTHING, Summary};
use cl_medium::Leaf;
use cl_region::Shift;
use std::alloc::{AllocError, Global};
use std::marker::Model;

/// A record of output: an item, a presentation or an update.
#[cycle(node)]
#[derive(Drop)]
pub enum Node<L: Leaf> {
    Leaf(L),
    Presentation(Presented<L>),
    Update(Piece<L>),
}

/// Records in a row, seen as their trees. What they come to is kept beside them.
#[cycle(node)]
#[derive(Drop)]
pub struct Nodes<L: Leaf> {
    items: Vec<Node<L>>,
    summary: Summary,
}

impl<L: Leaf> Model for Nodes<L> {
    ghost use Rattle.std.specs.Prelude.{List, map};
    ghost use Rattle.std.specs.Coded.{coded_list};
    ghost use Rattle.cl_record.specs.Ranges.{IsRow};
    ghost use Rattle.cl_record.specs.Trees.{Tree, size_of_all, tree_code, trees_of};

    ghost Value = { List (Tree L) };

    ghost coded = { coded_list (tree_code L.code) };

    ghost use Rattle.cl_record.specs.Seen.{forest_of, tree_of};

    ghost view = { λ a. map tree_of a.items.items };

    ghost invariant = { λ a. IsRow L.Leaf (forest_of a.items.items) a.summary };

    ghost size = { λ ts. size_of_all (trees_of ts) };

    ghost use Rattle.std.proofs.Common.{arith};
    ghost use Rattle.cl_record.specs.Falls.{most-size};

    ghost size_decreases = { λ a h. Prim.omega (arith, most-size L.Leaf a.items.items) };
}

impl<L: Leaf> Node<L> {
    /// A presentation of these records, of which there may be none. It leaves them where they are: its
    /// place is (0, 0) until it is moved. Where memory is wanting, all is given up.
    pub fn presentation(
        alloc: Global,
        label: Label,
        inside: Nodes<L>,
    ) -> Result<Node<L>, AllocError>
        ensures { IfOk result (λ node. tree_of node ≡ presentation label still (trees_of inside)) }
    {
        Ok(Node::Presentation(Presented::new(alloc, label, inside)?))
    }

    /// An update that drew these records, of which there may be none. It leaves them where they are: its
    /// place is (0, 0) until it is moved. Where memory is wanting, all is given up.
    pub fn update(alloc: Global, head: Head, inside: Nodes<L>) -> Result<Node<L>, AllocError>
        requires { IsMeasured L.bounds L.moved_by head (trees_of inside) }
        ensures { IfOk result (λ node. tree_of node ≡ update head still (trees_of inside)) }
    {
        Ok(Node::Update(Piece::new(alloc, head, inside)?))
    }

    /// Where what it holds stands; a leaf keeps its own place.
    pub fn place(&self) -> Shift
        ensures { result ≡ place_of (tree_of self.now) }
    {
        match self {
            Node::Leaf(_) => STILL,
            Node::Presentation(presented) => presented.place(),
            Node::Update(piece) => piece.place(),
        }
    }

    /// What it holds, relative to its place.
    pub fn children(&self) -> &[Node<L>]
        ensures { forest_of result.now ≡ children_of (tree_of self.now) }
    {
        match self {
            Node::Leaf(_) => &[],
            Node::Presentation(presented) => presented.inside().as_slice(),
            Node::Update(piece) => piece.inside().as_slice(),
        }
    }

    /// What it comes to, without a walk through it.
    pub fn summary(&self) -> Summary
        ensures value { result ≡ summary_of L.bounds (marks_of L.moved_by (tree_of self.now)) }
        ensures sound { IsSound L.bounds L.moved_by (tree_of self.now) }
    {
        match self {
            Node::Leaf(leaf) => Summary::of_item(leaf.bounds()),
            Node::Presentation(presented) => presented.summary(),
            Node::Update(piece) => piece.summary(),
        }
    }

    /// The greatest `y2` of the bounds of its items; None where there is none.
    pub fn bottom(&self) -> Option<i64>
        ensures { result ≡ bottom_of L.bounds (items_drawn (marks_of L.moved_by (tree_of self.now))) }
    {
        Some(self.summary().items?.y2)
    }

    /// Whether it may be moved so far: its items and the extents of its updates, at any depth, stay in the
    /// range.
    pub fn fits(&self, by: Shift) -> bool
        ensures { IsTrue result ↔ StaysInRange L.bounds L.moved_by by (tree_of self.now) }
    {
        match self.summary().extents {
            Some(extents) => extents.fits(by),
            None => true,
        }
    }

    /// Moves it with all that it holds, in constant time: what it holds stays as it is. A presentation in
    /// which there is neither an item nor an update stays where it is.
    pub fn shift(&mut self, by: Shift)
        requires { StaysInRange L.bounds L.moved_by by (tree_of self.old) }
        ensures tree { tree_of self.new ≡ move_tree L.moved_by by (tree_of self.old) }
        ensures marks { marks_of L.moved_by (tree_of self.new)
            ≡ move_marks L.moved_by by (marks_of L.moved_by (tree_of self.old)) }
    {
        match self {
            Node::Leaf(leaf) => leaf.shift(by),
            Node::Presentation(presented) => presented.shift(by),
            Node::Update(piece) => piece.shift(by),
        }
    }
}

impl<L: Leaf> Nodes<L> {
    /// No records, which takes no memory.
    pub fn new(alloc: Global) -> Nodes<L>
        ensures { result ≡ [] }
    {
        Nodes {
            items: Vec::new(alloc),
            summary: NOTHING,
        }
    }

    /// The records in their order.
    pub fn as_slice(&self) -> &[Node<L>]
        ensures nodes { map tree_of result.now ≡ self.now }
        ensures sound { AreSound L.bounds L.moved_by (forest_of result.now) }
    {
        self.items.as_slice()
    }

    /// What they come to, without a walk through them.
    pub fn summary(&self) -> Summary
        ensures value { result ≡ summary_of L.bounds (history_marks L.moved_by self.now) }
        ensures sound { AreSound L.bounds L.moved_by (trees_of self.now) }
    {
        self.summary
    }

    /// How many items they draw.
    pub fn count(&self) -> u64
        ensures { result ≡ count_of (history_marks L.moved_by self.now) }
    {
        self.summary().count
    }

    /// The greatest `y2` of the bounds of their items; None where there is none.
    pub fn bottom(&self) -> Option<i64>
        ensures { result ≡ bottom_of L.bounds (items_drawn (history_marks L.moved_by self.now)) }
    {
        Some(self.summary().items?.y2)
    }

    /// Puts a record behind the others. Where memory is wanting, or there would be more items than can be
    /// counted, the record is given up.
    pub fn push(&mut self, node: Node<L>) -> Result<(), AllocError>
        ensures ok { OnOk result (self.new ≡ self.old ++ tree_of node ∷ []) }
        ensures err { OnErr result (self.new ≡ self.old) }
    {
        let Some(summary) = self.summary.join(node.summary()) else {
            return Err(AllocError);
        };
        self.items.push(node)?;
        self.summary = summary;
        Ok(())
    }

    /// Puts the other records behind its own. Where it holds none, it takes the row as it is, without memory.
    /// Where memory is wanting, or there would be more items than can be counted, the others are given up.
    pub fn append(&mut self, other: Nodes<L>) -> Result<(), AllocError>
        ensures ok { OnOk result (self.new ≡ self.old ++ other) }
        ensures err { OnErr result (self.new ≡ self.old) }
    {
        if self.items.is_empty() {
            *self = other;
            return Ok(());
        }
        let Some(summary) = self.summary.join(other.summary) else {
            return Err(AllocError);
        };
        let mut items = other.items;
        self.items.append(&mut items)?;
        self.summary = summary;
        Ok(())
    }

    /// Gives all records up.
    pub fn clear(&mut self)
        ensures { self.new ≡ [] }
    {
        self.items.clear();
        self.summary = NOTHING;
    }
}
