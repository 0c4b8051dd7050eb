//! What a body draws.
ghost use Rattle.std.specs.Prelude.{◌≡◌, ◌∷◌, ◌++◌, [], Ok, OnErr, OnOk};
ghost use Rattle.cl_eval.specs.Agrees.{Comes, always};
ghost use Rattle.cl_region.specs.Places.{IsInRange};
ghost use Rattle.cl_medium.specs.Items.{item_bounds};
ghost use Rattle.cl_record.specs.Trees.{leaf};
ghost use Rattle.cl_display.specs.Drawings.{join_parts, part_of, start_part, with_cursor, with_item};

use crate::extents::{Extent, Lowest};
use cl_eval::Stop;
use cl_medium::{Ambient, AnyLeaf, Leaf};
use cl_record::{Node, Nodes};
use std::alloc::{AllocError, Global};

// An item in a history takes little room: a branch stands behind a pointer.
const _: () = prove!(size_of::<Node<AnyLeaf>>() <= 72);

/// What was drawn since a body began: its extent, the greatest end of an item down, whether the margin
/// and the origin of the start were used, and the records.
#[derive(Drop)]
pub struct Part {
    pub extent: Extent,
    pub lowest: Lowest,
    pub margin_used: bool,
    pub origin_used: bool,
    pub nodes: Nodes<AnyLeaf>,
}

impl Part {
    /// Nothing drawn yet, with the cursor there. It takes no memory.
    pub fn start(alloc: Global, ambient: &Ambient) -> Part
        ensures { part_of result ≡ start_part ambient.now }
    {
        Part {
            extent: Extent::at_cursor(ambient),
            lowest: Lowest::none(),
            margin_used: false,
            origin_used: false,
            nodes: Nodes::new(alloc),
        }
    }

    /// Puts what a body drew behind what was drawn around it.
    #[tactic(auto, using(crate::proofs::ItemLemmas::marks_behind))]
    pub fn join(&mut self, inner: Part) -> Result<(), Stop>
        ensures { Comes (always (part_of self.new)) result
            (Ok (join_parts (part_of self.old) (part_of inner))) }
    {
        self.extent.take(&inner.extent.corners());
        self.lowest.join(&inner.lowest);
        self.margin_used = inner.margin_used || self.margin_used;
        self.origin_used = inner.origin_used || self.origin_used;
        self.nodes.append(inner.nodes)?;
        Ok(())
    }

    /// Puts an item behind the other records.
    #[tactic(auto, using(crate::proofs::ItemLemmas::marks_behind))]
    pub fn push(&mut self, item: AnyLeaf) -> Result<(), Stop>
        ensures { Comes (always (part_of self.new)) result (Ok (with_item item (part_of self.old))) }
    {
        let bounds = item.bounds();
        push_leaf(&mut self.nodes, item)?;
        self.extent.take(&bounds);
        self.lowest.take(&bounds);
        Ok(())
    }

    /// Takes in the place of the cursor.
    pub fn take_cursor(&mut self, ambient: &Ambient)
        ensures { part_of self.new ≡ with_cursor ambient.now (part_of self.old) }
    {
        self.extent.take_cursor(ambient);
    }
}

// An item behind the other records.
pub(crate) fn push_leaf(nodes: &mut Nodes<AnyLeaf>, item: AnyLeaf) -> Result<(), AllocError>
    requires { IsInRange (item_bounds item) }
    ensures ok { OnOk result (nodes.new ≡ nodes.old ++ leaf item ∷ []) }
    ensures err { OnErr result (nodes.new ≡ nodes.old) }
{
    nodes.push(Node::Leaf(item))
}
