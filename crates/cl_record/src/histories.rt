//! The history of a pane.
ghost use Rattle.std.specs.Prelude.{◌≡◌, ◌++◌, ◌∷◌, ℤ, [], IfOk, OnErr, OnOk, map, option_map, reverse, true};
ghost use Rattle.cl_region.specs.Places.{one_holds, holds};
ghost use Rattle.cl_record.specs.Counts.{count_of};
ghost use Rattle.cl_record.specs.Lines.{history_lines};
ghost use Rattle.cl_record.specs.Marks.{history_marks};
ghost use Rattle.cl_record.specs.Replays.{Paints, items_drawn, cell_after, items_touching};
ghost use Rattle.cl_record.specs.Touches.{touch_of_label, touched_labels, touched_at};
ghost use Rattle.cl_record.specs.TouchWalks.{touch_of};

use crate::canvases::Canvas;
use crate::gathering::gather_row;
use crate::lines::Printable;
use crate::nodes::Nodes;
use crate::printing::print_inside;
use crate::replaying::replay_inside;
use crate::shifts::STILL;
use crate::touches::{Search, Spot, Touch, seek_row};
use cl_medium::Leaf;
use cl_region::{Rect, Region};
use cl_value::Text;
use std::alloc::{AllocError, Global};
use std::marker::Model;

/// What a pane's display drew, in order. A contract sees its trees, or by `history_marks` the one flat
/// list of marks in the pane's coordinates.
#[derive(Drop)]
pub struct History<L: Leaf> {
    nodes: Nodes<L>,
}

impl<L: Leaf> Model for History<L> {
    ghost use Rattle.std.specs.Prelude.{List};
    ghost use Rattle.std.specs.Coded.{coded_list};
    ghost use Rattle.cl_record.specs.Trees.{Tree, tree_code};

    ghost Value = { List (Tree L) };

    ghost coded = { coded_list (tree_code L.code) };

    ghost view = { λ h. h.nodes };
}

impl<L: Leaf> History<L> {
    /// Nothing drawn, which takes no memory.
    pub fn empty(alloc: Global) -> History<L>
        ensures { result ≡ [] }
    {
        History {
            nodes: Nodes::new(alloc),
        }
    }

    /// The history of these records.
    pub fn from_nodes(nodes: Nodes<L>) -> History<L>
        ensures { result ≡ nodes }
    {
        History { nodes }
    }

    /// The outermost records.
    pub fn nodes(&self) -> &Nodes<L>
        ensures { result.now ≡ self.now }
    {
        &self.nodes
    }

    /// Gives all records up.
    pub fn clear(&mut self)
        ensures { self.new ≡ [] }
    {
        self.nodes.clear();
    }

    /// How many items it draws.
    pub fn count(&self) -> u64
        ensures { result ≡ count_of (history_marks L.moved_by self.now) }
    {
        self.nodes.count()
    }

    /// Paints exactly the leaves whose bounds share a place with the region, in order. So each place of
    /// the region that the canvas shows has the cell of the last leaf of the whole history that paints
    /// it, or else the cell that it had. It takes no memory.
    pub fn replay<C: Canvas<L>>(&self, region: &Region, canvas: &mut C)
        ensures paints { Paints C.shows C.cell C.keeps L.cell canvas.old canvas.new
            (items_touching L.bounds region.now (items_drawn (history_marks L.moved_by self.now))) }
        ensures region { (x y : ℤ) → C.shows canvas.old x y ≡ true → one_holds region.now x y ≡ true
            → C.cell canvas.new x y ≡ cell_after L.cell (items_drawn (history_marks L.moved_by self.now)) x y (C.cell canvas.old x y) }
    {
        self.replay_rects(region.rects(), canvas);
    }

    /// The same of the places of one rectangle.
    pub fn replay_in<C: Canvas<L>>(&self, rect: &Rect, canvas: &mut C)
        ensures paints { Paints C.shows C.cell C.keeps L.cell canvas.old canvas.new
            (items_touching L.bounds (rect.now ∷ []) (items_drawn (history_marks L.moved_by self.now))) }
        ensures rect { (x y : ℤ) → C.shows canvas.old x y ≡ true → holds rect.now x y ≡ true
            → C.cell canvas.new x y ≡ cell_after L.cell (items_drawn (history_marks L.moved_by self.now)) x y (C.cell canvas.old x y) }
    {
        self.replay_rects(&[*rect], canvas);
    }

    // The same of the places that one of the rectangles holds.
    fn replay_rects<C: Canvas<L>>(&self, rects: &[Rect], canvas: &mut C)
        ensures paints { Paints C.shows C.cell C.keeps L.cell canvas.old canvas.new
            (items_touching L.bounds rects.now (items_drawn (history_marks L.moved_by self.now))) }
        ensures rects { (x y : ℤ) → C.shows canvas.old x y ≡ true → one_holds rects.now x y ≡ true
            → C.cell canvas.new x y ≡ cell_after L.cell (items_drawn (history_marks L.moved_by self.now)) x y (C.cell canvas.old x y) }
    {
        // What the rows keep is known from here on.
        let _ = self.nodes.summary();
        replay_inside(&self.nodes, STILL, rects, canvas);
    }

    /// What the presentation with number `k` of those that this place touches presents, and None exactly
    /// where there are at most `k`. The one that began latest has number 0, so one that is inside of
    /// another comes before it. A presentation is touched where the bounds of one of the items inside it
    /// hold the place, or with a single box where the box of all of these does. It takes no memory.
    pub fn touched(&self, x: i64, y: i64, k: u32) -> Option<Touch<'_>>
        ensures { option_map touch_of result
            ≡ touched_at L.bounds x y k (history_marks L.moved_by self.now) }
    {
        // What the rows keep is known from here on.
        let _ = self.nodes.summary();
        match seek_row(&self.nodes, STILL, Spot { x, y }, k) {
            Search::Found(label) => Some(Touch::of_label(label)),
            Search::Passed(_) => None,
        }
    }

    /// All presentations that this place touches, the one that began latest first, in one walk.
    pub fn touches(&self, alloc: Global, x: i64, y: i64) -> Result<Vec<Touch<'_>>, AllocError>
        ensures { IfOk result (λ ts. map touch_of ts.items
            ≡ map touch_of_label (reverse (touched_labels L.bounds x y (history_marks L.moved_by self.now)))) }
    {
        // What the rows keep is known from here on.
        let _ = self.nodes.summary();
        let mut gathered = Vec::new(alloc);
        gather_row(&self.nodes, STILL, Spot { x, y }, &mut gathered)?;
        Ok(gathered)
    }
}

impl<L: Printable> History<L> {
    /// Puts its lines behind the others: one for each item and for the opening of each presentation and
    /// update, in order, each behind two spaces for each presentation and update around it. Where memory
    /// is wanting, the lines stay as they were.
    pub fn print(&self, alloc: Global, out: &mut Vec<Text>) -> Result<(), AllocError>
        ensures ok { OnOk result
            (out.new.items ≡ out.old.items ++ history_lines L.line_of L.moved_by self.now) }
        ensures unchanged { OnErr result (out.new.items ≡ out.old.items) }
    {
        // What the rows keep is known from here on.
        let _ = self.nodes.summary();
        let mut lines = Vec::new(alloc);
        print_inside(alloc, &self.nodes, STILL, b"", &mut lines)?;
        out.append(&mut lines)?;
        Ok(())
    }
}
