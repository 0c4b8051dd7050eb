//! Painting of a history at the touched places of an area.
ghost use Rattle.std.specs.Prelude.{◌≡◌, false};
ghost use Rattle.cl_medium.specs.Items.{move_item};
ghost use Rattle.cl_record.specs.Boxes.{items_box};
ghost use Rattle.cl_record.specs.Marks.{history_marks, marks_of, marks_of_all, move_marks};
ghost use Rattle.cl_record.specs.Ranges.{ArePlaced, IsPlaced};
ghost use Rattle.cl_record.specs.Replays.{items_drawn};
ghost use Rattle.cl_record.specs.Seen.{tree_of};
ghost use Rattle.cl_record.specs.Trees.{trees_of};
ghost use Rattle.cl_spans.specs.SpanRows.{spans_hold};
ghost use Rattle.cl_redisplay.specs.Paint.{LiesIn};
ghost use Rattle.cl_redisplay.specs.Patches.{BoxIsApart};
ghost use Rattle.cl_redisplay.specs.Touching.{LieIn, PaintsThose, PaintsTouched};

use crate::areas::Area;
use crate::items::WIDEST;
use crate::patches::{blank_touched, meets, paint_there};
use cl_medium::{AnyLeaf, Leaf};
use cl_outside::Cell;
use cl_raster::Raster;
use cl_record::{History, Node, Nodes, STILL, join_shifts};
use cl_region::Shift;
use cl_spans::Spans;

// Gives each touched place of the area the cell of the last item that paints it, else a space with ink 0; no
// other place of the screen changes. It takes no memory.
pub(crate) fn paint_touched(
    raster: &mut Raster,
    area: Area,
    history: &History<AnyLeaf>,
    touched: &Spans,
)
    requires lies { LiesIn area raster.old }
    requires within { LieIn (spans_hold touched.now) area }
    ensures { PaintsTouched raster.old raster.new area (history_marks move_item history.now) (spans_hold touched.now) }
{
    blank_touched(raster, area, touched);
    patch_history(raster, area, touched, history);
}

// Paints the items of a history at the touched places of the area.
fn patch_history<L: Leaf>(raster: &mut Raster, area: Area, touched: &Spans, history: &History<L>)
    requires lies { LiesIn area raster.old }
    ensures { PaintsThose L.cell raster.old raster.new area (spans_hold touched.now)
        (items_drawn (history_marks L.moved_by history.now)) }
{
    let nodes = history.nodes();
    // What the rows keep is known from here on.
    let _ = nodes.summary();
    patch_inside(raster, area, touched, nodes, STILL, &mut [None; WIDEST]);
}

// Paints the items of a record, moved by `at`, at the touched places of the area.
#[cycle(patch)]
fn patch_node<L: Leaf>(
    raster: &mut Raster,
    area: Area,
    touched: &Spans,
    node: &Node<L>,
    at: Shift,
    cells: &mut [Option<Cell>; 512],
)
    requires lies { LiesIn area raster.old }
    requires placed { IsPlaced L.bounds L.moved_by at (tree_of node.now) }
    ensures { PaintsThose L.cell raster.old raster.new area (spans_hold touched.now)
        (items_drawn (move_marks L.moved_by at (marks_of L.moved_by (tree_of node.now)))) }
{
    match node {
        Node::Leaf(leaf) => paint_there(raster, area, touched, leaf, at, cells),
        Node::Presentation(presented) => {
            let at = join_shifts(presented.place(), at);
            patch_inside(raster, area, touched, presented.inside(), at, cells)
        }
        Node::Update(piece) => {
            let at = join_shifts(piece.place(), at);
            patch_inside(raster, area, touched, piece.inside(), at, cells)
        }
    }
}

// The same of what a branch holds. It looks no further where the box of all of its items has no touched place.
#[cycle(patch)]
fn patch_inside<L: Leaf>(
    raster: &mut Raster,
    area: Area,
    touched: &Spans,
    inside: &Nodes<L>,
    at: Shift,
    cells: &mut [Option<Cell>; 512],
)
    requires lies { LiesIn area raster.old }
    requires placed { ArePlaced L.bounds L.moved_by at (trees_of inside.now) }
    ensures { PaintsThose L.cell raster.old raster.new area (spans_hold touched.now)
        (items_drawn (move_marks L.moved_by at (marks_of_all L.moved_by (trees_of inside.now)))) }
{
    if box_meets(inside, at, touched, area.height) {
        for node in inside.as_slice() {
            patch_node(raster, area, touched, node, at, cells);
        }
    }
}

// Whether a touched place may lie in the box of the items of a row, moved by `at`, of those in the first so
// many rows.
fn box_meets<L: Leaf>(inside: &Nodes<L>, at: Shift, touched: &Spans, height: u16) -> bool
    requires { ArePlaced L.bounds L.moved_by at (trees_of inside.now) }
    ensures { result ≡ false → BoxIsApart (spans_hold touched.now) height
        (items_box L.bounds (items_drawn (move_marks L.moved_by at (marks_of_all L.moved_by (trees_of inside.now))))) }
{
    match inside.summary().items {
        Some(items) => meets(touched, height, &items.shifted(at)),
        None => false,
    }
}
