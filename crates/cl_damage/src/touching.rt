//! What has to be painted again when the records of a pane are replaced.
ghost use Rattle.std.specs.Prelude.{◌≡◌, IfOk, map};
ghost use Rattle.cl_damage.specs.Children.{list_of};
ghost use Rattle.cl_damage.specs.KeepRows.{keeps_of};
ghost use Rattle.cl_damage.specs.Lents.{AllStand, child_lent};
ghost use Rattle.cl_damage.specs.NewChildren.{new_children, old_children};
ghost use Rattle.cl_damage.specs.Touched.{touched};

use crate::comparing::level;
use crate::items::Recognizable;
use crate::keeps::{Keep, Keeps};
use crate::lents::{Lent, level_of};
use cl_medium::Leaf;
use cl_record::{History, STILL};
use cl_region::Rect;
use std::alloc::{AllocError, Global};

// The outermost children of a history, where this was kept of its updates.
fn children_of<'a, L: Leaf>(
    alloc: Global,
    history: &'a History<L>,
    keeps: &'a [Keep],
) -> Result<Vec<Lent<'a, L>>, AllocError>
    ensures children { IfOk result (λ met. map (child_lent L.moved_by) met.items
        ≡ list_of (new_children L.moved_by history.now (keeps_of keeps.now))) }
    ensures stand { IfOk result (λ met. AllStand L.bounds L.moved_by met.items) }
{
    let nodes = history.nodes();
    // What the rows keep is known from here on.
    let _ = nodes.summary();
    level_of(alloc, nodes, STILL, keeps)
}

/// What has to be painted again when the new history of a pane takes the place of the old one: rectangles in the pane's
/// columns and rows, each the bounds of an item that is gone, is new, stands elsewhere or comes in another order, as levels are
/// compared. `keeps` tells which updates of the new history were kept from the old one: one that was kept where it stood and in
/// its order gives nothing, and is not looked into. Rectangles may share cells. The steps are nearly in proportion to the
/// children of the levels that were not kept. It fails only where memory is wanting.
pub fn touched<L: Recognizable>(
    alloc: Global,
    old: &History<L>,
    new: &History<L>,
    keeps: &Keeps,
) -> Result<Vec<Rect>, AllocError>
    ensures { IfOk result (λ rects. rects.items
        ≡ touched L.bounds L.same (old_children L.moved_by old.now) (new_children L.moved_by new.now keeps.now)) }
{
    let olds = children_of(alloc, old, &[])?;
    let news = children_of(alloc, new, keeps.as_slice())?;
    let mut rects = Vec::new(alloc);
    level(alloc, &olds, &news, &mut rects)?;
    Ok(rects)
}
