//! Painting of a history in an area of a screen.
ghost use Rattle.std.specs.Prelude.{◌≡◌, [], option_copied};
ghost use Rattle.cl_medium.specs.Items.{move_item};
ghost use Rattle.cl_record.specs.Marks.{history_marks};
ghost use Rattle.cl_redisplay.specs.Paint.{LiesIn, Repaints};
ghost use Rattle.cl_redisplay.specs.Screens.{pane_marks};

use crate::areas::Area;
use crate::windows::Window;
use cl_medium::AnyLeaf;
use cl_raster::Raster;
use cl_record::History;
use cl_region::Rect;

/// Blanks every cell of the area, and no other.
pub fn blank(raster: &mut Raster, area: Area)
    requires { LiesIn area raster.old }
    ensures { Repaints raster.old raster.new area [] }
{
    let x = i64::from(area.x);
    let y = i64::from(area.y);
    raster.blank(&Rect {
        x1: x,
        y1: y,
        x2: x + i64::from(area.width),
        y2: y + i64::from(area.height),
    });
}

/// Gives each place of the area the cell of the last item that paints it, else a space with ink 0. Items
/// are placed in the area, from its left column and its top row on. What they paint outside of it is
/// dropped, and no other place of the screen changes. It takes no memory.
pub fn paint(raster: &mut Raster, area: Area, history: &History<AnyLeaf>)
    requires { LiesIn area raster.old }
    ensures { Repaints raster.old raster.new area (history_marks move_item history.now) }
{
    blank(raster, area);
    let mut window = Window::new(raster, area);
    history.replay_in(&area.own_rect(), &mut window);
}

// Paints a history, or blanks the area where there is none.
pub(crate) fn paint_pane(raster: &mut Raster, area: Area, history: Option<&History<AnyLeaf>>)
    requires { LiesIn area raster.old }
    ensures { Repaints raster.old raster.new area (pane_marks (option_copied history.entry)) }
{
    match history {
        Some(history) => paint(raster, area, history),
        None => blank(raster, area),
    }
}
