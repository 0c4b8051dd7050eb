//! Painting and sending of the touched cells of an area.
ghost use Rattle.std.specs.Prelude.{◌≡◌, true};
ghost use Rattle.cl_medium.specs.Items.{move_item};
ghost use Rattle.cl_outside.specs.Operations.{ops_bytes};
ghost use Rattle.cl_record.specs.Marks.{history_marks};
ghost use Rattle.cl_spans.specs.SpanRows.{spans_hold};
ghost use Rattle.cl_redisplay.specs.Paint.{LiesIn, Repaints};
ghost use Rattle.cl_redisplay.specs.Screens.{Agree, BreaksAt, PaintedRose, StaleAfter};
ghost use Rattle.cl_redisplay.specs.Touching.{LieIn, ShowsOthers, touched_pane_ops};
ghost use Rattle.cl_redisplay.specs.Wires.{SendsUnless};

use crate::areas::Area;
use crate::screens::{Painted, Screen};
use crate::touched_sending::send_touched;
use crate::touching::paint_touched;
use cl_medium::AnyLeaf;
use cl_outside::{Device, Sent};
use cl_record::History;
use cl_spans::Spans;

/// Gives the touched places of the area the cells of a history, and sends them to the device: of each row, from the top,
/// the runs of adjacent touched cells of one ink. The other places of the area show the history already. At the first fault
/// nothing more is sent, and the screen is stale. Nothing at all is sent where it was stale before. No memory is taken.
pub fn repaint_touched<D: Device>(
    screen: &mut Screen,
    area: Area,
    history: &History<AnyLeaf>,
    touched: &Spans,
    device: &mut D,
) -> Painted
    requires lies { LiesIn area screen.old.raster }
    requires within { LieIn (spans_hold touched.now) area }
    requires shows { ShowsOthers screen.old.raster area (history_marks move_item history.now)
        (spans_hold touched.now) }
    requires agree { Agree screen.old.stale screen.old.raster (D.broken device.old)
        (D.cleared device.old) (D.picture device.old) }
    ensures repaints { Repaints screen.old.raster screen.new.raster area
        (history_marks move_item history.now) }
    ensures agree { Agree screen.new.stale screen.new.raster (D.broken device.new)
        (D.cleared device.new) (D.picture device.new) }
    ensures stale { StaleAfter screen.old.stale screen.new.stale result }
    ensures bytes { SendsUnless screen.old.stale result (D.wire device.old) (D.wire device.new)
        (ops_bytes (touched_pane_ops area (history_marks move_item history.now)
        (spans_hold touched.now))) (D.faults device.old) (D.faults device.new) }
    ensures idle { screen.old.stale ≡ true → device.new ≡ device.old }
    ensures lent { D.lent device.new ≡ D.lent device.old }
    ensures cause { PaintedRose (D.faults device.old) (D.faults device.new) result }
    ensures breaks { BreaksAt result (D.broken device.new) }
{
    paint_touched(&mut screen.raster, area, history, touched);
    if screen.stale {
        return Painted::Done;
    }
    match send_touched(&screen.raster, area, touched, device) {
        Sent::Done => Painted::Done,
        Sent::Failed => {
            screen.stale = true;
            Painted::DeviceFault
        }
    }
}
