//! Sending of the touched cells of an area.
ghost use Rattle.std.specs.Prelude.{◌≡◌, ◌<◌, false, true};
ghost use Rattle.cl_outside.specs.Device.{SentRose};
ghost use Rattle.cl_outside.specs.Operations.{ops_bytes};
ghost use Rattle.cl_outside.specs.Sending.{Sends};
ghost use Rattle.cl_spans.specs.SpanRows.{spans_hold};
ghost use Rattle.cl_redisplay.specs.Paint.{LiesIn, cell_at};
ghost use Rattle.cl_redisplay.specs.Sending.{OpsSent};
ghost use Rattle.cl_redisplay.specs.TouchedSending.{span_ops};
ghost use Rattle.cl_redisplay.specs.Touching.{LieIn, on_screen, touched_ops};

use crate::areas::Area;
use crate::sending::send_row;
use cl_outside::{Device, Sent};
use cl_raster::{Raster, clip};
use cl_spans::{Span, Spans};

// Shows the touched cells of an area, row after row, each as runs of adjacent touched cells of one ink. At the first
// fault nothing more is sent.
pub(crate) fn send_touched<D: Device>(
    raster: &Raster,
    area: Area,
    touched: &Spans,
    device: &mut D,
) -> Sent
    requires lies { LiesIn area raster.now }
    requires within { LieIn (spans_hold touched.now) area }
    requires whole { D.broken device.old ≡ false }
    requires begun { D.cleared device.old ≡ true }
    ensures sends { OpsSent (D.picture device.old) (D.picture device.new)
        (touched_ops (cell_at raster.now) (on_screen (spans_hold touched.now) area) area)
        (D.broken device.new) result }
    ensures bytes { Sends result (D.wire device.old) (D.wire device.new)
        (ops_bytes (touched_ops (cell_at raster.now) (on_screen (spans_hold touched.now) area) area))
        (D.faults device.old) (D.faults device.new) }
    ensures begun { D.cleared device.new ≡ true }
    ensures lent { D.lent device.new ≡ D.lent device.old }
    ensures cause { SentRose (D.faults device.old) (D.faults device.new) result }
{
    for y in area.y..area.y + area.height {
        let spans = touched.row(i64::from(y - area.y));
        match send_spans(raster, area, y, spans, device) {
            Sent::Done => {}
            Sent::Failed => return Sent::Failed,
        }
    }
    Sent::Done
}

// Shows the cells of spans of row `y`, whose columns are counted from the left of the area on, one span after another.
fn send_spans<D: Device>(
    raster: &Raster,
    area: Area,
    y: u16,
    spans: &[Span],
    device: &mut D,
) -> Sent
    requires lies { LiesIn area raster.now }
    requires row { y < raster.now.height }
    requires whole { D.broken device.old ≡ false }
    requires begun { D.cleared device.old ≡ true }
    ensures sends { OpsSent (D.picture device.old) (D.picture device.new)
        (span_ops (cell_at raster.now) area.x area.width y spans.now) (D.broken device.new) result }
    ensures bytes { Sends result (D.wire device.old) (D.wire device.new)
        (ops_bytes (span_ops (cell_at raster.now) area.x area.width y spans.now)) (D.faults device.old)
        (D.faults device.new) }
    ensures begun { D.cleared device.new ≡ true }
    ensures lent { D.lent device.new ≡ D.lent device.old }
    ensures cause { SentRose (D.faults device.old) (D.faults device.new) result }
{
    let glyphs = raster.row(y);
    let inks = raster.inks(y);
    for span in spans {
        let left = area.x + clip(span.x1, area.width);
        let right = area.x + clip(span.x2, area.width);
        match send_row(glyphs, inks, left, right, y, device) {
            Sent::Done => {}
            Sent::Failed => return Sent::Failed,
        }
    }
    Sent::Done
}
