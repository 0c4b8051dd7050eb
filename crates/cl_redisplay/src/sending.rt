//! Sending of the cells of a screen to its device.
ghost use Rattle.std.specs.Prelude.{◌≡◌, ◌-◌, ◌<◌, ◌≤◌, All, false, true, length};
ghost use Rattle.cl_outside.specs.Device.{IsGlyph, SentRose};
ghost use Rattle.cl_outside.specs.Operations.{mended, ops_bytes};
ghost use Rattle.cl_outside.specs.Sending.{Sends};
ghost use Rattle.cl_raster.specs.Raster.{IsInk};
ghost use Rattle.cl_redisplay.specs.Operations.{area_ops, redraw_ops};
ghost use Rattle.cl_redisplay.specs.Paint.{LiesIn, cell_at};
ghost use Rattle.cl_redisplay.specs.Sending.{AllSent, IsEven, IsRunEnd, OpsSent, list_ops};

use crate::areas::Area;
use cl_outside::{Device, Sent};
use cl_raster::Raster;

// Clears the device, and shows all of its rows.
pub(crate) fn send_all<D: Device>(raster: &Raster, device: &mut D) -> Sent
    ensures sends { AllSent raster.now (D.broken device.new) (D.cleared device.new)
        (D.picture device.new) result }
    ensures bytes { Sends result (D.wire device.old) (D.wire device.new)
        (mended (D.broken device.old)
        (ops_bytes (redraw_ops (cell_at raster.now) raster.now.width raster.now.height)))
        (D.faults device.old) (D.faults device.new) }
    ensures lent { D.lent device.new ≡ D.lent device.old }
    ensures cause { SentRose (D.faults device.old) (D.faults device.new) result }
{
    let width = raster.width();
    let height = raster.height();
    match device.clear(width, height) {
        Sent::Done => send_area(
            raster,
            Area {
                x: 0,
                y: 0,
                width,
                height,
            },
            device,
        ),
        Sent::Failed => Sent::Failed,
    }
}

// Shows the rows of an area, from the top. At the first fault nothing more is sent.
pub(crate) fn send_area<D: Device>(raster: &Raster, area: Area, device: &mut D) -> Sent
    requires lies { LiesIn area raster.now }
    requires whole { D.broken device.old ≡ false }
    requires begun { D.cleared device.old ≡ true }
    ensures sends { OpsSent (D.picture device.old) (D.picture device.new)
        (area_ops (cell_at raster.now) area) (D.broken device.new) result }
    ensures bytes { Sends result (D.wire device.old) (D.wire device.new)
        (ops_bytes (area_ops (cell_at raster.now) area)) (D.faults device.old) (D.faults device.new) }
    ensures begun { D.cleared device.new ≡ true }
    ensures lent { D.lent device.new ≡ D.lent device.old }
    ensures cause { SentRose (D.faults device.old) (D.faults device.new) result }
{
    let right = area.x + area.width;
    for y in area.y..area.y + area.height {
        match send_row(raster.row(y), raster.inks(y), area.x, right, y, device) {
            Sent::Done => {}
            Sent::Failed => return Sent::Failed,
        }
    }
    Sent::Done
}

// Shows the columns from `left` on, up to `right`, of row `y`, whose glyphs and inks these are.
pub(crate) fn send_row<D: Device>(
    glyphs: &[u8],
    inks: &[u8],
    left: u16,
    right: u16,
    y: u16,
    device: &mut D,
) -> Sent
    requires columns { right ≤ length glyphs.now }
    requires same_length { length inks.now ≡ length glyphs.now }
    requires glyphs { All IsGlyph glyphs.now }
    requires inks { All IsInk inks.now }
    requires whole { D.broken device.old ≡ false }
    requires begun { D.cleared device.old ≡ true }
    ensures sends { OpsSent (D.picture device.old) (D.picture device.new)
        (list_ops glyphs.now inks.now y left (right - left)) (D.broken device.new) result }
    ensures bytes { Sends result (D.wire device.old) (D.wire device.new)
        (ops_bytes (list_ops glyphs.now inks.now y left (right - left))) (D.faults device.old)
        (D.faults device.new) }
    ensures begun { D.cleared device.new ≡ true }
    ensures lent { D.lent device.new ≡ D.lent device.old }
    ensures cause { SentRose (D.faults device.old) (D.faults device.new) result }
{
    let mut x = left;
    while x < right {
        let end = run_end(inks, x, right);
        let run = &glyphs[x as usize..end as usize];
        match device.span(x, y, inks[x as usize], run) {
            Sent::Done => x = end,
            Sent::Failed => return Sent::Failed,
        }
    }
    Sent::Done
}

// The column behind the cells that have the ink of column `from`, of those before `right`.
fn run_end(inks: &[u8], from: u16, right: u16) -> u16
    requires some { from < right }
    requires columns { right ≤ length inks.now }
    ensures { IsRunEnd inks.now from right result }
{
    if is_even(&inks[from as usize..right as usize]) {
        return right;
    }
    let ink = inks[from as usize];
    for end in from + 1..right {
        if inks[end as usize] != ink {
            return end;
        }
    }
    right
}

// Whether all inks are those of their neighbours. It compares the row with itself, one column later, which takes less
// than a step for each.
fn is_even(inks: &[u8]) -> bool
    ensures { result ≡ true → IsEven inks.now }
{
    match inks {
        [] => true,
        [_, behind @ ..] => &inks[..behind.len()] == behind,
    }
}
