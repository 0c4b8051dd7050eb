//! Whether a device in memory shows the cells of a screen.
ghost use Rattle.std.specs.Prelude.{◌≡◌, ◌<◌, false};
ghost use Rattle.cl_outside.specs.MemoryDevice.{picture_of, told_picture};
ghost use Rattle.cl_redisplay.specs.Screens.{Agree, HasCells};

use cl_outside::MemDevice;
use cl_raster::Raster;
use cl_redisplay::Screen;

/// Whether the device shows this row.
fn shows_row(device: &MemDevice, raster: &Raster, y: u16) -> bool
    requires whole { device.now.broken ≡ false }
    requires cells { HasCells raster.now (picture_of device.now) }
    requires row { y < raster.now.height }
{
    for x in 0..raster.width() {
        let (shown, cell) = (device.cell(x, y), raster.cell(x, y));
        if shown.glyph != cell.glyph || shown.ink != cell.ink {
            return false;
        }
    }
    true
}

/// Whether the screen is not stale, and the device shows each of its cells.
pub fn shows(device: &MemDevice, screen: &Screen) -> bool
    requires { Agree screen.now.stale screen.now.raster device.now.broken device.now.cleared
        (told_picture device.now.broken (picture_of device.now)) }
{
    if screen.stale() {
        return false;
    }
    let raster = screen.raster();
    for y in 0..raster.height() {
        if !shows_row(device, raster, y) {
            return false;
        }
    }
    true
}
