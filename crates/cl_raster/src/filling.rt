//! Writes to cells that lie in rows, one row behind the other.
ghost use Rattle.std.specs.Prelude.{◌≡◌, ◌+◌, ◌*◌, ◌<◌, ◌≤◌, length, slice_set, vec_len};
ghost use Rattle.cl_raster.specs.Raster.{Fills, FillsBox, clip_to};

// One place more has this value.
pub(crate) fn put(cells: &mut Vec<u8>, at: usize, value: u8)
    requires { at < vec_len cells.old }
    ensures { cells.new.items ≡ slice_set cells.old.items at value }
{
    cells[at] = value;
}

/// The number, or the end of 0 to `size` that is nearest to it.
pub fn clip(z: i64, size: u16) -> u16
    ensures value { result ≡ clip_to z size }
    ensures most { result ≤ size }
{
    if z < 0 {
        return 0;
    }
    if z > i64::from(size) {
        return size;
    }
    z as u16
}

// Columns `x1` to `x2` of rows `y1` to `y2`, the ends left out, get this value.
pub(crate) fn fill_box(
    cells: &mut Vec<u8>,
    width: usize,
    x1: usize,
    x2: usize,
    y1: usize,
    y2: usize,
    value: u8,
)
    requires columns { x2 ≤ width }
    requires rows { y2 * width ≤ vec_len cells.old }
    ensures { FillsBox cells.old.items cells.new.items width x1 x2 y1 y2 value }
{
    if x2 <= x1 {
        return;
    }
    if y2 <= y1 {
        return;
    }
    for y in y1..y2 {
        fill(cells, y * width + x1, x2 - x1, value);
    }
}

// So many places from one on get this value.
fn fill(cells: &mut Vec<u8>, at: usize, count: usize, value: u8)
    requires { at + count ≤ vec_len cells.old }
    ensures cells { Fills cells.old.items cells.new.items at count value }
    ensures len { vec_len cells.new ≡ vec_len cells.old }
{
    fill_slice(cells.as_mut_slice(), at, count, value);
}

fn fill_slice(cells: &mut [u8], at: usize, count: usize, value: u8)
    requires { at + count ≤ length cells.old }
    ensures { Fills cells.old cells.new at count value }
{
    cells[at..at + count].fill(value);
}
