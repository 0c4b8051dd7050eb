//! The cells of a raster.
use cl_outside::Cell;
use cl_raster::Raster;
use cl_region::Rect;
use std::test::Fail;

const MARK: Cell = Cell {
    glyph: b'#',
    ink: 3,
};

#[test]
fn cells(rt: HostRuntime) -> Result<(), Fail> {
    let mut raster = Raster::new(rt.alloc(), 4, 2)?;
    raster.set(1, 1, MARK);
    raster.set(2, 1, MARK);
    raster.blank(&Rect {
        x1: -3,
        y1: 1,
        x2: 2,
        y2: 9,
    });
    assert_eq!(rt; raster.cell(1, 1), Cell::BLANK);
    assert_eq!(rt; raster.cell(2, 1), MARK);
    assert_eq!(rt; raster.row(1), b"  # ".as_slice());
    assert_eq!(rt; raster.inks(1), [0, 0, 3, 0].as_slice());
    assert_eq!(rt; raster.row(0), b"    ".as_slice());
    Ok(())
}
