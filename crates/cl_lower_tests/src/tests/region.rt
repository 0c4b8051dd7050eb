//! Rectangles, and regions of them.
use cl_region::{Rect, Region, Shift};
use std::alloc::AllocError;
use std::test::Fail;

fn rect(x1: i64, y1: i64, x2: i64, y2: i64) -> Rect {
    Rect { x1, y1, x2, y2 }
}

#[test]
fn rectangles_overlap(rt: HostRuntime) {
    let table = rect(1, 1, 4, 3);
    assert!(rt; !table.overlaps(&rect(0, 0, 1, 9)));
    assert!(rt; table.overlaps(&rect(3, 2, 9, 9)));
    assert!(rt; !table.overlaps(&rect(4, 1, 5, 2)));
    assert!(rt; !table.overlaps(&rect(2, 2, 2, 9)));
    assert!(rt; table.contains(3, 2));
    assert!(rt; !table.contains(4, 2));
}

#[test]
fn rectangles_meet_and_join(rt: HostRuntime) {
    let table = rect(1, 1, 4, 3);
    assert_eq!(rt; table.meet(&rect(3, 0, 9, 2)), rect(3, 1, 4, 2));
    assert_eq!(rt; table.join_box(&rect(6, 0, 7, 1)), rect(1, 0, 7, 3));
    assert_eq!(rt; table.join_box(&rect(6, 0, 6, 1)), table);
}

#[test]
fn rectangles_stay_in_the_range(rt: HostRuntime) {
    let table = rect(1, 1, 4, 3);
    assert!(rt;
        table.fits(Shift {
            dx: 999_996,
            dy: -7
        })
    );
    assert!(rt; !table.fits(Shift { dx: 999_997, dy: 0 }));
    assert!(rt;
        !table.fits(Shift {
            dx: i64::MAX,
            dy: 0
        })
    );
}

#[test]
fn regions(rt: HostRuntime) -> Result<(), Fail> {
    let mut region = Region::new(rt.alloc());
    region.add(rect(0, 0, 5, 5))?;
    region.add(rect(3, 3, 3, 9))?;
    assert_eq!(rt; region.rects().len(), 1);
    region.minus(rect(1, 1, 2, 2))?;
    assert_eq!(rt; region.rects().len(), 4);
    assert!(rt; !region.contains(1, 1));
    assert!(rt; region.contains(2, 1));
    region.add(rect(1, 1, 6, 2))?;
    assert_eq!(rt; region.rects().len(), 6);
    assert!(rt; region.contains(5, 1));
    Ok(())
}

const COLUMNS: u16 = 400;

const ROWS: u16 = 250;

// The rectangle of one cell.
fn cell(x: u16, y: u16) -> Rect {
    let x = i64::from(x);
    let y = i64::from(y);
    rect(x, y, x + 1, y + 1)
}

// The cells of a row one after another, each by itself.
fn add_row(region: &mut Region, y: u16) -> Result<(), AllocError> {
    for x in 0..COLUMNS {
        region.add(cell(x, y))?;
    }
    Ok(())
}

#[test]
fn regions_join_what_continues(rt: HostRuntime) -> Result<(), Fail> {
    let mut region = Region::new(rt.alloc());
    for y in 0..ROWS {
        add_row(&mut region, y)?;
    }
    assert_eq!(rt; region.rects().len(), 1);
    assert!(rt; region.contains(0, 0));
    assert!(rt; region.contains(399, 249));
    assert!(rt; !region.contains(400, 0));
    assert!(rt; !region.contains(0, 250));
    region.add(cell(0, ROWS))?;
    region.add(cell(2, ROWS))?;
    assert_eq!(rt; region.rects().len(), 3);
    assert!(rt; !region.contains(1, 250));
    Ok(())
}
