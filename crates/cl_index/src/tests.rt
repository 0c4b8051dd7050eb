//! A thousand cells in one column, and a few rectangles, with memory for all.
use crate::{Bounds, Hits, HitsAt};
use cl_region::Rect;
use std::alloc::{AllocError, Global};
use std::test::Fail;

fn rect(x1: i64, y1: i64, x2: i64, y2: i64) -> Rect {
    Rect { x1, y1, x2, y2 }
}

// One cell in each of the first rows of the first column.
fn column(alloc: Global, rows: u16) -> Result<Bounds, AllocError> {
    let mut rects = Vec::new(alloc);
    for row in 0..rows {
        let y = i64::from(row);
        rects.push(rect(0, y, 1, y + 1))?;
    }
    Bounds::build(alloc, rects.as_slice())
}

fn few(alloc: Global) -> Result<Bounds, AllocError> {
    let rects = [
        rect(0, 0, 4, 4),
        rect(4, 0, 8, 4),
        rect(2, 2, 2, 6),
        rect(2, 2, 6, 6),
    ];
    Bounds::build(alloc, &rects)
}

fn ascending(alloc: Global, hits: Hits<'_>) -> Result<Vec<usize>, AllocError> {
    hits.collect(alloc)
}

fn descending(alloc: Global, hits: HitsAt<'_>) -> Result<Vec<usize>, AllocError> {
    hits.collect(alloc)
}

#[test]
fn hits_are_found_without_looking_at_all(rt: HostRuntime) -> Result<(), Fail> {
    let alloc = rt.alloc();
    let bounds = column(alloc, 1000)?;
    let row = rect(-5, 700, 5, 701);
    assert!(rt; bounds.probes(&row) <= 100);
    assert_eq!(rt;
        ascending(alloc, bounds.overlapping(&row))?.as_slice(),
        [700].as_slice()
    );
    assert_eq!(rt;
        descending(alloc, bounds.at(0, 998))?.as_slice(),
        [998].as_slice()
    );
    let bounds = few(alloc)?;
    assert_eq!(rt;
        ascending(alloc, bounds.overlapping(&rect(3, 3, 5, 4)))?.as_slice(),
        [0, 1, 3].as_slice()
    );
    assert_eq!(rt;
        descending(alloc, bounds.at(3, 3))?.as_slice(),
        [3, 0].as_slice()
    );
    assert_eq!(rt;
        ascending(alloc, bounds.overlapping(&rect(2, 2, 2, 6)))?.len(),
        0
    );
    Ok(())
}
