//! Spans of a few rectangles, with memory for all.
use crate::{Span, Spans};
use cl_region::Rect;
use std::test::Fail;

fn rect(x1: i64, y1: i64, x2: i64, y2: i64) -> Rect {
    Rect { x1, y1, x2, y2 }
}

fn span(x1: i64, x2: i64) -> Span {
    Span { x1, x2 }
}

#[test]
fn rows_are_of_maximal_runs(rt: HostRuntime) -> Result<(), Fail> {
    let clip = rect(-10, -2, 20, 3);
    assert!(rt; Spans::of(rt.alloc(), &[], &clip)?.is_empty());
    let rects = [
        rect(12, 1, 99, 99),
        rect(4, 0, 6, 1),
        rect(2, 0, 4, 1),
        rect(5, 1, 7, 2),
        rect(3, 1, 6, 2),
        rect(8, 1, 9, 2),
        rect(10, 0, 10, 9),
        rect(0, -9, 1, -2),
    ];
    let spans = Spans::of(rt.alloc(), &rects, &clip)?;
    assert!(rt; !spans.is_empty());
    assert_eq!(rt; spans.row(-2).len(), 0);
    assert_eq!(rt; spans.row(0), [span(2, 6)].as_slice());
    assert_eq!(rt;
        spans.row(1),
        [span(3, 7), span(8, 9), span(12, 20)].as_slice()
    );
    assert_eq!(rt; spans.row(2), [span(12, 20)].as_slice());
    assert_eq!(rt; spans.row(3).len(), 0);
    Ok(())
}
