//! Items, the cursor, and where an item lies.
use cl_medium::{
    Ambient, Drawn, Leaf, LeafShape, columns_of, draw_box, draw_hline, draw_point, draw_text,
    draw_vline, enter_room, fill_box, indent, leave_room, newline,
};
use cl_outside::Cell;
use cl_region::Shift;
use cl_value::Text;
use std::process::Abort;

const STILL: Shift = Shift { dx: 0, dy: 0 };

// Asks for the glyphs of an item in a row from the left edge of the pane on; a space where it paints
// nothing.
fn parse_assert(rt: &impl Abort, drawn: &Drawn, y: i64, glyphs: &[u8]) {
    if let Drawn::Item(leaf) = drawn {
        let bounds = leaf.bounds();
        if bounds.fits(STILL) {
            for (x, glyph) in glyphs.iter().enumerate() {
                let cell = leaf.cell_at(STILL, x as i64, y).unwrap_or(Cell::BLANK);
                assert_eq!(rt; cell.glyph, *glyph);
            }
            return;
        }
    }
    assert!(rt; false);
}

#[test]
fn items(rt: HostRuntime) {
    let ambient = Ambient::start();
    let outline = draw_box(&ambient, 0, 0, 4, 3);
    parse_assert(&rt, &outline, 0, b"+--+ ");
    parse_assert(&rt, &outline, 1, b"|  | ");
    parse_assert(&rt, &outline, 2, b"+--+ ");
    parse_assert(&rt, &draw_box(&ambient, 0, 0, 1, 3), 1, b"| ");
    parse_assert(&rt, &draw_hline(&ambient, 1, 0, 2), 0, b" -- ");
    parse_assert(&rt, &draw_vline(&ambient, 1, 0, 2), 1, b" | ");
    parse_assert(&rt, &draw_point(&ambient, 1, 0, 200), 0, b" # ");
    parse_assert(&rt, &fill_box(&ambient, 1, 0, 2, 1, b'*'), 0, b" ** ");
}

#[test]
fn cursor(rt: HostRuntime) {
    let mut ambient = Ambient::start();
    assert!(rt; indent(&mut ambient, 2));
    let Ok(text) = Text::from_slice(rt.alloc(), b"a\tb") else {
        assert!(rt; false);
        return;
    };
    parse_assert(&rt, &draw_text(&mut ambient, &text), 0, b"a#b ");
    assert_eq!(rt; (ambient.x, ambient.y), (3, 0));
    assert!(rt; newline(&mut ambient));
    assert_eq!(rt; (ambient.x, ambient.y), (2, 1));
    let before = enter_room(&mut ambient);
    leave_room(&mut ambient, &before, 7);
    assert_eq!(rt; (ambient.x, ambient.y), (2, 7));
    assert!(rt; !indent(&mut ambient, i64::MAX));
}

#[test]
fn leaves(rt: HostRuntime) {
    let ambient = Ambient::start();
    let Drawn::Item(mut leaf) = draw_point(&ambient, 1, 0, b'x') else {
        assert!(rt; false);
        return;
    };
    let Drawn::Item(other) = draw_point(&ambient, 2, 0, b'x') else {
        assert!(rt; false);
        return;
    };
    assert!(rt; !leaf.same(&other));
    let right = Shift { dx: 1, dy: 0 };
    let fits = leaf.bounds().fits(right);
    assert!(rt; fits);
    if fits {
        leaf.shift(right);
    }
    assert!(rt; leaf.same(&other));
}

// A row from the third column on: what stands left of it is not there, and places without an item are none.
#[test]
fn rows_are_put_at_once(rt: HostRuntime) {
    let mut ambient = Ambient::start();
    let Ok(text) = Text::from_slice(rt.alloc(), b"abcd") else {
        assert!(rt; false);
        return;
    };
    assert_eq!(rt; columns_of(text.as_slice()), 4);
    let Drawn::Item(leaf) = draw_text(&mut ambient, &text) else {
        assert!(rt; false);
        return;
    };
    let mut cells = [Some(Cell::BLANK); 4];
    if leaf.bounds().fits(STILL) {
        leaf.put_row(STILL, 2, 0, &mut cells);
    }
    assert_eq!(rt;
        cells[0],
        Some(Cell {
            glyph: b'c',
            ink: 0
        })
    );
    assert_eq!(rt;
        cells[1],
        Some(Cell {
            glyph: b'd',
            ink: 0
        })
    );
    assert_eq!(rt; cells[2], None);
    assert!(rt; matches!(leaf.shape(), LeafShape::Text(_)));
    assert_eq!(rt; leaf.area().width, 4);
}
