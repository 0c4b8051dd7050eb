//! What no clause says: that calls succeed while there is memory.
use cl_medium::{Ambient, AnyLeaf, Drawn, draw_box, draw_text, newline};
use cl_outside::MemDevice;
use cl_raster::Raster;
use cl_record::{History, Node, Nodes};
use cl_redisplay::{Area, Painted, Screen, blank, paint, redraw_all, repaint};
use cl_value::Text;
use std::alloc::{AllocError, Global};
use std::test::Fail;

// An item more, which its ambient lets be drawn.
fn push(nodes: &mut Nodes<AnyLeaf>, drawn: Drawn) -> Result<(), AllocError> {
    match drawn {
        Drawn::Item(leaf) => {
            let node = Node::Leaf(leaf);
            if node.fits(cl_record::STILL) {
                nodes.push(node)?;
            }
            Ok(())
        }
        _ => Err(AllocError),
    }
}

fn write(
    alloc: Global,
    nodes: &mut Nodes<AnyLeaf>,
    ambient: &mut Ambient,
    bytes: &[u8],
) -> Result<(), AllocError> {
    push(nodes, draw_text(ambient, &Text::from_slice(alloc, bytes)?))
}

// A box that leaves its area at all sides but the top, with a text in ink 2 that leaves it at the
// right, of which a later one hides a part, a text with a control byte, and one below the area.
fn items(alloc: Global) -> Result<History<AnyLeaf>, AllocError> {
    let mut nodes = Nodes::new(alloc);
    let mut ambient = Ambient::start();
    push(&mut nodes, draw_box(&ambient, -1, 0, 9, 9))?;
    ambient.ink = 2;
    ambient.x = 1;
    write(alloc, &mut nodes, &mut ambient, b"abcdef")?;
    ambient.x = 2;
    write(alloc, &mut nodes, &mut ambient, b"-")?;
    ambient.ink = 0;
    let _ = newline(&mut ambient);
    write(alloc, &mut nodes, &mut ambient, b"x\ty")?;
    let _ = newline(&mut ambient);
    write(alloc, &mut nodes, &mut ambient, b"below")?;
    Ok(History::from_nodes(nodes))
}

#[test]
fn areas_in_a_larger_screen(rt: HostRuntime) -> Result<(), Fail> {
    let area = Area {
        x: 2,
        y: 1,
        width: 4,
        height: 2,
    };
    let beside = Area {
        x: 6,
        y: 1,
        width: 2,
        height: 3,
    };
    let history = items(rt.alloc())?;
    let mut screen = Raster::new(rt.alloc(), 8, 4)?;
    paint(&mut screen, beside, &history);
    paint(&mut screen, area, &history);
    assert!(rt; screen.row(0) == b"        ".as_slice());
    assert!(rt; screen.row(1) == b"  -a-c-a".as_slice());
    assert!(rt; screen.row(2) == b"  x#y x#".as_slice());
    assert!(rt; screen.row(3) == b"      be".as_slice());
    assert!(rt; screen.inks(1) == [0, 0, 0, 2, 2, 2, 0, 2].as_slice());
    assert!(rt; screen.inks(2) == [0, 0, 0, 0, 0, 0, 0, 0].as_slice());
    blank(&mut screen, area);
    assert!(rt; screen.row(1) == b"      -a".as_slice());
    assert!(rt; screen.inks(1) == [0, 0, 0, 0, 0, 0, 0, 2].as_slice());
    Ok(())
}

// The third span of the painted area fails, and, after a redraw of one clear and six spans, the first one
// of the blank area.
#[test]
fn one_span_for_each_run_of_one_ink(rt: HostRuntime) -> Result<(), Fail> {
    let area = Area {
        x: 2,
        y: 1,
        width: 4,
        height: 2,
    };
    let history = items(rt.alloc())?;
    let mut device = MemDevice::new(rt.alloc(), [8, 16].to_vec(rt.alloc())?)?;
    let mut screen = Screen::new(rt.alloc(), 8, 4)?;
    assert_eq!(rt; redraw_all(&mut screen, &mut device), Painted::Done);
    assert_eq!(rt;
        repaint(&mut screen, area, Some(&history), &mut device),
        Painted::DeviceFault
    );
    assert_eq!(rt;
        repaint(&mut screen, area, Some(&history), &mut device),
        Painted::Done
    );
    assert!(rt; screen.stale());
    assert_eq!(rt; redraw_all(&mut screen, &mut device), Painted::Done);
    assert!(rt; !screen.stale());
    assert_eq!(rt;
        repaint(&mut screen, area, None, &mut device),
        Painted::DeviceFault
    );
    Ok(())
}
