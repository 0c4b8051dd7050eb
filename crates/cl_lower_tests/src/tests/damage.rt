//! What has to be painted again: two updates, of which one was moved, changed or put before the other.
use cl_damage::{Keeps, touched};
use cl_medium::{Ambient, AnyLeaf, Drawn, fill_box};
use cl_record::{Head, History, Measures, Node, Nodes, is_measured};
use cl_region::{Rect, Shift};
use cl_syntax::Site;
use cl_value::{Value, Values};
use std::alloc::Global;
use std::test::Fail;

const STAYED: Shift = Shift { dx: 0, dy: 0 };

fn rect(x1: i64, y1: i64, x2: i64, y2: i64) -> Rect {
    Rect { x1, y1, x2, y2 }
}

// An update of this id that fills one row of two cells with a byte, moved so far.
fn filled(alloc: Global, id: i64, byte: u8, by: Shift) -> Result<Node<AnyLeaf>, Fail> {
    let mut inside = Nodes::new(alloc);
    let Drawn::Item(leaf) = fill_box(&Ambient::start(), 0, 0, 2, 1, byte) else {
        return Err("no item is drawn".into());
    };
    inside.push(Node::Leaf(leaf))?;
    let measures = Measures {
        cost: 1,
        reach: 0,
        weight: 1,
        extent: rect(0, 0, 2, 1),
        margin_used: false,
        origin_used: true,
        start: Ambient::start(),
        end_x: 0,
        end_y: 0,
    };
    let site = Site { form: 7, query: 0 };
    let head = Head::new(site, Value::Int(id), Some(Values::new(alloc)), measures);
    if !is_measured(&head, &inside) {
        return Err("the extent does not hold the area".into());
    }
    let mut node = Node::update(alloc, head, inside)?;
    if !node.fits(by) {
        return Err("it does not fit".into());
    }
    node.shift(by);
    Ok(node)
}

// A history of two of them.
fn history(
    alloc: Global,
    first: Node<AnyLeaf>,
    second: Node<AnyLeaf>,
) -> Result<History<AnyLeaf>, Fail> {
    let mut nodes = Nodes::new(alloc);
    nodes.push(first)?;
    nodes.push(second)?;
    Ok(History::from_nodes(nodes))
}

fn old(alloc: Global) -> Result<History<AnyLeaf>, Fail> {
    history(
        alloc,
        filled(alloc, 1, b'a', STAYED)?,
        filled(alloc, 2, b'b', Shift { dx: 0, dy: 3 })?,
    )
}

#[test]
fn moved_gives_old_and_new_bounds(rt: HostRuntime) -> Result<(), Fail> {
    let alloc = rt.alloc();
    let mut keeps = Keeps::new(alloc);
    keeps.push_kept(STAYED)?;
    keeps.push_kept(Shift { dx: 5, dy: 0 })?;
    let new = history(
        alloc,
        filled(alloc, 1, b'a', STAYED)?,
        filled(alloc, 2, b'b', Shift { dx: 5, dy: 3 })?,
    )?;
    let rects = touched(alloc, &old(alloc)?, &new, &keeps)?;
    let expected = [rect(0, 3, 2, 4), rect(5, 3, 7, 4)];
    assert_eq!(&rt; rects.as_slice(), expected.as_slice());
    Ok(())
}

#[test]
fn changed_inside_gives_what_differs(rt: HostRuntime) -> Result<(), Fail> {
    let alloc = rt.alloc();
    let mut keeps = Keeps::new(alloc);
    keeps.push_anew(Keeps::new(alloc))?;
    keeps.push_kept(STAYED)?;
    let new = history(
        alloc,
        filled(alloc, 1, b'c', STAYED)?,
        filled(alloc, 2, b'b', Shift { dx: 0, dy: 3 })?,
    )?;
    let rects = touched(alloc, &old(alloc)?, &new, &keeps)?;
    let expected = [rect(0, 0, 2, 1), rect(0, 0, 2, 1)];
    assert_eq!(&rt; rects.as_slice(), expected.as_slice());
    Ok(())
}

#[test]
fn one_of_two_that_change_places_is_given(rt: HostRuntime) -> Result<(), Fail> {
    let alloc = rt.alloc();
    let mut keeps = Keeps::new(alloc);
    keeps.push_kept(STAYED)?;
    keeps.push_kept(STAYED)?;
    let new = history(
        alloc,
        filled(alloc, 2, b'b', Shift { dx: 0, dy: 3 })?,
        filled(alloc, 1, b'a', STAYED)?,
    )?;
    let rects = touched(alloc, &old(alloc)?, &new, &keeps)?;
    let expected = [rect(0, 0, 2, 1), rect(0, 0, 2, 1)];
    assert_eq!(&rt; rects.as_slice(), expected.as_slice());
    Ok(())
}
