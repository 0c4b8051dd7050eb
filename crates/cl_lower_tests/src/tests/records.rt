//! What no clause says: that calls succeed while there is memory, and which leaves are painted.
use cl_medium::{
    Ambient, AnyLeaf, Drawn, Leaf, draw_box, draw_text, enter_room, fill_box, leave_room,
};
use cl_record::{Canvas, Head, History, Label, Measures, Node, Nodes, STILL, is_measured};
use cl_region::{Rect, Region, Shift};
use cl_syntax::{Site, TypeSpec};
use cl_value::{Text, Value, Values};
use std::alloc::{AllocError, Global};
use std::process::Abort;
use std::rc::Rc;
use std::test::Fail;

const WIDTH: usize = 6;

// Glyphs of four rows, and how many leaves were painted. It tells its contract nothing of them.
#[derive(Drop)]
struct Page {
    glyphs: [u8; 24],
    leaves: u32,
}

impl Canvas<AnyLeaf> for Page {
    ghost use Rattle.std.specs.Prelude.{false};

    ghost shows = { λ page x y. false };

    ghost cell = { λ page x y. record { glyph = 32; ink = 0 } };

    ghost keeps = { λ old new. Unit {0} };

    ghost keeps_itself = { λ page. tt };

    ghost keeps_through = { λ first second third h k. tt };

    fn paint(&mut self, leaf: &AnyLeaf, at: Shift) {
        self.leaves = self.leaves.saturating_add(1);
        for (place, glyph) in self.glyphs.iter_mut().enumerate() {
            if let Some(cell) = leaf.cell_at(at, (place % WIDTH) as i64, (place / WIDTH) as i64) {
                *glyph = cell.glyph;
            }
        }
    }
}

fn push(nodes: &mut Nodes<AnyLeaf>, drawn: Drawn) -> Result<(), Fail> {
    let Drawn::Item(leaf) = drawn else {
        return Err("no item is drawn".into());
    };
    nodes.push(Node::Leaf(leaf))?;
    Ok(())
}

fn write(
    alloc: Global,
    nodes: &mut Nodes<AnyLeaf>,
    ambient: &mut Ambient,
    bytes: &[u8],
) -> Result<(), Fail> {
    push(nodes, draw_text(ambient, &Text::from_slice(alloc, bytes)?))
}

// A text, a box in a room, and a text in the row below it.
fn drawing(alloc: Global) -> Result<Nodes<AnyLeaf>, Fail> {
    let mut nodes = Nodes::new(alloc);
    let mut ambient = Ambient::start();
    write(alloc, &mut nodes, &mut ambient, b"ab")?;
    let before = enter_room(&mut ambient);
    push(&mut nodes, draw_box(&ambient, 0, 0, 3, 3))?;
    leave_room(&mut ambient, &before, 3);
    write(alloc, &mut nodes, &mut ambient, b"c")?;
    Ok(nodes)
}

// A presentation of a list, in which is an update of a filled area, both moved.
fn branches(alloc: Global) -> Result<Nodes<AnyLeaf>, Fail> {
    let right = Shift { dx: 3, dy: 0 };
    let update = shifted(filled_update(alloc)?, right)?;
    let mut inside = Nodes::new(alloc);
    inside.push(update)?;
    let down = Shift { dx: -1, dy: 2 };
    let presentation = Node::presentation(alloc, label(alloc, object(alloc)?)?, inside)?;
    let mut nodes = Nodes::new(alloc);
    nodes.push(shifted(presentation, down)?)?;
    Ok(nodes)
}

// An update of a filled area.
fn filled_update(alloc: Global) -> Result<Node<AnyLeaf>, Fail> {
    let mut inner = Nodes::new(alloc);
    push(&mut inner, fill_box(&Ambient::start(), 0, 0, 2, 1, b'*'))?;
    let head = Head::new(
        Site { form: 70, query: 0 },
        Value::Int(-5),
        Some(Values::new(alloc)),
        measures(),
    );
    if !is_measured(&head, &inner) {
        return Err("the extent does not hold the area".into());
    }
    Ok(Node::update(alloc, head, inner)?)
}

fn shifted(node: Node<AnyLeaf>, by: Shift) -> Result<Node<AnyLeaf>, Fail> {
    let mut node = node;
    if !node.fits(by) {
        return Err("it does not fit".into());
    }
    node.shift(by);
    Ok(node)
}

fn label(alloc: Global, object: Value) -> Result<Label, AllocError> {
    let name = Text::from_slice(alloc, b"entry")?;
    Ok(Label::new(object, Rc::new(alloc, TypeSpec::plain(name))?, true))
}

fn measures() -> Measures {
    Measures {
        cost: 1,
        reach: 1,
        weight: 1,
        extent: Rect {
            x1: 0,
            y1: 0,
            x2: 2,
            y2: 1,
        },
        margin_used: false,
        origin_used: false,
        start: Ambient::start(),
        end_x: 0,
        end_y: 0,
    }
}

fn push_value(values: &mut Values, value: Value) -> Result<(), Fail> {
    match values.push(value) {
        Ok(()) => Ok(()),
        Err(_) => Err("no memory".into()),
    }
}

// A list of a text, a record and two constants.
fn object(alloc: Global) -> Result<Value, Fail> {
    let mut fields = Values::new(alloc);
    push_value(&mut fields, Value::Symbol(Text::from_slice(alloc, b"x")?))?;
    push_value(&mut fields, Value::Null)?;
    let mut parts = Values::new(alloc);
    push_value(&mut parts, Value::Text(Text::from_slice(alloc, b"a\"\\b")?))?;
    let name = Text::from_slice(alloc, b"point")?;
    push_value(&mut parts, Value::Record(name, fields))?;
    push_value(&mut parts, Value::Bool(true))?;
    push_value(&mut parts, Value::List(Values::new(alloc)))?;
    Ok(Value::List(parts))
}

fn region(alloc: Global, rect: Rect) -> Result<Region, AllocError> {
    let mut region = Region::new(alloc);
    region.add(rect)?;
    Ok(region)
}

fn blank_page() -> Page {
    Page {
        glyphs: [b'.'; 24],
        leaves: 0,
    }
}

fn assert_page(rt: &impl Abort, page: &Page, leaves: u32, glyphs: &[u8]) {
    assert_eq!(rt; page.leaves, leaves);
    assert_eq!(rt; page.glyphs.as_slice(), glyphs);
}

// Both ways of replaying the history in a rectangle paint these glyphs by so many leaves.
fn assert_replays(
    rt: &(impl Abort + AllocGlobal),
    history: &History<AnyLeaf>,
    rect: Rect,
    leaves: u32,
    glyphs: &[u8],
) -> Result<(), AllocError> {
    let region = region(rt.alloc(), rect)?;
    let mut page = blank_page();
    history.replay(&region, &mut page);
    assert_page(rt, &page, leaves, glyphs);
    let mut page = blank_page();
    history.replay_in(&rect, &mut page);
    assert_page(rt, &page, leaves, glyphs);
    Ok(())
}

fn rect(x1: i64, y1: i64, x2: i64, y2: i64) -> Rect {
    Rect { x1, y1, x2, y2 }
}

#[test]
fn a_drawing_is_replayed(rt: HostRuntime) -> Result<(), Fail> {
    let history = History::from_nodes(drawing(rt.alloc())?);
    assert_replays(
        &rt,
        &history,
        rect(0, 0, 6, 4),
        3,
        b"ab+-+...|.|...+-+.c.....",
    )?;
    assert_replays(
        &rt,
        &history,
        rect(0, 3, 6, 4),
        1,
        b"..................c.....",
    )?;
    assert_replays(
        &rt,
        &history,
        rect(4, 1, 5, 2),
        1,
        b"..+-+...|.|...+-+.......",
    )?;
    Ok(())
}

#[test]
fn branches_are_replayed(rt: HostRuntime) -> Result<(), Fail> {
    let history = History::from_nodes(branches(rt.alloc())?);
    assert_replays(
        &rt,
        &history,
        rect(0, 0, 6, 4),
        1,
        b"..............**........",
    )?;
    assert_replays(
        &rt,
        &history,
        rect(0, 3, 6, 4),
        0,
        b"........................",
    )?;
    Ok(())
}

fn assert_lines(
    rt: &(impl Abort + AllocGlobal),
    history: &History<AnyLeaf>,
    lines: &[&[u8]],
) -> Result<(), AllocError> {
    let mut out = Vec::new(rt.alloc());
    history.print(rt.alloc(), &mut out)?;
    assert_eq!(rt; out.len(), lines.len());
    for (line, wanted) in out.iter().zip(lines) {
        assert_eq!(rt; line.as_slice(), *wanted);
    }
    Ok(())
}

#[test]
fn a_drawing_is_printed(rt: HostRuntime) -> Result<(), Fail> {
    let mut history = History::from_nodes(drawing(rt.alloc())?);
    assert_lines(
        &rt,
        &history,
        &[b"text 0 0 0 ab", b"box 2 0 3 3 0", b"text 0 3 0 c"],
    )?;
    history.clear();
    assert_lines(&rt, &history, &[])?;
    Ok(())
}

#[test]
fn branches_are_printed(rt: HostRuntime) -> Result<(), Fail> {
    assert_lines(
        &rt,
        &History::from_nodes(branches(rt.alloc())?),
        &[
            b"presentation entry (\"a\\\"\\\\b\" #point(x null) true ())",
            b"  update 70.0 -5",
            b"    fill 2 2 2 1 0 *",
        ],
    )?;
    Ok(())
}

#[test]
fn a_row_is_put_behind_another(rt: HostRuntime) -> Result<(), Fail> {
    let mut nodes = Nodes::new(rt.alloc());
    assert!(rt; nodes.bottom().is_none());
    nodes.append(drawing(rt.alloc())?)?;
    nodes.append(branches(rt.alloc())?)?;
    nodes.append(Nodes::new(rt.alloc()))?;
    assert_eq!(rt; nodes.bottom(), Some(4));
    assert_eq!(rt; History::from_nodes(nodes).count(), 4);
    Ok(())
}

#[test]
fn a_piece_is_kept_elsewhere(rt: HostRuntime) -> Result<(), Fail> {
    let alloc = rt.alloc();
    let place = Shift { dx: 1, dy: 2 };
    let mut nodes = Nodes::new(alloc);
    let update = filled_update(alloc)?;
    let Node::Update(piece) = &update else {
        return Err("no update".into());
    };
    assert!(rt; piece.head().measures().extent.fits(place));
    nodes.push(Node::Update(piece.copy_at(place)?))?;
    nodes.push(update)?;
    assert_lines(
        &rt,
        &History::from_nodes(nodes),
        &[
            b"update 70.0 -5",
            b"  fill 1 2 2 1 0 *",
            b"update 70.0 -5",
            b"  fill 0 0 2 1 0 *",
        ],
    )?;
    Ok(())
}

#[test]
fn an_empty_presentation_stays(rt: HostRuntime) -> Result<(), Fail> {
    let alloc = rt.alloc();
    let mut inside = Nodes::new(alloc);
    let inner = Node::presentation(alloc, label(alloc, Value::Null)?, Nodes::new(alloc))?;
    inside.push(inner)?;
    let outer = Node::presentation(alloc, label(alloc, Value::Int(1))?, inside)?;
    let far = Shift {
        dx: 3_000_000,
        dy: -3_000_000,
    };
    let outer = shifted(outer, far)?;
    assert!(rt; outer.place() == STILL);
    assert!(rt; outer.bottom().is_none());
    let mut nodes = Nodes::new(alloc);
    nodes.push(outer)?;
    assert_lines(
        &rt,
        &History::from_nodes(nodes),
        &[b"presentation entry 1", b"  presentation entry null"],
    )?;
    Ok(())
}
