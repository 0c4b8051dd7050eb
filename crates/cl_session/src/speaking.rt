//! The lines that answer a gesture.
ghost use Rattle.std.specs.Prelude.{◌≡◌, ◌≤◌, ◌++◌, ◌∷◌, [], codes};
ghost use Rattle.cl_application.specs.Panes.{panes_of};
ghost use Rattle.cl_frame.specs.Frames.{reports_of_frame};
ghost use Rattle.cl_outside.specs.Writing.{Says};
ghost use Rattle.cl_session.specs.Replies.{lines_of, own_lines};
ghost use Rattle.cl_session.specs.Step.{pane_lines, report_head, report_line, report_lines, report_tail, wire_lines};
ghost use Rattle.cl_session.specs.Runs.{bad_line};
ghost use Rattle.cl_session.specs.Transcript.{line_bytes};
ghost use Rattle.cl_session.specs.Writing.{Puts};

use crate::answers::Replies;
use crate::writing::Outgoing;
use cl_application::App;
use cl_frame::{Frame, PaneReport, Report};
use cl_outside::{Sink, write_pieces};
use cl_value::Text;
use itoa::Buffer;

/// Writes the lines of the replies to a gesture, where the panes have their reports; false where the
/// sink failed.
pub fn say_replies<O: Sink>(out: &mut O, app: &App, frame: &Frame, replies: &Replies) -> bool
    ensures lent { O.lent out.new ≡ O.lent out.old }
    ensures says { Says result (O.taken out.old) (O.taken out.new)
        (line_bytes (lines_of app.now frame.now replies.now)) (O.faults out.old) (O.faults out.new) }
    ensures later { O.faults out.old ≤ O.faults out.new }
{
    let mut outgoing = Outgoing::new();
    if !put_replies(&mut outgoing, out, app, frame, replies) {
        return false;
    }
    outgoing.flush(out)
}

/// Writes the line of a bad gesture line with this number.
pub fn say_bad<O: Sink>(out: &mut O, number: u32) -> bool
    ensures lent { O.lent out.new ≡ O.lent out.old }
    ensures says { Says result (O.taken out.old) (O.taken out.new)
        (line_bytes (bad_line number ∷ [])) (O.faults out.old) (O.faults out.new) }
    ensures later { O.faults out.old ≤ O.faults out.new }
{
    let mut digits = Buffer::new();
    write_pieces(out, &[b"! bad ", digits.format(number).as_bytes(), b"\n"])
}

/// Writes the line of a gesture that was lost for want of memory.
pub fn say_lost<O: Sink>(out: &mut O) -> bool
    ensures lent { O.lent out.new ≡ O.lent out.old }
    ensures says { Says result (O.taken out.old) (O.taken out.new)
        (line_bytes (codes "! memory" ∷ [])) (O.faults out.old) (O.faults out.new) }
    ensures later { O.faults out.old ≤ O.faults out.new }
{
    write_pieces(out, &[b"! memory", b"\n"])
}

// The own lines, those of the panes, and that of the wire.
fn put_replies<O: Sink>(
    outgoing: &mut Outgoing,
    out: &mut O,
    app: &App,
    frame: &Frame,
    replies: &Replies,
) -> bool
    ensures lent { O.lent out.new ≡ O.lent out.old }
    ensures puts { Puts result (O.taken out.old) (O.taken out.new)
        (outgoing.old ++ line_bytes (lines_of app.now frame.now replies.now)) outgoing.new
        (O.faults out.old) (O.faults out.new) }
    ensures later { O.faults out.old ≤ O.faults out.new }
{
    if !put_own(outgoing, out, replies) {
        return false;
    }
    put_behind(outgoing, out, app, frame, replies.wire)
}

// The lines behind the own ones.
fn put_behind<O: Sink>(
    outgoing: &mut Outgoing,
    out: &mut O,
    app: &App,
    frame: &Frame,
    wire: bool,
) -> bool
    ensures lent { O.lent out.new ≡ O.lent out.old }
    ensures puts { Puts result (O.taken out.old) (O.taken out.new)
        (outgoing.old ++ line_bytes (pane_lines (panes_of app.now) (reports_of_frame frame.now)
        ++ wire_lines wire)) outgoing.new (O.faults out.old) (O.faults out.new) }
    ensures later { O.faults out.old ≤ O.faults out.new }
{
    if !put_panes(outgoing, out, app, frame) {
        return false;
    }
    put_wire(outgoing, out, wire)
}

// The line of a device that failed.
fn put_wire<O: Sink>(outgoing: &mut Outgoing, out: &mut O, wire: bool) -> bool
    ensures lent { O.lent out.new ≡ O.lent out.old }
    ensures puts { Puts result (O.taken out.old) (O.taken out.new)
        (outgoing.old ++ line_bytes (wire_lines wire)) outgoing.new (O.faults out.old)
        (O.faults out.new) }
    ensures later { O.faults out.old ≤ O.faults out.new }
{
    if !wire {
        return true;
    }
    outgoing.put_all(out, &[b"! wire", b"\n"])
}

fn put_own<O: Sink>(outgoing: &mut Outgoing, out: &mut O, replies: &Replies) -> bool
    ensures lent { O.lent out.new ≡ O.lent out.old }
    ensures puts { Puts result (O.taken out.old) (O.taken out.new)
        (outgoing.old ++ line_bytes (own_lines replies.now.memory replies.now.own)) outgoing.new
        (O.faults out.old) (O.faults out.new) }
    ensures later { O.faults out.old ≤ O.faults out.new }
{
    if replies.memory {
        return outgoing.put_all(out, &[b"! memory", b"\n"]);
    }
    put_lines(outgoing, out, replies.own.as_slice())
}

// Lines, each with its line feed.
fn put_lines<O: Sink>(outgoing: &mut Outgoing, out: &mut O, lines: &[Text]) -> bool
    ensures lent { O.lent out.new ≡ O.lent out.old }
    ensures puts { Puts result (O.taken out.old) (O.taken out.new)
        (outgoing.old ++ line_bytes lines.now) outgoing.new (O.faults out.old) (O.faults out.new) }
    ensures later { O.faults out.old ≤ O.faults out.new }
{
    for line in lines {
        if !outgoing.put_all(out, &[line.as_slice(), b"\n"]) {
            return false;
        }
    }
    true
}

// The lines of the panes, in order of declaration.
fn put_panes<O: Sink>(outgoing: &mut Outgoing, out: &mut O, app: &App, frame: &Frame) -> bool
    ensures lent { O.lent out.new ≡ O.lent out.old }
    ensures puts { Puts result (O.taken out.old) (O.taken out.new)
        (outgoing.old ++ line_bytes (pane_lines (panes_of app.now) (reports_of_frame frame.now)))
        outgoing.new (O.faults out.old) (O.faults out.new) }
    ensures later { O.faults out.old ≤ O.faults out.new }
{
    'panes: for place in 0..app.frame.panes.len().min(frame.panes.len()) {
        let Some(declared) = app.frame.panes.at(place) else {
            unreachable!()
        };
        if !put_report(
            outgoing,
            out,
            declared.name.as_slice(),
            frame.panes[place].report,
        ) {
            return false;
        }
    }
    true
}

fn put_report<O: Sink>(
    outgoing: &mut Outgoing,
    out: &mut O,
    name: &[u8],
    report: PaneReport,
) -> bool
    ensures lent { O.lent out.new ≡ O.lent out.old }
    ensures puts { Puts result (O.taken out.old) (O.taken out.new)
        (outgoing.old ++ line_bytes (report_lines name.now report)) outgoing.new (O.faults out.old)
        (O.faults out.new) }
    ensures later { O.faults out.old ≤ O.faults out.new }
{
    match report {
        PaneReport::Shown(report) => put_shown(outgoing, out, name, report),
        PaneReport::Trapped(kind) => {
            let mut digits = Buffer::new();
            let kind = digits.format(kind).as_bytes();
            outgoing.put_all(out, &[b"pane ", name, b" trap ", kind, b"\n"])
        }
        PaneReport::Memory => outgoing.put_all(out, &[b"pane ", name, b" memory", b"\n"]),
        PaneReport::Quiet => true,
    }
}

fn put_shown<O: Sink>(outgoing: &mut Outgoing, out: &mut O, name: &[u8], report: Report) -> bool
    ensures lent { O.lent out.new ≡ O.lent out.old }
    ensures puts { Puts result (O.taken out.old) (O.taken out.new)
        (outgoing.old
        ++ line_bytes (report_line name.now report.kept report.moved report.drawn report.erased ∷ []))
        outgoing.new (O.faults out.old) (O.faults out.new) }
    ensures later { O.faults out.old ≤ O.faults out.new }
{
    if !put_head(outgoing, out, name, report.kept, report.moved) {
        return false;
    }
    put_tail(outgoing, out, report.drawn, report.erased)
}

fn put_head<O: Sink>(
    outgoing: &mut Outgoing,
    out: &mut O,
    name: &[u8],
    kept: u64,
    moved: u64,
) -> bool
    ensures lent { O.lent out.new ≡ O.lent out.old }
    ensures puts { Puts result (O.taken out.old) (O.taken out.new)
        (outgoing.old ++ report_head name.now kept moved) outgoing.new (O.faults out.old)
        (O.faults out.new) }
    ensures later { O.faults out.old ≤ O.faults out.new }
{
    let mut first = Buffer::new();
    let mut second = Buffer::new();
    let kept = first.format(kept).as_bytes();
    let moved = second.format(moved).as_bytes();
    outgoing.put_all(out, &[b"pane ", name, b" kept ", kept, b" moved ", moved])
}

fn put_tail<O: Sink>(outgoing: &mut Outgoing, out: &mut O, drawn: u64, erased: u64) -> bool
    ensures lent { O.lent out.new ≡ O.lent out.old }
    ensures puts { Puts result (O.taken out.old) (O.taken out.new)
        (outgoing.old ++ (report_tail drawn erased ++ 10 ∷ [])) outgoing.new (O.faults out.old)
        (O.faults out.new) }
    ensures later { O.faults out.old ≤ O.faults out.new }
{
    let mut first = Buffer::new();
    let mut second = Buffer::new();
    let drawn = first.format(drawn).as_bytes();
    let erased = second.format(erased).as_bytes();
    outgoing.put_all(out, &[b" drawn ", drawn, b" erased ", erased, b"\n"])
}
