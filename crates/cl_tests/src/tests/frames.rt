//! A frame of two panes, and a session with it, over a device in memory, which fails at one call.
ghost use Rattle.std.specs.Prelude.{◌≡◌, ◌≤◌};
ghost use Rattle.cl_application.specs.Panes.{IsPlaced};
ghost use Rattle.cl_frame.specs.Ground.{meanings_of};
ghost use Rattle.cl_load.specs.Types.{holds_in};
ghost use Rattle.cl_loaded.specs.Texts.{texts_in};
ghost use Rattle.cl_tables.specs.Rings.{HasNoRing};
ghost use Rattle.cl_updating.specs.Redisplays.{CanReuse};

use super::showing::shows;
use cl_application::App;
use cl_eval::{Limits, MAX_DEPTH, Program, Slots, Types};
use cl_frame::{Frame, PaneReport, State, Which};
use cl_gesture::Gesture;
use cl_load::{Loaded, load};
use cl_outside::{MemDevice, own_steps};
use cl_ptext::{HostTypes, Hosts, TypeBook};
use cl_redisplay::Painted;
use cl_session::Session;
use cl_value::Text;
use std::alloc::{AllocError, Global};
use std::test::Fail;

/// Two panes that touch, and a column beside them: a redraw is a clear and four spans, three of the first row and one of the second.
const TWO: &[u8] = b"(define-application-frame two (:size 7 2) (:slots (n integer 3))
  (:panes (count 0 0 3 2 show-count) (part 3 0 3 2 show-part)))
(define-display show-count () (write-text (text (slot n))) (write-text \"clipped\"))
(define-display show-part () (with-ink 4 (write-text \"q\") (write-text (text (div 9 (slot n))))))
(define-command com-clear () (setf (slot n) 0))
";

/// The application with the limits of a run.
fn program<'a, T: Types>(alloc: Global, app: &'a App, types: &'a T) -> Program<'a, T>
    ensures app { result.app.now ≡ app.now }
    ensures types { result.types.now ≡ types.now }
    ensures depth { result.limits.depth ≤ 512 }
{
    Program {
        alloc,
        app,
        types,
        limits: Limits {
            budget: 1_000_000,
            depth: MAX_DEPTH,
        },
    }
}

/// Puts a character for each byte behind what is said.
fn put_bytes(said: &mut String, bytes: &[u8]) -> Result<(), AllocError> {
    for byte in bytes {
        said.push(char::from(*byte))?;
    }
    Ok(())
}

/// What became of the panes, in words.
fn put_reports(said: &mut String, frame: &Frame) -> Result<(), AllocError> {
    for pane in &frame.panes {
        match pane.report {
            PaneReport::Shown(report) => {
                write!(said, "drawn {} erased {}|", report.drawn, report.erased)?
            }
            PaneReport::Trapped(kind) => write!(said, "trap {kind}|")?,
            PaneReport::Memory => said.push_str("memory|")?,
            PaneReport::Quiet => said.push_str("quiet|")?,
        }
    }
    Ok(())
}

/// Whether the device failed, whether it shows the screen, what became of the panes, and the first row.
fn put_state(said: &mut String, failed: bool, shown: bool, frame: &Frame) -> Result<(), Fail> {
    said.push_str(if failed { "failed, " } else { "done, " })?;
    said.push_str(if shown { "shown, " } else { "stale, " })?;
    put_reports(said, frame)?;
    let raster = frame.screen.raster();
    if raster.height() > 0 {
        put_bytes(said, raster.row(0))?;
    }
    Ok(said.push_str("|\n")?)
}

/// A frame is settled, redrawn, settled again, which sends nothing, since it shows the same, settled from nothing, which fails at a span
/// of the redraw, and settled where it is blank.
fn frame_states<T: Types>(
    alloc: Global,
    app: &App,
    types: &T,
    slots: &Slots,
) -> Result<String, Fail>
    requires placed { IsPlaced app.now.frame }
    requires reuse { CanReuse app.now (meanings_of T.holds T.presents types.now) }
{
    let program = program(alloc, app, types);
    let mut said = String::new(alloc);
    let mut steps = own_steps();
    let mut device = MemDevice::new(alloc, [8].to_vec(alloc)?)?;
    let mut frame = Frame::open(alloc, app)?;
    let state = State {
        slots,
        filling: None,
    };
    let painted = frame.settle(&program, Which::All, &state, &mut device, &mut steps);
    put_state(
        &mut said,
        painted == Painted::DeviceFault,
        shows(&device, &frame.screen),
        &frame,
    )?;
    let painted = frame.refresh(&mut device);
    put_state(
        &mut said,
        painted == Painted::DeviceFault,
        shows(&device, &frame.screen),
        &frame,
    )?;
    let painted = frame.update(&program, Which::All, &state, &mut device, &mut steps);
    put_state(
        &mut said,
        painted == Painted::DeviceFault,
        shows(&device, &frame.screen),
        &frame,
    )?;
    let painted = frame.update(&program, Which::Force, &state, &mut device, &mut steps);
    put_state(
        &mut said,
        painted == Painted::DeviceFault,
        shows(&device, &frame.screen),
        &frame,
    )?;
    let painted = frame.update(&program, Which::Blank, &state, &mut device, &mut steps);
    put_state(
        &mut said,
        painted == Painted::DeviceFault,
        shows(&device, &frame.screen),
        &frame,
    )?;
    Ok(said)
}

const FRAME_STATES: &str = "done, stale, drawn 2 erased 0|drawn 2 erased 0|3clq3  |
done, shown, drawn 2 erased 0|drawn 2 erased 0|3clq3  |
done, shown, drawn 2 erased 2|drawn 2 erased 2|3clq3  |
failed, stale, drawn 2 erased 2|drawn 2 erased 2|3clq3  |
done, shown, quiet|quiet|3clq3  |
";

/// A session is opened; its panes are shown anew, which fails at a span of the redraw; a command is typed, and runs.
fn session_states<T: Types>(
    alloc: Global,
    app: &App,
    types: &T,
    slots: &mut Slots,
) -> Result<String, Fail>
    requires placed { IsPlaced app.now.frame }
    requires no_ring { HasNoRing app.now.tables }
    requires reuse { CanReuse app.now (meanings_of T.holds T.presents types.now) }
{
    let program = program(alloc, app, types);
    let mut said = String::new(alloc);
    let mut steps = own_steps();
    let mut device = MemDevice::new(alloc, [8].to_vec(alloc)?)?;
    let typed = Gesture::Type(Text::from_slice(alloc, b"clear")?);
    let mut session = Session::new(&program, slots, &mut device, &mut steps)?;
    put_state(
        &mut said,
        false,
        shows(&device, &session.frame.screen),
        &session.frame,
    )?;
    let wire = session
        .step(&program, &Gesture::Force, slots, &mut device, &mut steps)
        .wire;
    put_state(
        &mut said,
        wire,
        shows(&device, &session.frame.screen),
        &session.frame,
    )?;
    let wire = session
        .step(&program, &typed, slots, &mut device, &mut steps)
        .wire;
    put_state(
        &mut said,
        wire,
        shows(&device, &session.frame.screen),
        &session.frame,
    )?;
    let wire = session
        .step(&program, &Gesture::Return, slots, &mut device, &mut steps)
        .wire;
    put_state(
        &mut said,
        wire,
        shows(&device, &session.frame.screen),
        &session.frame,
    )?;
    Ok(said)
}

const SESSION_STATES: &str = "done, shown, drawn 2 erased 0|drawn 2 erased 0|3clq3  |
failed, stale, drawn 2 erased 2|drawn 2 erased 2|3clq3  |
done, shown, quiet|quiet|3clq3  |
done, shown, drawn 2 erased 2|trap 3|0cltra |
";

/// What is done with the panes.
#[derive(Clone, Copy)]
enum Run {
    Frame,
    Session,
}

/// What the panes of an application say, by its own types.
fn said_on_types<H: Hosts>(
    alloc: Global,
    loaded: &Loaded,
    hosts: &H,
    run: Run,
) -> Result<String, Fail>
    requires { CanReuse loaded.now.app (record {
      holds = holds_in loaded.now.lattice loaded.now.app;
      presents = texts_in (H.entries hosts.now) loaded.now.lattice loaded.now.app;
    }) }
{
    let types = TypeBook::new(alloc, &loaded.app, &loaded.lattice, hosts);
    let mut slots = loaded.slots.copy(alloc)?;
    match run {
        Run::Frame => frame_states(alloc, &loaded.app, &types, &slots),
        Run::Session => session_states(alloc, &loaded.app, &types, &mut slots),
    }
}

/// What the two panes say, with these host types.
fn said_of_two<H: Hosts>(alloc: Global, hosts: &H, run: Run) -> Result<String, Fail> {
    let loaded = load(alloc, TWO, hosts)?;
    said_on_types(alloc, &loaded, hosts, run)
}

#[test]
fn a_frame_is_settled_and_sent(rt: HostRuntime) -> Result<(), Fail> {
    let said = said_of_two(rt.alloc(), &HostTypes { types: &[] }, Run::Frame)?;
    assert_eq!(rt; said.as_str(), FRAME_STATES);
    Ok(())
}

#[test]
fn a_session_redraws_behind_a_fault(rt: HostRuntime) -> Result<(), Fail> {
    let said = said_of_two(rt.alloc(), &HostTypes { types: &[] }, Run::Session)?;
    assert_eq!(rt; said.as_str(), SESSION_STATES);
    Ok(())
}
