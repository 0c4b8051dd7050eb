//! How a gesture is handled, before panes are settled.
ghost use Rattle.std.specs.Prelude.{◌≡◌, ◌≤◌, ◌++◌, ◌∷◌, [], IfOk};
ghost use Rattle.cl_eval.specs.Outcome.{RisesBy};
ghost use Rattle.cl_application.specs.Panes.{panes_of};
ghost use Rattle.cl_frame.specs.Frames.{IsFrameOf, marks_of_frame};
ghost use Rattle.cl_frame.specs.Ground.{ground_of};
ghost use Rattle.cl_session.specs.Accessible.{IsAccessible};
ghost use Rattle.cl_session.specs.Step.{clear_line, handled, press_by, return_by, rub_out, tell_history, type_text, which_after};
ghost use Rattle.cl_session.specs.Handling.{HandlesTo, IsReply, ToldOf, after_of, handling_met, world_at};

use crate::accessible::Accessible;
use crate::dialogs::return_in_dialog;
use crate::pointing::point;
use crate::running::{finish_line, press};
use crate::telling::{frame_lines, history_lines, ink_lines, place_of_pane};
use cl_application::App;
use cl_dialog::Dialog;
use cl_eval::{Lines, Program, Slots, Types};
use cl_frame::{Frame, Which};
use cl_gesture::Gesture;
use cl_line::{Line, Pushed};
use cl_outside::{Ledger, Steps};
use cl_tables::Enabled;
use cl_value::Text;
use std::alloc::{AllocError, Global};

/// What lies on a session's desk, beside the slots: the command line, which commands are enabled, and the dialog that is open, if
/// one is.
#[derive(Drop)]
pub struct Desk {
    pub line: Line,
    pub enabled: Enabled,
    pub dialog: Option<Dialog>,
}

/// What follows a handling.
#[derive(Clone, Copy, PartialEq, Eq, Debug)]
pub enum After {
    /// Nothing.
    Nothing,
    /// A command committed, or a dialog was set or closed: all panes are settled.
    Commit,
    /// All panes are settled from nothing, and the screen is redrawn in full.
    Force,
}

/// How a gesture was handled.
#[derive(Drop)]
pub enum Handling {
    /// With these replies, and what follows.
    Replied(Lines, After),
    /// It met want of memory, and nothing is changed.
    Memory,
}

impl Handling {
    /// Which panes are settled behind it.
    pub fn which(&self) -> Which
        ensures { result ≡ which_after (after_of self.now) }
    {
        match self {
            Handling::Replied(_, After::Nothing) => Which::Blank,
            Handling::Replied(_, After::Commit) => Which::All,
            Handling::Replied(_, After::Force) => Which::Force,
            Handling::Memory => Which::Blank,
        }
    }
}

/// Handles a gesture: its own replies, and what becomes of the slots and of the desk.
pub fn handle<T: Types, L: Ledger>(
    program: &Program<'_, T>,
    gesture: &Gesture,
    accessible: &Accessible,
    frame: &Frame,
    slots: &mut Slots,
    desk: &mut Desk,
    steps: &mut Steps<L>,
) -> Handling
    requires depth { program.now.limits.depth ≤ 512 }
    requires accessible { IsAccessible program.now.app.now accessible.now }
    requires frame { IsFrameOf program.now.app.now frame.now }
    ensures handles { HandlesTo (handled (ground_of T.holds T.presents T.reads T.hierarchy program.now)
        (world_at slots.old desk.old frame.now) gesture.now) frame.now result slots.old slots.new
        desk.old desk.new }
    ensures ledger { RisesBy (handling_met result) steps.old steps.new
        (handled (ground_of T.holds T.presents T.reads T.hierarchy program.now)
        (world_at slots.old desk.old frame.now) gesture.now).cost }
{
    let (alloc, app) = (program.alloc, program.app);
    match gesture {
        Gesture::Type(text) => type_text(alloc, text.as_slice(), frame, slots, desk),
        Gesture::Return => return_line(program, accessible, frame, slots, desk, steps),
        Gesture::Rubout => rub_out(alloc, frame, slots, desk),
        Gesture::Clear => clear_line(alloc, frame, slots, desk),
        Gesture::Frame => told(frame_lines(alloc, app, frame)),
        Gesture::Inks => told(ink_lines(alloc, app, frame)),
        Gesture::Stroke(name) => {
            let name = name.as_slice();
            press_key(program, accessible, name, frame, slots, desk, steps)
        }
        Gesture::Point(at) => point(program, at, accessible, frame, slots, desk, steps),
        Gesture::History(name) => tell_history(alloc, app, frame, name.as_slice(), slots, desk),
        Gesture::Force => Handling::Replied(Lines::new(alloc), After::Force),
    }
}

// The line is a command, or the value of a query of the open dialog.
fn return_line<T: Types, L: Ledger>(
    program: &Program<'_, T>,
    accessible: &Accessible,
    frame: &Frame,
    slots: &mut Slots,
    desk: &mut Desk,
    steps: &mut Steps<L>,
) -> Handling
    requires depth { program.now.limits.depth ≤ 512 }
    requires accessible { IsAccessible program.now.app.now accessible.now }
    ensures handles { HandlesTo (return_by (ground_of T.holds T.presents T.reads T.hierarchy program.now)
        (world_at slots.old desk.old frame.now) desk.old.dialog) frame.now result slots.old slots.new
        desk.old desk.new }
    ensures ledger { RisesBy (handling_met result) steps.old steps.new
        (return_by (ground_of T.holds T.presents T.reads T.hierarchy program.now)
        (world_at slots.old desk.old frame.now) desk.old.dialog).cost }
{
    if desk.dialog.is_some() {
        return return_in_dialog(program, frame, slots, desk);
    }
    finish_line(program, &accessible.tables, frame, slots, desk, steps)
}

// The command of a keystroke is run, where no dialog is open.
fn press_key<T: Types, L: Ledger>(
    program: &Program<'_, T>,
    accessible: &Accessible,
    name: &[u8],
    frame: &Frame,
    slots: &mut Slots,
    desk: &mut Desk,
    steps: &mut Steps<L>,
) -> Handling
    requires depth { program.now.limits.depth ≤ 512 }
    requires accessible { IsAccessible program.now.app.now accessible.now }
    ensures handles { HandlesTo (press_by (ground_of T.holds T.presents T.reads T.hierarchy program.now)
        (world_at slots.old desk.old frame.now) name.now desk.old.dialog) frame.now result slots.old slots.new
        desk.old desk.new }
    ensures ledger { RisesBy (handling_met result) steps.old steps.new
        (press_by (ground_of T.holds T.presents T.reads T.hierarchy program.now)
        (world_at slots.old desk.old frame.now) name.now desk.old.dialog).cost }
{
    match &desk.dialog {
        Some(_) => reply(program.alloc, b"! dialog"),
        None => press(program, &accessible.tables, name, frame, slots, desk, steps),
    }
}

// These lines, and nothing follows.
pub(crate) fn told(lines: Result<Lines, AllocError>) -> Handling
    ensures { ToldOf lines result }
{
    match lines {
        Ok(lines) => Handling::Replied(lines, After::Nothing),
        Err(_) => Handling::Memory,
    }
}

// The lines of the history of the pane of this name.
fn tell_history(
    alloc: Global,
    app: &App,
    frame: &Frame,
    name: &[u8],
    slots: &Slots,
    desk: &Desk,
) -> Handling
    requires { IsFrameOf app.now frame.now }
    ensures handles { HandlesTo (tell_history (world_at slots.now desk.now frame.now)
        (panes_of app.now) (marks_of_frame frame.now) name.now) frame.now result slots.now slots.now
        desk.now desk.now }
    ensures cost { (tell_history (world_at slots.now desk.now frame.now) (panes_of app.now)
        (marks_of_frame frame.now) name.now).cost ≡ 0 }
{
    match place_of_pane(app, name) {
        Some(place) => told(history_lines(alloc, app, frame, place)),
        None => reply(alloc, b"! pane"),
    }
}

fn type_text(alloc: Global, text: &[u8], frame: &Frame, slots: &Slots, desk: &mut Desk) -> Handling
    ensures handles { HandlesTo (type_text (world_at slots.now desk.old frame.now) text.now)
        frame.now result slots.now slots.now desk.old desk.new }
    ensures cost { (type_text (world_at slots.now desk.old frame.now) text.now).cost ≡ 0 }
{
    match desk.line.push_text(text) {
        Pushed::Done => Handling::Replied(Lines::new(alloc), After::Nothing),
        Pushed::Full => reply(alloc, b"! full"),
    }
}

fn rub_out(alloc: Global, frame: &Frame, slots: &Slots, desk: &mut Desk) -> Handling
    ensures { HandlesTo (rub_out (world_at slots.now desk.old frame.now)) frame.now result slots.now
        slots.now desk.old desk.new }
{
    desk.line.rubout();
    Handling::Replied(Lines::new(alloc), After::Nothing)
}

fn clear_line(alloc: Global, frame: &Frame, slots: &Slots, desk: &mut Desk) -> Handling
    ensures { HandlesTo (clear_line (world_at slots.now desk.old frame.now)) frame.now result
        slots.now slots.now desk.old desk.new }
{
    desk.line.clear();
    Handling::Replied(Lines::new(alloc), After::Nothing)
}

// One line of replies, where there is memory for it.
pub(crate) fn reply(alloc: Global, bytes: &[u8]) -> Handling
    ensures { IsReply bytes.now result }
{
    match one_line(alloc, bytes) {
        Ok(lines) => Handling::Replied(lines, After::Nothing),
        Err(_) => Handling::Memory,
    }
}

// One line of replies.
pub(crate) fn one_line(alloc: Global, bytes: &[u8]) -> Result<Lines, AllocError>
    ensures { IfOk result (λ l. l ≡ bytes.now ∷ []) }
{
    let mut lines = Lines::new(alloc);
    lines.push(Text::from_slice(alloc, bytes)?)?;
    Ok(lines)
}

// These bytes, one part behind the other.
pub(crate) fn joined(alloc: Global, first: &[u8], second: &[u8]) -> Result<Vec<u8>, AllocError>
    ensures { IfOk result (λ v. v.items ≡ first.now ++ second.now) }
{
    let mut bytes = Vec::from_slice(alloc, first)?;
    bytes.extend_from_slice(second)?;
    Ok(bytes)
}
