//! What pointing at a place of a pane does, after the CLIM II specification's chapters on presentation translators and on the
//! input editor.
ghost use Rattle.std.specs.Prelude.{◌≡◌, ◌≤◌, ◌<◌, ◌∷◌, [], IfOk, None, Some, true, is_some, length, option_map, slice_get};
ghost use Rattle.cl_application.specs.Panes.{panes_of};
ghost use Rattle.cl_eval.specs.Outcome.{RisesBy};
ghost use Rattle.cl_frame.specs.Frames.{IsFrameOf, marks_of_frame};
ghost use Rattle.cl_frame.specs.Ground.{ground_of};
ghost use Rattle.cl_frame.specs.Panes.{marks_in, marks_of_pane};
ghost use Rattle.cl_medium.specs.Items.{move_item};
ghost use Rattle.cl_record.specs.Marks.{history_marks};
ghost use Rattle.cl_session.specs.Accessible.{IsAccessible};
ghost use Rattle.cl_session.specs.Handling.{HandlesTo, enabled_in, handling_met, world_at};
ghost use Rattle.cl_session.specs.Naming.{sight_in};
ghost use Rattle.cl_session.specs.Pointing.{argument_numbered, chosen_by, contexts_of, is_within, named_in, typed_in};
ghost use Rattle.cl_session.specs.Step.{act_on, got_line, point, point_at, point_within, run_chosen, take_object};
ghost use Rattle.cl_session.specs.Targets.{typed_of};
ghost use Rattle.cl_translate.specs.Choices.{given_of};
ghost use Rattle.cl_value.specs.Value.{data_of};

use crate::accessible::Accessible;
use crate::dialogs::{answer, dialog_contexts};
use crate::handling::{After, Desk, Handling, one_line, reply};
use crate::naming::{command_of_line, name_end};
use crate::running::run_command;
use crate::telling::place_of_pane;
use cl_application::{App, ArgumentDecl, CommandDecl, PaneDecl};
use cl_display::History;
use cl_eval::{Lines, Program, Slots, Types};
use cl_frame::{Frame, Pane};
use cl_gesture::PointAt;
use cl_line::{Line, LineSlot, Named, Pushed};
use cl_outside::{Ledger, Steps};
use cl_syntax::TypeSpec;
use cl_tables::{Enabled, Tables};
use cl_translate::{Choice, Chooser, Point};
use cl_value::{Text, Value};
use std::alloc::{AllocError, Global};

/// What is pointed at: a pane as it is declared and as it is shown, and the gesture and the place.
#[derive(Clone, Copy)]
struct Target<'a> {
    declared: &'a PaneDecl,
    shown: &'a Pane,
    at: &'a PointAt,
}

/// An argument of a command that is typed next, with its number, from 1.
#[derive(Clone, Copy)]
struct TypedArgument<'a> {
    command: &'a CommandDecl,
    number: usize,
    argument: &'a ArgumentDecl,
}

/// What `point` does: what is chosen at the place for the argument that is typed next is put into the line, and a command that is
/// chosen is run.
pub fn point<T: Types, L: Ledger>(
    program: &Program<'_, T>,
    at: &PointAt,
    accessible: &Accessible,
    frame: &Frame,
    slots: &mut Slots,
    desk: &mut Desk,
    steps: &mut Steps<L>,
) -> Handling
    requires depth { program.now.limits.depth ≤ 512 }
    requires accessible { IsAccessible program.now.app.now accessible.now }
    requires frame { IsFrameOf program.now.app.now frame.now }
    ensures handles { HandlesTo (point (ground_of T.holds T.presents T.reads T.hierarchy program.now)
        (world_at slots.old desk.old frame.now) at.now) frame.now result slots.old slots.new
        desk.old desk.new }
    ensures ledger { RisesBy (handling_met result) steps.old steps.new
        (point (ground_of T.holds T.presents T.reads T.hierarchy program.now) (world_at slots.old desk.old frame.now) at.now).cost }
{
    match place_of_pane(program.app, at.pane.as_slice()) {
        None => reply(program.alloc, b"! pane"),
        Some(place) => {
            let target = target_at(program.app, frame, place, at);
            point_at(program, target, accessible, frame, slots, desk, steps)
        }
    }
}

// The pane in a place, with what is pointed at in it.
fn target_at<'a>(app: &'a App, frame: &'a Frame, place: usize, at: &'a PointAt) -> Target<'a>
    requires place { place < length (panes_of app.now) }
    requires frame { IsFrameOf app.now frame.now }
    ensures declared { slice_get (panes_of app.now) place ≡ Some result.declared.now }
    ensures shown { slice_get (marks_of_frame frame.now) place ≡ Some (marks_of_pane result.shown.now) }
    ensures at { result.at.now ≡ at.now }
{
    let Some(declared) = app.frame.panes.at(place) else {
        unreachable!()
    };
    Target {
        declared,
        shown: &frame.panes[place],
        at,
    }
}

impl Target<'_> {
    // Whether the place lies within the pane.
    fn is_within(&self) -> bool
        ensures { result ≡ is_within self.now.declared.now self.now.at.now.x self.now.at.now.y }
    {
        let (x, y) = (self.at.x, self.at.y);
        0 <= x
            && x < i64::from(self.declared.width)
            && 0 <= y
            && y < i64::from(self.declared.height)
    }
}

fn point_at<T: Types, L: Ledger>(
    program: &Program<'_, T>,
    target: Target<'_>,
    accessible: &Accessible,
    frame: &Frame,
    slots: &mut Slots,
    desk: &mut Desk,
    steps: &mut Steps<L>,
) -> Handling
    requires depth { program.now.limits.depth ≤ 512 }
    requires accessible { IsAccessible program.now.app.now accessible.now }
    ensures handles { HandlesTo (point_at (ground_of T.holds T.presents T.reads T.hierarchy program.now)
        (world_at slots.old desk.old frame.now) target.entry.at.now target.entry.declared.now (marks_of_pane target.entry.shown.now))
        frame.now result slots.old slots.new desk.old desk.new }
    ensures ledger { RisesBy (handling_met result) steps.old steps.new
        (point_at (ground_of T.holds T.presents T.reads T.hierarchy program.now) (world_at slots.old desk.old frame.now)
        target.entry.at.now target.entry.declared.now (marks_of_pane target.entry.shown.now)).cost }
{
    if !target.is_within() {
        return reply(program.alloc, b"! outside");
    }
    match &desk.dialog {
        Some(_) => point_in_dialog(program, target, accessible, frame, slots, desk, steps),
        None => point_in_line(program, target, accessible, frame, slots, desk, steps),
    }
}

// A place within a pane is pointed at while no dialog is open.
fn point_in_line<T: Types, L: Ledger>(
    program: &Program<'_, T>,
    target: Target<'_>,
    accessible: &Accessible,
    frame: &Frame,
    slots: &mut Slots,
    desk: &mut Desk,
    steps: &mut Steps<L>,
) -> Handling
    requires depth { program.now.limits.depth ≤ 512 }
    requires accessible { IsAccessible program.now.app.now accessible.now }
    ensures handles { HandlesTo (point_within (ground_of T.holds T.presents T.reads T.hierarchy program.now)
        (world_at slots.old desk.old frame.now) target.entry.at.now target.entry.declared.now (marks_of_pane target.entry.shown.now) None)
        frame.now result slots.old slots.new desk.old desk.new }
    ensures ledger { RisesBy (handling_met result) steps.old steps.new
        (point_within (ground_of T.holds T.presents T.reads T.hierarchy program.now) (world_at slots.old desk.old frame.now)
        target.entry.at.now target.entry.declared.now (marks_of_pane target.entry.shown.now) None).cost }
{
    let typed = typed_argument(program.app, &accessible.tables, &desk.line);
    let Ok(contexts) = contexts_of(program.alloc, typed) else {
        return Handling::Memory;
    };
    let contexts = contexts.as_slice();
    match choice_at(program, target, accessible, slots, &desk.enabled, contexts) {
        Ok(choice) => act_on(program, typed, choice, frame, slots, desk, steps),
        Err(_) => Handling::Memory,
    }
}

// A place within a pane is pointed at while a dialog is open.
fn point_in_dialog<T: Types, L: Ledger>(
    program: &Program<'_, T>,
    target: Target<'_>,
    accessible: &Accessible,
    frame: &Frame,
    slots: &mut Slots,
    desk: &mut Desk,
    steps: &mut Steps<L>,
) -> Handling
    requires depth { program.now.limits.depth ≤ 512 }
    requires accessible { IsAccessible program.now.app.now accessible.now }
    requires dialog { is_some desk.old.dialog ≡ true }
    ensures handles { HandlesTo (point_within (ground_of T.holds T.presents T.reads T.hierarchy program.now)
        (world_at slots.old desk.old frame.now) target.entry.at.now target.entry.declared.now (marks_of_pane target.entry.shown.now)
        desk.old.dialog) frame.now result slots.old slots.new desk.old desk.new }
    ensures ledger { RisesBy (handling_met result) steps.old steps.new
        (point_within (ground_of T.holds T.presents T.reads T.hierarchy program.now) (world_at slots.old desk.old frame.now)
        target.entry.at.now target.entry.declared.now (marks_of_pane target.entry.shown.now) desk.old.dialog).cost }
{
    let Some(dialog) = &desk.dialog else {
        unreachable!()
    };
    let Ok(contexts) = dialog_contexts(program.alloc, program.app, dialog) else {
        return Handling::Memory;
    };
    let contexts = contexts.as_slice();
    match choice_at(program, target, accessible, slots, &desk.enabled, contexts) {
        Ok(choice) => answer(program, choice, frame, slots, desk, steps),
        Err(_) => Handling::Memory,
    }
}

// The argument that is typed next.
fn typed_argument<'a>(app: &'a App, tables: &Tables, line: &Line) -> Option<TypedArgument<'a>>
    requires { tables.now ≡ sight_in app.now }
    ensures { option_map typed_of result ≡ typed_in app.now line.now }
{
    let command = command_of_line(app, tables, line)?;
    match line.slot(Some(named_in(command, line))) {
        LineSlot::Name => None,
        LineSlot::Arg(number) => argument_numbered(command, number),
        LineSlot::Past => None,
    }
}

// The name of a command in a line.
fn named_in(command: &CommandDecl, line: &Line) -> Named
    ensures { result ≡ named_in command.now line.now }
{
    Named {
        end: name_end(command, line),
        arguments: command.arguments.len(),
    }
}

// The argument of a command that has this number.
fn argument_numbered<'a>(command: &'a CommandDecl, number: usize) -> Option<TypedArgument<'a>>
    ensures { option_map typed_of result ≡ argument_numbered command.now number }
{
    let argument = command.arguments.at(number.checked_sub(1)?)?;
    Some(TypedArgument {
        command,
        number,
        argument,
    })
}

// What is chosen at a place.
fn choice_at<T: Types>(
    program: &Program<'_, T>,
    target: Target<'_>,
    accessible: &Accessible,
    slots: &Slots,
    enabled: &Enabled,
    contexts: &[TypeSpec],
) -> Result<Option<Choice>, AllocError>
    requires { IsAccessible program.now.app.now accessible.now }
    ensures { IfOk result (λ o. option_map given_of o ≡ chosen_by (ground_of T.holds T.presents T.reads T.hierarchy program.now) slots.now (enabled_in enabled.now)
        contexts.now target.entry.at.now target.entry.declared.now (marks_of_pane target.entry.shown.now)) }
{
    let chooser = Chooser {
        alloc: program.alloc,
        app: program.app,
        types: program.types,
        slots,
        tables: &accessible.tables,
        enabled,
        translators: &accessible.translators,
    };
    let point = Point {
        pane: &target.declared.name,
        x: target.at.x,
        y: target.at.y,
    };
    let blank = History::empty(program.alloc);
    let history = history_shown(target.shown, &blank);
    chooser.choose(history, &point, contexts, target.at.gesture)
}

// What a pane shows; a blank one shows nothing.
fn history_shown<'a>(shown: &'a Pane, blank: &'a History) -> &'a History
    requires { blank.now ≡ [] }
    ensures { history_marks move_item result.now ≡ marks_in (marks_of_pane shown.now) }
{
    match &shown.history {
        Some(history) => history,
        None => blank,
    }
}

// The input contexts, the innermost first.
fn contexts_of(alloc: Global, typed: Option<TypedArgument<'_>>) -> Result<Vec<TypeSpec>, AllocError>
    ensures { IfOk result (λ v. v.items ≡ contexts_of (option_map typed_of typed.entry)) }
{
    let mut contexts = Vec::new(alloc);
    if let Some(typed) = typed {
        contexts.push(typed.argument.spec.copy()?)?;
    }
    contexts.push(TypeSpec::plain(Text::from_slice(alloc, b"command")?))?;
    Ok(contexts)
}

// What is chosen for an argument is put into the line, and a command is run.
fn act_on<T: Types, L: Ledger>(
    program: &Program<'_, T>,
    typed: Option<TypedArgument<'_>>,
    choice: Option<Choice>,
    frame: &Frame,
    slots: &mut Slots,
    desk: &mut Desk,
    steps: &mut Steps<L>,
) -> Handling
    requires { program.now.limits.depth ≤ 512 }
    ensures handles { HandlesTo (act_on (ground_of T.holds T.presents T.reads T.hierarchy program.now)
        (world_at slots.old desk.old frame.now) (option_map typed_of typed.entry) (option_map given_of choice))
        frame.now result slots.old slots.new desk.old desk.new }
    ensures ledger { RisesBy (handling_met result) steps.old steps.new
        (act_on (ground_of T.holds T.presents T.reads T.hierarchy program.now) (world_at slots.old desk.old frame.now)
        (option_map typed_of typed.entry) (option_map given_of choice)).cost }
{
    let Some(choice) = choice else {
        return reply(program.alloc, b"! none");
    };
    match typed {
        Some(typed) if choice.number == 0 => {
            take_object(program.alloc, typed, choice.value, frame, slots, desk)
        }
        _ => run_chosen(program, &choice.value, frame, slots, desk, steps),
    }
}

// An object is put into the line, where that has room for it.
fn take_object(
    alloc: Global,
    typed: TypedArgument<'_>,
    value: Value,
    frame: &Frame,
    slots: &Slots,
    desk: &mut Desk,
) -> Handling
    ensures handles { HandlesTo (take_object (world_at slots.now desk.old frame.now) (typed_of typed.entry) (data_of value))
        frame.now result slots.now slots.now desk.old desk.new }
    ensures cost { (take_object (world_at slots.now desk.old frame.now) (typed_of typed.entry) (data_of value)).cost ≡ 0 }
{
    let Ok(lines) = got_lines(alloc, typed.number) else {
        return Handling::Memory;
    };
    let end = name_end(typed.command, &desk.line);
    match desk.line.push_object(end, value) {
        Pushed::Done => Handling::Replied(lines, After::Nothing),
        Pushed::Full => reply(alloc, b"! full"),
    }
}

// `got N`.
fn got_lines(alloc: Global, number: usize) -> Result<Lines, AllocError>
    ensures { IfOk result (λ l. l ≡ got_line number ∷ []) }
{
    let line = format!(in alloc; "got {number}")?;
    one_line(alloc, line.as_bytes())
}

// A command with all its arguments is run.
fn run_chosen<T: Types, L: Ledger>(
    program: &Program<'_, T>,
    value: &Value,
    frame: &Frame,
    slots: &mut Slots,
    desk: &mut Desk,
    steps: &mut Steps<L>,
) -> Handling
    requires { program.now.limits.depth ≤ 512 }
    ensures handles { HandlesTo (run_chosen (ground_of T.holds T.presents T.reads T.hierarchy program.now)
        (world_at slots.old desk.old frame.now) (data_of value.now)) frame.now result slots.old slots.new
        desk.old desk.new }
    ensures ledger { RisesBy (handling_met result) steps.old steps.new
        (run_chosen (ground_of T.holds T.presents T.reads T.hierarchy program.now) (world_at slots.old desk.old frame.now)
        (data_of value.now)).cost }
{
    let Value::List(parts) = value else {
        return reply(program.alloc, b"! none");
    };
    let Some((first, arguments)) = parts.as_slice().split_first() else {
        return reply(program.alloc, b"! none");
    };
    let Value::Symbol(name) = first else {
        return reply(program.alloc, b"! none");
    };
    match program.app.command(name.as_slice()) {
        Some(command) => run_command(program, command, arguments, frame, slots, desk, steps),
        None => reply(program.alloc, b"! none"),
    }
}
