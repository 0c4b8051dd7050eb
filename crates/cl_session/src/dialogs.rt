//! What gestures do while a dialog is open, after the CLIM II specification's chapter on dialogs. How a dialog is filled in by lines
//! and by pointing is our own profile.
ghost use Rattle.std.specs.Prelude.{◌≡◌, ◌≤◌, ◌++◌, ◌∷◌, [], IfOk, true, is_some, map, option_map};
ghost use Rattle.cl_application.specs.App.{command_named};
ghost use Rattle.cl_eval.specs.Outcome.{RisesBy};
ghost use Rattle.cl_frame.specs.Ground.{ground_of};
ghost use Rattle.cl_frame.specs.States.{filling_of};
ghost use Rattle.cl_parser.specs.One.{one_at};
ghost use Rattle.cl_session.specs.Dialogs.{abort, answer, choose, choose_named, dialog_contexts, exit_command, exit_dialog, read_line, return_read, select_query, set_selected};
ghost use Rattle.cl_session.specs.Handling.{HandlesTo, handling_met, world_at};
ghost use Rattle.cl_session.specs.Step.{return_by};
ghost use Rattle.cl_session.specs.World.{filling_by};
ghost use Rattle.cl_translate.specs.Choices.{given_of};
ghost use Rattle.cl_value.specs.Value.{data_of};

use crate::handling::{After, Desk, Handling, joined, one_line, reply, told};
use crate::running::run_command;
use cl_application::{App, DialogDecl};
use cl_dialog::{Dialog, Exit};
use cl_eval::{Lines, Program, Slots, Types};
use cl_frame::{Filling, Frame};
use cl_line::Line;
use cl_outside::{Ledger, Steps};
use cl_parser::{One, Parser};
use cl_syntax::TypeSpec;
use cl_translate::Choice;
use cl_value::{Text, Value};
use std::alloc::{AllocError, Global};

impl Desk {
    /// What fills a pane: the form of the dialog that is open, if one is.
    pub fn filling<'a>(&'a self, app: &'a App) -> Option<Filling<'a>>
        ensures { option_map filling_of result ≡ filling_by app.now self.now.dialog }
    {
        let Some(dialog) = &self.dialog else {
            return None;
        };
        match app.dialog(dialog.name().as_slice()) {
            Some(declared) => Some(Filling {
                pane: &declared.pane,
                display: dialog.form(),
                env: dialog.env(),
            }),
            None => None,
        }
    }
}

/// The input contexts of a dialog, the innermost first: choices, and then the type of the selected query.
pub(crate) fn dialog_contexts(
    alloc: Global,
    app: &App,
    dialog: &Dialog,
) -> Result<Vec<TypeSpec>, AllocError>
    ensures { IfOk result (λ v. v.items ≡ dialog_contexts app.now dialog.now) }
{
    let mut contexts = Vec::new(alloc);
    contexts.push(TypeSpec::plain(Text::from_slice(alloc, b"dialog-choice")?))?;
    if let Some(spec) = dialog.spec(app) {
        contexts.push(spec.copy()?)?;
    }
    Ok(contexts)
}

/// What `return` does in an open dialog: the line sets the selected query.
pub(crate) fn return_in_dialog<T: Types>(
    program: &Program<'_, T>,
    frame: &Frame,
    slots: &Slots,
    desk: &mut Desk,
) -> Handling
    requires { is_some desk.old.dialog ≡ true }
    ensures handles { HandlesTo (return_by (ground_of T.holds T.presents T.reads T.hierarchy program.now)
        (world_at slots.now desk.old frame.now) desk.old.dialog) frame.now result slots.now slots.now desk.old desk.new }
    ensures cost { (return_by (ground_of T.holds T.presents T.reads T.hierarchy program.now)
        (world_at slots.now desk.old frame.now) desk.old.dialog).cost ≡ 0 }
{
    let Some(dialog) = &desk.dialog else {
        unreachable!()
    };
    match read_line(program, slots, &desk.line, dialog) {
        Ok(read) => return_read(program.alloc, read, frame, slots, desk),
        Err(_) => Handling::Memory,
    }
}

// What the line is read as for the selected query; None where none is selected.
fn read_line<T: Types>(
    program: &Program<'_, T>,
    slots: &Slots,
    line: &Line,
    dialog: &Dialog,
) -> Result<Option<One>, AllocError>
    ensures { IfOk result (λ o. option_map one_at o ≡ read_line (ground_of T.holds T.presents T.reads T.hierarchy program.now)
        slots.now line.now dialog.now) }
{
    let Some(spec) = dialog.spec(program.app) else {
        return Ok(None);
    };
    let parser = Parser {
        alloc: program.alloc,
        app: program.app,
        types: program.types,
        slots,
    };
    Ok(Some(parser.one(line, spec)?))
}

// The line sets the selected query, by what it is read as.
fn return_read(
    alloc: Global,
    read: Option<One>,
    frame: &Frame,
    slots: &Slots,
    desk: &mut Desk,
) -> Handling
    ensures handles { HandlesTo (return_read (world_at slots.now desk.old frame.now) desk.old.dialog (option_map one_at read))
        frame.now result slots.now slots.now desk.old desk.new }
    ensures cost { (return_read (world_at slots.now desk.old frame.now) desk.old.dialog (option_map one_at read)).cost ≡ 0 }
{
    match read {
        None => reply(alloc, b"! query"),
        Some(One::Object(value)) => set_selected(alloc, value, frame, slots, desk),
        Some(One::Bad) => reply(alloc, b"! bad 1"),
        Some(One::Surplus) => reply(alloc, b"! surplus"),
    }
}

// The selected query takes a value, and the line is empty then.
fn set_selected(
    alloc: Global,
    value: Value,
    frame: &Frame,
    slots: &Slots,
    desk: &mut Desk,
) -> Handling
    ensures handles { HandlesTo (set_selected (world_at slots.now desk.old frame.now) desk.old.dialog (data_of value))
        frame.now result slots.now slots.now desk.old desk.new }
    ensures cost { (set_selected (world_at slots.now desk.old frame.now) desk.old.dialog (data_of value)).cost ≡ 0 }
{
    let Some(dialog) = &mut desk.dialog else {
        return reply(alloc, b"! none");
    };
    let Some(query) = dialog.selected() else {
        return reply(alloc, b"! query");
    };
    let Ok(lines) = named_lines(alloc, b"ok ", query.as_slice()) else {
        return Handling::Memory;
    };
    match dialog.set(alloc, value) {
        Ok(()) => {
            desk.line.clear();
            Handling::Replied(lines, After::Commit)
        }
        Err(_) => Handling::Memory,
    }
}

// One line: these words, and a name.
fn named_lines(alloc: Global, words: &[u8], name: &[u8]) -> Result<Lines, AllocError>
    ensures { IfOk result (λ l. l ≡ (words.now ++ name.now) ∷ []) }
{
    one_line(alloc, joined(alloc, words, name)?.as_slice())
}

/// What pointing in an open dialog does, by what is chosen: a choice of its form, or an object for the selected query.
pub(crate) fn answer<T: Types, L: Ledger>(
    program: &Program<'_, T>,
    choice: Option<Choice>,
    frame: &Frame,
    slots: &mut Slots,
    desk: &mut Desk,
    steps: &mut Steps<L>,
) -> Handling
    requires { program.now.limits.depth ≤ 512 }
    ensures handles { HandlesTo (answer (ground_of T.holds T.presents T.reads T.hierarchy program.now)
        (world_at slots.old desk.old frame.now) desk.old.dialog (option_map given_of choice))
        frame.now result slots.old slots.new desk.old desk.new }
    ensures ledger { RisesBy (handling_met result) steps.old steps.new
        (answer (ground_of T.holds T.presents T.reads T.hierarchy program.now) (world_at slots.old desk.old frame.now)
        desk.old.dialog (option_map given_of choice)).cost }
{
    let Some(choice) = choice else {
        return reply(program.alloc, b"! none");
    };
    if choice.number != 0 {
        return set_selected(program.alloc, choice.value, frame, slots, desk);
    }
    match choice.value {
        Value::Symbol(name) => choose_named(program, name, frame, slots, desk, steps),
        _ => reply(program.alloc, b"! none"),
    }
}

// What a choice does: `[Abort]`, `[Exit]`, or the line of a query.
fn choose_named<T: Types, L: Ledger>(
    program: &Program<'_, T>,
    name: Text,
    frame: &Frame,
    slots: &mut Slots,
    desk: &mut Desk,
    steps: &mut Steps<L>,
) -> Handling
    requires { program.now.limits.depth ≤ 512 }
    ensures handles { HandlesTo (choose_named (ground_of T.holds T.presents T.reads T.hierarchy program.now)
        (world_at slots.old desk.old frame.now) desk.old.dialog name)
        frame.now result slots.old slots.new desk.old desk.new }
    ensures ledger { RisesBy (handling_met result) steps.old steps.new
        (choose_named (ground_of T.holds T.presents T.reads T.hierarchy program.now) (world_at slots.old desk.old frame.now)
        desk.old.dialog name).cost }
{
    if name.as_slice() == b"abort".as_slice() {
        abort(program.alloc, frame, slots, desk)
    } else if name.as_slice() == b"exit".as_slice() {
        exit_dialog(program, frame, slots, desk, steps)
    } else {
        select_query(program.alloc, name, frame, slots, desk)
    }
}

// The dialog is closed, and the line stays.
fn abort(alloc: Global, frame: &Frame, slots: &Slots, desk: &mut Desk) -> Handling
    ensures { HandlesTo (abort (world_at slots.now desk.old frame.now)) frame.now result slots.now slots.now desk.old desk.new }
{
    match one_line(alloc, b"aborted") {
        Ok(lines) => {
            desk.dialog = None;
            Handling::Replied(lines, After::Commit)
        }
        Err(_) => Handling::Memory,
    }
}

// A query is selected, and nothing is settled.
fn select_query(
    alloc: Global,
    query: Text,
    frame: &Frame,
    slots: &Slots,
    desk: &mut Desk,
) -> Handling
    ensures handles { HandlesTo (select_query (world_at slots.now desk.old frame.now) desk.old.dialog query)
        frame.now result slots.now slots.now desk.old desk.new }
    ensures cost { (select_query (world_at slots.now desk.old frame.now) desk.old.dialog query).cost ≡ 0 }
{
    let Some(dialog) = &mut desk.dialog else {
        return reply(alloc, b"! none");
    };
    let Ok(lines) = named_lines(alloc, b"query ", query.as_slice()) else {
        return Handling::Memory;
    };
    dialog.select(query);
    Handling::Replied(lines, After::Nothing)
}

// The dialog's command is run with the values of the queries.
fn exit_dialog<T: Types, L: Ledger>(
    program: &Program<'_, T>,
    frame: &Frame,
    slots: &mut Slots,
    desk: &mut Desk,
    steps: &mut Steps<L>,
) -> Handling
    requires { program.now.limits.depth ≤ 512 }
    ensures handles { HandlesTo (exit_dialog (ground_of T.holds T.presents T.reads T.hierarchy program.now)
        (world_at slots.old desk.old frame.now) desk.old.dialog)
        frame.now result slots.old slots.new desk.old desk.new }
    ensures ledger { RisesBy (handling_met result) steps.old steps.new
        (exit_dialog (ground_of T.holds T.presents T.reads T.hierarchy program.now) (world_at slots.old desk.old frame.now)
        desk.old.dialog).cost }
{
    let (alloc, app) = (program.alloc, program.app);
    let Some(dialog) = &desk.dialog else {
        return reply(alloc, b"! none");
    };
    let Some(declared) = app.dialog(dialog.name().as_slice()) else {
        return reply(alloc, b"! none");
    };
    match dialog.exit(alloc, app, declared, slots) {
        Exit::Arguments(values) => {
            let values = values.as_slice();
            exit_command(program, declared, values, frame, slots, desk, steps)
        }
        Exit::Unset(query) => told(named_lines(alloc, b"! unset ", query.as_slice())),
        Exit::Memory => Handling::Memory,
    }
}

// A dialog's command is run with these arguments, where it is enabled.
fn exit_command<T: Types, L: Ledger>(
    program: &Program<'_, T>,
    declared: &DialogDecl,
    values: &[Value],
    frame: &Frame,
    slots: &mut Slots,
    desk: &mut Desk,
    steps: &mut Steps<L>,
) -> Handling
    requires { program.now.limits.depth ≤ 512 }
    ensures handles { HandlesTo (exit_command (ground_of T.holds T.presents T.reads T.hierarchy program.now)
        (world_at slots.old desk.old frame.now) (map data_of values.now) (command_named declared.now.command program.now.app.now))
        frame.now result slots.old slots.new desk.old desk.new }
    ensures ledger { RisesBy (handling_met result) steps.old steps.new
        (exit_command (ground_of T.holds T.presents T.reads T.hierarchy program.now) (world_at slots.old desk.old frame.now)
        (map data_of values.now) (command_named declared.now.command program.now.app.now)).cost }
{
    let Some(command) = program.app.command(declared.command.as_slice()) else {
        return reply(program.alloc, b"! none");
    };
    if !desk.enabled.is(&command.name) {
        return reply(program.alloc, b"! disabled");
    }
    run_command(program, command, values, frame, slots, desk, steps)
}
