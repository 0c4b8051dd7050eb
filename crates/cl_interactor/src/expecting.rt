//! What a person is expected to give next.
ghost use Rattle.std.specs.Prelude.{◌≡◌, option_map};
ghost use Rattle.cl_interactor.specs.Expected.{argument_selected, command_seen, expected_in_dialog, expected_in_line, expected_words, named_in, words_at};

use cl_application::{App, ArgumentDecl, CommandDecl};
use cl_dialog::Dialog;
use cl_dialog_forms::argument_of;
use cl_line::{Line, LineSlot, Named};
use cl_tables::Tables;

/// What is expected next, in words: `a command` while a command's name is typed, and where the line names none; the prompt of the argument
/// that is typed next; `return` past the last one. While a dialog is open it is the prompt of the argument of the selected query, and
/// `a query` where none is selected.
pub fn expected<'a>(app: &'a App, tables: &Tables, line: &Line, dialog: Option<&Dialog>) -> &'a [u8]
    ensures { result.now ≡ expected_words app.now tables.now line.now (option_map (λ d. d.now) dialog.entry) }
{
    match dialog {
        Some(dialog) => expected_in_dialog(app, dialog),
        None => expected_in_line(app, tables, line),
    }
}

// What is expected of a line.
fn expected_in_line<'a>(app: &'a App, tables: &Tables, line: &Line) -> &'a [u8]
    ensures { result.now ≡ expected_in_line app.now tables.now line.now }
{
    match command_seen(app, tables, line) {
        Some(command) => words_at(command, line.slot(Some(named_in(command, line)))),
        None => b"a command",
    }
}

// The command that a line names.
fn command_seen<'a>(app: &'a App, tables: &Tables, line: &Line) -> Option<&'a CommandDecl>
    ensures { option_map (λ c. c.now) result ≡ command_seen app.now tables.now line.now }
{
    match tables.find_name(&line.front()) {
        Some((name, _)) => app.command(name.as_slice()),
        None => None,
    }
}

// The name of a command in a line.
fn named_in(command: &CommandDecl, line: &Line) -> Named
    ensures { result ≡ named_in command.now line.now }
{
    // A line has at most 256 elements.
    let _ = line.elements();
    Named {
        end: line.front_start() + command.line_name.as_slice().len(),
        arguments: command.arguments.len(),
    }
}

// What is expected at a place of a line with this command.
fn words_at(command: &CommandDecl, place: LineSlot) -> &[u8]
    ensures { result.now ≡ words_at command.now place }
{
    match place {
        LineSlot::Name => b"a command",
        LineSlot::Arg(number) => match number.checked_sub(1) {
            Some(place) => match command.arguments.at(place) {
                Some(argument) => argument.prompt.as_slice(),
                None => b"return",
            },
            None => b"return",
        },
        LineSlot::Past => b"return",
    }
}

// What is expected in a dialog.
fn expected_in_dialog<'a>(app: &'a App, dialog: &Dialog) -> &'a [u8]
    ensures { result.now ≡ expected_in_dialog app.now dialog.now }
{
    match argument_selected(app, dialog) {
        Some(argument) => argument.prompt.as_slice(),
        None => b"a query",
    }
}

// The argument of the selected query.
fn argument_selected<'a>(app: &'a App, dialog: &Dialog) -> Option<&'a ArgumentDecl>
    ensures { option_map (λ a. a.now) result ≡ argument_selected app.now dialog.now }
{
    let selected = dialog.selected()?;
    let declared = app.dialog(dialog.name().as_slice())?;
    argument_of(app, declared, selected.as_slice())
}
