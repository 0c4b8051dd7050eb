//! The commands that lines and keystrokes name.
ghost use Rattle.std.specs.Prelude.{◌≡◌, ◌+◌, IfOk, length, option_map};
ghost use Rattle.cl_line.specs.Lines.{front_start};
ghost use Rattle.cl_session.specs.Naming.{command_of_line, command_of_stroke, place_of, places_of, sight_in};
ghost use Rattle.cl_tables.specs.Enabled.{AreAllEnabled};
ghost use Rattle.cl_tables.specs.Rings.{HasNoRing};

use cl_application::{App, CommandDecl, Commands};
use cl_line::Line;
use cl_table::Table;
use cl_tables::{CommandPlace, Enabled, Tables};
use std::alloc::{AllocError, Global};

/// What the command table of an application's frame sees.
pub fn tables_of(alloc: Global, app: &App) -> Result<Tables, AllocError>
    requires { HasNoRing app.now.tables }
    ensures { IfOk result (λ t. t ≡ sight_in app.now) }
{
    let places = places_of(alloc, &app.commands)?;
    Tables::build(alloc, &app.tables, &places, app.frame.table.as_slice())
}

/// The commands of an application, all enabled.
pub fn enabled_of(alloc: Global, app: &App) -> Result<Enabled, AllocError>
    ensures { IfOk result (AreAllEnabled (places_of app.now.commands)) }
{
    let places = places_of(alloc, &app.commands)?;
    Enabled::new(alloc, &places)
}

// The commands with the tables in which they stand.
fn places_of(alloc: Global, commands: &Commands) -> Result<Table<CommandPlace>, AllocError>
    ensures { IfOk result (λ p. p ≡ places_of commands.now) }
{
    let mut places = Table::new(alloc);
    commands.is_table();
    for place in 0..commands.len() {
        let Some(command) = commands.at(place) else {
            unreachable!()
        };
        places.add_first(place_of(command)?)?;
    }
    Ok(places)
}

// Where a command stands.
fn place_of(command: &CommandDecl) -> Result<CommandPlace, AllocError>
    ensures { IfOk result (λ p. p ≡ place_of command.now) }
{
    let keystroke = match &command.keystroke {
        Some(keystroke) => Some(keystroke.copy()?),
        None => None,
    };
    Ok(CommandPlace {
        name: command.name.copy()?,
        line_name: command.line_name.copy()?,
        table: command.table.copy()?,
        keystroke,
    })
}

/// The command that a line names.
pub fn command_of_line<'a>(app: &'a App, tables: &Tables, line: &Line) -> Option<&'a CommandDecl>
    requires { tables.now ≡ sight_in app.now }
    ensures { option_map (λ c. c.now) result ≡ command_of_line app.now line.now }
{
    match tables.find_name(&line.front()) {
        Some((name, _)) => app.command(name.as_slice()),
        None => None,
    }
}

/// The command of a keystroke, which is written without regard to case.
pub fn command_of_stroke<'a>(
    alloc: Global,
    app: &'a App,
    tables: &Tables,
    stroke: &[u8],
) -> Result<Option<&'a CommandDecl>, AllocError>
    requires { tables.now ≡ sight_in app.now }
    ensures { IfOk result (λ c. option_map (λ d. d.now) c ≡ command_of_stroke app.now stroke.now) }
{
    let mut stroke = Vec::from_slice(alloc, stroke)?;
    stroke.make_ascii_lowercase();
    match tables.find_stroke(stroke.as_slice()) {
        Some(name) => Ok(app.command(name.as_slice())),
        None => Ok(None),
    }
}

/// Where the name of a line's command ends.
pub fn name_end(command: &CommandDecl, line: &Line) -> usize
    ensures { result ≡ front_start line.now + length command.now.line_name }
{
    // A line has at most 256 elements.
    let _ = line.elements();
    line.front_start() + command.line_name.as_slice().len()
}
