//! The runs of commands, as lines and keystrokes ask for them.
ghost use Rattle.std.specs.Prelude.{◌≡◌, ◌≤◌, ◌∷◌, ◌++◌, [], IfOk, map};
ghost use Rattle.cl_eval.specs.Outcome.{RisesBy};
ghost use Rattle.cl_frame.specs.Ground.{ground_of};
ghost use Rattle.cl_parser.specs.Parses.{decls_of, without_tokens};
ghost use Rattle.cl_session.specs.Handling.{HandlesTo, handling_met, world_at};
ghost use Rattle.cl_session.specs.Naming.{sight_in};
ghost use Rattle.cl_session.specs.Runs.{opened_by, bad_line, bound, command_outcome, command_trap_line, ok_lines, run_command};
ghost use Rattle.cl_session.specs.Step.{finish_line, finish_named, finish_parsed, line_of, need_line, parsed_line, press, stroke_named, stroke_parsed};
ghost use Rattle.cl_value.specs.Value.{data_of};

use crate::handling::{After, Desk, Handling, joined, one_line, reply, told};
use crate::naming::{command_of_line, command_of_stroke, name_end};
use cl_application::{App, ArgumentDecls, CommandDecl};
use cl_dialog::Dialog;
use cl_eval::{Effects, Env, Executed, Lines, Program, Slots, Types, exec};
use cl_frame::Frame;
use cl_line::Line;
use cl_outside::{Ledger, Steps};
use cl_parser::{Parsed, Parser};
use cl_tables::Tables;
use cl_value::{Text, Value};
use std::alloc::{AllocError, Global};

/// What `return` does: the command that the line names is run with the arguments behind its name.
pub fn finish_line<T: Types, L: Ledger>(
    program: &Program<'_, T>,
    tables: &Tables,
    frame: &Frame,
    slots: &mut Slots,
    desk: &mut Desk,
    steps: &mut Steps<L>,
) -> Handling
    requires depth { program.now.limits.depth ≤ 512 }
    requires tables { tables.now ≡ sight_in program.now.app.now }
    ensures handles { HandlesTo (finish_line (ground_of T.holds T.presents T.reads T.hierarchy program.now)
        (world_at slots.old desk.old frame.now)) frame.now result slots.old slots.new
        desk.old desk.new }
    ensures ledger { RisesBy (handling_met result) steps.old steps.new
        (finish_line (ground_of T.holds T.presents T.reads T.hierarchy program.now)
        (world_at slots.old desk.old frame.now)).cost }
{
    match command_of_line(program.app, tables, &desk.line) {
        None => reply(program.alloc, b"! unknown"),
        Some(command) => finish_named(program, command, frame, slots, desk, steps),
    }
}

fn finish_named<T: Types, L: Ledger>(
    program: &Program<'_, T>,
    command: &CommandDecl,
    frame: &Frame,
    slots: &mut Slots,
    desk: &mut Desk,
    steps: &mut Steps<L>,
) -> Handling
    requires { program.now.limits.depth ≤ 512 }
    ensures handles { HandlesTo (finish_named (ground_of T.holds T.presents T.reads T.hierarchy program.now)
        (world_at slots.old desk.old frame.now) command.now) frame.now result slots.old slots.new
        desk.old desk.new }
    ensures ledger { RisesBy (handling_met result) steps.old steps.new
        (finish_named (ground_of T.holds T.presents T.reads T.hierarchy program.now)
        (world_at slots.old desk.old frame.now) command.now).cost }
{
    if !desk.enabled.is(&command.name) {
        return reply(program.alloc, b"! disabled");
    }
    match parsed_line(program, command, slots, &desk.line) {
        Ok(parsed) => finish_parsed(program, command, parsed, frame, slots, desk, steps),
        Err(_) => Handling::Memory,
    }
}

// What the tokens behind the name are read as.
fn parsed_line<T: Types>(
    program: &Program<'_, T>,
    command: &CommandDecl,
    slots: &Slots,
    line: &Line,
) -> Result<Parsed, AllocError>
    ensures { IfOk result (λ p. p ≡ parsed_line (ground_of T.holds T.presents T.reads T.hierarchy program.now)
        slots.now line.now command.now) }
{
    let parser = Parser {
        alloc: program.alloc,
        app: program.app,
        types: program.types,
        slots,
    };
    parser.parse(line, name_end(command, line), &command.arguments)
}

// A command by what its tokens are read as.
fn finish_parsed<T: Types, L: Ledger>(
    program: &Program<'_, T>,
    command: &CommandDecl,
    parsed: Parsed,
    frame: &Frame,
    slots: &mut Slots,
    desk: &mut Desk,
    steps: &mut Steps<L>,
) -> Handling
    requires { program.now.limits.depth ≤ 512 }
    ensures handles { HandlesTo (finish_parsed (ground_of T.holds T.presents T.reads T.hierarchy program.now)
        (world_at slots.old desk.old frame.now) command.now parsed) frame.now result slots.old slots.new
        desk.old desk.new }
    ensures ledger { RisesBy (handling_met result) steps.old steps.new
        (finish_parsed (ground_of T.holds T.presents T.reads T.hierarchy program.now)
        (world_at slots.old desk.old frame.now) command.now parsed).cost }
{
    match parsed {
        Parsed::Arguments(values) => {
            run_command(
                program,
                command,
                values.as_slice(),
                frame,
                slots,
                desk,
                steps,
            )
        }
        Parsed::Need(place) => told(need_lines(program.alloc, command, place)),
        Parsed::BadArg(number) => told(bad_lines(program.alloc, number)),
        Parsed::Surplus => reply(program.alloc, b"! surplus"),
    }
}

// The reply that an argument is needed.
fn need_lines(alloc: Global, command: &CommandDecl, place: usize) -> Result<Lines, AllocError>
    ensures { IfOk result (λ l. l ≡ need_line command.now place ∷ []) }
{
    let name = match command.arguments.at(place) {
        Some(argument) => argument.name.as_slice(),
        None => &[],
    };
    let line = joined(alloc, b"! need ", name)?;
    one_line(alloc, line.as_slice())
}

// The reply that a token gives no value for its argument.
fn bad_lines(alloc: Global, number: usize) -> Result<Lines, AllocError>
    ensures { IfOk result (λ l. l ≡ bad_line number ∷ []) }
{
    let line = format!(in alloc; "! bad {number}")?;
    one_line(alloc, line.as_bytes())
}

/// What a keystroke does: its command is run with all its defaults.
pub fn press<T: Types, L: Ledger>(
    program: &Program<'_, T>,
    tables: &Tables,
    stroke: &[u8],
    frame: &Frame,
    slots: &mut Slots,
    desk: &mut Desk,
    steps: &mut Steps<L>,
) -> Handling
    requires depth { program.now.limits.depth ≤ 512 }
    requires tables { tables.now ≡ sight_in program.now.app.now }
    ensures handles { HandlesTo (press (ground_of T.holds T.presents T.reads T.hierarchy program.now)
        (world_at slots.old desk.old frame.now) stroke.now) frame.now result slots.old slots.new
        desk.old desk.new }
    ensures ledger { RisesBy (handling_met result) steps.old steps.new
        (press (ground_of T.holds T.presents T.reads T.hierarchy program.now)
        (world_at slots.old desk.old frame.now) stroke.now).cost }
{
    match command_of_stroke(program.alloc, program.app, tables, stroke) {
        Ok(None) => reply(program.alloc, b"! stroke"),
        Ok(Some(command)) => stroke_named(program, command, frame, slots, desk, steps),
        Err(_) => Handling::Memory,
    }
}

fn stroke_named<T: Types, L: Ledger>(
    program: &Program<'_, T>,
    command: &CommandDecl,
    frame: &Frame,
    slots: &mut Slots,
    desk: &mut Desk,
    steps: &mut Steps<L>,
) -> Handling
    requires { program.now.limits.depth ≤ 512 }
    ensures handles { HandlesTo (stroke_named (ground_of T.holds T.presents T.reads T.hierarchy program.now)
        (world_at slots.old desk.old frame.now) command.now) frame.now result slots.old slots.new
        desk.old desk.new }
    ensures ledger { RisesBy (handling_met result) steps.old steps.new
        (stroke_named (ground_of T.holds T.presents T.reads T.hierarchy program.now)
        (world_at slots.old desk.old frame.now) command.now).cost }
{
    if !desk.enabled.is(&command.name) {
        return reply(program.alloc, b"! disabled");
    }
    match defaults_of(program, command, slots) {
        Ok(parsed) => stroke_parsed(program, command, parsed, frame, slots, desk, steps),
        Err(_) => Handling::Memory,
    }
}

// The defaults of a command's arguments.
fn defaults_of<T: Types>(
    program: &Program<'_, T>,
    command: &CommandDecl,
    slots: &Slots,
) -> Result<Parsed, AllocError>
    ensures { IfOk result
        (λ p. p ≡ without_tokens program.now.app.now 0 [] (decls_of command.now.arguments)) }
{
    let parser = Parser {
        alloc: program.alloc,
        app: program.app,
        types: program.types,
        slots,
    };
    parser.defaults(&command.arguments)
}

// A command that needs an argument is typed, and a space behind it.
fn stroke_parsed<T: Types, L: Ledger>(
    program: &Program<'_, T>,
    command: &CommandDecl,
    parsed: Parsed,
    frame: &Frame,
    slots: &mut Slots,
    desk: &mut Desk,
    steps: &mut Steps<L>,
) -> Handling
    requires { program.now.limits.depth ≤ 512 }
    ensures handles { HandlesTo (stroke_parsed (ground_of T.holds T.presents T.reads T.hierarchy program.now)
        (world_at slots.old desk.old frame.now) command.now parsed) frame.now result slots.old slots.new
        desk.old desk.new }
    ensures ledger { RisesBy (handling_met result) steps.old steps.new
        (stroke_parsed (ground_of T.holds T.presents T.reads T.hierarchy program.now)
        (world_at slots.old desk.old frame.now) command.now parsed).cost }
{
    match parsed {
        Parsed::Need(place) => match needed(program.alloc, command, place) {
            Ok((text, lines)) => {
                type_over(text.as_slice(), &mut desk.line);
                Handling::Replied(lines, After::Nothing)
            }
            Err(_) => Handling::Memory,
        },
        other => finish_parsed(program, command, other, frame, slots, desk, steps),
    }
}

// What is typed of a command that needs an argument, and the reply.
fn needed(
    alloc: Global,
    command: &CommandDecl,
    place: usize,
) -> Result<(Vec<u8>, Lines), AllocError>
    ensures { IfOk result (λ n. (n.0.items ≡ command.now.line_name ++ 32 ∷ [])
        × (n.1 ≡ need_line command.now place ∷ [])) }
{
    let text = joined(alloc, command.line_name.as_slice(), b" ")?;
    Ok((text, need_lines(alloc, command, place)?))
}

// These characters take the place of the line, where it has room for them.
fn type_over(text: &[u8], line: &mut Line)
    ensures { line.new ≡ line_of text.now }
{
    line.clear();
    let _ = line.push_text(text);
}

#[tactic(auto, using(crate::proofs::EnabledLemmas::are_switched))]
pub(crate) fn run_command<T: Types, L: Ledger>(
    program: &Program<'_, T>,
    command: &CommandDecl,
    values: &[Value],
    frame: &Frame,
    slots: &mut Slots,
    desk: &mut Desk,
    steps: &mut Steps<L>,
) -> Handling
    requires { program.now.limits.depth ≤ 512 }
    ensures handles { HandlesTo (run_command program.now.app.now command.now.line_name
        (world_at slots.old desk.old frame.now)
        (command_outcome (ground_of T.holds T.presents T.reads T.hierarchy program.now) command.now (map data_of values.now) slots.old))
        frame.now result slots.old slots.new desk.old desk.new }
    ensures ledger { RisesBy (handling_met result) steps.old steps.new
        (run_command program.now.app.now command.now.line_name (world_at slots.old desk.old frame.now)
        (command_outcome (ground_of T.holds T.presents T.reads T.hierarchy program.now) command.now (map data_of values.now) slots.old)).cost }
{
    let env = match bound(program.alloc, &command.arguments, values) {
        Ok(env) => env,
        Err(_) => return Handling::Memory,
    };
    match exec(program, &command.body, &env, slots, steps) {
        Executed::Done(effects, _) => {
            match outcome_of(program.alloc, program.app, command, &effects) {
                Ok((lines, dialog)) => {
                    *slots = effects.slots;
                    desk.line.clear();
                    desk.enabled.apply(effects.switches.as_slice());
                    desk.dialog = dialog;
                    Handling::Replied(lines, After::Commit)
                }
                Err(_) => Handling::Memory,
            }
        }
        Executed::Trap(kind, _) => told(trap_line(program.alloc, kind)),
        Executed::Memory => Handling::Memory,
    }
}

// The replies of a command that ended, and the dialog that it opened last as it opens.
fn outcome_of(
    alloc: Global,
    app: &App,
    command: &CommandDecl,
    effects: &Effects,
) -> Result<(Lines, Option<Dialog>), AllocError>
    ensures { IfOk result (λ o. (o.0 ≡ ok_lines command.now.line_name effects.now.replies)
        × (o.1 ≡ opened_by app.now effects.now.dialog)) }
{
    let lines = ok_lines(
        alloc,
        command.line_name.as_slice(),
        effects.replies.as_slice(),
    )?;
    let Some(name) = &effects.dialog else {
        return Ok((lines, None));
    };
    match app.dialog(name.as_slice()) {
        Some(declared) => Ok((lines, Some(Dialog::open(alloc, app, declared)?))),
        None => Ok((lines, None)),
    }
}

// The arguments with their values.
#[tactic(auto, using(crate::proofs::BindingLemmas::bound_next, crate::proofs::BindingLemmas::bound_none))]
fn bound(alloc: Global, arguments: &ArgumentDecls, values: &[Value]) -> Result<Env, AllocError>
    ensures { IfOk result (λ e. e ≡ bound arguments.now (map data_of values.now) []) }
{
    let mut env = Env::new(alloc);
    for place in 0..values.len() {
        let Some(argument) = arguments.at(place) else {
            return Ok(env);
        };
        env.bind(argument.name.copy()?, values[place].copy()?)?;
    }
    Ok(env)
}

// The line of a command that ended, and one for each text of its replies.
fn ok_lines(alloc: Global, name: &[u8], replies: &[Text]) -> Result<Lines, AllocError>
    ensures { IfOk result (λ l. l ≡ ok_lines name.now replies.now) }
{
    let mut lines = one_line(alloc, &joined(alloc, b"ok ", name)?)?;
    for reply in replies {
        let line = joined(alloc, b"= ", reply.as_slice())?;
        lines.push(Text::from_vec(alloc, line)?)?;
    }
    Ok(lines)
}

fn trap_line(alloc: Global, kind: u8) -> Result<Lines, AllocError>
    ensures { IfOk result (λ l. l ≡ command_trap_line kind ∷ []) }
{
    let line = format!(in alloc; "! trap {kind}")?;
    one_line(alloc, line.as_bytes())
}
