//! What a frame's command table sees.
ghost use Rattle.std.specs.Prelude.{◌≡◌, ◌≤◌, ◌<◌, IfOk, IsTrue, ◌+◌, find, length, max, option_map, take};
ghost use Rattle.std.specs.Str.{str_to_ascii_lowercase};
ghost use Rattle.cl_tables.specs.Indexes.{AreWithin, BeginWithin};
ghost use Rattle.cl_tables.specs.Lookups.{begins_with, ends_before, is_accessible, line_command, sight_of, stroke_command, symbol_and_length};
ghost use Rattle.cl_tables.specs.Rings.{HasNoRing};

use crate::declarations::{CommandPlace, TableDecl};
use crate::groups::commands_in;
use crate::indexes::{Index, Key, command_under, index_of};
use crate::inheritance::inheritance;
use cl_line::{Characters, MAX_ELEMENTS};
use cl_table::{Names, Table};
use cl_value::Text;
use std::alloc::{AllocError, Global};
use std::marker::Model;

/// The command tables as one of them sees them: the tables in its inheritance order, and the accessible commands.
#[derive(Drop)]
pub struct Tables {
    order: Names,
    commands: Vec<CommandPlace>,
    by_name: Index,
    by_line_name: Index,
    by_keystroke: Index,
    longest: usize,
}

impl Model for Tables {
    ghost use Rattle.cl_tables.specs.Indexes.{IsIndexed};
    ghost use Rattle.cl_tables.specs.Lookups.{Sight};

    ghost Value = { Sight };

    ghost view = { λ t. record { order = t.order; commands = t.commands.items } };

    ghost invariant = { λ t. IsIndexed t.commands.items t.by_name t.by_line_name t.by_keystroke t.longest };
}

impl Tables {
    /// What the table `root` sees.
    pub fn build(
        alloc: Global,
        tables: &Table<TableDecl>,
        places: &Table<CommandPlace>,
        root: &[u8],
    ) -> Result<Tables, AllocError>
        requires { HasNoRing tables.now }
        ensures { IfOk result (λ t. t ≡ sight_of tables.now places.now root.now) }
    {
        let order = inheritance(alloc, tables, root)?;
        let commands = commands_in(alloc, &order, places)?;
        let longest = longest_name(commands.as_slice());
        Ok(Tables {
            by_name: index_of(alloc, Key::Name, commands.as_slice())?,
            by_line_name: index_of(alloc, Key::LineName, commands.as_slice())?,
            by_keystroke: index_of(alloc, Key::Keystroke, commands.as_slice())?,
            order,
            commands,
            longest,
        })
    }

    /// The tables in the inheritance order.
    pub fn inheritance(&self) -> &Names
        ensures { result.now ≡ self.now.order }
    {
        &self.order
    }

    /// The accessible commands, in the inheritance order and then in the order of the text.
    pub fn commands(&self) -> &[CommandPlace]
        ensures { result.now ≡ self.now.commands }
    {
        self.commands.as_slice()
    }

    /// Whether a command of that symbol is accessible.
    pub fn accessible(&self, command: &[u8]) -> bool
        ensures { result ≡ is_accessible command.now self.now.commands }
    {
        command_under(&self.by_name, command).is_some()
    }

    /// The symbol of the command that a keystroke stands for.
    pub fn find_stroke(&self, stroke: &[u8]) -> Option<&Text>
        ensures { option_map (λ x. x.now) result ≡ stroke_command stroke.now self.now.commands }
    {
        match command_under(&self.by_keystroke, stroke) {
            Some(command) => Some(&command.name),
            None => None,
        }
    }

    /// The symbol of the command that a line names, and the length of its name in bytes. The line is given by its front:
    /// where it has objects, a name ends before the first of them too.
    pub fn find_name(&self, front: &Characters) -> Option<(&Text, usize)>
        ensures { option_map (λ found. (found.0.now, found.1)) result
            ≡ option_map symbol_and_length (line_command front.now.items self.now.commands) }
    {
        match self.line_command(front.as_slice()) {
            Some(command) => Some((&command.name, command.line_name.as_slice().len())),
            None => None,
        }
    }

    // The command that a line names.
    fn line_command(&self, line: &[u8]) -> Option<&CommandPlace>
        requires { length line.now ≤ 256 }
        ensures { option_map (λ c. c.now) result ≡ line_command line.now self.now.commands }
    {
        let mut letters = [0; MAX_ELEMENTS];
        let count = line.len().min(self.longest);
        letters[..count].copy_from_slice(&line[..count]);
        letters[..count].make_ascii_lowercase();
        self.longest_begun(line, &letters[..count])
    }

    // The command that a line names, by the line's first bytes in small letters. It has no longer name.
    fn longest_begun(&self, line: &[u8], letters: &[u8]) -> Option<&CommandPlace>
        requires lowered { letters.now ≡ str_to_ascii_lowercase (take (length letters.now) line.now) }
        requires within { BeginWithin (length letters.now + 1) line.now self.now.commands }
        ensures { option_map (λ c. c.now) result ≡ line_command line.now self.now.commands }
    {
        let mut count = letters.len() + 1;
        while count > 0 {
            count -= 1;
            let found = self.named_with(line, &letters[..count]);
            if found.is_some() {
                return found;
            }
        }
        None
    }

    // The first command whose name begins the line and has as many letters.
    fn named_with(&self, line: &[u8], letters: &[u8]) -> Option<&CommandPlace>
        requires lowered { letters.now ≡ str_to_ascii_lowercase (take (length letters.now) line.now) }
        ensures { option_map (λ c. c.now) result ≡ find (begins_with line.now (length letters.now)) self.now.commands }
    {
        if ends_before(&line[letters.len()..]) {
            command_under(&self.by_line_name, letters)
        } else {
            None
        }
    }
}

// Whether a name may end before these bytes.
fn ends_before(rest: &[u8]) -> bool
    ensures { result ≡ ends_before rest.now }
{
    match rest {
        [] => true,
        [next, ..] => *next == b' ',
    }
}

// The length of the longest name, in bytes.
fn longest_name(commands: &[CommandPlace]) -> usize
    ensures { AreWithin result commands.now }
{
    let mut most = 0;
    for command in commands {
        most = with_name(most, command);
    }
    most
}

// The greater of a length and that of a command's name.
fn with_name(most: usize, command: &CommandPlace) -> usize
    ensures { result ≡ max most (length command.now.line_name) }
{
    most.max(command.line_name.as_slice().len())
}
