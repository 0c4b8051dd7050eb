//! Command tables and commands as a text declares them.
ghost use Rattle.std.specs.Prelude.{◌≡◌, ◌↔◌, IfOk, IsTrue};
ghost use Rattle.cl_tables.specs.Accessible.{AreShort};

use cl_table::{Declared, Names, Table};
use cl_value::Text;
use std::alloc::AllocError;

/// How many bytes a command-line name has at most.
pub const MAX_LINE_NAME: usize = 64;

/// `(define-command-table NAME :inherit-from (TABLE ...))`. `at` is its offset in the text in bytes.
#[derive(Drop)]
pub struct TableDecl {
    pub name: Text,
    pub inherit_from: Names,
    pub at: u32,
}

/// A command with the table in which it stands.
#[derive(Drop)]
pub struct CommandPlace {
    pub name: Text,
    pub line_name: Text,
    pub table: Text,
    pub keystroke: Option<Text>,
}

impl CommandPlace {
    /// The same command, which takes no memory: it fails only where one text has as many owners as can be counted.
    pub fn copy(&self) -> Result<CommandPlace, AllocError>
        ensures { IfOk result (λ c. c ≡ self.now) }
    {
        let keystroke = match &self.keystroke {
            Some(keystroke) => Some(keystroke.copy()?),
            None => None,
        };
        Ok(CommandPlace {
            name: self.name.copy()?,
            line_name: self.line_name.copy()?,
            table: self.table.copy()?,
            keystroke,
        })
    }
}

/// Whether no command-line name is longer than allowed.
pub fn names_are_short(places: &Table<CommandPlace>) -> bool
    ensures { IsTrue result ↔ AreShort places.now }
{
    for place in 0..places.len() {
        let Some(command) = places.at(place) else {
            unreachable!()
        };
        if command.line_name.as_slice().len() > MAX_LINE_NAME {
            return false;
        }
    }
    true
}

impl Declared for TableDecl {
    ghost own_name = { λ d. d.name };

    fn name(&self) -> &Text {
        &self.name
    }
}

impl Declared for CommandPlace {
    ghost own_name = { λ c. c.name };

    fn name(&self) -> &Text {
        &self.name
    }
}
