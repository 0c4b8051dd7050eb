//! Indexes of commands: the first of those that have a key.
ghost use Rattle.std.specs.Prelude.{◌≡◌, IfOk, OnOk, option_map};
ghost use Rattle.cl_tables.specs.Indexes.{IsIndex, command_under, key_of, with_key};

use crate::declarations::CommandPlace;
use cl_table::{Declared, Table};
use cl_value::Text;
use std::alloc::{AllocError, Global};

/// By what commands are found. Command-line names are found in small letters.
#[derive(Clone, Copy)]
pub(crate) enum Key {
    Name,
    LineName,
    Keystroke,
}

/// A command under one of its keys.
#[derive(Drop)]
pub(crate) struct Keyed {
    key: Text,
    command: CommandPlace,
}

/// Commands by one of their keys.
pub(crate) type Index = Table<Keyed>;

impl Declared for Keyed {
    ghost own_name = { λ e. e.key };

    fn name(&self) -> &Text {
        &self.key
    }
}

/// The first of the commands for each of their keys.
pub(crate) fn index_of(
    alloc: Global,
    kind: Key,
    commands: &[CommandPlace],
) -> Result<Index, AllocError>
    ensures { IfOk result (IsIndex kind commands.now) }
{
    let mut index = Table::new(alloc);
    for command in commands {
        add_command(alloc, kind, command, &mut index)?;
    }
    Ok(index)
}

/// The command under a key.
pub(crate) fn command_under<'a>(index: &'a Index, key: &[u8]) -> Option<&'a CommandPlace>
    ensures { option_map (λ c. c.now) result ≡ command_under key.now index.now }
{
    match index.get(key) {
        Some(found) => Some(&found.command),
        None => None,
    }
}

// Puts a command under its key, where none stands there.
fn add_command(
    alloc: Global,
    kind: Key,
    command: &CommandPlace,
    index: &mut Index,
) -> Result<(), AllocError>
    ensures { OnOk result (index.new ≡ with_key (key_of kind command.now) command.now index.old) }
{
    match key_of(alloc, kind, command)? {
        Some(key) => index.add_first(Keyed {
            key,
            command: command.copy()?,
        }),
        None => Ok(()),
    }
}

// The key of a command.
fn key_of(alloc: Global, kind: Key, command: &CommandPlace) -> Result<Option<Text>, AllocError>
    ensures { IfOk result (λ key. key ≡ key_of kind command.now) }
{
    match kind {
        Key::Name => Ok(Some(command.name.copy()?)),
        Key::LineName => {
            let letters = command.line_name.as_slice().to_ascii_lowercase(alloc)?;
            Ok(Some(Text::from_vec(alloc, letters)?))
        }
        Key::Keystroke => match &command.keystroke {
            Some(keystroke) => Ok(Some(keystroke.copy()?)),
            None => Ok(None),
        },
    }
}
