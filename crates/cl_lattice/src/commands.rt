//! Copies of commands.
ghost use Rattle.std.specs.Prelude.{◌≡◌, IfOk};

use cl_syntax::{CommandType, CommandTypes};
use cl_table::Table;
use std::alloc::{AllocError, Global};

/// The same commands.
pub(crate) fn copy_commands(
    alloc: Global,
    commands: &CommandTypes,
) -> Result<CommandTypes, AllocError>
    ensures { IfOk result (λ c. c ≡ commands.now) }
{
    let mut copied = Table::new(alloc);
    commands.is_table();
    for place in 0..commands.len() {
        let Some(command) = commands.at(place) else {
            unreachable!()
        };
        copied.add_first(copy_command(command)?)?;
    }
    Ok(copied)
}

fn copy_command(command: &CommandType) -> Result<CommandType, AllocError>
    ensures { IfOk result (λ c. c ≡ command.now) }
{
    Ok(CommandType {
        name: command.name.copy()?,
        args: command.args.copy()?,
        at: command.at,
    })
}
