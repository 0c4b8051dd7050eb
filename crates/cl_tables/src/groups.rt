//! The accessible commands in their order, by way of the commands of each table.
ghost use Rattle.std.specs.Prelude.{◌≡◌, ◌++◌, IfOk, OnOk};
ghost use Rattle.cl_tables.specs.Accessible.{commands_in, commands_of};
ghost use Rattle.cl_tables.specs.Groups.{AddsTo, AreGrouped, group_of};

use crate::declarations::CommandPlace;
use cl_table::{Names, Table};
use cl_value::Text;
use indexmap::IndexMap;
use std::alloc::{AllocError, Global};

/// The commands of each table that has some, in the order of the text.
type Groups = IndexMap<Text, Vec<CommandPlace>>;

/// For each table of an order, the commands that stand in it.
pub(crate) fn commands_in(
    alloc: Global,
    order: &Names,
    places: &Table<CommandPlace>,
) -> Result<Vec<CommandPlace>, AllocError>
    ensures { IfOk result (λ commands. commands.items ≡ commands_in order.now (commands_of places.now)) }
{
    let groups = groups_of(alloc, places)?;
    let mut commands = Vec::new(alloc);
    for table in order.as_slice() {
        add_group(&groups, table, &mut commands)?;
    }
    Ok(commands)
}

// Adds the commands of a table.
fn add_group(
    groups: &Groups,
    table: &Text,
    commands: &mut Vec<CommandPlace>,
) -> Result<(), AllocError>
    ensures { OnOk result (commands.new.items ≡ commands.old.items ++ group_of table.now groups.now.entries) }
{
    match groups.get(table) {
        Some(group) => add_copies(group.as_slice(), commands),
        None => Ok(()),
    }
}

// Puts commands behind the others.
fn add_copies(group: &[CommandPlace], commands: &mut Vec<CommandPlace>) -> Result<(), AllocError>
    ensures { OnOk result (commands.new.items ≡ commands.old.items ++ group.now) }
{
    for command in group {
        commands.push(command.copy()?)?;
    }
    Ok(())
}

// The commands of each table.
fn groups_of(alloc: Global, places: &Table<CommandPlace>) -> Result<Groups, AllocError>
    ensures { IfOk result (λ groups. AreGrouped (commands_of places.now) groups.entries) }
{
    let mut groups = IndexMap::new(alloc);
    for place in 0..places.len() {
        let Some(command) = places.at(place) else {
            unreachable!()
        };
        add_command(alloc, command.copy()?, &mut groups)?;
    }
    Ok(groups)
}

// Puts a command behind the others of its table.
fn add_command(alloc: Global, command: CommandPlace, groups: &mut Groups) -> Result<(), AllocError>
    ensures { OnOk result (AddsTo command groups.old.entries groups.new.entries) }
{
    let table = command.table.copy()?;
    let mut group = match groups.insert(table.copy()?, Vec::new(alloc)) {
        Ok(Some(group)) => group,
        Ok(None) => Vec::new(alloc),
        Err(_) => return Err(AllocError),
    };
    group.push(command)?;
    match groups.insert(table, group) {
        Ok(_) => Ok(()),
        Err(_) => Err(AllocError),
    }
}
