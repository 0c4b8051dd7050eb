//! Tables, names, keystrokes and switches, with memory for all.
use crate::{CommandPlace, Enabled, TableDecl, Tables, first_on_a_ring, names_are_short};
use cl_line::Line;
use cl_table::{Names, Table};
use cl_value::Text;
use std::alloc::{AllocError, Global};
use std::test::Fail;

fn text(alloc: Global, name: &str) -> Result<Text, AllocError> {
    Text::from_slice(alloc, name.as_bytes())
}

fn names(alloc: Global, parents: &[&str]) -> Result<Names, AllocError> {
    let mut names = Names::new(alloc);
    for parent in parents {
        names.push(text(alloc, *parent)?)?;
    }
    Ok(names)
}

fn table(alloc: Global, name: &str, parents: &[&str], at: u32) -> Result<TableDecl, AllocError> {
    Ok(TableDecl {
        name: text(alloc, name)?,
        inherit_from: names(alloc, parents)?,
        at,
    })
}

fn with_table(
    alloc: Global,
    mut tables: Table<TableDecl>,
    name: &str,
    parents: &[&str],
    at: u32,
) -> Result<Table<TableDecl>, AllocError> {
    tables.add_first(table(alloc, name, parents, at)?)?;
    Ok(tables)
}

fn command(
    alloc: Global,
    name: &str,
    line_name: &str,
    table: &str,
    keystroke: &str,
) -> Result<CommandPlace, AllocError> {
    Ok(CommandPlace {
        name: text(alloc, name)?,
        line_name: text(alloc, line_name)?,
        table: text(alloc, table)?,
        keystroke: stroke(alloc, keystroke)?,
    })
}

fn stroke(alloc: Global, keystroke: &str) -> Result<Option<Text>, AllocError> {
    if keystroke.is_empty() {
        Ok(None)
    } else {
        Ok(Some(text(alloc, keystroke)?))
    }
}

fn with_command(
    alloc: Global,
    mut places: Table<CommandPlace>,
    name: &str,
    line_name: &str,
    table: &str,
    keystroke: &str,
) -> Result<Table<CommandPlace>, AllocError> {
    places.add_first(command(alloc, name, line_name, table, keystroke)?)?;
    Ok(places)
}

fn some_tables(alloc: Global) -> Result<Table<TableDecl>, AllocError> {
    let tables = Table::new(alloc);
    let tables = with_table(alloc, tables, "app", &["tools", "global-command-table"], 10)?;
    let tables = with_table(alloc, tables, "tools", &["shared", "shared"], 20)?;
    let tables = with_table(alloc, tables, "shared", &["global-command-table"], 30)?;
    with_table(alloc, tables, "other", &[], 40)
}

fn some_commands(alloc: Global) -> Result<Table<CommandPlace>, AllocError> {
    let places = Table::new(alloc);
    let places = with_command(
        alloc,
        places,
        "com-quit",
        "Quit",
        "global-command-table",
        "control-q",
    )?;
    let places = with_command(alloc, places, "com-open", "Open", "tools", "control-o")?;
    let places = with_command(alloc, places, "com-open-file", "Open File", "shared", "")?;
    let places = with_command(alloc, places, "com-shout", "OPEN", "app", "control-q")?;
    let places = with_command(alloc, places, "com-hidden", "Hidden", "other", "control-h")?;
    with_command(alloc, places, "com-nothing", "", "shared", "")
}

fn seen(
    alloc: Global,
    tables: &Table<TableDecl>,
    places: &Table<CommandPlace>,
) -> Result<Option<Tables>, AllocError> {
    if !names_are_short(places) {
        return Ok(None);
    }
    match first_on_a_ring(alloc, tables)? {
        Some(_) => Ok(None),
        None => Ok(Some(Tables::build(alloc, tables, places, b"app".as_slice())?)),
    }
}

fn seen_from_app(alloc: Global) -> Result<Option<Tables>, AllocError> {
    let tables = some_tables(alloc)?;
    let places = some_commands(alloc)?;
    seen(alloc, &tables, &places)
}

fn named<'a>(
    alloc: Global,
    tables: &'a Tables,
    text: &str,
) -> Result<Option<(&'a [u8], usize)>, AllocError> {
    let mut line = Line::new(alloc)?;
    let _ = line.push_text(text.as_bytes());
    Ok(match tables.find_name(&line.front()) {
        Some((symbol, length)) => Some((symbol.as_slice(), length)),
        None => None,
    })
}

fn stroked<'a>(tables: &'a Tables, stroke: &str) -> Option<&'a [u8]> {
    match tables.find_stroke(stroke.as_bytes()) {
        Some(symbol) => Some(symbol.as_slice()),
        None => None,
    }
}

#[test]
fn tables_come_in_preorder(rt: HostRuntime) -> Result<(), Fail> {
    let tables = seen_from_app(rt.alloc())?.expect(&rt, "no ring, and no long name");
    let order = tables.inheritance();
    assert_eq!(rt; order.len(), 4);
    assert_eq!(rt; order.place_of(b"app".as_slice()), Some(0));
    assert_eq!(rt; order.place_of(b"tools".as_slice()), Some(1));
    assert_eq!(rt; order.place_of(b"shared".as_slice()), Some(2));
    assert_eq!(rt; order.place_of(b"global-command-table".as_slice()), Some(3));
    Ok(())
}

#[test]
fn commands_are_accessible_through_inherited_tables(rt: HostRuntime) -> Result<(), Fail> {
    let tables = seen_from_app(rt.alloc())?.expect(&rt, "no ring, and no long name");
    assert_eq!(rt; tables.commands().len(), 5);
    assert!(rt; tables.accessible(b"com-open-file".as_slice()));
    assert!(rt; !tables.accessible(b"com-hidden".as_slice()));
    assert!(rt; !tables.accessible(b"com-unknown".as_slice()));
    Ok(())
}

#[test]
fn the_first_command_of_a_keystroke_counts(rt: HostRuntime) -> Result<(), Fail> {
    let tables = seen_from_app(rt.alloc())?.expect(&rt, "no ring, and no long name");
    assert_eq!(rt;
        stroked(&tables, "control-q"),
        Some(b"com-shout".as_slice())
    );
    assert_eq!(rt; stroked(&tables, "control-o"), Some(b"com-open".as_slice()));
    assert_eq!(rt; stroked(&tables, "control-h"), None);
    Ok(())
}

#[test]
fn the_longest_name_of_a_line_counts(rt: HostRuntime) -> Result<(), Fail> {
    let alloc = rt.alloc();
    let tables = seen_from_app(alloc)?.expect(&rt, "no ring, and no long name");
    assert_eq!(rt;
        named(alloc, &tables, "open file now")?,
        Some((b"com-open-file".as_slice(), 9))
    );
    assert_eq!(rt;
        named(alloc, &tables, "Open filet")?,
        Some((b"com-shout".as_slice(), 4))
    );
    assert_eq!(rt; named(alloc, &tables, "openly")?, None);
    assert_eq!(rt; named(alloc, &tables, "hidden")?, None);
    assert_eq!(rt;
        named(alloc, &tables, "")?,
        Some((b"com-nothing".as_slice(), 0))
    );
    Ok(())
}

fn with_switch(
    alloc: Global,
    mut switches: Vec<(Text, bool)>,
    command: &str,
    on: bool,
) -> Result<Vec<(Text, bool)>, AllocError> {
    switches.push((text(alloc, command)?, on))?;
    Ok(switches)
}

fn some_switches(alloc: Global) -> Result<Vec<(Text, bool)>, AllocError> {
    let switches = Vec::new(alloc);
    let switches = with_switch(alloc, switches, "com-open", false)?;
    let switches = with_switch(alloc, switches, "com-quit", false)?;
    let switches = with_switch(alloc, switches, "com-open", true)?;
    with_switch(alloc, switches, "com-unknown", true)
}

fn switched(alloc: Global, switches: &[(Text, bool)]) -> Result<Enabled, AllocError> {
    let places = some_commands(alloc)?;
    let mut enabled = Enabled::new(alloc, &places)?;
    enabled.apply(switches);
    Ok(enabled)
}

fn is_enabled(alloc: Global, enabled: &Enabled, command: &str) -> Result<bool, AllocError> {
    Ok(enabled.is(&text(alloc, command)?))
}

#[test]
fn the_last_switch_of_a_command_counts(rt: HostRuntime) -> Result<(), Fail> {
    let alloc = rt.alloc();
    let switches = some_switches(alloc)?;
    let enabled = switched(alloc, switches.as_slice())?;
    assert_eq!(rt; is_enabled(alloc, &enabled, "com-open"), Ok(true));
    assert_eq!(rt; is_enabled(alloc, &enabled, "com-quit"), Ok(false));
    assert_eq!(rt; is_enabled(alloc, &enabled, "com-hidden"), Ok(true));
    assert_eq!(rt; is_enabled(alloc, &enabled, "com-unknown"), Ok(false));
    Ok(())
}

fn with_ring(alloc: Global) -> Result<Table<TableDecl>, AllocError> {
    let tables = some_tables(alloc)?;
    let tables = with_table(alloc, tables, "before", &["first"], 50)?;
    let tables = with_table(alloc, tables, "first", &["app", "second"], 60)?;
    with_table(alloc, tables, "second", &["first"], 70)
}

#[test]
fn the_first_table_on_a_ring_is_found(rt: HostRuntime) -> Result<(), Fail> {
    let alloc = rt.alloc();
    assert_eq!(rt; first_on_a_ring(alloc, &some_tables(alloc)?)?, None);
    assert_eq!(rt; first_on_a_ring(alloc, &with_ring(alloc)?)?, Some(60));
    Ok(())
}
