//! Tables that are on no ring, as far as one walk finds them: all, where no table is on one.
ghost use Rattle.std.specs.Prelude.{◌≡◌, ◌≤◌, ◌+◌, IfOk, OnOk, length};
ghost use Rattle.std.specs.List.{list_all};
ghost use Rattle.cl_tables.specs.Clearing.{AreClear, is_clear, pending};

use crate::declarations::TableDecl;
use crate::walk::Visited;
use cl_table::Table;
use cl_value::Text;
use std::alloc::{AllocError, Global};

/// A step of the walk: a table before its parents, or after them.
#[derive(Drop)]
enum Step {
    Enter(Text),
    Leave(Text),
}

/// Tables that are on no ring.
pub(crate) fn clear_tables(
    alloc: Global,
    tables: &Table<TableDecl>,
) -> Result<Table<Visited>, AllocError>
    ensures { IfOk result (AreClear tables.now) }
{
    let mut entered = Table::new(alloc);
    let mut clear = Table::new(alloc);
    let mut steps = first_steps(alloc, tables)?;
    while let Some(step) = steps.pop() {
        take_step(tables, step, &mut entered, &mut clear, &mut steps)?;
    }
    Ok(clear)
}

// Each table is entered once at least.
fn first_steps(alloc: Global, tables: &Table<TableDecl>) -> Result<Vec<Step>, AllocError> {
    let mut steps = Vec::new(alloc);
    for place in 0..tables.len() {
        let Some(decl) = tables.at(place) else {
            unreachable!()
        };
        steps.push(Step::Enter(decl.name.copy()?))?;
    }
    Ok(steps)
}

// Takes a step of the walk.
fn take_step(
    tables: &Table<TableDecl>,
    step: Step,
    entered: &mut Table<Visited>,
    clear: &mut Table<Visited>,
    steps: &mut Vec<Step>,
) -> Result<(), AllocError>
    requires { AreClear tables.now clear.old }
    ensures clear { OnOk result (AreClear tables.now clear.new) }
    ensures falls { OnOk result (pending tables.now entered.new + length steps.new.items
        ≤ pending tables.now entered.old + length steps.old.items) }
{
    match step {
        Step::Enter(name) => enter(tables, name, entered, steps),
        Step::Leave(name) => leave(tables, name, clear),
    }
}

// Enters a table that was not entered before: its parents are entered, and then it is left.
fn enter(
    tables: &Table<TableDecl>,
    name: Text,
    entered: &mut Table<Visited>,
    steps: &mut Vec<Step>,
) -> Result<(), AllocError>
    ensures { OnOk result (pending tables.now entered.new + length steps.new.items
        ≤ pending tables.now entered.old + length steps.old.items) }
{
    if entered.get(name.as_slice()).is_some() {
        return Ok(());
    }
    let Some(decl) = tables.get(name.as_slice()) else {
        return Ok(());
    };
    steps.push(Step::Leave(name.copy()?))?;
    push_parents(decl.inherit_from.as_slice(), steps)?;
    entered.add_first(Visited { name })
}

// The parents of a table are to be entered.
fn push_parents(parents: &[Text], steps: &mut Vec<Step>) -> Result<(), AllocError>
    ensures { OnOk result (length steps.new.items ≡ length steps.old.items + length parents.now) }
{
    for parent in parents {
        steps.push(Step::Enter(parent.copy()?))?;
    }
    Ok(())
}

// Leaves a table: where its parents are on no ring, it is on none.
fn leave(
    tables: &Table<TableDecl>,
    name: Text,
    clear: &mut Table<Visited>,
) -> Result<(), AllocError>
    requires { AreClear tables.now clear.old }
    ensures { OnOk result (AreClear tables.now clear.new) }
{
    let Some(decl) = tables.get(name.as_slice()) else {
        return Ok(());
    };
    if !are_clear(tables, clear, decl.inherit_from.as_slice()) {
        return Ok(());
    }
    clear.add_first(Visited { name })
}

// Whether these tables are clear.
fn are_clear(tables: &Table<TableDecl>, clear: &Table<Visited>, names: &[Text]) -> bool
    ensures { result ≡ list_all (is_clear tables.now clear.now) names.now }
{
    for name in names {
        if !is_clear(tables, clear, name.as_slice()) {
            return false;
        }
    }
    true
}

// Whether a table is clear, or is not declared.
fn is_clear(tables: &Table<TableDecl>, clear: &Table<Visited>, name: &[u8]) -> bool
    ensures { result ≡ is_clear tables.now clear.now name.now }
{
    clear.get(name).is_some() || tables.get(name).is_none()
}
