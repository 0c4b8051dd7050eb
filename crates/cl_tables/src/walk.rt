//! Visits of tables, each with its parents after it.
ghost use Rattle.std.specs.Prelude.{◌≡◌, ◌++◌, ◌∷◌, [], OnOk, reverse};
ghost use Rattle.cl_tables.specs.Inheritance.{parents_of};
ghost use Rattle.cl_tables.specs.Walk.{is_visited, with_more, with_visit};

use crate::declarations::TableDecl;
use cl_table::{Declared, Names, Table};
use cl_value::Text;
use std::alloc::AllocError;

/// A table that was visited.
#[derive(Drop)]
pub(crate) struct Visited {
    pub(crate) name: Text,
}

impl Declared for Visited {
    ghost own_name = { λ v. v.name };

    fn name(&self) -> &Text {
        &self.name
    }
}

/// Visits a table: where it was not visited before, its parents wait, the first of them last.
pub(crate) fn visit(
    tables: &Table<TableDecl>,
    name: Text,
    visited: &mut Table<Visited>,
    order: &mut Names,
    waiting: &mut Vec<Text>,
) -> Result<(), AllocError>
    ensures visited { OnOk result (visited.new ≡ with_visit name visited.old) }
    ensures order { OnOk result (order.new ≡ with_more (is_visited name visited.old) order.old (name ∷ [])) }
    ensures waiting { OnOk result (waiting.new.items
        ≡ with_more (is_visited name visited.old) waiting.old.items (reverse (parents_of tables.now name))) }
{
    if visited.get(name.as_slice()).is_some() {
        return Ok(());
    }
    if let Some(decl) = tables.get(name.as_slice()) {
        push_reversed(decl.inherit_from.as_slice(), waiting)?;
    }
    order.push(name.copy()?)?;
    visited.add_first(Visited { name })
}

/// Puts names behind the others, the last of them first.
pub(crate) fn push_reversed(names: &[Text], waiting: &mut Vec<Text>) -> Result<(), AllocError>
    ensures { OnOk result (waiting.new.items ≡ waiting.old.items ++ reverse names.now) }
{
    let mut rest = names;
    while let Some((last, before)) = rest.split_last() {
        waiting.push(last.copy()?)?;
        rest = before;
    }
    Ok(())
}
