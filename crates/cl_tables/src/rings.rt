//! Rings of command tables.
ghost use Rattle.std.specs.Prelude.{◌≡◌, ◌↔◌, IfNone, IfOk, IsTrue};
ghost use Rattle.cl_tables.specs.Clearing.{AreClear};
ghost use Rattle.cl_tables.specs.Inheritance.{parents_of};
ghost use Rattle.cl_tables.specs.Rings.{HasNoRing, IsFirstOnRing, IsOnRing};

use crate::clearing::clear_tables;
use crate::declarations::TableDecl;
use crate::walk::{Visited, push_reversed, visit};
use cl_table::{Names, Table};
use std::alloc::{AllocError, Global};

/// The offset of the first declaration whose table is on a ring. Where there is none, no table is on a ring, declared or not.
pub fn first_on_a_ring(alloc: Global, tables: &Table<TableDecl>) -> Result<Option<u32>, AllocError>
    ensures first { IfOk result (IsFirstOnRing tables.now tables.now) }
    ensures clear { IfOk result (λ first. IfNone first (HasNoRing tables.now)) }
{
    let clear = clear_tables(alloc, tables)?;
    tables.is_table();
    for place in 0..tables.len() {
        let Some(decl) = tables.at(place) else {
            unreachable!()
        };
        if is_on_ring(alloc, tables, &clear, decl)? {
            return Ok(Some(decl.at));
        }
    }
    Ok(None)
}

// Whether a declared table is on a ring.
fn is_on_ring(
    alloc: Global,
    tables: &Table<TableDecl>,
    clear: &Table<Visited>,
    decl: &TableDecl,
) -> Result<bool, AllocError>
    requires clear { AreClear tables.now clear.now }
    requires declared { parents_of tables.now decl.now.name ≡ decl.now.inherit_from }
    ensures { IfOk result (λ on_ring. IsTrue on_ring ↔ IsOnRing tables.now decl.now.name) }
{
    if clear.get(decl.name.as_slice()).is_some() {
        Ok(false)
    } else {
        reaches_itself(alloc, tables, decl)
    }
}

// Whether a declared table is reached from its parents.
fn reaches_itself(
    alloc: Global,
    tables: &Table<TableDecl>,
    decl: &TableDecl,
) -> Result<bool, AllocError>
    requires { parents_of tables.now decl.now.name ≡ decl.now.inherit_from }
    ensures { IfOk result (λ reached. IsTrue reached ↔ IsOnRing tables.now decl.now.name) }
{
    let mut order = Names::new(alloc);
    let mut visited = Table::new(alloc);
    let mut waiting = Vec::new(alloc);
    push_reversed(decl.inherit_from.as_slice(), &mut waiting)?;
    while let Some(name) = waiting.pop() {
        visit(tables, name, &mut visited, &mut order, &mut waiting)?;
    }
    Ok(visited.get(decl.name.as_slice()).is_some())
}
