//! The inheritance order of a table.
ghost use Rattle.std.specs.Prelude.{◌≡◌, IfOk};
ghost use Rattle.cl_tables.specs.Inheritance.{inheritance};
ghost use Rattle.cl_tables.specs.Rings.{HasNoRing};

use crate::declarations::TableDecl;
use crate::walk::visit;
use cl_table::{Names, Table};
use cl_value::Text;
use std::alloc::{AllocError, Global};

/// The inheritance order of a table.
pub(crate) fn inheritance(
    alloc: Global,
    tables: &Table<TableDecl>,
    root: &[u8],
) -> Result<Names, AllocError>
    requires { HasNoRing tables.now }
    ensures { IfOk result (λ order. order ≡ inheritance tables.now root.now) }
{
    let mut order = Names::new(alloc);
    let mut visited = Table::new(alloc);
    let mut waiting = Vec::new(alloc);
    waiting.push(Text::from_slice(alloc, root)?)?;
    while let Some(name) = waiting.pop() {
        visit(tables, name, &mut visited, &mut order, &mut waiting)?;
    }
    Ok(order)
}
