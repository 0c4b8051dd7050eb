//! What is accessible from a frame's command table.
ghost use Rattle.std.specs.Prelude.{IfOk};
ghost use Rattle.cl_session.specs.Accessible.{IsAccessible};
ghost use Rattle.cl_tables.specs.Rings.{HasNoRing};

use crate::naming::tables_of;
use crate::translators::places_of;
use cl_application::App;
use cl_tables::Tables;
use cl_translators::Translators;
use std::alloc::{AllocError, Global};

/// What is accessible from the command table of an application's frame: commands and translators.
#[derive(Drop)]
pub struct Accessible {
    pub tables: Tables,
    pub translators: Translators,
}

/// What is accessible in an application.
pub fn accessible_of(alloc: Global, app: &App) -> Result<Accessible, AllocError>
    requires { HasNoRing app.now.tables }
    ensures { IfOk result (IsAccessible app.now) }
{
    let tables = tables_of(alloc, app)?;
    let places = places_of(alloc, &app.translators)?;
    let translators = Translators::build(alloc, tables.inheritance(), &places)?;
    Ok(Accessible {
        tables,
        translators,
    })
}
