//! Names that stand twice among names.
ghost use Rattle.std.specs.Prelude.{◌≡◌, IfOk, OnOk, is_some};
ghost use Rattle.cl_table.specs.Names.{named};
ghost use Rattle.cl_phases.specs.Repeats.{first_repeated, with_met};

use cl_table::{Declared, Table};
use cl_value::Text;
use std::alloc::{AllocError, Global};

/// A name, with its offset.
#[derive(Drop)]
pub struct NameAt {
    pub name: Text,
    pub at: u32,
}

/// A name that was met.
#[derive(Drop)]
struct Met {
    name: Text,
}

impl Declared for Met {
    ghost own_name = { λ m. m.name };

    fn name(&self) -> &Text {
        &self.name
    }
}

/// The offset of the first name that stands before it too.
pub fn first_repeated(alloc: Global, names: &[NameAt]) -> Result<Option<u32>, AllocError>
    ensures { IfOk result (λ r. r ≡ first_repeated names.now) }
{
    let mut met = Table::new(alloc);
    for name in names {
        if was_met(&met, &name.name) {
            return Ok(Some(name.at));
        }
        add_met(&mut met, &name.name)?;
    }
    Ok(None)
}

fn was_met(met: &Table<Met>, name: &Text) -> bool
    ensures { result ≡ is_some (named name.now met.now) }
{
    met.get(name.as_slice()).is_some()
}

fn add_met(met: &mut Table<Met>, name: &Text) -> Result<(), AllocError>
    ensures { OnOk result (met.new ≡ with_met met.old name.now) }
{
    let name = name.copy()?;
    met.add_first(Met { name })
}
