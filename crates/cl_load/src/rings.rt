//! Rings of user types and of command tables.
ghost use Rattle.std.specs.Prelude.{◌≡◌, ◌==◌, if◌then◌else◌, min};
ghost use Rattle.cl_load.specs.Settling.{Builds};

use crate::types::build_types;
use cl_declare::Declarations;
use cl_expressions::Notes;
use cl_forms::FormRefusal;
use cl_lattice::Lattice;
use cl_ptext::Hosts;
use cl_tables::first_on_a_ring;
use std::alloc::Global;

/// The lattice of the types that are declared, on these host types, where no command table is on a ring; or the
/// first of refusals 9, 6 for an argument that comes to stand where it is not taken, and 13, in this order.
pub fn build<H: Hosts>(
    alloc: Global,
    hosts: &H,
    declarations: &Declarations,
    notes: &Notes,
) -> Result<Lattice, FormRefusal>
    ensures { Builds result (H.bounds hosts.now) declarations.now notes.now }
{
    let table = first_on_a_ring(alloc, &declarations.tables)?;
    match build_types(alloc, hosts, declarations, notes) {
        Ok(lattice) => match table {
            None => Ok(lattice),
            Some(at) => Err(FormRefusal::Refused(9, at)),
        },
        Err(FormRefusal::Refused(number, at)) => match table {
            None => Err(FormRefusal::Refused(number, at)),
            Some(table_at) => Err(FormRefusal::Refused(9, ring_at(table_at, number, at))),
        },
        Err(FormRefusal::Memory) => Err(FormRefusal::Memory),
    }
}

/// The offset of the first ring, where a command table is on one and the types are refused so.
fn ring_at(table_at: u32, number: u8, at: u32) -> u32
    ensures { result ≡ (if number == 9 then min table_at at else table_at) }
{
    if number == 9 {
        table_at.min(at)
    } else {
        table_at
    }
}
