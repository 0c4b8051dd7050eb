//! Declarations in their places.
ghost use Rattle.std.specs.Prelude.{◌≡◌, ◌<◌, ◌+◌, ◌∷◌, drop, length, map};
ghost use Rattle.cl_application.specs.Panes.{declared_by};

use cl_table::{Declared, Table};

/// The declaration in a place of a table.
#[tactic(auto, using(crate::proofs::PlaceLemmas::declared_here, crate::proofs::PlaceLemmas::declared_there))]
pub fn declared<D: Declared>(table: &Table<D>, place: usize) -> &D
    requires { place < length table.now }
    ensures { map declared_by (drop place table.now) ≡ result.now ∷ map declared_by (drop (place + 1) table.now) }
{
    let Some(declaration) = table.at(place) else {
        unreachable!()
    };
    declaration
}
