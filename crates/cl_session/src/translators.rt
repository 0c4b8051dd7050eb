//! Where the translators of an application stand.
ghost use Rattle.std.specs.Prelude.{◌≡◌, IfOk};
ghost use Rattle.cl_session.specs.TranslatorPlaces.{place_of, places_of};

use cl_application::{TranslatorDecl, TranslatorDecls};
use cl_table::Table;
use cl_translators::TranslatorPlace;
use std::alloc::{AllocError, Global};

/// The translators with the tables in which they stand.
pub fn places_of(
    alloc: Global,
    translators: &TranslatorDecls,
) -> Result<Table<TranslatorPlace>, AllocError>
    ensures { IfOk result (λ p. p ≡ places_of translators.now) }
{
    let mut places = Table::new(alloc);
    translators.is_table();
    for place in 0..translators.len() {
        let Some(translator) = translators.at(place) else {
            unreachable!()
        };
        places.add_first(place_of(translator)?)?;
    }
    Ok(places)
}

// Where a translator stands.
fn place_of(translator: &TranslatorDecl) -> Result<TranslatorPlace, AllocError>
    ensures { IfOk result (λ p. p ≡ place_of translator.now) }
{
    Ok(TranslatorPlace {
        name: translator.name.copy()?,
        table: translator.table.copy()?,
        gesture: translator.gesture,
        from: translator.from.name.text().copy()?,
        priority: translator.priority,
    })
}
