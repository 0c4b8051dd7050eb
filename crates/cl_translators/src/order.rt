//! The order of translators.
ghost use Rattle.std.specs.Prelude.{◌≡◌, ◌++◌, IfOk, OnOk, filter};
ghost use Rattle.std.specs.List.{flat_map};
ghost use Rattle.cl_translators.specs.Groups.{AreByTable, low_in};
ghost use Rattle.cl_translators.specs.Order.{has_low, in_order, translators_of};

use crate::declarations::TranslatorPlace;
use crate::groups::Groups;
use cl_table::{Names, Table};
use std::alloc::{AllocError, Global};

/// The digits, the greatest first.
const DIGITS: [u8; 10] = [9, 8, 7, 6, 5, 4, 3, 2, 1, 0];

/// The translators that stand in tables of an order: greater low part of the priority, then earlier table, then earlier place in
/// the text.
pub(crate) fn in_order(
    alloc: Global,
    order: &Names,
    places: &Table<TranslatorPlace>,
) -> Result<Vec<TranslatorPlace>, AllocError>
    ensures { IfOk result (λ ts. ts.items ≡ in_order order.now (translators_of places.now)) }
{
    let groups = by_table(alloc, places)?;
    let mut translators = Vec::new(alloc);
    add_lows(&groups, order, &DIGITS, &mut translators)?;
    Ok(translators)
}

// The translators of each table, in the order of the text.
fn by_table(alloc: Global, places: &Table<TranslatorPlace>) -> Result<Groups, AllocError>
    ensures { IfOk result (AreByTable (translators_of places.now)) }
{
    let mut groups = Groups::new(alloc);
    for place in 0..places.len() {
        let Some(translator) = places.at(place) else {
            unreachable!()
        };
        groups.add(alloc, &translator.table, translator.copy()?)?;
    }
    Ok(groups)
}

// Adds the translators of each of these low parts.
fn add_lows(
    groups: &Groups,
    order: &Names,
    lows: &[u8],
    translators: &mut Vec<TranslatorPlace>,
) -> Result<(), AllocError>
    ensures { OnOk result (translators.new.items ≡ translators.old.items
        ++ flat_map (low_in groups.now order.now) lows.now) }
{
    for low in lows {
        add_low(groups, order, *low, translators)?;
    }
    Ok(())
}

// Adds the translators of one low part.
fn add_low(
    groups: &Groups,
    order: &Names,
    low: u8,
    translators: &mut Vec<TranslatorPlace>,
) -> Result<(), AllocError>
    ensures { OnOk result (translators.new.items ≡ translators.old.items ++ low_in groups.now order.now low) }
{
    for table in order.as_slice() {
        add_group(groups.under(table), low, translators)?;
    }
    Ok(())
}

// Adds those of a group that have this low part.
fn add_group(
    group: &[TranslatorPlace],
    low: u8,
    translators: &mut Vec<TranslatorPlace>,
) -> Result<(), AllocError>
    ensures { OnOk result (translators.new.items ≡ translators.old.items ++ filter (has_low low) group.now) }
{
    for translator in group {
        if translator.priority % 10 == low {
            translators.push(translator.copy()?)?;
        }
    }
    Ok(())
}
