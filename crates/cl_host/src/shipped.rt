//! The names of the host types that the program brings: days of a week and months of a year.
ghost use Rattle.std.specs.Prelude.{◌≡◌, ◌++◌, ◌∷◌, [], IfOk, OnOk};
ghost use Rattle.cl_host.specs.Names.{first_named};
ghost use Rattle.cl_host.specs.Shipped.{later_months, month_entries, weekday_entries};

use crate::NameList;
use cl_value::Text;
use std::alloc::{AllocError, Global};

// Puts a name behind the others.
fn put(alloc: Global, names: &mut NameList, name: &[u8], number: i64) -> Result<(), AllocError>
    ensures { OnOk result (names.new.items ≡ names.old.items ++ (name.now, number) ∷ []) }
{
    names.push((Text::from_slice(alloc, name)?, number))?;
    Ok(())
}

/// The names of the days, Monday with 0.
pub fn weekday_names(alloc: Global) -> Result<NameList, AllocError>
    ensures { IfOk result (λ names. names.items ≡ weekday_entries) }
{
    let mut names = Vec::with_capacity(alloc, 7)?;
    put(alloc, &mut names, b"Monday", 0)?;
    put(alloc, &mut names, b"Tuesday", 1)?;
    put(alloc, &mut names, b"Wednesday", 2)?;
    put(alloc, &mut names, b"Thursday", 3)?;
    put(alloc, &mut names, b"Friday", 4)?;
    put(alloc, &mut names, b"Saturday", 5)?;
    put(alloc, &mut names, b"Sunday", 6)?;
    Ok(names)
}

/// The number of the day of that name, compared by its bytes.
pub fn weekday_number(text: &[u8]) -> Option<i64>
    ensures { result ≡ first_named text.now weekday_entries }
{
    if text == b"Monday".as_slice() {
        Some(0)
    } else if text == b"Tuesday".as_slice() {
        Some(1)
    } else if text == b"Wednesday".as_slice() {
        Some(2)
    } else if text == b"Thursday".as_slice() {
        Some(3)
    } else if text == b"Friday".as_slice() {
        Some(4)
    } else if text == b"Saturday".as_slice() {
        Some(5)
    } else if text == b"Sunday".as_slice() {
        Some(6)
    } else {
        None
    }
}

/// The names of the months, January with 1.
pub fn month_names(alloc: Global) -> Result<NameList, AllocError>
    ensures { IfOk result (λ names. names.items ≡ month_entries) }
{
    let mut names = Vec::with_capacity(alloc, 12)?;
    put(alloc, &mut names, b"January", 1)?;
    put(alloc, &mut names, b"February", 2)?;
    put(alloc, &mut names, b"March", 3)?;
    put(alloc, &mut names, b"April", 4)?;
    put(alloc, &mut names, b"May", 5)?;
    put(alloc, &mut names, b"June", 6)?;
    put(alloc, &mut names, b"July", 7)?;
    put(alloc, &mut names, b"August", 8)?;
    put(alloc, &mut names, b"September", 9)?;
    put(alloc, &mut names, b"October", 10)?;
    put(alloc, &mut names, b"November", 11)?;
    put(alloc, &mut names, b"December", 12)?;
    Ok(names)
}

/// The number of the month of that name, compared by its bytes.
pub fn month_number(text: &[u8]) -> Option<i64>
    ensures { result ≡ first_named text.now month_entries }
{
    if text == b"January".as_slice() {
        Some(1)
    } else if text == b"February".as_slice() {
        Some(2)
    } else if text == b"March".as_slice() {
        Some(3)
    } else if text == b"April".as_slice() {
        Some(4)
    } else if text == b"May".as_slice() {
        Some(5)
    } else if text == b"June".as_slice() {
        Some(6)
    } else {
        later_month(text)
    }
}

fn later_month(text: &[u8]) -> Option<i64>
    ensures { result ≡ first_named text.now later_months }
{
    if text == b"July".as_slice() {
        Some(7)
    } else if text == b"August".as_slice() {
        Some(8)
    } else if text == b"September".as_slice() {
        Some(9)
    } else if text == b"October".as_slice() {
        Some(10)
    } else if text == b"November".as_slice() {
        Some(11)
    } else if text == b"December".as_slice() {
        Some(12)
    } else {
        None
    }
}
