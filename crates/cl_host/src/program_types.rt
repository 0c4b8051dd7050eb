//! The host types that the program brings, made with readers of their names.
ghost use Rattle.std.specs.Prelude.{◌≡◌, ◌≤◌, ◌∷◌, [], IfOk, codes, length, map, pos};
ghost use Rattle.cl_host.specs.Names.{first_named};
ghost use Rattle.cl_host.specs.Shipped.{month_entries, weekday_entries};

use crate::HostType;
use crate::shipped::{month_names, weekday_names};
use cl_value::Text;
use std::alloc::{AllocError, Global};

/// What finds the number of a name.
pub type NameReader = Box<dyn Fn(&[u8]) -> Option<i64>>;

/// The days of a week and the months of a year, by readers of their names.
pub fn shipped_types(
    alloc: Global,
    day: NameReader,
    month: NameReader,
) -> Result<[HostType; 2], AllocError>
    requires day_may_be_read { (text : _) → length text.now ≤ 64 → pre day text }
    requires month_may_be_read { (text : _) → length text.now ≤ 64 → pre month text }
    requires reads_days { (text : _) (answer : _) → length text.now ≤ 64 → post day text answer
        → answer ≡ first_named text.now weekday_entries }
    requires reads_months { (text : _) (answer : _) → length text.now ≤ 64 → post month text answer
        → answer ≡ first_named text.now month_entries }
    ensures names { IfOk result (λ types. map (λ t. t.name) types ≡ codes "weekday" ∷ codes "month" ∷ []) }
    ensures least { IfOk result (λ types. map (λ t. t.low) types ≡ pos 0 ∷ pos 1 ∷ []) }
    ensures greatest { IfOk result (λ types. map (λ t. t.high) types ≡ pos 6 ∷ pos 12 ∷ []) }
    ensures entries { IfOk result
        (λ types. map (λ t. t.names.items) types ≡ weekday_entries ∷ month_entries ∷ []) }
{
    Ok([weekday(alloc, day)?, month_of_year(alloc, month)?])
}

// The days of a week.
fn weekday(alloc: Global, read: NameReader) -> Result<HostType, AllocError>
    requires may_be_read { (text : _) → length text.now ≤ 64 → pre read text }
    requires reads { (text : _) (answer : _) → length text.now ≤ 64 → post read text answer
        → answer ≡ first_named text.now weekday_entries }
    ensures name { IfOk result (λ t. t.name ≡ codes "weekday") }
    ensures bounds { IfOk result (λ t. (t.low ≡ pos 0) × (t.high ≡ pos 6)) }
    ensures names { IfOk result (λ t. t.names.items ≡ weekday_entries) }
{
    let name = Text::from_slice(alloc, b"weekday")?;
    let names = weekday_names(alloc)?;
    Ok(HostType::new(name, 0, 6, names, read))
}

// The months of a year.
fn month_of_year(alloc: Global, read: NameReader) -> Result<HostType, AllocError>
    requires may_be_read { (text : _) → length text.now ≤ 64 → pre read text }
    requires reads { (text : _) (answer : _) → length text.now ≤ 64 → post read text answer
        → answer ≡ first_named text.now month_entries }
    ensures name { IfOk result (λ t. t.name ≡ codes "month") }
    ensures bounds { IfOk result (λ t. (t.low ≡ pos 1) × (t.high ≡ pos 12)) }
    ensures names { IfOk result (λ t. t.names.items ≡ month_entries) }
{
    let name = Text::from_slice(alloc, b"month")?;
    let names = month_names(alloc)?;
    Ok(HostType::new(name, 1, 12, names, read))
}
