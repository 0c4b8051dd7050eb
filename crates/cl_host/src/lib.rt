//! Host types: numbers of the host within bounds, with names that a reader of the host finds.
#![tactic(auto)]

ghost use Rattle.std.specs.Prelude.{◌≡◌, ◌≤◌, ℕ, List, length};
ghost use Rattle.std.specs.Option.{ForSome};
ghost use Rattle.cl_host.specs.Names.{first_named, IsWithin};

use cl_value::Text;

mod program_types;
mod shipped;
#[cfg(test)]
mod tests;

pub use program_types::{NameReader, shipped_types};
pub use shipped::{month_names, month_number, weekday_names, weekday_number};

/// Names with their numbers, in order.
pub type NameList = Vec<(Text, i64)>;

/// A type of numbers that the host has, with the least and the greatest of them, and names for some. Its reader answers
/// the number of the first entry of a text among the names, on texts of at most 64 bytes, and these lie within the bounds.
#[derive(Drop)]
pub struct HostType {
    name: Text,
    low: i64,
    high: i64,
    names: NameList,
    read: Box<dyn Fn(&[u8]) -> Option<i64>>,
    ghost may_be_read: { (text : _) → length text.now ≤ 64 → pre read text },
    ghost reads_first: { (text : _) (answer : _) → length text.now ≤ 64 → post read text answer
        → answer ≡ first_named text.now names.items },
    ghost within: { (text : List ℕ) → length text ≤ 64
        → ForSome (first_named text names.items) (IsWithin low high) },
}

impl HostType {
    /// A host type of these parts.
    pub fn new(
        name: Text,
        low: i64,
        high: i64,
        names: NameList,
        read: Box<dyn Fn(&[u8]) -> Option<i64>>,
    ) -> HostType
        requires may_be_read { (text : _) → length text.now ≤ 64 → pre read text }
        requires reads_first { (text : _) (answer : _) → length text.now ≤ 64 → post read text answer
            → answer ≡ first_named text.now names.items }
        requires within { (text : List ℕ) → length text ≤ 64
            → ForSome (first_named text names.items) (IsWithin low high) }
        ensures name { result.name ≡ name }
        ensures bounds { (result.low ≡ low) × (result.high ≡ high) }
        ensures names { result.names ≡ names }
    {
        HostType {
            name,
            low,
            high,
            names,
            read,
        }
    }

    /// The number of the first entry of a text among the names, and `None` where it is no name.
    pub fn read(&self, text: &[u8]) -> Option<i64>
        requires { length text.now ≤ 64 }
        ensures first { result ≡ first_named text.now self.now.names.items }
        ensures within { ForSome result (IsWithin self.now.low self.now.high) }
    {
        (self.read)(text)
    }

    /// The name of the type.
    pub fn name(&self) -> &Text
        ensures { result.now ≡ self.now.name }
    {
        &self.name
    }

    /// The least number.
    pub fn low(&self) -> i64
        ensures { result ≡ self.now.low }
    {
        self.low
    }

    /// The greatest number.
    pub fn high(&self) -> i64
        ensures { result ≡ self.now.high }
    {
        self.high
    }

    /// The names with their numbers, in order.
    pub fn names(&self) -> &NameList
        ensures { result.now ≡ self.now.names }
    {
        &self.names
    }
}
