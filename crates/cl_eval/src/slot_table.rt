//! Slots by name, with their values.
ghost use Rattle.std.specs.Prelude.{◌≡◌, [], OnOk, OnErr, IfOk, option_map, position, ◌<◌, slice_set, vec_len};
ghost use Rattle.cl_value.specs.Value.{data_of};
ghost use Rattle.cl_eval.specs.Slots.{value_named, put, is_named};

use cl_value::{Text, Value};
use std::alloc::{AllocError, Global};
use std::marker::Model;

/// The slots of a frame, which contracts see as the list of their names with their values, in the
/// order in which they were added.
#[derive(Drop)]
pub struct Slots {
    entries: Vec<(Text, Value)>,
}

impl Model for Slots {
    ghost use Rattle.std.specs.Prelude.{ℕ, List, map};
    ghost use Rattle.std.specs.Coded.{coded_list, coded_ℕ, coded×};
    ghost use Rattle.cl_value.specs.Data.{Data, data_code};

    ghost Value = { List (List ℕ × Data) };

    ghost coded = { coded_list (coded× (coded_list coded_ℕ) data_code) };

    ghost use Rattle.cl_eval.specs.Slots.{entry_of};

    ghost view = { λ s. map entry_of s.entries.items };
}

impl Slots {
    /// No slot.
    pub fn new(alloc: Global) -> Slots
        ensures { result ≡ [] }
    {
        Slots {
            entries: Vec::new(alloc),
        }
    }

    /// The value of the slot of that name, and None exactly where there is none.
    pub fn get(&self, name: &[u8]) -> Option<&Value>
        ensures { option_map (λ v. data_of v.now) result ≡ value_named name.now self.now }
    {
        for entry in &self.entries {
            if entry.0.as_slice() == name {
                return Some(&entry.1);
            }
        }
        None
    }

    /// Gives the slot of that name this value, or adds it last.
    pub fn put(&mut self, name: Text, value: Value) -> Result<(), AllocError>
        ensures ok { OnOk result (self.new ≡ put name (data_of value) self.old) }
        ensures err { OnErr result (self.new ≡ self.old) }
    {
        match place_of(&self.entries, name.as_slice()) {
            Some(at) => {
                set_entry(&mut self.entries, at, (name, value));
                Ok(())
            }
            None => {
                self.entries.push((name, value))?;
                Ok(())
            }
        }
    }

    /// The same slots; no value is copied deep.
    pub fn copy(&self, alloc: Global) -> Result<Slots, AllocError>
        ensures { IfOk result (λ s. s ≡ self.now) }
    {
        let mut entries = Vec::new(alloc);
        for entry in &self.entries {
            entries.push((entry.0.copy()?, entry.1.copy()?))?;
        }
        Ok(Slots { entries })
    }
}

// The place of the first entry of that name.
fn place_of(entries: &[(Text, Value)], name: &[u8]) -> Option<usize>
    ensures { result ≡ position (is_named name.now) entries.now }
{
    entries.iter().position(|entry| entry.0.as_slice() == name)
}

fn set_entry(entries: &mut Vec<(Text, Value)>, at: usize, entry: (Text, Value))
    requires { at < vec_len entries.old }
    ensures { entries.new.items ≡ slice_set entries.old.items at entry }
{
    entries[at] = entry;
}
