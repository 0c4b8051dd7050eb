//! Counts by name.
ghost use Rattle.std.specs.Prelude.{◌≡◌, ℕ, ◌<◌, [], length, MatchOption, IfOk, OnErr, OnOk};
ghost use Rattle.std.specs.List.{position};
ghost use Rattle.cl_outside.specs.Memory.{one_more};
ghost use Rattle.cl_outside.specs.NameTables.{is_counted};
ghost use Rattle.cl_outside.specs.Named.{place_in, name_at, IsFirst, updated, count_of};

use crate::plan::raised;
use std::alloc::{AllocError, Global};
use std::marker::Model;

// Counts by name. A count is called by its place; what is not listed counts 0.
#[derive(Drop)]
pub(crate) struct CountTable {
    list: Vec<(String, u64)>,
}

impl Model for CountTable {
    ghost use Rattle.std.specs.Prelude.{List, ℕ};
    ghost use Rattle.cl_outside.specs.NameTables.{counts_of};

    ghost Value = { List (List ℕ × ℕ) };

    ghost view = { λ t. counts_of t.list.items };
}

impl CountTable {
    pub(crate) fn new(alloc: Global) -> CountTable
        ensures { result ≡ [] }
    {
        CountTable {
            list: Vec::new(alloc),
        }
    }

    // The place of a name, which is listed then.
    pub(crate) fn ready(&mut self, alloc: Global, name: &str) -> Result<usize, AllocError>
        ensures counts { OnOk result
            (self.new ≡ updated self.old name.now (count_of self.old name.now)) }
        ensures place { IfOk result (λ k. IsFirst self.new k × (name_at self.new k ≡ name.now)) }
        ensures err { OnErr result (self.new ≡ self.old) }
    {
        match self.find(name) {
            Some(place) => Ok(place),
            None => {
                let place = self.list.len();
                self.add(alloc, name)?;
                Ok(place)
            }
        }
    }

    // One more.
    pub(crate) fn raise(&mut self, place: usize)
        requires { IsFirst self.old place }
        ensures { self.new
            ≡ updated self.old (name_at self.old place)
            (one_more (count_of self.old (name_at self.old place))) }
    {
        let count = &mut self.list[place];
        count.1 = raised(count.1);
    }

    fn find(&self, name: &str) -> Option<usize>
        ensures { MatchOption result (place_in self.now name.now ≡ length self.now)
            (λ k. IsFirst self.now k × (name_at self.now k ≡ name.now)) }
    {
        position_of(self.list.as_slice(), name)
    }

    fn add(&mut self, alloc: Global, name: &str) -> Result<(), AllocError>
        requires { place_in self.old name.now ≡ length self.old }
        ensures counts { OnOk result (self.new ≡ updated self.old name.now 0) }
        ensures err { OnErr result (self.new ≡ self.old) }
    {
        let name = String::from_str(alloc, name)?;
        self.list.push((name, 0))?;
        Ok(())
    }
}

fn position_of(list: &[(String, u64)], name: &str) -> Option<usize>
    ensures { result ≡ position (is_counted name.now) list.now }
{
    list.iter().position(|count| count.0.as_str() == name)
}
