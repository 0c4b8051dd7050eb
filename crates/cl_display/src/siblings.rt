//! The updates so far at a level.
ghost use Rattle.std.specs.BTreeSet.{insert_key};
ghost use Rattle.std.specs.Prelude.{◌≡◌, ◌<◌, ◌^◌, [], IfOk, OnOk, map};
ghost use Rattle.cl_value.specs.Data.{order_of};
ghost use Rattle.cl_value.specs.Value.{data_of};
ghost use Rattle.cl_display.specs.Siblings.{count_at, ids_at, is_taken, note, with_ids};

use cl_syntax::Site;
use cl_value::Value;
use indexmap::IndexMap;
use std::alloc::{AllocError, Global};
use std::collections::BTreeSet;
use std::marker::Model;

/// The ids of the updates so far at a level, by their sites.
#[derive(Drop)]
pub struct Siblings {
    sites: IndexMap<Site, BTreeSet<Value>>,
}

impl Model for Siblings {
    ghost use Rattle.std.specs.Coded.{coded_list, coded×};
    ghost use Rattle.std.specs.Prelude.{map};
    ghost use Rattle.cl_syntax.specs.UpdateTree.{site_code};
    ghost use Rattle.cl_value.specs.Data.{data_code};
    ghost use Rattle.cl_value.specs.Value.{data_of};
    ghost use Rattle.cl_display.specs.Siblings.{Siblings};

    ghost Value = { Siblings };

    ghost coded = { coded_list (coded× site_code (coded_list data_code)) };

    ghost view = { λ s. map (λ e. (e.0, map data_of e.1.keys)) s.sites.entries };
}

impl Siblings {
    /// None, which takes no memory.
    pub fn new(alloc: Global) -> Siblings
        ensures { result ≡ [] }
    {
        Siblings {
            sites: IndexMap::new(alloc),
        }
    }

    /// How many updates of the site there are.
    pub fn count_at(&self, site: Site) -> usize
        ensures count { result ≡ count_at site self.now }
        ensures small { result < 2 ^ 63 }
    {
        match self.sites.get(&site) {
            Some(ids) => ids.len(),
            None => 0,
        }
    }

    /// Whether an update of the site has the id.
    pub fn is_taken(&self, site: Site, id: &Value) -> bool
        ensures { result ≡ is_taken site (data_of id.now) self.now }
    {
        match self.sites.get(&site) {
            Some(ids) => ids.contains(id),
            None => false,
        }
    }

    /// Takes in an update.
    #[tactic(auto, using(crate::proofs::SiblingLemmas::ids_twice))]
    pub fn note(&mut self, alloc: Global, site: Site, id: Value) -> Result<(), AllocError>
        ensures { OnOk result (self.new ≡ note site (data_of id) self.old) }
    {
        let mut ids = self.take_ids(alloc, site)?;
        add_id(&mut ids, id)?;
        self.put_ids(site, ids)
    }

    // The ids of a site, which has none from now on.
    fn take_ids(&mut self, alloc: Global, site: Site) -> Result<BTreeSet<Value>, AllocError>
        ensures ids { IfOk result (λ ids. map data_of ids.keys ≡ ids_at site self.old) }
        ensures rest { OnOk result (self.new ≡ with_ids site [] self.old) }
    {
        let ids = self.sites.insert(site, BTreeSet::new(alloc))?;
        Ok(ids.unwrap_or(BTreeSet::new(alloc)))
    }

    // These are the ids of a site.
    fn put_ids(&mut self, site: Site, ids: BTreeSet<Value>) -> Result<(), AllocError>
        ensures { OnOk result (self.new ≡ with_ids site (map data_of ids.keys) self.old) }
    {
        self.sites.insert(site, ids)?;
        Ok(())
    }
}

// One id more.
fn add_id(ids: &mut BTreeSet<Value>, id: Value) -> Result<(), AllocError>
    ensures { OnOk result (map data_of ids.new.keys ≡ insert_key order_of (map data_of ids.old.keys) (data_of id)) }
{
    ids.insert(id)?;
    Ok(())
}
