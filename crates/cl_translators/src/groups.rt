//! Translators by a name.
ghost use Rattle.std.specs.Prelude.{◌≡◌, [], OnOk};
ghost use Rattle.cl_translators.specs.Groups.{AddsUnder, group_of};

use crate::declarations::TranslatorPlace;
use cl_value::Text;
use indexmap::IndexMap;
use std::alloc::{AllocError, Global};
use std::marker::Model;

/// Translators by a name, in the order in which they were added.
#[derive(Drop)]
pub(crate) struct Groups {
    groups: IndexMap<Text, Vec<TranslatorPlace>>,
}

impl Model for Groups {
    ghost use Rattle.cl_translators.specs.Groups.{Grouped};

    ghost Value = { Grouped };

    ghost view = { λ g. g.groups.entries };
}

impl Groups {
    /// None, which takes no memory.
    pub(crate) fn new(alloc: Global) -> Groups
        ensures { result ≡ [] }
    {
        Groups {
            groups: IndexMap::new(alloc),
        }
    }

    /// The translators under a name.
    pub(crate) fn under(&self, name: &Text) -> &[TranslatorPlace]
        ensures { result.now ≡ group_of name.now self.now }
    {
        match self.groups.get(name) {
            Some(group) => group.as_slice(),
            None => &[],
        }
    }

    /// Puts a translator behind the others under a name.
    pub(crate) fn add(
        &mut self,
        alloc: Global,
        name: &Text,
        translator: TranslatorPlace,
    ) -> Result<(), AllocError>
        ensures { OnOk result (AddsUnder name.now translator self.old self.new) }
    {
        let mut group = match self.groups.insert(name.copy()?, Vec::new(alloc)) {
            Ok(Some(group)) => group,
            Ok(None) => Vec::new(alloc),
            Err(_) => return Err(AllocError),
        };
        group.push(translator)?;
        match self.groups.insert(name.copy()?, group) {
            Ok(_) => Ok(()),
            Err(_) => Err(AllocError),
        }
    }
}
