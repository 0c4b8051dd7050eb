//! Commands that are enabled or disabled.
ghost use Rattle.std.specs.Prelude.{◌≡◌, IfOk, OnOk};
ghost use Rattle.cl_tables.specs.Enabled.{AreAllEnabled, Enables, is_enabled, with_switch, with_switches};

use crate::declarations::CommandPlace;
use cl_table::{Declared, Table};
use cl_value::Text;
use indexmap::IndexMap;
use std::alloc::{AllocError, Global};
use std::marker::Model;

/// Which commands are enabled, seen as the list of their names with whether they are. It has the room for every change.
#[derive(Drop)]
pub struct Enabled {
    states: IndexMap<Text, bool>,
}

impl Model for Enabled {
    ghost use Rattle.std.specs.Prelude.{ℕ, Bool, List};

    ghost Value = { List (List ℕ × Bool) };

    ghost view = { λ e. e.states.entries };
}

impl Enabled {
    /// All commands of a text, enabled.
    pub fn new(alloc: Global, places: &Table<CommandPlace>) -> Result<Enabled, AllocError>
        ensures { IfOk result (AreAllEnabled places.now) }
    {
        places.is_table();
        let mut states = IndexMap::new(alloc);
        for place in 0..places.len() {
            let Some(command) = places.at(place) else {
                unreachable!()
            };
            add_enabled(command.name(), &mut states)?;
        }
        Ok(Enabled { states })
    }

    /// Switches commands on or off, one after another, which takes no memory. Unknown commands are passed over.
    pub fn apply(&mut self, switches: &[(Text, bool)])
        ensures { self.new ≡ with_switches switches.now self.old }
    {
        for (command, on) in switches {
            self.switch(command, *on);
        }
    }

    /// Whether a command is enabled.
    pub fn is(&self, command: &Text) -> bool
        ensures { result ≡ is_enabled command.now self.now }
    {
        match self.states.get(command) {
            Some(on) => *on,
            None => false,
        }
    }

    // Switches a command on or off.
    fn switch(&mut self, command: &Text, on: bool)
        ensures { self.new ≡ with_switch command.now on self.old }
    {
        if let Some(state) = self.states.get_mut(command) {
            *state = on;
        }
    }
}

// Adds a command, enabled.
fn add_enabled(command: &Text, states: &mut IndexMap<Text, bool>) -> Result<(), AllocError>
    ensures { OnOk result (Enables command.now states.old.entries states.new.entries) }
{
    match states.insert(command.copy()?, true) {
        Ok(_) => Ok(()),
        Err(_) => Err(AllocError),
    }
}
