//! Which variables count where a form stands.
ghost use Rattle.std.specs.Prelude.{◌≡◌, ◌∷◌, ◌++◌, [], length, take, OnOk};
ghost use Rattle.cl_cover.specs.Sights.{back_to, behind, everything, is_hidden, is_name_among, slots};

use cl_value::Text;
use std::alloc::{AllocError, Global};
use std::marker::Model;

/// Names that are bound, seen as their list, the newest last.
#[derive(Drop)]
pub(crate) struct BoundNames {
    items: Vec<Text>,
}

impl Model for BoundNames {
    ghost use Rattle.std.specs.Prelude.{ℕ, List};

    ghost Value = { List (List ℕ) };

    ghost view = { λ n. n.items.items };
}

/// The variables that count: all but those that are hidden, or none.
#[derive(Drop)]
pub(crate) struct Sight {
    pub(crate) slots_alone: bool,
    pub(crate) hidden: BoundNames,
}

impl BoundNames {
    fn new(alloc: Global) -> BoundNames
        ensures { result ≡ [] }
    {
        BoundNames {
            items: Vec::new(alloc),
        }
    }

    fn push(&mut self, name: Text) -> Result<(), AllocError>
        ensures { OnOk result (self.new ≡ self.old ++ name ∷ []) }
    {
        self.items.push(name)?;
        Ok(())
    }

    fn len(&self) -> usize
        ensures { result ≡ length self.now }
    {
        self.items.len()
    }

    fn truncate(&mut self, count: usize)
        ensures { self.new ≡ take count self.old }
    {
        self.items.truncate(count);
    }

    fn contains(&self, name: &Text) -> bool
        ensures { result ≡ is_name_among name.now self.now }
    {
        for bound in &self.items {
            if bound == name {
                return true;
            }
        }
        false
    }
}

impl Sight {
    /// Every variable.
    pub(crate) fn everything(alloc: Global) -> Sight
        ensures { result ≡ everything }
    {
        Sight {
            slots_alone: false,
            hidden: BoundNames::new(alloc),
        }
    }

    /// No variable.
    pub(crate) fn slots(alloc: Global) -> Sight
        ensures { result ≡ slots }
    {
        Sight {
            slots_alone: true,
            hidden: BoundNames::new(alloc),
        }
    }

    /// Whether a variable of that name does not count.
    pub(crate) fn is_hidden(&self, name: &Text) -> bool
        ensures { result ≡ is_hidden self.now name.now }
    {
        self.slots_alone || self.hidden.contains(name)
    }

    /// Hides a variable.
    pub(crate) fn hide(&mut self, name: &Text) -> Result<(), AllocError>
        ensures { OnOk result (self.new ≡ behind name.now self.old) }
    {
        self.hidden.push(name.copy()?)
    }

    /// How many names are hidden.
    pub(crate) fn depth(&self) -> usize
        ensures { result ≡ length self.now.hidden }
    {
        self.hidden.len()
    }

    /// Hides no more than so many names, the oldest.
    pub(crate) fn back_to(&mut self, depth: usize)
        ensures { self.new ≡ back_to depth self.old }
    {
        self.hidden.truncate(depth);
    }
}
