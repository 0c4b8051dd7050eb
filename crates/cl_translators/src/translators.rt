//! The translators that a frame's command table sees.
ghost use Rattle.std.specs.Prelude.{◌≡◌, ◌<◌, IfOk, filter, option_map};
ghost use Rattle.std.specs.List.{slice_get};
ghost use Rattle.cl_translators.specs.Groups.{AreSlots};
ghost use Rattle.cl_translators.specs.Order.{in_order, is_for, translators_of};

use crate::declarations::{GestureName, TranslatorPlace};
use crate::groups::Groups;
use crate::order::in_order;
use crate::slots::{SLOTS, slot_of};
use cl_table::{Names, Table};
use cl_value::Text;
use std::alloc::{AllocError, Global};
use std::marker::Model;

/// The translators that stand in tables of an inheritance order, seen as their list: greater low part of the priority first, then
/// earlier table, then earlier place in the text.
#[derive(Drop)]
pub struct Translators {
    all: Vec<TranslatorPlace>,
    slots: Vec<Groups>,
}

impl Model for Translators {
    ghost use Rattle.std.specs.Prelude.{List};
    ghost use Rattle.cl_translators.specs.Groups.{AreSlots};
    ghost use Rattle.cl_translators.specs.declared.declarations.TranslatorPlace.{TranslatorPlace as Place};

    ghost Value = { List Place };

    ghost view = { λ t. t.all.items };

    ghost invariant = { λ t. AreSlots t.all.items t.slots.items };
}

impl Translators {
    /// What the table sees whose inheritance order this is.
    pub fn build(
        alloc: Global,
        order: &Names,
        places: &Table<TranslatorPlace>,
    ) -> Result<Translators, AllocError>
        ensures { IfOk result (λ ts. ts ≡ in_order order.now (translators_of places.now)) }
    {
        let all = in_order(alloc, order, places)?;
        let slots = slots_of(alloc, all.as_slice())?;
        Ok(Translators { all, slots })
    }

    /// All of them.
    pub fn as_slice(&self) -> &[TranslatorPlace]
        ensures { result.now ≡ self.now }
    {
        self.all.as_slice()
    }

    /// Those of a gesture and a from-type whose priority has this high part, in their order, which takes no memory and looks at
    /// no other.
    pub fn group(&self, gesture: GestureName, from: &Text, high: u8) -> &[TranslatorPlace]
        requires { high < 10 }
        ensures { result.now ≡ filter (is_for gesture from.now high) self.now }
    {
        match slot_at(
            self.slots.as_slice(),
            10 * gesture.number() + usize::from(high),
        ) {
            Some(groups) => groups.under(from),
            None => unreachable!(),
        }
    }
}

// The slot with a number.
fn slot_at(slots: &[Groups], slot: usize) -> Option<&Groups>
    ensures { option_map (λ g. g.now) result ≡ slice_get slots.now slot }
{
    slots.get(slot)
}

// The slots of translators.
fn slots_of(alloc: Global, all: &[TranslatorPlace]) -> Result<Vec<Groups>, AllocError>
    ensures { IfOk result (λ slots. AreSlots all.now slots.items) }
{
    let mut slots = Vec::new(alloc);
    for slot in 0..SLOTS {
        slots.push(slot_of(alloc, slot, all)?)?;
    }
    Ok(slots)
}
