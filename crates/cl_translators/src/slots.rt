//! The translators of one gesture and one high part of the priority.
ghost use Rattle.std.specs.Prelude.{◌≡◌, IfOk};
ghost use Rattle.cl_translators.specs.Groups.{IsSlot, is_in_slot};

use crate::declarations::TranslatorPlace;
use crate::groups::Groups;
use std::alloc::{AllocError, Global};

/// How many slots there are: one for each gesture and high part.
pub(crate) const SLOTS: usize = 50;

/// The translators of a slot by their from-types, in the order in which they stand here.
pub(crate) fn slot_of(
    alloc: Global,
    slot: usize,
    translators: &[TranslatorPlace],
) -> Result<Groups, AllocError>
    ensures { IfOk result (IsSlot translators.now slot) }
{
    let mut groups = Groups::new(alloc);
    for translator in translators {
        if is_in_slot(slot, translator) {
            groups.add(alloc, &translator.from, translator.copy()?)?;
        }
    }
    Ok(groups)
}

// Whether a translator has the gesture and the high part of a slot.
fn is_in_slot(slot: usize, translator: &TranslatorPlace) -> bool
    ensures { result ≡ is_in_slot slot translator.now }
{
    translator.gesture.number() == slot / 10 && usize::from(translator.priority / 10) == slot % 10
}
