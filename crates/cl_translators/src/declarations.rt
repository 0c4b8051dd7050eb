//! Translators as a text declares them.
ghost use Rattle.std.specs.Prelude.{◌≡◌, IfOk};
ghost use Rattle.cl_translators.specs.Order.{gesture_number};

use cl_table::Declared;
use cl_value::Text;
use std::alloc::AllocError;

/// The gestures of the pointer, after the CLIM II specification's chapter on pointer gestures.
#[derive(Clone, Copy, PartialEq, Eq, Debug)]
pub enum GestureName {
    Select,
    Describe,
    Menu,
    Edit,
    Delete,
}

impl GestureName {
    // Its place among the gestures, counted from 0.
    pub(crate) fn number(self) -> usize
        ensures { result ≡ gesture_number self }
    {
        match self {
            GestureName::Select => 0,
            GestureName::Describe => 1,
            GestureName::Menu => 2,
            GestureName::Edit => 3,
            GestureName::Delete => 4,
        }
    }
}

/// A translator with the table in which it stands, its gesture, the name of its from-type, and its priority. A priority above 99
/// is none: such a translator is never tried.
#[derive(Drop)]
pub struct TranslatorPlace {
    pub name: Text,
    pub table: Text,
    pub gesture: GestureName,
    pub from: Text,
    pub priority: u8,
}

impl TranslatorPlace {
    /// The same translator, which takes no memory: it fails only where one text has as many owners as can be counted.
    pub fn copy(&self) -> Result<TranslatorPlace, AllocError>
        ensures { IfOk result (λ t. t ≡ self.now) }
    {
        Ok(TranslatorPlace {
            name: self.name.copy()?,
            table: self.table.copy()?,
            gesture: self.gesture,
            from: self.from.copy()?,
            priority: self.priority,
        })
    }
}

impl Declared for TranslatorPlace {
    ghost own_name = { λ t. t.name };

    fn name(&self) -> &Text {
        &self.name
    }
}
