//! Names that stand in no text.
ghost use Rattle.std.specs.Prelude.{◌≡◌, IfOk};
ghost use Rattle.cl_dialog_forms.specs.Names.{form_name, set_name};

use cl_value::Text;
use std::alloc::{AllocError, Global};

/// The name of the variable that tells whether a query is set.
pub fn set_name(alloc: Global, query: &[u8]) -> Result<Text, AllocError>
    ensures { IfOk result (λ name. name ≡ set_name query.now) }
{
    let mut name = Vec::new(alloc);
    name.extend_from_slice(query)?;
    name.extend_from_slice(b" is set")?;
    Text::from_vec(alloc, name)
}

/// The name of the display that the form of a dialog is kept as.
pub fn form_name(alloc: Global, dialog: &[u8]) -> Result<Text, AllocError>
    ensures { IfOk result (λ name. name ≡ form_name dialog.now) }
{
    let mut name = Vec::new(alloc);
    name.extend_from_slice(b"dialog ")?;
    name.extend_from_slice(dialog)?;
    Text::from_vec(alloc, name)
}
