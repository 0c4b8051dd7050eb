//! How paths are written.
ghost use Rattle.std.specs.Prelude.{◌≡◌, ◌++◌, codes, IfOk};
ghost use Rattle.cl_cover.specs.PathText.{path_text, root_text};

use cl_syntax::{Path, Root};
use cl_value::Text;
use std::alloc::{AllocError, Global};

/// A path as a text has it: `x`, `(slot a)` or `(get PATH f)`.
pub fn path_text(alloc: Global, path: &Path) -> Result<Vec<u8>, AllocError>
    ensures { IfOk result (λ text. text.items ≡ path_text path.now) }
{
    let mut text = root_text(alloc, &path.root)?;
    for field in path.fields.as_slice() {
        text = taken_text(alloc, text.as_slice(), field)?;
    }
    Ok(text)
}

fn root_text(alloc: Global, root: &Root) -> Result<Vec<u8>, AllocError>
    ensures { IfOk result (λ text. text.items ≡ root_text root.now) }
{
    let mut text = Vec::new(alloc);
    match root {
        Root::Variable(name) => text.extend_from_slice(name.as_slice())?,
        Root::Slot(name) => {
            text.extend_from_slice(b"(slot ")?;
            text.extend_from_slice(name.as_slice())?;
            text.extend_from_slice(b")")?;
        }
    }
    Ok(text)
}

/// `(get PATH FIELD)` by the text of the path.
fn taken_text(alloc: Global, path: &[u8], field: &Text) -> Result<Vec<u8>, AllocError>
    ensures { IfOk result (λ text. text.items ≡ codes "(get " ++ path.now ++ codes " " ++ field.now ++ codes ")") }
{
    let mut text = Vec::new(alloc);
    text.extend_from_slice(b"(get ")?;
    text.extend_from_slice(path)?;
    text.extend_from_slice(b" ")?;
    text.extend_from_slice(field.as_slice())?;
    text.extend_from_slice(b")")?;
    Ok(text)
}
