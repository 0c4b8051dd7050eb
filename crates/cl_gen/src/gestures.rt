//! The text of the gestures.
ghost use Rattle.std.specs.Prelude.{◌≡◌, ◌++◌, IfOk, OnOk};
ghost use Rattle.cl_gen.specs.Workload.{gestures_text, joined, set_lines};

use itoa::Buffer;
use std::alloc::{AllocError, Global};

/// The text of the gestures that change each of `n` items, and then put one in front.
pub fn gestures_text(alloc: Global, n: u32) -> Result<Vec<u8>, AllocError>
    ensures { IfOk result (λ text. text.items ≡ gestures_text n) }
{
    let mut text = Vec::new(alloc);
    for done in 0..n {
        put_set(&mut text, done + 1)?;
    }
    text.extend_from_slice(b"type Front 0 z\nreturn\n")?;
    Ok(text)
}

// Puts the lines that change the item of this key behind a text.
fn put_set(text: &mut Vec<u8>, key: u32) -> Result<(), AllocError>
    ensures { OnOk result (text.new.items ≡ text.old.items ++ joined (set_lines key)) }
{
    text.extend_from_slice(b"type Set ")?;
    text.extend_from_slice(Buffer::new().format(key).as_bytes())?;
    text.extend_from_slice(b" b\nreturn\n")?;
    Ok(())
}
