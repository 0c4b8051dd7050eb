//! The keys of bytes that come in parts.
use cl_keys::{Decoder, Key};
use std::alloc::{AllocError, Global};

/// The keys of bytes that come at once.
pub fn keys_of(alloc: Global, bytes: &[u8]) -> Result<Vec<Key>, AllocError> {
    let mut decoder = Decoder::new();
    let mut keys = Vec::new(alloc);
    take_part(&mut decoder, bytes, &mut keys)?;
    Ok(keys)
}

/// The first place at which the bytes are cut into two parts that make other keys than these, if there is one.
pub fn other_cut(alloc: Global, bytes: &[u8], keys: &[Key]) -> Result<Option<usize>, AllocError> {
    for cut in 0..bytes.len() {
        let (front, rest) = bytes.split_at(cut);
        let mut decoder = Decoder::new();
        let mut found = Vec::new(alloc);
        take_part(&mut decoder, front, &mut found)?;
        take_part(&mut decoder, rest, &mut found)?;
        if found.as_slice() != keys {
            return Ok(Some(cut));
        }
    }
    Ok(None)
}

// Decodes one part.
fn take_part(decoder: &mut Decoder, part: &[u8], keys: &mut Vec<Key>) -> Result<(), AllocError> {
    for byte in part {
        if let Some(key) = decoder.take(*byte) {
            keys.push(key)?;
        }
    }
    Ok(())
}
