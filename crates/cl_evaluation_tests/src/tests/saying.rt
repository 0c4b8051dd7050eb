//! Bytes as words.
use std::alloc::AllocError;

/// Puts a character for each byte behind what is said.
pub fn put_bytes(said: &mut String, bytes: &[u8]) -> Result<(), AllocError> {
    for byte in bytes {
        said.push(char::from(*byte))?;
    }
    Ok(())
}
