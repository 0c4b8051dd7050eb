//! A device that is a terminal: it is sent control sequences as ECMA-48 has them, and private ones of
//! common terminals for their other screen and for the pointer. Ink 0 is the terminal's own colour.
#![tactic(auto)]

mod ansi_device;
mod laws;
#[cfg(test)]
mod tests;

pub use ansi_device::AnsiDevice;
pub use laws::a_terminal_shows_the_picture;
