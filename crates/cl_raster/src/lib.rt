//! Cells of a screen, and a device that sends them over a wire.
#![tactic(auto)]

mod filling;
mod joining;
mod laws;
mod lines;
mod playing;
mod rasters;
mod wires;

pub use filling::clip;
pub use laws::{a_clear_mends_what_broke_off, whole_operations_are_played};
pub use playing::play;
pub use rasters::Raster;
pub use wires::WireDevice;
