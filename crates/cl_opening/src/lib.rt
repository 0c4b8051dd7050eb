//! What is asked of declarations before a frame of them opens: what their predicates and opening values read, where the frame and its panes
//! lie, what the slots open with, and whether what stands for arguments fits their types.
#![tactic(auto)]

mod defaults;
mod elses;
mod opening;
mod placing;
mod readings;

pub use opening::opening_slots;
pub use placing::place_frame;
pub use readings::first_reading;
