//! What a loader looks for in declarations that have been read.
#![tactic(auto)]

mod command_names;
mod declared_names;
mod laws;
mod limits;
mod offsets;
mod repeats;
mod slot_names;
mod slot_reads;
mod twice;

pub use laws::{slots_are_read_by_paths, tables_keep_their_names};
pub use limits::first_past;
pub use offsets::earlier;
pub use slot_reads::SlotSearch;
pub use twice::first_twice;
