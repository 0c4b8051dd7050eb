//! Displays drawn over old records: updates that are kept, moved or drawn anew, counted exactly.
#![tactic(auto)]

mod grounds;
mod keeping;
mod levels;
mod openings;
mod redisplaying;
mod redrawing;
mod redrawing_updates;
mod tallies;

pub use grounds::Ground;
pub use keeping::{keep, keep_update};
pub use levels::{Level, Old};
pub use openings::Opening;
pub use redisplaying::{Redisplayed, Reuse, redisplay};
pub use tallies::Tally;
