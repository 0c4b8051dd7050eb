//! The interactor: what stands below the screen of a frame in a terminal. Its first row has the line as it was typed so far, the next one
//! says what is expected, and the others have the replies to the last gesture. That a line has a prompt which says what is expected is the
//! CLIM II specification's chapter on the input editor; the rows are our own profile.
#![tactic(auto)]

mod expecting;
mod laws;
mod rows;
#[cfg(test)]
mod tests;
mod typed;

pub use expecting::expected;
pub use laws::a_terminal_shows_the_interactor;
pub use rows::{REPLY_ROWS, interactor};
pub use typed::put_typed;
