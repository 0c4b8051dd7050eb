//! A session in a terminal. What the terminal sends makes keys, keys make gestures, and each gesture is a step of the session; the screen is
//! shown by control sequences, and below it stand the line that is typed, what is expected, and the replies to the last gesture.
#![tactic(auto)]

mod flows;
mod opening;
mod running;
mod said;
mod seats;
mod serving;
mod showing;

pub use flows::{Closing, Flow};
pub use running::{RunEnd, run};
pub use seats::Seat;
pub use serving::MOST_READS;
