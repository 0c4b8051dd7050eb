//! Gestures, and the reader of their lines. The format is this project's own.
//!
//! A line ends with a line feed; the last one of a stream may lack it. A line that reaches 4,097
//! bytes without one is cut there and is bad, and the next byte begins the next line. One carriage
//! return at a line's end is dropped. An empty line and a line that begins with `#` do nothing, but
//! they are counted. `type TEXT` types TEXT, 1 or more bytes from 32 to 126, which begins right
//! behind the first space; `history NAME` asks for a pane by its name, and `stroke NAME` presses a
//! keystroke by its name, each one word behind the first space; `point PANE GESTURE X Y` points at a
//! place of a pane, with one space between each two words: GESTURE is select, describe, menu, edit or
//! delete in any case of its letters, and X and Y are each an optional `-` and 1 to 6 decimal digits;
//! `return`, `rubout`, `clear`, `frame`, `inks` and `force` stand alone. Any other line is bad. A
//! reader reads at most 1,000,000 lines.
//!
//! `LineReader` cuts the lines of any such stream and counts them; `Gestures` is one with the grammar
//! of gestures. Neither reads its source again once the line that it answers has ended.
#![tactic(auto)]

mod ahead;
mod answers;
mod cut;
mod grammar;
mod laws;
mod lines;
mod pointing;
mod reader;

pub use ahead::Ahead;
pub use answers::{Gesture, Next, PointAt, Stop};
pub use laws::{
    cutting_keeps_the_bytes, gestures_are_spelled, pieces_are_well_cut, there_is_one_cut,
};
pub use lines::{LineReader, NextLine};
pub use reader::Gestures;
