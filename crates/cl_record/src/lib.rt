//! Records of output: what was drawn, as a tree of presentations and updates with leaves, and its replay.
#![tactic(auto)]

mod branches;
mod canvases;
mod gathering;
mod heads;
mod histories;
mod labels;
mod laws;
mod lines;
mod measuring;
mod nodes;
mod printing;
mod replaying;
mod shifts;
mod summaries;
mod touches;

pub use branches::{Piece, Presented};
pub use canvases::Canvas;
pub use heads::{Head, Measures};
pub use histories::History;
pub use labels::Label;
pub use laws::{
    moves_keep_all_in_range, nothing_is_touched_outside_of_the_box,
    presentations_are_touched_by_what_they_draw, touches_lie_in_boxes,
    updates_move_by_their_extent,
};
pub use lines::Printable;
pub use measuring::is_measured;
pub use nodes::{Node, Nodes};
pub use shifts::{STILL, join_shifts};
pub use summaries::{Summary, around};
pub use touches::Touch;
