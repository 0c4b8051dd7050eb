//! What is drawn on a pane: items, and the state from which they are drawn.
#![tactic(auto)]

mod ambients;
mod any_leaf;
mod areas;
mod cells;
mod columns;
mod drawing;
mod glyphs;
mod laws;
mod leaves;
mod placing;
mod shapes;

pub use ambients::{Ambient, enter_room, indent, leave_room, newline};
pub use any_leaf::AnyLeaf;
pub use areas::Area;
pub use columns::columns_of;
pub use drawing::{Drawn, draw_box, draw_hline, draw_point, draw_text, draw_vline, fill_box};
pub use laws::{shapes_move_with_origin, text_moves_with_cursor};
pub use leaves::Leaf;
pub use shapes::{Direction, LeafShape};
