//! Painting of histories on the cells of a screen.
#![tactic(auto)]

mod areas;
mod items;
mod laws;
mod painting;
mod patches;
mod repainting;
mod screens;
mod sending;
mod touched_sending;
mod touching;
mod windows;

pub use areas::Area;
pub use laws::all_touched_is_the_whole_area;
pub use painting::{blank, paint};
pub use repainting::repaint_touched;
pub use screens::{Painted, Screen, redraw_all, repaint};
pub use windows::Window;
