//! Places on a plane of whole cells, rectangles and regions.
#![tactic(auto)]

mod rects;
mod regions;

pub use rects::{MAX_COORDINATE, Rect, Shift};
pub use regions::Region;
