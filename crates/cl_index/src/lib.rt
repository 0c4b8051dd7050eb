//! Which rectangles of a list share a place with one, or hold a place, by boxes of boxes.
#![tactic(auto)]

mod hits;
mod indexes;
mod trees;

pub use hits::{Hits, HitsAt};
pub use indexes::Bounds;

#[cfg(test)]
mod tests;
