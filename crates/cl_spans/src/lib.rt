//! The places that rectangles hold within a clip, as rows of spans of cells.
#![tactic(auto)]

mod laws;
mod rows;
mod runs;

pub use laws::rows_are_told_by_their_columns;
pub use rows::Spans;
pub use runs::Span;

#[cfg(test)]
mod tests;
