//! Frames of two panes, and what shows their cells.
mod frames;
mod showing;
