//! The outside of a frame: where gestures come from, where replies go, where files lie, what shows
//! the cells, and what counts the steps of the evaluator. Each trait says what a caller may rest
//! on. The objects in memory say more; a place over files and a sink that drops all tell no
//! content, and an adapter over a reader or a writer tells what that tells.
#![tactic(auto)]

mod answers;
mod cells;
mod count_table;
mod devices;
mod file_place;
mod file_table;
mod grid;
mod handing;
mod ledgers;
mod lent_source;
mod mem_device;
mod mem_place;
mod mem_place_calls;
mod mem_sink;
mod mem_source;
mod null_device;
mod null_sink;
mod pieces;
mod place_sink;
mod places;
mod plan;
mod reader_source;
mod reading;
mod sinks;
mod sources;
mod tallies;
mod writer_sink;
mod writing;

pub use answers::{Opened, Sent, Took};
pub use cells::Cell;
pub use devices::Device;
pub use file_place::FilePlace;
pub use ledgers::{Ledger, OwnLedger, Steps, own_steps};
pub use lent_source::LentSource;
pub use mem_device::MemDevice;
pub use mem_place::MemPlace;
pub use mem_sink::MemSink;
pub use mem_source::MemSource;
pub use null_device::NullDevice;
pub use null_sink::NullSink;
pub use place_sink::PlaceSink;
pub use places::Place;
pub use reader_source::ReaderSource;
pub use sinks::Sink;
pub use sources::Source;
pub use writer_sink::WriterSink;
pub use writing::{write_all, write_pieces};
