//! The open source of a place in memory.
// The open source of a place in memory: the place of its file, how many bytes were read, and the
// place of its count of faults.
#[derive(Clone, Copy)]
pub(crate) struct Reading {
    pub(crate) file: usize,
    pub(crate) at: usize,
    pub(crate) fault: usize,
}
