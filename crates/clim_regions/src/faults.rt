//! Why lines cannot be answered.
use std::alloc::{AllocError, AllocFailed};

/// Why lines cannot be answered.
#[derive(Clone, Copy, Debug)]
pub enum Fault {
    /// A line is no order, or a number in it is out of range.
    Wrong,
    Unreadable,
    Output,
    Memory,
}

impl From<AllocError> for Fault {
    fn from(_error: AllocError) -> Fault {
        Fault::Memory
    }
}

impl<T: Drop> From<AllocFailed<T>> for Fault {
    fn from(_error: AllocFailed<T>) -> Fault {
        Fault::Memory
    }
}
