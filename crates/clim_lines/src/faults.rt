//! Why lines cannot be answered.
use cl_load::LoadRefusal;
use std::alloc::{AllocError, AllocFailed};

/// Why lines cannot be answered.
#[derive(Clone, Copy, Debug)]
pub enum Fault {
    /// An application does not load.
    Refused,
    /// A line names no slot behind an `@`.
    Wrong,
    Unreadable,
    Output,
    Memory,
}

impl From<LoadRefusal> for Fault {
    fn from(refusal: LoadRefusal) -> Fault {
        match refusal {
            LoadRefusal::Refused(..) => Fault::Refused,
            LoadRefusal::Uncovered(..) => Fault::Refused,
            LoadRefusal::Memory => Fault::Memory,
        }
    }
}

impl From<AllocError> for Fault {
    fn from(_: AllocError) -> Fault {
        Fault::Memory
    }
}

impl<T: Drop> From<AllocFailed<T>> for Fault {
    fn from(_: AllocFailed<T>) -> Fault {
        Fault::Memory
    }
}
