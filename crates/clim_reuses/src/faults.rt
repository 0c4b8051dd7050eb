//! Why questions cannot be answered.
use cl_load::LoadRefusal;
use std::alloc::{AllocError, AllocFailed};

/// Why questions cannot be answered.
#[derive(Clone, Copy, Debug)]
pub enum Fault {
    /// An application does not load.
    Refused,
    /// A question has no two words, names what the application has not, or its command traps.
    Wrong,
    Unreadable,
    Output,
    Memory,
}

impl From<LoadRefusal> for Fault {
    fn from(refusal: LoadRefusal) -> Fault {
        match refusal {
            LoadRefusal::Refused(..) => Fault::Refused,
            LoadRefusal::Uncovered(..) => Fault::Refused,
            LoadRefusal::Memory => Fault::Memory,
        }
    }
}

impl From<AllocError> for Fault {
    fn from(_: AllocError) -> Fault {
        Fault::Memory
    }
}

impl<T: Drop> From<AllocFailed<T>> for Fault {
    fn from(_: AllocFailed<T>) -> Fault {
        Fault::Memory
    }
}
