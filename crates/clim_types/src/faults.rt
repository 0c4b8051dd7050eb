//! Why questions are not answered.
use cl_forms::FormRefusal;
use std::alloc::AllocError;

/// Why questions are not answered.
#[derive(Debug, Drop)]
pub enum Fault {
    /// The text is refused.
    Refused,
    /// Standard input cannot be read, or is no text.
    Unreadable,
    /// The output cannot be written.
    Output,
    /// Out of memory.
    Memory,
}

impl From<FormRefusal> for Fault {
    fn from(refusal: FormRefusal) -> Fault {
        match refusal {
            FormRefusal::Refused(_, _) => Fault::Refused,
            FormRefusal::Memory => Fault::Memory,
        }
    }
}

impl From<AllocError> for Fault {
    fn from(_error: AllocError) -> Fault {
        Fault::Memory
    }
}
