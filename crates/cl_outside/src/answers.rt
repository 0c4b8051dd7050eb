//! What calls on the outside answer.
/// What a read or a write answers.
#[derive(Clone, Copy, PartialEq, Eq, Debug)]
pub enum Took {
    /// How many bytes were handed over or taken.
    Bytes(usize),
    /// None were; a count of faults rose.
    Failed,
}

/// What the opening of a source or the making of a sink answers.
#[derive(Clone, Copy, PartialEq, Eq, Debug)]
pub enum Opened {
    Done,
    /// A count of faults rose.
    Failed,
    /// Want of memory; the files, the open source and the made sink are as before.
    Memory,
}

/// What an operation of a device answers.
#[derive(Clone, Copy, PartialEq, Eq, Debug)]
pub enum Sent {
    Done,
    /// The count of faults rose, and the device is broken.
    Failed,
}
