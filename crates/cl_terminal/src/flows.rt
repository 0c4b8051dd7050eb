//! How the taking of bytes goes on, and how serving a terminal closes.

/// What comes behind a byte.
#[derive(Clone, Copy, PartialEq, Eq, Debug)]
pub enum Flow {
    /// The next byte.
    On,
    /// The end, by the key for it.
    End,
    /// The terminal failed.
    Fault,
}

/// How the serving of a terminal closed.
#[derive(Clone, Copy, PartialEq, Eq, Debug)]
pub enum Closing {
    /// By the key for the end, or where the keys ended.
    Done,
    /// The keys failed.
    ReadFault,
    /// The terminal failed.
    OutputFault,
    /// After `MOST_READS` reads.
    TooLong,
}
