//! How a run ends.
use cl_terminal::RunEnd;

/// How a run ended.
#[derive(Clone, Copy)]
pub enum How {
    /// The words are no command, and the usage line was written.
    Usage,
    /// The words are no command, and the output failed in the usage line.
    UsageCut,
    /// The place failed with the application's file.
    AppFault,
    /// The text is refused, and the refusal line was written.
    Refused,
    /// The text is refused, and the output failed in the refusal line.
    RefusalCut,
    /// Want of memory before the terminal was taken over.
    Memory,
    /// The application was run in the terminal.
    Ran(RunEnd),
}
