//! What a text reads and calls.
use cl_syntax::{Callee, Path};

/// A step through a text: it reads a path, or calls something.
#[derive(Drop)]
pub enum Step {
    /// It reads a path.
    Reads(Path),
    /// It calls something.
    Calls(Callee),
}
