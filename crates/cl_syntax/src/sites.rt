//! Places of a text from which updates come.

/// Which form made an update: the offset of the form in its text, and 0; or that of a dialog's declaration,
/// and the number of the query from 1 on.
#[derive(Clone, Copy, PartialEq, Eq, Hash, Debug)]
pub struct Site {
    pub form: u32,
    pub query: u32,
}
