//! What a text calls.
use cl_value::Text;

/// What a form calls, by its name.
#[derive(Drop, PartialEq, Eq, Hash)]
pub enum Callee {
    /// `(FUNCTION E ...)`
    Function(Text),
    /// `(DISPLAY E ...)`
    Display(Text),
    /// The present method of the type of that name.
    PresentMethod(Text),
    /// What the user type of that name inherits from: the present methods of that specifier.
    Inherited(Text),
}
