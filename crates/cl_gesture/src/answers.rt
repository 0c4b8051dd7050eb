//! What a reader of gestures answers.
use cl_translators::GestureName;
use cl_value::Text;

/// A place of a pane, and how it is pointed at.
#[derive(Drop)]
pub struct PointAt {
    pub pane: Text,
    pub gesture: GestureName,
    pub x: i64,
    pub y: i64,
}

/// What a person did.
#[derive(Drop)]
pub enum Gesture {
    /// Typed this text, 1 or more bytes from 32 to 126.
    Type(Text),
    /// Ended the line that was typed.
    Return,
    /// Took the last element of the line away.
    Rubout,
    /// Took the whole line away.
    Clear,
    /// Asked for what the screen shows.
    Frame,
    /// Asked for the inks of what the screen shows.
    Inks,
    /// Asked that all panes are shown anew, from nothing.
    Force,
    /// Asked for the history of the pane of this name, 1 or more bytes without a space, as it was
    /// written.
    History(Text),
    /// Pressed the keystroke of this name, 1 or more bytes without a space, as it was written.
    Stroke(Text),
    /// Pointed at a place of the pane of this name, 1 or more bytes without a space, as it was
    /// written, with this gesture of the pointer: a column and a row.
    Point(PointAt),
}

/// What the next line is, or why there is none.
#[derive(Drop)]
pub enum Next {
    Gesture(Gesture),
    /// No line of the grammar, or one that was cut; its number, from 1.
    Bad(u32),
    /// The source's end, with no bytes of a line left.
    End,
    /// The source failed.
    ReadFault,
    /// A million lines were read, and a further byte came.
    TooMany,
    /// Want of memory; the line is lost.
    Memory,
}

/// Where a reader of gestures stopped.
#[derive(Clone, Copy, PartialEq, Eq, Debug)]
pub enum Stop {
    /// Nowhere yet.
    Going,
    /// At the source's end.
    AtEnd,
    /// At a fault of the source.
    AtFault,
    /// At a byte behind a million lines.
    AtLimit,
}
