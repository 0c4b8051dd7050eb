//! The kinds of sections of a case, and what each of them says.
use std::alloc::{AllocError, Global};

/// What a section says of its case.
#[derive(Clone, Copy, PartialEq, Eq)]
pub enum Kind {
    Words,
    Application,
    Gestures,
    Transcript,
    Status,
    Steps,
    Form,
    Rows,
    PlaceFails,
    GesturesFail,
    OutputFails,
    OutputTakes,
    OutputRoom,
    Wire,
    WireTakes,
    WireRoom,
    Differs,
}

/// What may stand in a section.
#[derive(Clone, Copy)]
pub enum Shape {
    /// Lines alone.
    Lines,
    /// Lines, or the name of a file that has them.
    LinesOrFile,
    /// A number, and no line.
    Number,
    /// A number from 1, and no line.
    Size,
    /// Numbers from 1, at least one of them, and no line.
    Calls,
}

/// Each kind. One whose words begin with those of another stands before that.
pub const KINDS: [Kind; 17] = [
    Kind::Words,
    Kind::Application,
    Kind::GesturesFail,
    Kind::Gestures,
    Kind::Transcript,
    Kind::Status,
    Kind::Steps,
    Kind::Form,
    Kind::Rows,
    Kind::PlaceFails,
    Kind::OutputFails,
    Kind::OutputTakes,
    Kind::OutputRoom,
    Kind::WireTakes,
    Kind::WireRoom,
    Kind::Wire,
    Kind::Differs,
];

impl Kind {
    /// The words that begin a section.
    pub fn words(self) -> &'static str {
        match self {
            Kind::Words => "words",
            Kind::Application => "application",
            Kind::Gestures => "gestures",
            Kind::Transcript => "transcript",
            Kind::Status => "status",
            Kind::Steps => "steps",
            Kind::Form => "form",
            Kind::Rows => "rows",
            Kind::PlaceFails => "place fails",
            Kind::GesturesFail => "gestures fail",
            Kind::OutputFails => "output fails",
            Kind::OutputTakes => "output takes",
            Kind::OutputRoom => "output has room for",
            Kind::Wire => "wire",
            Kind::WireTakes => "wire takes",
            Kind::WireRoom => "wire has room for",
            Kind::Differs => "differs",
        }
    }

    /// What may stand in a section of this kind.
    pub fn shape(self) -> Shape {
        match self {
            Kind::Words | Kind::Steps | Kind::Form | Kind::Rows | Kind::Differs => Shape::Lines,
            Kind::Application | Kind::Gestures | Kind::Transcript | Kind::Wire => {
                Shape::LinesOrFile
            }
            Kind::Status | Kind::OutputRoom | Kind::WireRoom => Shape::Number,
            Kind::OutputTakes | Kind::WireTakes => Shape::Size,
            Kind::PlaceFails | Kind::GesturesFail | Kind::OutputFails => Shape::Calls,
        }
    }
}

/// Lines as they stand in a file, with the number of the first.
#[derive(Clone, Copy)]
pub struct Raw<'a> {
    pub line: usize,
    pub text: &'a str,
}

/// Lines of a file of cases. Between two of them stands a line feed; empty ones at the end are left
/// out, and so is the mark that shows where spaces end.
#[derive(Drop)]
pub struct Block {
    /// The number of the first line.
    pub line: usize,
    pub text: String,
    // How many line feeds stand before the next line that is not empty.
    waiting: usize,
}

impl Block {
    /// No lines yet; the first will have this number.
    pub fn new(alloc: Global, line: usize) -> Block {
        Block {
            line,
            text: String::new(alloc),
            waiting: 0,
        }
    }

    /// The lines.
    pub fn raw(&self) -> Raw<'_> {
        Raw {
            line: self.line,
            text: self.text.as_str(),
        }
    }

    /// Adds a line.
    pub fn add(&mut self, line: &str) -> Result<(), AllocError> {
        if !line.is_empty() {
            for _ in 0..self.waiting {
                self.text.push('\n')?;
            }
            self.text.push_str(without_mark(line))?;
            self.waiting = 0;
        }
        self.waiting = self.waiting.saturating_add(1);
        Ok(())
    }
}

// A line without the `|` at its end, behind a space or another `|`.
fn without_mark(line: &str) -> &str {
    match line.strip_suffix('|') {
        Some(shown) if shown.ends_with(' ') || shown.ends_with('|') => shown,
        _ => line,
    }
}

/// A section of a case.
#[derive(Drop)]
pub struct Section {
    pub kind: Kind,
    /// The number of its own line.
    pub line: usize,
    /// The file that its own line names.
    pub file: Option<String>,
    /// The numbers that its own line says.
    pub numbers: Vec<u64>,
    /// The lines below its own.
    pub block: Block,
}

impl Section {
    /// Whether lines may stand in it.
    pub fn takes_lines(&self) -> bool {
        match self.kind.shape() {
            Shape::Lines => true,
            Shape::LinesOrFile => self.file.is_none(),
            Shape::Number | Shape::Size | Shape::Calls => false,
        }
    }
}
