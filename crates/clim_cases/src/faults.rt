//! Why a run of cases cannot go on.
use std::alloc::{AllocError, AllocFailed, Global};
use std::io;
use thiserror::Error;

/// What is wrong in a file of cases.
#[derive(Clone, Copy, Debug, Error)]
pub enum Wrong {
    #[error("a line `== ` begins with neither `text` nor `case`")]
    Heading,
    #[error("the case has no name")]
    CaseName,
    #[error("this is no name of a text")]
    TextName,
    #[error("another case of the file has this name")]
    CaseTwice,
    #[error("another text of the file has this name")]
    TextTwice,
    #[error("a section stands in no case")]
    OutsideCase,
    #[error("there is no such section")]
    Section,
    #[error("the case has two sections of this kind")]
    SectionTwice,
    #[error("the section's own line is to say nothing more")]
    Surplus,
    #[error("the section's own line may say `from FILE` and nothing else")]
    FileName,
    #[error("the section's own line says no numbers of its kind")]
    Numbers,
    #[error("the section has no lines")]
    HasLines,
    #[error("a line stands in no section")]
    OutsideSection,
    #[error("a row has no ` => `")]
    Row,
    #[error("the table has no row")]
    NoRows,
    #[error("the case has a form and rows")]
    FormAndRows,
    #[error("a `{{` has no `}}` behind it on its line")]
    Open,
    #[error("a `{{` begins no text, byte or copies")]
    Mark,
    #[error("texts stand in texts more than 8 deep")]
    TooDeep,
    #[error("more than 9,000 copies are numbered")]
    TooManyNumbers,
    #[error("this is no number")]
    Number,
    #[error("a word is not UTF-8")]
    Word,
    #[error("the file that is named cannot be read")]
    NoFile,
}

/// Why a run of cases cannot go on.
#[derive(Debug, Drop)]
pub enum Fault {
    /// Want of memory.
    Memory,
    /// The report cannot be written.
    Output,
    /// No file of cases is named.
    NoFile,
    /// The file of cases cannot be read.
    Unreadable,
    /// The file of cases is wrong at this line.
    Wrong { line: usize, what: Wrong },
}

impl Fault {
    /// What is wrong at a line.
    pub fn at(line: usize, what: Wrong) -> Fault {
        Fault::Wrong { line, what }
    }

    /// What is printed of a fault with this file.
    pub fn message(&self, alloc: Global, file: &str) -> Result<String, AllocError> {
        match self {
            Fault::Memory => format!(in alloc; "{file}: out of memory"),
            Fault::Output | Fault::NoFile => format!(in alloc; "{file}: not run"),
            Fault::Unreadable => format!(in alloc; "{file}: cannot be read"),
            Fault::Wrong { line, what } => format!(in alloc; "{file}:{line}: {what}"),
        }
    }
}

impl From<AllocError> for Fault {
    fn from(_error: AllocError) -> Fault {
        Fault::Memory
    }
}

impl<T: Drop> From<AllocFailed<T>> for Fault {
    fn from(_error: AllocFailed<T>) -> Fault {
        Fault::Memory
    }
}

/// The fault of a file that was not read, where another fault says what that means.
pub fn not_read(error: &io::Error, otherwise: Fault) -> Fault {
    if matches!(error.kind(), io::ErrorKind::OutOfMemory) {
        return Fault::Memory;
    }
    otherwise
}
