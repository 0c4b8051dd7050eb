//! What stands in a file of cases: texts that cases share, and the cases with their sections.
use crate::sections::{Block, Kind, Section};
use std::alloc::Global;

/// A text that cases share.
#[derive(Drop)]
pub struct Text {
    pub name: String,
    pub block: Block,
}

/// A case.
#[derive(Drop)]
pub struct Case {
    pub name: String,
    pub sections: Vec<Section>,
}

impl Case {
    /// The section of a kind, where the case has one.
    pub fn section(&self, kind: Kind) -> Option<&Section> {
        self.sections.iter().find(|section| section.kind == kind)
    }

    /// The numbers that the line of a section says; none where there is no such section.
    pub fn numbers(&self, kind: Kind) -> &[u64] {
        match self.section(kind) {
            Some(section) => section.numbers.as_slice(),
            None => &[],
        }
    }

    /// The number that the line of a section says, where there is one.
    pub fn number(&self, kind: Kind) -> Option<u64> {
        self.numbers(kind).first().copied()
    }
}

/// A file of cases.
#[derive(Drop)]
pub struct Sheet {
    pub texts: Vec<Text>,
    pub cases: Vec<Case>,
}

impl Sheet {
    /// An empty one.
    pub fn new(alloc: Global) -> Sheet {
        Sheet {
            texts: Vec::new(alloc),
            cases: Vec::new(alloc),
        }
    }

    /// Whether there is a text of this name.
    pub fn has_text(&self, name: &str) -> bool {
        self.texts.iter().any(|text| text.name.as_str() == name)
    }

    /// Whether there is a case of this name.
    pub fn has_case(&self, name: &str) -> bool {
        self.cases.iter().any(|case| case.name.as_str() == name)
    }
}
