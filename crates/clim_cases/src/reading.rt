//! Reads a file of cases.
use crate::cases::{Case, Sheet, Text};
use crate::faults::{Fault, Wrong};
use crate::headings::section_of;
use crate::names::is_text_name;
use crate::sections::Block;
use std::alloc::Global;

/// The texts and cases of a file that holds this.
pub fn read_sheet(alloc: Global, text: &str) -> Result<Sheet, Fault> {
    let mut reader = Reader {
        alloc,
        sheet: Sheet::new(alloc),
        place: Place::Comment,
    };
    for (index, line) in text.split('\n').enumerate() {
        reader.take(index.saturating_add(1), line)?;
    }
    Ok(reader.sheet)
}

// What the next line stands in.
#[derive(Clone, Copy)]
enum Place {
    Comment,
    Text,
    // A case, before its first section.
    Case,
    Section,
}

#[derive(Drop)]
struct Reader {
    alloc: Global,
    sheet: Sheet,
    place: Place,
}

impl Reader {
    // Takes a line with its number.
    fn take(&mut self, line: usize, text: &str) -> Result<(), Fault> {
        if let Some(heading) = text.strip_prefix("== ") {
            return self.begin(line, heading);
        }
        if let Some(heading) = text.strip_prefix("-- ") {
            return self.begin_section(line, heading);
        }
        match self.place {
            Place::Comment => Ok(()),
            Place::Text => self.add_to_text(text),
            Place::Section => self.add_to_section(line, text),
            Place::Case if text.is_empty() => Ok(()),
            Place::Case => Err(Fault::at(line, Wrong::OutsideSection)),
        }
    }

    // A text or a case begins.
    fn begin(&mut self, line: usize, heading: &str) -> Result<(), Fault> {
        if let Some(name) = heading.strip_prefix("text ") {
            return self.begin_text(line, name);
        }
        if let Some(name) = heading.strip_prefix("case ") {
            return self.begin_case(line, name);
        }
        Err(Fault::at(line, Wrong::Heading))
    }

    fn begin_text(&mut self, line: usize, name: &str) -> Result<(), Fault> {
        if !is_text_name(name) {
            return Err(Fault::at(line, Wrong::TextName));
        }
        if self.sheet.has_text(name) {
            return Err(Fault::at(line, Wrong::TextTwice));
        }
        let name = String::from_str(self.alloc, name)?;
        let block = Block::new(self.alloc, line.saturating_add(1));
        self.sheet.texts.push(Text { name, block })?;
        self.place = Place::Text;
        Ok(())
    }

    fn begin_case(&mut self, line: usize, name: &str) -> Result<(), Fault> {
        if name.is_empty() {
            return Err(Fault::at(line, Wrong::CaseName));
        }
        if self.sheet.has_case(name) {
            return Err(Fault::at(line, Wrong::CaseTwice));
        }
        let name = String::from_str(self.alloc, name)?;
        let sections = Vec::new(self.alloc);
        self.sheet.cases.push(Case { name, sections })?;
        self.place = Place::Case;
        Ok(())
    }

    // A section of the last case begins.
    fn begin_section(&mut self, line: usize, heading: &str) -> Result<(), Fault> {
        if matches!(self.place, Place::Comment | Place::Text) {
            return Err(Fault::at(line, Wrong::OutsideCase));
        }
        let section = section_of(self.alloc, line, heading)?;
        let Some(case) = self.sheet.cases.last_mut() else {
            return Err(Fault::at(line, Wrong::OutsideCase));
        };
        if case.section(section.kind).is_some() {
            return Err(Fault::at(line, Wrong::SectionTwice));
        }
        case.sections.push(section)?;
        self.place = Place::Section;
        Ok(())
    }

    // Adds a line to the last text.
    fn add_to_text(&mut self, text: &str) -> Result<(), Fault> {
        if let Some(last) = self.sheet.texts.last_mut() {
            last.block.add(text)?;
        }
        Ok(())
    }

    // Adds a line to the last section of the last case.
    fn add_to_section(&mut self, line: usize, text: &str) -> Result<(), Fault> {
        let Some(case) = self.sheet.cases.last_mut() else {
            return Err(Fault::at(line, Wrong::OutsideSection));
        };
        let Some(section) = case.sections.last_mut() else {
            return Err(Fault::at(line, Wrong::OutsideSection));
        };
        if !text.is_empty() && !section.takes_lines() {
            return Err(Fault::at(line, Wrong::HasLines));
        }
        section.block.add(text)?;
        Ok(())
    }
}
