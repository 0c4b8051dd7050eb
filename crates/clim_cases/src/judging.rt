//! Judges the cases of a file.
use crate::cases::{Case, Sheet};
use crate::comparing::said_of;
use crate::faults::{Fault, Wrong, not_read};
use crate::marks::Names;
use crate::reading::read_sheet;
use crate::sections::{Kind, Raw, Section};
use crate::settings::{Setting, setting_of};
use std::alloc::{AllocError, Global};
use std::fs;
use std::rt::Files;

/// How many cases there were, and how many of them differ.
#[derive(Clone, Copy)]
pub struct Tally {
    pub cases: u64,
    pub differing: u64,
}

impl Tally {
    /// None yet.
    pub fn new() -> Tally {
        Tally {
            cases: 0,
            differing: 0,
        }
    }

    /// These and others.
    pub fn plus(self, other: Tally) -> Tally {
        Tally {
            cases: self.cases.saturating_add(other.cases),
            differing: self.differing.saturating_add(other.differing),
        }
    }

    /// One case more.
    fn count(&mut self, differs: bool) {
        self.cases = self.cases.saturating_add(1);
        self.differing = self.differing.saturating_add(u64::from(differs));
    }

    /// The line on all files.
    pub fn summary(&self, alloc: Global) -> Result<String, AllocError> {
        let agreeing = self.cases.saturating_sub(self.differing);
        let differing = self.differing;
        if differing == 0 {
            format!(in alloc; "{agreeing} cases agree")
        } else {
            format!(in alloc; "{agreeing} cases agree, {differing} differ")
        }
    }
}

/// Judges the cases of a file, and adds to the report what is to be said of it.
pub fn judge_file<R: Files + AllocGlobal>(
    rt: &R,
    file: &str,
    report: &mut String,
) -> Result<Tally, Fault> {
    match fs::read_to_string(rt, file) {
        Ok(text) => judge_text(rt, file, text.as_str(), report),
        Err(error) => Err(not_read(&error, Fault::Unreadable)),
    }
}

/// The same of a file of this name that holds this text.
pub fn judge_text<R: Files + AllocGlobal>(
    rt: &R,
    file: &str,
    text: &str,
    report: &mut String,
) -> Result<Tally, Fault> {
    let sheet = read_sheet(rt.alloc(), text)?;
    let mut tally = Tally::new();
    for case in sheet.cases.as_slice() {
        judge_case(rt, file, &sheet, case, &mut tally, report)?;
    }
    let cases = tally.cases;
    let differing = tally.differing;
    if differing == 0 {
        writeln!(report, "{file}: {cases} cases agree")?;
    } else {
        writeln!(report, "{file}: {differing} of {cases} cases differ")?;
    }
    Ok(tally)
}

// Judges a case once, or once for each of its rows.
fn judge_case<'a, R: Files + AllocGlobal>(
    rt: &R,
    file: &str,
    sheet: &'a Sheet,
    case: &'a Case,
    tally: &mut Tally,
    report: &mut String,
) -> Result<(), Fault> {
    if let Some(table) = case.section(Kind::Rows) {
        return judge_rows(rt, file, sheet, case, table, tally, report);
    }
    let names = Names {
        texts: sheet.texts.as_slice(),
        form: case.section(Kind::Form).map(|section| section.block.raw()),
        answer: None,
    };
    let name = case.name.as_str();
    let label = format!(in rt.alloc(); "{file}: {name}")?;
    judge_once(rt, &names, case, label.as_str(), tally, report)
}

fn judge_rows<'a, R: Files + AllocGlobal>(
    rt: &R,
    file: &str,
    sheet: &'a Sheet,
    case: &'a Case,
    table: &'a Section,
    tally: &mut Tally,
    report: &mut String,
) -> Result<(), Fault> {
    if case.section(Kind::Form).is_some() {
        return Err(Fault::at(table.line, Wrong::FormAndRows));
    }
    if table.block.text.is_empty() {
        return Err(Fault::at(table.line, Wrong::NoRows));
    }
    for (index, text) in table.block.text.split('\n').enumerate() {
        let line = table.block.line.saturating_add(index);
        let Some((form, answer)) = text.split_once(" => ") else {
            return Err(Fault::at(line, Wrong::Row));
        };
        let names = Names {
            texts: sheet.texts.as_slice(),
            form: Some(Raw { line, text: form }),
            answer: Some(Raw { line, text: answer }),
        };
        let name = case.name.as_str();
        let label = format!(in rt.alloc(); "{file}: {name}: {form}")?;
        judge_once(rt, &names, case, label.as_str(), tally, report)?;
    }
    Ok(())
}

// Judges a case, where the names in it stand for these.
fn judge_once<R: Files + AllocGlobal>(
    rt: &R,
    names: &Names<'_>,
    case: &Case,
    label: &str,
    tally: &mut Tally,
    report: &mut String,
) -> Result<(), Fault> {
    let setting = setting_of(rt, names, case)?;
    judge_setting(rt.alloc(), &setting, label, tally, report)
}

fn judge_setting(
    alloc: Global,
    setting: &Setting,
    label: &str,
    tally: &mut Tally,
    report: &mut String,
) -> Result<(), Fault> {
    let said = said_of(alloc, setting)?;
    let agrees = said.as_bytes() == setting.differs.as_slice();
    tally.count(!agrees);
    if agrees {
        return Ok(());
    }
    tell(label, said.as_str(), report)
}

// Tells what is said of a case; nothing is said of one that was to differ and does not.
fn tell(label: &str, said: &str, report: &mut String) -> Result<(), Fault> {
    if said.is_empty() {
        writeln!(report, "{label}: does not differ")?;
    } else {
        write!(report, "{label}: {said}")?;
    }
    Ok(())
}
