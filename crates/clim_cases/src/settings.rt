//! What a case says, worked out: what the program is run on, and what is wanted of it.
use crate::cases::Case;
use crate::expanding::{line_of, lines_of, text_of};
use crate::faults::{Fault, Wrong, not_read};
use crate::marks::Names;
use crate::sections::{Kind, Raw, Section};
use std::alloc::Global;
use std::fs;
use std::rt::Files;

/// What the program is run on, and what is wanted of it.
#[derive(Drop)]
pub struct Setting {
    pub words: Vec<String>,
    pub application: Vec<u8>,
    pub gestures: Vec<u8>,
    pub transcript: Vec<u8>,
    pub status: u64,
    /// The steps of the opening and of each line of gestures, where they are compared.
    pub steps: Option<Vec<u64>>,
    /// The calls that are to fail.
    pub place_fails: Vec<u64>,
    pub gestures_fail: Vec<u64>,
    pub output_fails: Vec<u64>,
    /// The most bytes of a write of the output, and of all its writes.
    pub takes: u64,
    pub room: Option<u64>,
    pub wire: Option<Wire>,
    /// What is to be said of the run: nothing where it is to be as it is wanted.
    pub differs: Vec<u8>,
}

/// What is wanted of the wire, the file `wire` of the place.
#[derive(Drop)]
pub struct Wire {
    pub bytes: Vec<u8>,
    /// The most bytes of a write, and of all writes.
    pub takes: u64,
    pub room: Option<u64>,
}

impl Setting {
    // An empty one.
    fn new(alloc: Global) -> Setting {
        Setting {
            words: Vec::new(alloc),
            application: Vec::new(alloc),
            gestures: Vec::new(alloc),
            transcript: Vec::new(alloc),
            status: 0,
            steps: None,
            place_fails: Vec::new(alloc),
            gestures_fail: Vec::new(alloc),
            output_fails: Vec::new(alloc),
            takes: 4096,
            room: None,
            wire: None,
            differs: Vec::new(alloc),
        }
    }

    // What the program is run on.
    fn add_input<'a, R: Files + AllocGlobal>(
        &mut self,
        rt: &R,
        names: &Names<'a>,
        case: &'a Case,
    ) -> Result<(), Fault> {
        self.words = words_of(rt.alloc(), names, case)?;
        self.application = application_of(rt, names, case)?;
        self.gestures = lines_in(rt, names, case, Kind::Gestures)?;
        Ok(())
    }

    // What is wanted of the run.
    fn add_wanted<'a, R: Files + AllocGlobal>(
        &mut self,
        rt: &R,
        names: &Names<'a>,
        case: &'a Case,
    ) -> Result<(), Fault> {
        self.transcript = lines_in(rt, names, case, Kind::Transcript)?;
        self.status = case.number(Kind::Status).unwrap_or(0);
        self.steps = steps_of(rt.alloc(), names, case)?;
        self.wire = wire_of(rt, names, case)?;
        self.differs = lines_in(rt, names, case, Kind::Differs)?;
        Ok(())
    }

    // What fails, and how much is taken.
    fn add_faults(&mut self, alloc: Global, case: &Case) -> Result<(), Fault> {
        self.place_fails = case.numbers(Kind::PlaceFails).to_vec(alloc)?;
        self.gestures_fail = case.numbers(Kind::GesturesFail).to_vec(alloc)?;
        self.output_fails = case.numbers(Kind::OutputFails).to_vec(alloc)?;
        self.takes = case.number(Kind::OutputTakes).unwrap_or(4096);
        self.room = case.number(Kind::OutputRoom);
        Ok(())
    }
}

/// The setting of a case, with what the names in it stand for.
pub fn setting_of<'a, R: Files + AllocGlobal>(
    rt: &R,
    names: &Names<'a>,
    case: &'a Case,
) -> Result<Setting, Fault> {
    let mut setting = Setting::new(rt.alloc());
    setting.add_input(rt, names, case)?;
    setting.add_wanted(rt, names, case)?;
    setting.add_faults(rt.alloc(), case)?;
    Ok(setting)
}

fn application_of<'a, R: Files + AllocGlobal>(
    rt: &R,
    names: &Names<'a>,
    case: &'a Case,
) -> Result<Vec<u8>, Fault> {
    match case.section(Kind::Application) {
        Some(section) if section.file.is_none() => text_of(rt.alloc(), names, &section.block),
        _ => lines_in(rt, names, case, Kind::Application),
    }
}

// What is wanted of the wire, where it is compared.
fn wire_of<'a, R: Files + AllocGlobal>(
    rt: &R,
    names: &Names<'a>,
    case: &'a Case,
) -> Result<Option<Wire>, Fault> {
    if case.section(Kind::Wire).is_none() {
        return Ok(None);
    }
    Ok(Some(Wire {
        bytes: lines_in(rt, names, case, Kind::Wire)?,
        takes: case.number(Kind::WireTakes).unwrap_or(4096),
        room: case.number(Kind::WireRoom),
    }))
}

// The lines of a section, or of the file that it names; none where the case has no such section.
fn lines_in<'a, R: Files + AllocGlobal>(
    rt: &R,
    names: &Names<'a>,
    case: &'a Case,
    kind: Kind,
) -> Result<Vec<u8>, Fault> {
    let Some(section) = case.section(kind) else {
        return Ok(Vec::new(rt.alloc()));
    };
    match &section.file {
        Some(file) => read_bytes(rt, section, file.as_str()),
        None => lines_of(rt.alloc(), names, &section.block),
    }
}

fn read_bytes<R: Files + AllocGlobal>(
    rt: &R,
    section: &Section,
    file: &str,
) -> Result<Vec<u8>, Fault> {
    match fs::read(rt, file) {
        Ok(bytes) => Ok(bytes),
        Err(error) => Err(not_read(&error, Fault::at(section.line, Wrong::NoFile))),
    }
}

// The words behind the program's name.
fn words_of<'a>(alloc: Global, names: &Names<'a>, case: &'a Case) -> Result<Vec<String>, Fault> {
    let mut words = Vec::new(alloc);
    let Some(section) = case.section(Kind::Words) else {
        words.push(String::from_str(alloc, "run")?)?;
        words.push(String::from_str(alloc, "app")?)?;
        return Ok(words);
    };
    if section.block.text.is_empty() {
        return Ok(words);
    }
    for (index, text) in section.block.text.split('\n').enumerate() {
        let line = section.block.line.saturating_add(index);
        let bytes = line_of(alloc, names, Raw { line, text })?;
        let Ok(word) = String::from_utf8(bytes) else {
            return Err(Fault::at(line, Wrong::Word));
        };
        words.push(word)?;
    }
    Ok(words)
}

// The numbers of steps, where the case says some.
fn steps_of<'a>(
    alloc: Global,
    names: &Names<'a>,
    case: &'a Case,
) -> Result<Option<Vec<u64>>, Fault> {
    let Some(section) = case.section(Kind::Steps) else {
        return Ok(None);
    };
    let bytes = text_of(alloc, names, &section.block)?;
    let mut steps = Vec::new(alloc);
    for (index, line) in bytes.split(|byte| *byte == b'\n').enumerate() {
        match number_in(line) {
            Some(number) => steps.push(number)?,
            None => {
                let line = section.block.line.saturating_add(index);
                return Err(Fault::at(line, Wrong::Number));
            }
        }
    }
    Ok(Some(steps))
}

fn number_in(line: &[u8]) -> Option<u64> {
    str::from_utf8(line).ok()?.parse().ok()
}
