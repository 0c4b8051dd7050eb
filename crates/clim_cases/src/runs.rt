//! One run of the program over objects in memory.
ghost use Rattle.std.specs.Prelude.{IfOk};
ghost use Rattle.cl_outside.specs.Memory.{AllPositive};

use crate::settings::Setting;
use cl_host::{month_number, shipped_types, weekday_number};
use cl_outside::{MemPlace, MemSink, MemSource, own_steps};
use cl_program::{Status, clim_main};
use cl_ptext::HostTypes;
use std::alloc::{AllocError, Global};

/// How many bytes more than are wanted the output takes at most: more of them differ anyway.
const SPARE: usize = 4096;

/// What a run came to.
#[derive(Drop)]
pub struct Ran {
    pub transcript: Vec<u8>,
    pub status: u64,
    pub steps: u64,
    /// What the wire holds, where one was made.
    pub wire: Vec<u8>,
}

/// Runs the program on a setting with these bytes as its gestures.
pub fn run(alloc: Global, setting: &Setting, gestures: &[u8]) -> Result<Ran, AllocError> {
    let mut outside = Outside::new(alloc, setting, gestures)?;
    let words = texts_of(alloc, setting.words.as_slice())?;
    outside.run(alloc, words.as_slice())
}

// What the program is run over.
#[derive(Drop)]
struct Outside {
    place: MemPlace,
    source: MemSource,
    out: MemSink,
}

impl Outside {
    fn new(alloc: Global, setting: &Setting, gestures: &[u8]) -> Result<Outside, AllocError> {
        let place = place_of(alloc, setting)?;
        let source = source_of(alloc, setting, gestures)?;
        let out = output_of(alloc, setting)?;
        Ok(Outside { place, source, out })
    }

    fn run(&mut self, alloc: Global, words: &[&str]) -> Result<Ran, AllocError> {
        let mut steps = own_steps();
        let day = Box::new(alloc, |text: &[u8]| weekday_number(text))?;
        let month = Box::new(alloc, |text: &[u8]| month_number(text))?;
        let types = shipped_types(alloc, day, month)?;
        let hosts = HostTypes { types: &types };
        let Status(status) = clim_main(
            alloc,
            words,
            &hosts,
            &mut self.place,
            &mut self.source,
            &mut self.out,
            &mut steps,
        );
        Ok(Ran {
            transcript: self.out.taken().to_vec(alloc)?,
            status: u64::from(status),
            steps: steps.ledger().seen(),
            wire: self.place.file("wire").unwrap_or(&[]).to_vec(alloc)?,
        })
    }
}

fn source_of(alloc: Global, setting: &Setting, gestures: &[u8]) -> Result<MemSource, AllocError> {
    let fails = setting.gestures_fail.as_slice().to_vec(alloc)?;
    Ok(MemSource::new(gestures.to_vec(alloc)?, fails))
}

// The words as texts.
fn texts_of<'a>(alloc: Global, words: &'a [String]) -> Result<Vec<&'a str>, AllocError> {
    let mut texts = Vec::new(alloc);
    for word in words {
        texts.push(word.as_str())?;
    }
    Ok(texts)
}

// A place with the one file `app`. A made file takes what the wire is wanted to be, and some more.
fn place_of(alloc: Global, setting: &Setting) -> Result<MemPlace, AllocError> {
    let name = String::from_str(alloc, "app")?;
    let application = setting.application.as_slice().to_vec(alloc)?;
    let mut files = Vec::new(alloc);
    files.push((name, application))?;
    let fails = setting.place_fails.as_slice().to_vec(alloc)?;
    let Some(wire) = &setting.wire else {
        return Ok(MemPlace::new(alloc, files, 0, Vec::new(alloc), fails));
    };
    let wanted = wire.bytes.len();
    let room = room_for(wanted, wire.room);
    let pieces = pieces_of(alloc, wire.takes as usize, wanted.saturating_add(1))?;
    Ok(MemPlace::new(alloc, files, room, pieces, fails))
}

// The room for what is wanted and for some more, or less where it is bounded.
fn room_for(wanted: usize, bound: Option<u64>) -> usize {
    let most = wanted.saturating_add(SPARE);
    bound.map_or(most, |bound| most.min(bound as usize))
}

// The output. Each write takes a byte or more, so no wanted transcript needs more pieces.
fn output_of(alloc: Global, setting: &Setting) -> Result<MemSink, AllocError> {
    let wanted = setting.transcript.len();
    let room = room_for(wanted, setting.room);
    let pieces = pieces_of(alloc, setting.takes as usize, wanted.saturating_add(1))?;
    let fails = setting.output_fails.as_slice().to_vec(alloc)?;
    MemSink::new(alloc, room, pieces, fails)
}

// So many writes of one size.
fn pieces_of(alloc: Global, size: usize, count: usize) -> Result<Vec<usize>, AllocError>
    ensures { IfOk result (λ v. AllPositive v.items) }
{
    if size > 0 {
        vec![in alloc; size; count]
    } else {
        Ok(Vec::new(alloc))
    }
}
