//! A stream of gestures, from a source in memory and from one that tells nothing.
ghost use Rattle.std.specs.Prelude.{None};

use super::saying::put_bytes;
use cl_gesture::{Ahead, Gesture, Gestures, Next, PointAt};
use cl_outside::{MemSource, Source, Took};
use std::alloc::{AllocError, Global};
use std::test::Fail;

/// Hands over one byte a read, and does not tell what is left.
#[derive(Drop)]
struct Dribble {
    source: MemSource,
}

impl Source for Dribble {
    ghost left = { λ _. None };

    ghost calls = { λ s. s.source.reads };

    ghost faults = { λ s. s.source.faults };

    fn read(&mut self, buf: &mut [u8]) -> Took {
        self.source.read(&mut buf[..1])
    }
}

fn put_text(told: &mut String, head: &str, bytes: &[u8]) -> Result<(), AllocError> {
    told.push_str(head)?;
    put_bytes(told, bytes)
}

fn put_gesture(told: &mut String, gesture: Gesture) -> Result<(), AllocError> {
    match gesture {
        Gesture::Type(text) => put_text(told, "type ", text.as_slice()),
        Gesture::Return => Ok(told.push_str("return")?),
        Gesture::Rubout => Ok(told.push_str("rubout")?),
        Gesture::Clear => Ok(told.push_str("clear")?),
        Gesture::Frame => Ok(told.push_str("frame")?),
        Gesture::Inks => Ok(told.push_str("inks")?),
        Gesture::Force => Ok(told.push_str("force")?),
        Gesture::History(name) => put_text(told, "history ", name.as_slice()),
        Gesture::Stroke(name) => put_text(told, "stroke ", name.as_slice()),
        Gesture::Point(at) => put_point(told, &at),
    }
}

fn put_point(told: &mut String, at: &PointAt) -> Result<(), AllocError> {
    put_text(told, "point ", at.pane.as_slice())?;
    write!(told, " {:?} {} {}", at.gesture, at.x, at.y)
}

/// Puts what a reader answers, and says whether it can answer something else.
fn put_next(told: &mut String, next: Next) -> Result<bool, AllocError> {
    match next {
        Next::Gesture(gesture) => put_gesture(told, gesture)?,
        Next::Bad(number) => write!(told, "bad {number}")?,
        Next::Memory => told.push_str("memory")?,
        Next::End => {
            told.push_str("end")?;
            return Ok(false);
        }
        Next::ReadFault => {
            told.push_str("fault")?;
            return Ok(false);
        }
        Next::TooMany => {
            told.push_str("too many")?;
            return Ok(false);
        }
    }
    told.push('\n')?;
    Ok(true)
}

/// What a reader answers, one line an answer, up to the first that comes again and again.
fn answers<G: Source>(alloc: Global, gestures: &mut Gestures<G>) -> Result<String, AllocError> {
    let mut told = String::new(alloc);
    for _ in 0..100u8 {
        let next = gestures.next();
        if !put_next(&mut told, next)? {
            return Ok(told);
        }
    }
    Ok(told)
}

const STREAM: &[u8] =
    b"return\nframe\r\n\n# a comment\nhistory a\tb\ntype  two \ninks \njump\r\n\r#\ntype x";

const TOLD: &str = "return\nframe\nhistory a\tb\ntype  two \nbad 7\nbad 8\nbad 9\ntype x\nend";

#[test]
fn a_stream_is_read_by_the_byte(rt: HostRuntime) -> Result<(), Fail> {
    let alloc = rt.alloc();
    let room = Ahead::new(alloc)?;
    let source = MemSource::new(STREAM.to_vec(alloc)?, Vec::new(alloc));
    let mut gestures = Gestures::with_room(alloc, room, Dribble { source });
    assert_eq!(rt; answers(alloc, &mut gestures)?.as_str(), TOLD);
    Ok(())
}

const VERBS: &[u8] =
    b"force\nforce \nForce\nreturn x\nhistory\nhistory \nhistory a b\ntype\ntype \nframe x\ninks\nstroke\nstroke \nstroke a b\nstroke L\n";

#[test]
fn verbs_are_read_with_what_stands_behind(rt: HostRuntime) -> Result<(), Fail> {
    let alloc = rt.alloc();
    let source = MemSource::new(VERBS.to_vec(alloc)?, Vec::new(alloc));
    let mut gestures = Gestures::new(alloc, source)?;
    assert_eq!(rt;
        answers(alloc, &mut gestures)?.as_str(),
        "force\nbad 2\nbad 3\nbad 4\nbad 5\nbad 6\nbad 7\nbad 8\nbad 9\nbad 10\ninks\nbad 12\nbad 13\nbad 14\nstroke L\nend"
    );
    Ok(())
}

const POINTS: &[u8] =
    b"point p select 0 0\npoint p Menu -1 000123\npoint p select 1\npoint p choose 1 1\npoint p select 1234567 0\npoint";

#[test]
fn places_are_pointed_at_by_numbers(rt: HostRuntime) -> Result<(), Fail> {
    let alloc = rt.alloc();
    let source = MemSource::new(POINTS.to_vec(alloc)?, Vec::new(alloc));
    let mut gestures = Gestures::new(alloc, source)?;
    assert_eq!(rt;
        answers(alloc, &mut gestures)?.as_str(),
        "point p Select 0 0\npoint p Menu -1 123\nbad 3\nbad 4\nbad 5\nbad 6\nend"
    );
    Ok(())
}

const TAKEN_AWAY: &[u8] =
    b"rubout\nrubout \nrubout x\nRubout\nrubout\r\nclear\nclear \nclear 1\n clear\nclear\r\nclea\nrubout";

#[test]
fn what_takes_away_stands_alone(rt: HostRuntime) -> Result<(), Fail> {
    let alloc = rt.alloc();
    let source = MemSource::new(TAKEN_AWAY.to_vec(alloc)?, Vec::new(alloc));
    let mut gestures = Gestures::new(alloc, source)?;
    assert_eq!(rt;
        answers(alloc, &mut gestures)?.as_str(),
        "rubout\nbad 2\nbad 3\nbad 4\nrubout\nclear\nbad 7\nbad 8\nbad 9\nclear\nbad 11\nrubout\nend"
    );
    Ok(())
}

#[test]
fn faults_stand(rt: HostRuntime) -> Result<(), Fail> {
    let alloc = rt.alloc();
    let content = b"return\n#\nfra".to_vec(alloc)?;
    let mut gestures = Gestures::new(alloc, MemSource::new(content, vec![in alloc; 2]?))?;
    assert_eq!(rt; answers(alloc, &mut gestures)?.as_str(), "return\nfault");
    assert_eq!(rt; answers(alloc, &mut gestures)?.as_str(), "fault");
    Ok(())
}
