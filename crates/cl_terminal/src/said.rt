//! What is said of a gesture, for a person to read.
ghost use Rattle.std.specs.Prelude.{IfSome};
ghost use Rattle.cl_session.specs.Replies.{lines_of};
ghost use Rattle.cl_session.specs.Transcript.{line_bytes};
ghost use Rattle.cl_terminal.specs.Showing.{SaysFirst};

use cl_application::App;
use cl_frame::Frame;
use cl_outside::MemSink;
use cl_session::{Replies, say_replies};
use std::alloc::Global;

/// How many bytes of the replies to a gesture are kept.
const ROOM: usize = 1024;

/// The first bytes of what is said of a gesture, its lines each with its line feed; `None` out of memory.
pub(crate) fn said_of(alloc: Global, app: &App, frame: &Frame, replies: &Replies) -> Option<MemSink>
    ensures { IfSome result (SaysFirst (line_bytes (lines_of app.now frame.now replies.now))) }
{
    let Ok(mut said) = MemSink::new(alloc, ROOM, Vec::new(alloc), Vec::new(alloc)) else {
        return None;
    };
    let _whole = say_replies(&mut said, app, frame, replies);
    Some(said)
}
