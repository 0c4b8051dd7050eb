//! The reader of gestures over a source.
ghost use Rattle.std.specs.Prelude.{◌≡◌, ◌≤◌, [], IfOk};

use crate::ahead::Ahead;
use crate::answers::Next;
use crate::grammar::{answer, read_line};
use crate::lines::{LineReader, NextLine};
use cl_outside::Source;
use std::alloc::{AllocError, Global};

/// The gestures of a source, line by line.
#[derive(Drop)]
pub struct Gestures<G> {
    lines: LineReader<G>,
    alloc: Global,
}

impl<G: Source> Gestures<G> {
    ghost use Rattle.cl_gesture.specs.declared.answers.Stop.TheVariants as stop;
    ghost use Rattle.cl_gesture.specs.Next.{AreIdle, NextOf, Again};
    ghost use Rattle.cl_gesture.specs.Reader.{source_of, ahead_of, count_of, stop_of, progress_of};
    ghost use Rattle.cl_gesture.specs.Reading.{ReadsNoFurther};

    /// A reader at the first line of what the source has left. Want of memory gives the source up.
    pub fn new(alloc: Global, source: G) -> Result<Gestures<G>, AllocError>
    where
        G: Drop,
        ensures source { IfOk result (λ s. source_of s ≡ source) }
        ensures ahead { IfOk result (λ s. ahead_of s ≡ []) }
        ensures count { IfOk result (λ s. count_of s ≡ 0) }
        ensures stop { IfOk result (λ s. stop_of s ≡ stop.Going) }
    {
        let room = Ahead::new(alloc)?;
        Ok(Gestures::with_room(alloc, room, source))
    }

    /// A reader at the first line of what the source has left, over room that was taken before. It
    /// takes no memory, so no source is given up.
    pub fn with_room(alloc: Global, room: Ahead, source: G) -> Gestures<G>
        requires { room ≡ [] }
        ensures source { source_of result ≡ source }
        ensures ahead { ahead_of result ≡ [] }
        ensures count { count_of result ≡ 0 }
        ensures stop { stop_of result ≡ stop.Going }
    {
        Gestures {
            lines: LineReader::new(room, source),
            alloc,
        }
    }

    /// The source, behind the bytes that it has handed over.
    pub fn into_source(self) -> G
        ensures { result ≡ source_of self }
    {
        let Gestures { lines, .. } = self;
        lines.into_source()
    }

    /// The next gesture or bad line, or why there is none. Empty lines and comments are counted and
    /// passed over. The source is not read where a line that is not idle has ended in the bytes
    /// ahead, and else up to the first read that ends one: no answer waits for a further byte.
    pub fn next(&mut self) -> Next
        ensures lent { G.lent (source_of self.new) ≡ G.lent (source_of self.old) }
        ensures later { G.faults (source_of self.old) ≤ G.faults (source_of self.new) }
        ensures reads { ReadsNoFurther G.left G.calls AreIdle (source_of self.old)
            (source_of self.new) (ahead_of self.old) }
        ensures again { Again (stop_of self.old) self.old self.new result }
        ensures next { stop_of self.old ≡ stop.Going →
            NextOf (progress_of G.left G.faults self.old) (progress_of G.left G.faults self.new) result }
    {
        loop {
            match self.lines.next() {
                NextLine::Line => {
                    let said = read_line(self.alloc, self.lines.line());
                    if let Some(next) = answer(said, self.lines.count()) {
                        return next;
                    }
                }
                NextLine::Long => return Next::Bad(self.lines.count()),
                NextLine::End => return Next::End,
                NextLine::ReadFault => return Next::ReadFault,
                NextLine::TooMany => return Next::TooMany,
            }
        }
    }
}
