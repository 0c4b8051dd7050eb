//! The reader of lines over a source.
ghost use Rattle.std.specs.Prelude.{◌≡◌, ◌≤◌, ◌<◌, [], length};

use crate::ahead::Ahead;
use crate::answers::Stop;
use crate::cut::{CUT_AT, Cut, next_cut};
use cl_outside::{Source, Took};

/// The most lines that a reader reads.
const MOST_LINES: u32 = 1_000_000;

/// What a reader of lines comes to.
#[derive(Clone, Copy, PartialEq, Eq, Debug)]
pub enum NextLine {
    /// A line, whose bytes the reader holds until it reads on.
    Line,
    /// 4,097 bytes without a line feed, which the reader holds until it reads on.
    Long,
    /// The source's end, with no bytes of a line left.
    End,
    /// The source failed.
    ReadFault,
    /// A million lines were read, and a further byte came.
    TooMany,
}

/// The lines of a source, one by one.
#[derive(Drop)]
pub struct LineReader<G> {
    source: G,
    // first the bytes of the line that was read last, and then those that no line has taken yet
    ahead: Ahead,
    // how many bytes that line has
    line: usize,
    // how many it took, with its line feed
    taken: usize,
    count: u32,
    stop: Stop,
    pub ghost at_most: { count ≤ 1000000 },
    pub ghost held: { (line ≤ taken) × (taken ≤ length ahead) },
}

impl<G: Source> LineReader<G> {
    ghost use Rattle.cl_gesture.specs.declared.answers.Stop.TheVariants as stop;
    ghost use Rattle.cl_gesture.specs.LineReader.{source_of, ahead_of, line_of, taken_of, count_of, stop_of, progress_of, LineOf, AgainNone};
    ghost use Rattle.cl_gesture.specs.Progress.{most_lines};
    ghost use Rattle.cl_gesture.specs.Reading.{ReadsNoFurther, AreNone};

    /// A reader at the first line of what the source has left.
    pub fn new(room: Ahead, source: G) -> LineReader<G>
        requires { room ≡ [] }
        ensures source { source_of result ≡ source }
        ensures ahead { ahead_of result ≡ [] }
        ensures count { count_of result ≡ 0 }
        ensures stop { stop_of result ≡ stop.Going }
    {
        LineReader {
            source,
            ahead: room,
            line: 0,
            taken: 0,
            count: 0,
            stop: Stop::Going,
        }
    }

    /// The source, behind the bytes that it has handed over.
    pub fn into_source(self) -> G
        ensures { result ≡ source_of self }
    {
        let LineReader { source, .. } = self;
        source
    }

    /// The bytes of the line that was read last, without its line feed.
    pub fn line(&self) -> &[u8]
        ensures { result.now ≡ line_of self.now }
    {
        &self.ahead.as_slice()[..self.line]
    }

    /// How many lines were read.
    pub fn count(&self) -> u32
        ensures { result ≡ count_of self.now }
    {
        self.count
    }

    /// The next line, or why there is none. The source is not read where a line has ended in the
    /// bytes ahead, and else up to the first read that ends one.
    pub fn next(&mut self) -> NextLine
        ensures lent { G.lent (source_of self.new) ≡ G.lent (source_of self.old) }
        ensures later { G.faults (source_of self.old) ≤ G.faults (source_of self.new) }
        ensures reads { ReadsNoFurther G.left G.calls AreNone (source_of self.old)
            (source_of self.new) (ahead_of self.old) }
        ensures again { AgainNone (stop_of self.old) self.old self.new result }
        ensures next { stop_of self.old ≡ stop.Going → LineOf (progress_of G.left G.faults self.old)
            (progress_of G.left G.faults self.new) (line_of self.new) result }
    {
        match self.stop {
            Stop::Going => {}
            Stop::AtEnd => return NextLine::End,
            Stop::AtFault => return NextLine::ReadFault,
            Stop::AtLimit => return NextLine::TooMany,
        }
        self.line = 0;
        let taken = self.taken;
        self.taken = 0;
        self.ahead.skip(taken);
        if self.count == MOST_LINES {
            return self.look_further();
        }
        self.cut_line()
    }

    /// Cuts one line from the bytes ahead.
    fn cut_line(&mut self) -> NextLine
        requires passed { taken_of self.old ≡ 0 }
        requires room { count_of self.old < most_lines }
        requires going { stop_of self.old ≡ stop.Going }
        ensures lent { G.lent (source_of self.new) ≡ G.lent (source_of self.old) }
        ensures later { G.faults (source_of self.old) ≤ G.faults (source_of self.new) }
        ensures reads { ReadsNoFurther G.left G.calls AreNone (source_of self.old)
            (source_of self.new) (ahead_of self.old) }
        ensures next { LineOf (progress_of G.left G.faults self.old)
            (progress_of G.left G.faults self.new) (line_of self.new) result }
    {
        match next_cut(&mut self.ahead, &mut self.source) {
            Cut::Line(length) => {
                self.line = length;
                self.taken = length + 1;
                self.count += 1;
                NextLine::Line
            }
            Cut::Long => {
                self.line = CUT_AT;
                self.taken = CUT_AT;
                self.count += 1;
                NextLine::Long
            }
            Cut::Last => {
                self.line = self.ahead.len();
                self.taken = self.line;
                self.count += 1;
                self.stop = Stop::AtEnd;
                NextLine::Line
            }
            Cut::End => {
                self.stop = Stop::AtEnd;
                NextLine::End
            }
            Cut::Fault => {
                self.ahead.clear();
                self.stop = Stop::AtFault;
                NextLine::ReadFault
            }
        }
    }

    /// Looks for a byte behind the last line that may be read.
    fn look_further(&mut self) -> NextLine
        requires passed { taken_of self.old ≡ 0 }
        requires full { count_of self.old ≡ most_lines }
        requires going { stop_of self.old ≡ stop.Going }
        ensures lent { G.lent (source_of self.new) ≡ G.lent (source_of self.old) }
        ensures later { G.faults (source_of self.old) ≤ G.faults (source_of self.new) }
        ensures reads { ReadsNoFurther G.left G.calls AreNone (source_of self.old)
            (source_of self.new) (ahead_of self.old) }
        ensures next { LineOf (progress_of G.left G.faults self.old)
            (progress_of G.left G.faults self.new) (line_of self.new) result }
    {
        if self.ahead.len() > 0 {
            self.stop = Stop::AtLimit;
            return NextLine::TooMany;
        }
        match self.ahead.fill(&mut self.source) {
            Took::Bytes(0) => {
                self.stop = Stop::AtEnd;
                NextLine::End
            }
            Took::Bytes(_) => {
                self.stop = Stop::AtLimit;
                NextLine::TooMany
            }
            Took::Failed => {
                self.stop = Stop::AtFault;
                NextLine::ReadFault
            }
        }
    }
}
