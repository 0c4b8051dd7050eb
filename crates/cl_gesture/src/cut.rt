//! The next line of a stream, cut from the bytes that were read.
ghost use Rattle.std.specs.Prelude.{◌≡◌, ◌≤◌, All, length, take};
ghost use Rattle.cl_gesture.specs.Lines.{IsNoFeed, longest_line};
ghost use Rattle.cl_gesture.specs.Reading.{ReadsNoFurther, AreNone};
ghost use Rattle.cl_gesture.specs.Cut.{FoundIn, CutOf};

use crate::ahead::Ahead;
use cl_outside::{Source, Took};

/// So many bytes without a line feed are cut.
pub const CUT_AT: usize = 4097;

/// Where the first line of some bytes ends.
pub enum Found {
    /// The first so many bytes are a line, and its line feed stands behind them.
    Line(usize),
    /// It is cut at 4,097 bytes.
    Long,
    /// It has no line feed yet, and too few bytes to be cut.
    Unended,
}

/// How the next line is cut of the bytes ahead.
pub enum Cut {
    /// The first so many bytes are a line, and its line feed stands behind them.
    Line(usize),
    /// 4,097 bytes without a line feed.
    Long,
    /// All bytes ahead are the last line, and the source is at its end.
    Last,
    /// No byte is ahead, and the source is at its end.
    End,
    /// The source failed.
    Fault,
}

/// Finds the end of the first line, where the first `seen` bytes hold no line feed.
fn find_line(bytes: &[u8], seen: usize) -> Found
    requires short { seen ≤ longest_line }
    requires within { seen ≤ length bytes.now }
    requires unended { All IsNoFeed (take seen bytes.now) }
    ensures { FoundIn bytes.now result }
{
    for at in seen..bytes.len().min(CUT_AT) {
        if bytes[at] == b'\n' {
            return Found::Line(at);
        }
    }
    if bytes.len() < CUT_AT {
        Found::Unended
    } else {
        Found::Long
    }
}

/// Looks for the next line of the bytes ahead, and reads on only while it has no end there.
pub fn next_cut<G: Source>(ahead: &mut Ahead, source: &mut G) -> Cut
    ensures lent { G.lent source.new ≡ G.lent source.old }
    ensures later { G.faults source.old ≤ G.faults source.new }
    ensures reads { ReadsNoFurther G.left G.calls AreNone source.old source.new ahead.old }
    ensures cut { CutOf (G.left source.old) (G.left source.new) ahead.old ahead.new
        (G.faults source.old) (G.faults source.new) result }
{
    let mut seen = 0;
    loop {
        match find_line(ahead.as_slice(), seen) {
            Found::Line(at) => return Cut::Line(at),
            Found::Long => return Cut::Long,
            Found::Unended => {}
        }
        seen = ahead.len();
        match ahead.fill(source) {
            Took::Bytes(0) => return if seen == 0 { Cut::End } else { Cut::Last },
            Took::Bytes(_) => {}
            Took::Failed => return Cut::Fault,
        }
    }
}
