//! The rows below the screen.
ghost use Rattle.std.specs.Prelude.{◌≡◌, ◌+◌, ◌++◌, ◌≤◌, ◌<◌, IfOk, OnOk, map, position, take};
ghost use Rattle.std.specs.List.{after_first, before_first};
ghost use Rattle.cl_interactor.specs.Rows.{begin_row, interactor_bytes, is_feed, last_bytes, reply_rows, row_bytes, shown_byte};

use itoa::Buffer;
use std::alloc::{AllocError, Global};

/// How many rows show replies.
pub const REPLY_ROWS: u16 = 4;

/// How many bytes of a row are shown at most.
const COLUMNS: usize = 78;

/// How many bytes of the line that is typed are shown at most, behind `> `.
const TYPED: usize = 76;

/// The bytes that show the interactor below a screen of `height` rows: what was typed so far, what is expected, and of the replies, which
/// are lines each with its line feed, the first `REPLY_ROWS`. The cursor stands behind what was typed. It fails only out of memory.
pub fn interactor(
    alloc: Global,
    height: u16,
    typed: &[u8],
    expected: &[u8],
    replies: &[u8],
) -> Result<Vec<u8>, AllocError>
    requires { height ≤ 256 }
    ensures { IfOk result (λ bytes. bytes.items ≡ interactor_bytes height typed.now expected.now replies.now) }
{
    let mut bytes = Vec::new(alloc);
    put_row(&mut bytes, height + 1, expected)?;
    put_replies(&mut bytes, height + 2, replies)?;
    let mut marked = Vec::from_slice(alloc, b"> ")?;
    marked.extend_from_slice(last_bytes(typed))?;
    put_row(&mut bytes, height, marked.as_slice())?;
    Ok(bytes)
}

// The last bytes of these.
fn last_bytes(bytes: &[u8]) -> &[u8]
    ensures { result.now ≡ last_bytes bytes.now }
{
    &bytes[bytes.len().saturating_sub(TYPED)..]
}

// Puts rows that show the first lines behind other bytes.
fn put_replies(bytes: &mut Vec<u8>, first: u16, lines: &[u8]) -> Result<(), AllocError>
    requires { first ≤ 258 }
    ensures { OnOk result (bytes.new.items ≡ bytes.old.items ++ reply_rows first 4 lines.now) }
{
    let mut rest = lines;
    for row in 0..REPLY_ROWS {
        let (line, more) = cut_line(rest);
        put_row(bytes, first + row, line)?;
        rest = more;
    }
    Ok(())
}

// The first line, and what stands behind its line feed.
fn cut_line(lines: &[u8]) -> (&[u8], &[u8])
    ensures line { result.0.now ≡ before_first is_feed lines.now }
    ensures rest { result.1.now ≡ after_first is_feed lines.now }
{
    match first_feed(lines) {
        Some(at) => (&lines[..at], &lines[at + 1..]),
        None => (lines, &[]),
    }
}

// Where the first line feed stands.
fn first_feed(lines: &[u8]) -> Option<usize>
    ensures { result ≡ position is_feed lines.now }
{
    lines.iter().position(|byte| *byte == b'\n')
}

// Puts a row that shows a text behind other bytes.
fn put_row(bytes: &mut Vec<u8>, y: u16, text: &[u8]) -> Result<(), AllocError>
    requires { y < 1000 }
    ensures { OnOk result (bytes.new.items ≡ bytes.old.items ++ row_bytes y text.now) }
{
    put_start(bytes, y)?;
    put_shown(bytes, &text[..COLUMNS.min(text.len())])?;
    bytes.extend_from_slice(b"\x1b[K")?;
    Ok(())
}

// Puts what takes the cursor to the first column of row y behind other bytes.
fn put_start(bytes: &mut Vec<u8>, y: u16) -> Result<(), AllocError>
    requires { y < 1000 }
    ensures { OnOk result (bytes.new.items ≡ bytes.old.items ++ begin_row y) }
{
    bytes.extend_from_slice(b"\x1b[")?;
    bytes.extend_from_slice(Buffer::new().format(y + 1).as_bytes())?;
    bytes.extend_from_slice(b";1H")?;
    Ok(())
}

// Puts bytes as they are shown behind others.
fn put_shown(bytes: &mut Vec<u8>, text: &[u8]) -> Result<(), AllocError>
    ensures { OnOk result (bytes.new.items ≡ bytes.old.items ++ map shown_byte text.now) }
{
    for byte in text {
        bytes.push(shown_byte(*byte))?;
    }
    Ok(())
}

// A byte as it is shown.
fn shown_byte(byte: u8) -> u8
    ensures { result ≡ shown_byte byte }
{
    if 32 <= byte && byte <= 126 {
        byte
    } else {
        b'?'
    }
}
