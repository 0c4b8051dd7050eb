//! The operations that lines of a wire spell.
ghost use Rattle.std.specs.Prelude.{◌≡◌, ◌≢◌, ◌↔◌, ◌∷◌, ◌++◌, ◌^◌, ◌<◌, ◌≤◌, All, IsTrue, MatchOption, None, Some, decimal};
ghost use Rattle.cl_outside.specs.Device.{IsGlyph, IsSpan};
ghost use Rattle.cl_outside.specs.Operations.{clears, shows};
ghost use Rattle.cl_outside.specs.Play.{op_of};
ghost use Rattle.cl_raster.specs.Playback.{BeginsNoNumber, IsCut, IsNoNumber, IsSize, ShowsNothing};

use itoa::Buffer;

// The sizes of a blank picture.
#[derive(Clone, Copy)]
pub(crate) struct Size {
    pub(crate) width: u16,
    pub(crate) height: u16,
}

// Glyphs of one ink, from a place on.
#[derive(Clone, Copy)]
pub(crate) struct Span<'a> {
    pub(crate) x: u16,
    pub(crate) y: u16,
    pub(crate) ink: u8,
    pub(crate) glyphs: &'a [u8],
}

// The bytes before the first `mark`, and those behind it; None: there is no such byte.
pub(crate) fn cut(bytes: &[u8], mark: u8) -> Option<(&[u8], &[u8])>
    ensures { MatchOption result (All (λ b. b ≢ mark) bytes.now)
        (λ r. IsCut mark bytes.now r.0.now r.1.now) }
{
    for (at, byte) in bytes.iter().enumerate() {
        if *byte == mark {
            return Some((&bytes[..at], &bytes[at + 1..]));
        }
    }
    None
}

// The number that the text spells in decimal, with no sign and no zero before it.
fn numeral(text: &[u8]) -> Option<u16>
    ensures { MatchOption result (IsNoNumber text.now) (λ n. (n < 2 ^ 16) × (text.now ≡ decimal n)) }
{
    let Ok(digits) = str::from_utf8(text) else {
        return None;
    };
    let Ok(number) = digits.parse() else {
        return None;
    };
    if is_spelled(number, text) {
        return Some(number);
    }
    None
}

// Whether the text is this number in decimal.
fn is_spelled(number: u16, text: &[u8]) -> bool
    ensures { IsTrue result ↔ (text.now ≡ decimal number) }
{
    let mut buffer = Buffer::new();
    text == buffer.format(number).as_bytes()
}

// The number before the first space, and the bytes behind that.
fn leading_numeral(text: &[u8]) -> Option<(u16, &[u8])>
    ensures { MatchOption result (BeginsNoNumber text.now)
        (λ r. (r.0 < 2 ^ 16) × (text.now ≡ decimal r.0 ++ (32 ∷ r.1.now))) }
{
    let (front, rest) = cut(text, b' ')?;
    Some((numeral(front)?, rest))
}

// Whether a picture may have these sizes.
fn is_size(width: u16, height: u16) -> bool
    ensures { IsTrue result ↔ IsSize width height }
{
    1 <= width && width <= 512 && 1 <= height && height <= 256
}

// Whether a span may have this ink and these glyphs.
fn is_span(ink: u16, glyphs: &[u8]) -> bool
    ensures { IsTrue result ↔ IsSpan ink glyphs.now }
{
    ink <= 7 && !glyphs.is_empty() && are_glyphs(glyphs)
}

// Whether each byte may stand in a cell.
fn are_glyphs(bytes: &[u8]) -> bool
    ensures { IsTrue result ↔ All IsGlyph bytes.now }
{
    bytes.iter().all(|byte| *byte >= 32 && *byte <= 126)
}

// The sizes in the line of a `C`, of which the text stands behind the first space.
pub(crate) fn read_clear(text: &[u8]) -> Option<Size>
    ensures { MatchOption result (op_of (67 ∷ 32 ∷ text.now) ≡ None)
        (λ s. (op_of (67 ∷ 32 ∷ text.now) ≡ Some (clears s.width s.height))
        × IsSize s.width s.height) }
{
    let (width, text) = leading_numeral(text)?;
    let height = numeral(text)?;
    if is_size(width, height) {
        return Some(Size { width, height });
    }
    None
}

// The span in the line of an `S`, of which the text stands behind the first space.
pub(crate) fn read_span(text: &[u8]) -> Option<Span<'_>>
    ensures { MatchOption result (ShowsNothing (op_of (83 ∷ 32 ∷ text.now)))
        (λ s. (op_of (83 ∷ 32 ∷ text.now) ≡ Some (shows s.x s.y s.ink s.glyphs.now))
        × IsSpan s.ink s.glyphs.now) }
{
    let (x, text) = leading_numeral(text)?;
    let (y, text) = leading_numeral(text)?;
    let (ink, glyphs) = leading_numeral(text)?;
    if is_span(ink, glyphs) {
        let ink = ink as u8;
        return Some(Span { x, y, ink, glyphs });
    }
    None
}
