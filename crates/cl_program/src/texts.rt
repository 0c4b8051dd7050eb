//! The text of an application, read from a place.
ghost use Rattle.std.specs.Prelude.{◌≡◌, ◌≢◌, ◌≤◌, ◌<◌, ℕ, List, true, vec_len};
ghost use Rattle.cl_program.specs.Texts.{PieceOf, PieceRose, ReadsOpened, ReadsText, TextRose};

use cl_outside::{Opened, Place, Took};
use std::alloc::Global;

/// The most bytes that are read of a file, one more than a text may have, so that a file that is too
/// long is seen to be.
const MOST_BYTES: usize = 1_048_577;

/// How many bytes are asked for at most in one read.
const PIECE: usize = 4096;

/// What the reading of a text answers.
#[derive(Drop)]
pub enum TextRead {
    /// The bytes of the file, cut behind 1,048,577 bytes.
    Text(Vec<u8>),
    /// The file could not be opened, or a read failed.
    Failed,
    Memory,
}

// What one read answers.
#[derive(Clone, Copy)]
enum PieceRead {
    /// At least one byte was read.
    More,
    /// The file has no more bytes.
    End,
    Failed,
    Memory,
}

/// Reads the file of this name to its end, or up to 1,048,577 bytes.
pub fn read_text<P: Place>(alloc: Global, place: &mut P, name: &str) -> TextRead
    ensures text { ReadsText (P.file place.old name.now) result }
    ensures other_faults { P.by_name place.old ≡ true → (other : List ℕ) → other ≢ name.now
        → P.app_faults place.new other ≡ P.app_faults place.old other }
    ensures cause { TextRose (P.app_faults place.old name.now) (P.app_faults place.new name.now)
        result }
    ensures files { (other : List ℕ) → P.file place.new other ≡ P.file place.old other }
    ensures later { (other : List ℕ) → P.app_faults place.old other ≤ P.app_faults place.new other }
    ensures lent { P.lent place.new ≡ P.lent place.old }
    ensures making { P.making_faults place.new ≡ P.making_faults place.old }
    ensures writing { P.writing_faults place.new ≡ P.writing_faults place.old }
    ensures taken { P.taken place.new ≡ P.taken place.old }
    ensures tells { P.tells place.new ≡ P.tells place.old }
    ensures by_name { P.by_name place.new ≡ P.by_name place.old }
{
    match place.open_source(name) {
        Opened::Done => read_opened(alloc, place),
        Opened::Failed => TextRead::Failed,
        Opened::Memory => TextRead::Memory,
    }
}

// Reads the open source to its end, or up to 1,048,577 bytes.
fn read_opened<P: Place>(alloc: Global, place: &mut P) -> TextRead
    requires { P.opened place.old ≡ true }
    ensures text { ReadsOpened (P.left place.old) (P.left place.new) result }
    ensures other_faults { P.by_name place.old ≡ true → (other : List ℕ)
        → (P.reads place.old other → ⊥) → P.app_faults place.new other ≡ P.app_faults place.old other }
    ensures cause { (name : List ℕ) → P.reads place.old name
        → TextRose (P.app_faults place.old name) (P.app_faults place.new name) result }
    ensures files { (other : List ℕ) → P.file place.new other ≡ P.file place.old other }
    ensures later { (other : List ℕ) → P.app_faults place.old other ≤ P.app_faults place.new other }
    ensures lent { P.lent place.new ≡ P.lent place.old }
    ensures making { P.making_faults place.new ≡ P.making_faults place.old }
    ensures writing { P.writing_faults place.new ≡ P.writing_faults place.old }
    ensures taken { P.taken place.new ≡ P.taken place.old }
    ensures tells { P.tells place.new ≡ P.tells place.old }
    ensures by_name { P.by_name place.new ≡ P.by_name place.old }
{
    let mut text = Vec::new(alloc);
    'pieces: while text.len() < MOST_BYTES {
        match read_piece(place, &mut text) {
            PieceRead::More => {}
            PieceRead::End => return TextRead::Text(text),
            PieceRead::Failed => return TextRead::Failed,
            PieceRead::Memory => return TextRead::Memory,
        }
    }
    TextRead::Text(text)
}

// Reads once, behind the bytes that were read before.
fn read_piece<P: Place>(place: &mut P, text: &mut Vec<u8>) -> PieceRead
    requires open { P.opened place.old ≡ true }
    requires short { vec_len text.old < MOST_BYTES }
    ensures piece { PieceOf (P.left place.old) (P.left place.new) text.old.items text.new.items
        result }
    ensures cause { (name : List ℕ) → P.reads place.old name
        → PieceRose (P.app_faults place.old name) (P.app_faults place.new name) result }
    ensures files { (other : List ℕ) → P.file place.new other ≡ P.file place.old other }
    ensures later { (other : List ℕ) → P.app_faults place.old other ≤ P.app_faults place.new other }
    ensures lent { P.lent place.new ≡ P.lent place.old }
    ensures making { P.making_faults place.new ≡ P.making_faults place.old }
    ensures writing { P.writing_faults place.new ≡ P.writing_faults place.old }
    ensures taken { P.taken place.new ≡ P.taken place.old }
    ensures tells { P.tells place.new ≡ P.tells place.old }
    ensures by_name { P.by_name place.new ≡ P.by_name place.old }
    ensures opened { P.opened place.new ≡ true }
    ensures reads { (name : List ℕ) → P.reads place.old name → P.reads place.new name }
    ensures reads_alone { (name : List ℕ) → P.reads place.new name → P.reads place.old name }
    ensures other_faults { P.by_name place.old ≡ true → (other : List ℕ)
        → (P.reads place.old other → ⊥) → P.app_faults place.new other ≡ P.app_faults place.old other }
{
    let mut buf = [0; PIECE];
    let room = (MOST_BYTES - text.len()).min(PIECE);
    match place.read_source(&mut buf[..room]) {
        Took::Bytes(0) => PieceRead::End,
        Took::Bytes(count) => match text.extend_from_slice(&buf[..count]) {
            Ok(()) => PieceRead::More,
            Err(_) => PieceRead::Memory,
        },
        Took::Failed => PieceRead::Failed,
    }
}
