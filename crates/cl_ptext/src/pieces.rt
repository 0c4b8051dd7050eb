//! The pieces of a text, which separators end outside quotes.
ghost use Rattle.std.specs.Prelude.{◌≡◌, ◌≤◌, ◌<◌, ◌∷◌, [], IfSome, length, option_map};
ghost use Rattle.cl_ptext.specs.Parts.{may_end, piece_length, pieces_from, pieces_left, stage_behind};
ghost use Rattle.cl_ptext.specs.declared.pieces.Stage.TheVariants.{Leading};

/// Where a piece stands behind some of its bytes.
#[derive(Clone, Copy, Debug)]
pub(crate) enum Stage {
    /// Behind spaces alone.
    Leading,
    /// Outside of quotes, or behind them.
    Plain,
    /// In quotes.
    Quoted,
    /// In quotes, behind a `\`.
    Escaped,
}

impl Stage {
    // Where it stands behind one more byte.
    pub(crate) fn behind(self, byte: u8) -> Stage
        ensures { result ≡ stage_behind self byte }
    {
        match self {
            Stage::Leading => match byte {
                b' ' => Stage::Leading,
                b'"' => Stage::Quoted,
                _ => Stage::Plain,
            },
            Stage::Plain => Stage::Plain,
            Stage::Quoted => match byte {
                b'"' => Stage::Plain,
                b'\\' => Stage::Escaped,
                _ => Stage::Quoted,
            },
            Stage::Escaped => Stage::Quoted,
        }
    }

    // Whether a separator ends the piece.
    pub(crate) fn may_end(self) -> bool
        ensures { result ≡ may_end self }
    {
        match self {
            Stage::Leading => true,
            Stage::Plain => true,
            Stage::Quoted => false,
            Stage::Escaped => false,
        }
    }
}

/// The length in bytes of the first piece of a text.
pub(crate) fn piece_length(separator: u8, text: &[u8]) -> usize
    ensures length { result ≡ piece_length separator Leading text.now }
    ensures within { result ≤ length text.now }
{
    let mut stage = Stage::Leading;
    let mut count = 0;
    for byte in text {
        if stage.may_end() && *byte == separator {
            return count;
        }
        stage = stage.behind(*byte);
        count += 1;
    }
    count
}

/// The first piece of a text, and what stands behind the separator that ends it; `None` where none does.
#[tactic(auto, using(crate::proofs::PieceLemmas::first_piece, crate::proofs::PieceLemmas::whole_piece))]
pub(crate) fn split_piece(separator: u8, text: &[u8]) -> (&[u8], Option<&[u8]>)
    ensures split { pieces_from separator Leading [] text.now ≡ result.0.now ∷ pieces_left separator (option_map (λ m. m.now) result.1) }
    ensures fewer { IfSome result.1 (λ m. length m.now < length text.now) }
{
    let count = piece_length(separator, text);
    if count < text.len() {
        (&text[..count], Some(&text[count + 1..]))
    } else {
        (text, None)
    }
}
