//! A source that is lent.
ghost use Rattle.std.specs.Prelude.{◌≡◌, ◌∷◌};

use crate::answers::Took;
use crate::sources::Source;

/// Lends a source: it has the content and the count of what it lends. While it lives and after,
/// what it did is what was done to that source.
#[derive(Drop)]
pub struct LentSource<'a, G: Source> {
    pub source: &'a mut G,
}

impl<'a, G: Source> LentSource<'a, G> {
    pub fn new(source: &'a mut G) -> LentSource<'a, G>
        ensures same_reference { result.source.ghost_name ≡ source.entry.ghost_name }
        ensures same { result.source.now ≡ source.old }
    {
        LentSource { source }
    }
}

impl<'a, G: Source> Source for LentSource<'a, G> {
    ghost left = { λ s. G.left s.source.now };

    ghost calls = { λ s. G.calls s.source.now };

    ghost faults = { λ s. G.faults s.source.now };

    ghost lent = { λ s. s.source.ghost_name ∷ G.lent s.source.now };

    fn read(&mut self, buf: &mut [u8]) -> Took {
        self.source.read(buf)
    }
}
