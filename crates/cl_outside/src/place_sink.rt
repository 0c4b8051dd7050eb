//! The file that is open for writing in a place, as a sink.
ghost use Rattle.std.specs.Prelude.{◌≡◌, ◌∷◌, true};

use crate::answers::Took;
use crate::places::Place;
use crate::sinks::Sink;

/// Lends the made sink of a place: it has the bytes that this sink took and its count. While it
/// lives and after, what it did is what was done to that place, whose other files stay.
#[derive(Drop)]
pub struct PlaceSink<'a, P: Place> {
    pub place: &'a mut P,
    pub ghost made: { P.made place.now ≡ true },
}

impl<'a, P: Place> PlaceSink<'a, P> {
    pub fn new(place: &'a mut P) -> PlaceSink<'a, P>
        requires { P.made place.old ≡ true }
        ensures same_reference { result.place.ghost_name ≡ place.entry.ghost_name }
        ensures same { result.place.now ≡ place.old }
    {
        PlaceSink { place }
    }
}

impl<'a, P: Place> Sink for PlaceSink<'a, P> {
    ghost taken = { λ s. P.taken s.place.now };

    ghost faults = { λ s. P.writing_faults s.place.now };

    ghost lent = { λ s. record {
      told = P.tells s.place.now;
      references = s.place.ghost_name ∷ P.lent s.place.now;
      files = P.others s.place.now;
      opened = P.opened s.place.now;
      app_faults = P.app_faults s.place.now;
      making_faults = P.making_faults s.place.now;
    } };

    fn write(&mut self, bytes: &[u8]) -> Took {
        self.place.write_sink(bytes)
    }
}
