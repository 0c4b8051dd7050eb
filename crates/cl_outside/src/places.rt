//! What a caller may rest on of a place, where files are opened by name.
ghost use Rattle.std.specs.Prelude.{◌≡◌, ◌≢◌, ℕ, ◌≤◌, ◌<◌, List, [], Option, length, Bool, true, false, IsSome, None, Some};
ghost use Rattle.cl_outside.specs.Outside.{ReadTook, WriteTook, FailedRose};
ghost use Rattle.cl_outside.specs.Place.{HasBytes, IsEmptyFile, IsTold, OnDone, OnMemory, OpenedRose};

use crate::answers::{Opened, Took};

/// Files by name, of which one is open as a source and one is made as a sink. A source stays open
/// until the next `open_source`, and a sink stays made until the next `make_sink`.
pub trait Place {
    // what is told of a name; None: nothing, Some None: there is no such file
    ghost file: { Self → List ℕ → Option (Option (List ℕ)) };

    // the bytes that are still to come of the open source; None: not told
    ghost left: { Self → Option (List ℕ) };

    // whether a source is open
    ghost opened: { Self → Bool };

    // the open source may be the file of this name
    ghost reads: { Self → List ℕ → Type 0 };

    // whether a sink was made
    ghost made: { Self → Bool };

    // the bytes of the file that the made sink writes; None: not told
    ghost taken: { Self → Option (List ℕ) };

    // what is told of each file but the one that the made sink writes; None: nothing
    ghost others: { Self → List ℕ → Option (Option (List ℕ)) };

    // faults of an application's name: by its opening, and by reads while it is the open source
    ghost app_faults: { Self → List ℕ → ℕ };

    // whether each name has a count of its own; else they may rise together
    ghost by_name: { Self → Bool } = { λ _. false };

    // whether it tells the bytes of each sink at all times
    ghost tells: { Self → Bool } = { λ _. false };

    // faults of `make_sink`, and of `write_sink`; no count falls, and each stands still at 2^64 - 1
    ghost making_faults: { Self → ℕ };

    ghost writing_faults: { Self → ℕ };

    // the names of the references that it holds, where it only lends another one: its own first; no call
    // changes them
    ghost lent: { Self → List ℕ } = { λ _. [] };

    /// Opens the file of this name at its first byte. A missing file is Failed.
    fn open_source(&mut self, name: &str) -> Opened
        ensures lent { lent self.new ≡ lent self.old }
        ensures tells { tells self.new ≡ tells self.old }
        ensures by_name { by_name self.new ≡ by_name self.old }
        ensures files { (other : List ℕ) → file self.new other ≡ file self.old other }
        ensures made { made self.new ≡ made self.old }
        ensures taken { taken self.new ≡ taken self.old }
        ensures others { (other : List ℕ) → others self.new other ≡ others self.old other }
        ensures making { making_faults self.new ≡ making_faults self.old }
        ensures writing { writing_faults self.new ≡ writing_faults self.old }
        ensures opened { OnDone result (opened self.new ≡ true) }
        ensures reads { OnDone result (reads self.new name.now) }
        ensures start { OnDone result (HasBytes (file self.old name.now) (left self.new)) }
        ensures reads_alone { OnDone result (by_name self.old ≡ true
            → (other : List ℕ) → reads self.new other → other ≡ name.now) }
        ensures memory { OnMemory result
            ((opened self.new ≡ opened self.old) × (left self.new ≡ left self.old)) }
        ensures memory_reads { OnMemory result
            ((other : List ℕ) → reads self.old other → reads self.new other) }
        ensures cause { OpenedRose (app_faults self.old name.now) (app_faults self.new name.now)
            result }
        ensures later { (other : List ℕ) → app_faults self.old other ≤ app_faults self.new other }
        ensures other_faults { by_name self.old ≡ true → (other : List ℕ) → other ≢ name.now
            → app_faults self.new other ≡ app_faults self.old other };

    /// Hands over the next bytes of the open source.
    fn read_source(&mut self, buf: &mut [u8]) -> Took
        requires open { opened self.old ≡ true }
        requires room { 0 < length buf.old }
        ensures lent { lent self.new ≡ lent self.old }
        ensures tells { tells self.new ≡ tells self.old }
        ensures by_name { by_name self.new ≡ by_name self.old }
        ensures files { (other : List ℕ) → file self.new other ≡ file self.old other }
        ensures made { made self.new ≡ made self.old }
        ensures taken { taken self.new ≡ taken self.old }
        ensures others { (other : List ℕ) → others self.new other ≡ others self.old other }
        ensures making { making_faults self.new ≡ making_faults self.old }
        ensures writing { writing_faults self.new ≡ writing_faults self.old }
        ensures opened { opened self.new ≡ true }
        ensures reads { (name : List ℕ) → reads self.old name → reads self.new name }
        ensures reads_alone { (name : List ℕ) → reads self.new name → reads self.old name }
        ensures bytes { ReadTook (left self.old) (left self.new) buf.new result }
        ensures cause { (name : List ℕ) → reads self.old name
            → FailedRose (app_faults self.old name) (app_faults self.new name) result }
        ensures later { (other : List ℕ) → app_faults self.old other ≤ app_faults self.new other }
        ensures other_faults { by_name self.old ≡ true → (other : List ℕ)
            → (reads self.old other → ⊥) → app_faults self.new other ≡ app_faults self.old other };

    /// Makes the file of this name, empty. Where it fails, no sink may be made any more, and nothing
    /// is said of that file.
    fn make_sink(&mut self, name: &str) -> Opened
        ensures lent { lent self.new ≡ lent self.old }
        ensures tells { tells self.new ≡ tells self.old }
        ensures by_name { by_name self.new ≡ by_name self.old }
        ensures files { (other : List ℕ) → other ≢ name.now
            → file self.new other ≡ file self.old other }
        ensures opened { opened self.new ≡ opened self.old }
        ensures reads { (other : List ℕ) → reads self.old other → reads self.new other }
        ensures left { (reads self.old name.now → ⊥) → left self.new ≡ left self.old }
        ensures app_faults { (other : List ℕ)
            → app_faults self.new other ≡ app_faults self.old other }
        ensures writing { writing_faults self.new ≡ writing_faults self.old }
        ensures made { OnDone result (made self.new ≡ true) }
        ensures empty { OnDone result (IsEmptyFile (file self.new name.now)) }
        ensures taken { OnDone result (HasBytes (file self.new name.now) (taken self.new)) }
        ensures unused { OnDone result (tells self.old ≡ true → taken self.new ≡ Some []) }
        ensures named { OnDone result (others self.new name.now ≡ None) }
        ensures others { OnDone result
            ((other : List ℕ) → other ≢ name.now → others self.new other ≡ file self.new other) }
        ensures memory { OnMemory result ((made self.new ≡ made self.old)
            × (taken self.new ≡ taken self.old) × (left self.new ≡ left self.old)) }
        ensures memory_files { OnMemory result
            ((other : List ℕ) → file self.new other ≡ file self.old other) }
        ensures memory_others { OnMemory result
            ((other : List ℕ) → others self.new other ≡ others self.old other) }
        ensures cause { OpenedRose (making_faults self.old) (making_faults self.new) result };

    /// Writes behind what the made sink took before.
    fn write_sink(&mut self, bytes: &[u8]) -> Took
        requires made { made self.old ≡ true }
        requires some { 0 < length bytes.now }
        ensures lent { lent self.new ≡ lent self.old }
        ensures tells { tells self.new ≡ tells self.old }
        ensures by_name { by_name self.new ≡ by_name self.old }
        ensures opened { opened self.new ≡ opened self.old }
        ensures reads { (other : List ℕ) → reads self.old other → reads self.new other }
        ensures left { ((name : List ℕ) → reads self.old name → IsSome (others self.old name))
            → left self.new ≡ left self.old }
        ensures app_faults { (other : List ℕ)
            → app_faults self.new other ≡ app_faults self.old other }
        ensures making { making_faults self.new ≡ making_faults self.old }
        ensures made { made self.new ≡ true }
        ensures others { (other : List ℕ) → others self.new other ≡ others self.old other }
        ensures bytes { WriteTook (taken self.old) (taken self.new) bytes.now result }
        ensures cause { FailedRose (writing_faults self.old) (writing_faults self.new) result };

    // each file is one of the others, or the one that holds what the made sink took
    ghost told: { (place : Self) (name : List ℕ)
        → IsTold (others place name) (taken place) (file place name) };
}
