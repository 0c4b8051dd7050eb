//! The calls of a place in memory.
ghost use Rattle.std.specs.Prelude.{◌≡◌, ◌≢◌, ◌↔◌, ◌⊎◌, ℕ, ◌≤◌, ◌<◌, List, [], length, true, None, Some, Option, IsSome, is_some};
ghost use Rattle.cl_outside.specs.Outside.{ReadTook, WriteTook, FailedRose};
ghost use Rattle.cl_outside.specs.Place.{HasBytes, IsEmptyFile, OnDone, OnMemory, OpenedRose};
ghost use Rattle.cl_outside.specs.Memory.{IsToFail};
ghost use Rattle.cl_outside.specs.Named.{found, count_of};
ghost use Rattle.cl_outside.specs.MemoryPlace.{left_in, Reads, taken_in, other_file, sink_bytes, FailsWhere, ReadsAllOf, OpenStep, MakeStep, ReadStep, WriteStep};

use crate::answers::{Opened, Took};
use crate::mem_place::MemPlace;
use crate::places::Place;

// Each call is Failed exactly where its number is listed, where it is a write and the room is full,
// or where it opens a file that is not there.
impl Place for MemPlace {
    ghost use Rattle.cl_outside.specs.Told.{told_files};

    ghost file = { λ p name. Some (found p.files name) };

    ghost left = { λ p. left_in p.files p.source };

    ghost opened = { λ p. is_some p.source };

    ghost reads = { λ p. Reads p.source };

    ghost made = { λ p. is_some p.sink };

    ghost taken = { λ p. taken_in p.files p.sink };

    ghost others = { λ p. other_file p.files p.sink };

    ghost app_faults = { λ p. count_of p.faults };

    ghost by_name = { λ _. true };

    ghost tells = { λ _. true };

    ghost making_faults = { λ p. p.making_faults };

    ghost writing_faults = { λ p. p.writing_faults };

    ghost told = { λ p name. told_files p.files p.sink name };

    fn open_source(&mut self, name: &str) -> Opened
        ensures files { (other : List ℕ)
            → ◌≡◌ {A = Option (Option (List ℕ))} (Some (found self.new.files other))
            (Some (found self.old.files other)) }
        ensures made { is_some self.new.sink ≡ is_some self.old.sink }
        ensures taken { taken_in self.new.files self.new.sink
            ≡ taken_in self.old.files self.old.sink }
        ensures others { (other : List ℕ)
            → other_file self.new.files self.new.sink other
            ≡ other_file self.old.files self.old.sink other }
        ensures making { self.new.making_faults ≡ self.old.making_faults }
        ensures writing { self.new.writing_faults ≡ self.old.writing_faults }
        ensures opened { OnDone result (is_some self.new.source ≡ true) }
        ensures reads { OnDone result (Reads self.new.source name.now) }
        ensures reads_alone { OnDone result ((other : List ℕ) → Reads self.new.source other
            → other ≡ name.now) }
        ensures start { OnDone result (HasBytes (Some (found self.old.files name.now))
            (left_in self.new.files self.new.source)) }
        ensures memory { OnMemory result ((is_some self.new.source ≡ is_some self.old.source)
            × (left_in self.new.files self.new.source
            ≡ left_in self.old.files self.old.source)) }
        ensures memory_reads { OnMemory result
            ((other : List ℕ) → Reads self.old.source other → Reads self.new.source other) }
        ensures cause { OpenedRose (count_of self.old.faults name.now)
            (count_of self.new.faults name.now) result }
        ensures later { (other : List ℕ)
            → count_of self.old.faults other ≤ count_of self.new.faults other }
        ensures other_faults { (other : List ℕ) → other ≢ name.now
            → count_of self.new.faults other ≡ count_of self.old.faults other }
        ensures step { OpenStep self.old self.new name.now result }
        ensures fails { FailsWhere result
            (IsToFail self.old.plan ⊎ (found self.old.files name.now ≡ None)) }
    {
        match self.open(name) {
            Opened::Done => Opened::Done,
            Opened::Failed => Opened::Failed,
            Opened::Memory => Opened::Memory,
        }
    }

    fn read_source(&mut self, buf: &mut [u8]) -> Took
        requires open { is_some self.old.source ≡ true }
        requires room { 0 < length buf.old }
        ensures files { (other : List ℕ)
            → ◌≡◌ {A = Option (Option (List ℕ))} (Some (found self.new.files other))
            (Some (found self.old.files other)) }
        ensures made { is_some self.new.sink ≡ is_some self.old.sink }
        ensures taken { taken_in self.new.files self.new.sink
            ≡ taken_in self.old.files self.old.sink }
        ensures others { (other : List ℕ)
            → other_file self.new.files self.new.sink other
            ≡ other_file self.old.files self.old.sink other }
        ensures making { self.new.making_faults ≡ self.old.making_faults }
        ensures writing { self.new.writing_faults ≡ self.old.writing_faults }
        ensures opened { is_some self.new.source ≡ true }
        ensures reads { (name : List ℕ) → Reads self.old.source name → Reads self.new.source name }
        ensures reads_alone { (name : List ℕ) → Reads self.new.source name
            → Reads self.old.source name }
        ensures bytes { ReadTook (left_in self.old.files self.old.source)
            (left_in self.new.files self.new.source) buf.new result }
        ensures cause { (name : List ℕ) → Reads self.old.source name
            → FailedRose (count_of self.old.faults name) (count_of self.new.faults name) result }
        ensures later { (other : List ℕ)
            → count_of self.old.faults other ≤ count_of self.new.faults other }
        ensures other_faults { (other : List ℕ) → (Reads self.old.source other → ⊥)
            → count_of self.new.faults other ≡ count_of self.old.faults other }
        ensures step { ReadStep self.old self.new self.old.source result }
        ensures amount { ReadsAllOf (left_in self.old.files self.old.source) buf.new result }
        ensures fails { (result ≡ Took.Failed) ↔ IsToFail self.old.plan }
    {
        match self.read(buf) {
            Took::Bytes(n) => Took::Bytes(n),
            Took::Failed => Took::Failed,
        }
    }

    fn make_sink(&mut self, name: &str) -> Opened
        ensures files { (other : List ℕ) → other ≢ name.now
            → ◌≡◌ {A = Option (Option (List ℕ))} (Some (found self.new.files other))
            (Some (found self.old.files other)) }
        ensures opened { is_some self.new.source ≡ is_some self.old.source }
        ensures reads { (other : List ℕ) → Reads self.old.source other
            → Reads self.new.source other }
        ensures left { (Reads self.old.source name.now → ⊥)
            → left_in self.new.files self.new.source ≡ left_in self.old.files self.old.source }
        ensures app_faults { (other : List ℕ)
            → count_of self.new.faults other ≡ count_of self.old.faults other }
        ensures writing { self.new.writing_faults ≡ self.old.writing_faults }
        ensures made { OnDone result (is_some self.new.sink ≡ true) }
        ensures empty { OnDone result (IsEmptyFile (Some (found self.new.files name.now))) }
        ensures taken { OnDone result (HasBytes (Some (found self.new.files name.now))
            (taken_in self.new.files self.new.sink)) }
        ensures unused { OnDone result (taken_in self.new.files self.new.sink ≡ Some []) }
        ensures named { OnDone result (other_file self.new.files self.new.sink name.now ≡ None) }
        ensures others { OnDone result ((other : List ℕ) → other ≢ name.now
            → other_file self.new.files self.new.sink other
            ≡ Some (found self.new.files other)) }
        ensures memory { OnMemory result ((is_some self.new.sink ≡ is_some self.old.sink) × (taken_in self.new.files self.new.sink ≡ taken_in self.old.files self.old.sink)
            × (left_in self.new.files self.new.source ≡ left_in self.old.files self.old.source)) }
        ensures memory_files { OnMemory result
            ((other : List ℕ)
            → ◌≡◌ {A = Option (Option (List ℕ))} (Some (found self.new.files other))
            (Some (found self.old.files other))) }
        ensures memory_others { OnMemory result
            ((other : List ℕ)
            → other_file self.new.files self.new.sink other
            ≡ other_file self.old.files self.old.sink other) }
        ensures cause { OpenedRose self.old.making_faults self.new.making_faults result }
        ensures step { MakeStep self.old self.new name.now result }
        ensures fails { FailsWhere result (IsToFail self.old.plan) }
    {
        match self.make(name) {
            Opened::Done => Opened::Done,
            Opened::Failed => Opened::Failed,
            Opened::Memory => Opened::Memory,
        }
    }

    fn write_sink(&mut self, bytes: &[u8]) -> Took
        requires made { is_some self.old.sink ≡ true }
        requires some { 0 < length bytes.now }
        ensures opened { is_some self.new.source ≡ is_some self.old.source }
        ensures reads { (other : List ℕ) → Reads self.old.source other
            → Reads self.new.source other }
        ensures left { ((name : List ℕ) → Reads self.old.source name → IsSome (other_file self.old.files self.old.sink name))
            → left_in self.new.files self.new.source ≡ left_in self.old.files self.old.source }
        ensures app_faults { (other : List ℕ)
            → count_of self.new.faults other ≡ count_of self.old.faults other }
        ensures making { self.new.making_faults ≡ self.old.making_faults }
        ensures made { is_some self.new.sink ≡ true }
        ensures others { (other : List ℕ)
            → other_file self.new.files self.new.sink other
            ≡ other_file self.old.files self.old.sink other }
        ensures bytes { WriteTook (taken_in self.old.files self.old.sink)
            (taken_in self.new.files self.new.sink) bytes.now result }
        ensures cause { FailedRose self.old.writing_faults self.new.writing_faults result }
        ensures step { WriteStep self.old self.new self.old.sink bytes.now result }
        ensures fails { (result ≡ Took.Failed)
            ↔ (IsToFail self.old.plan
            ⊎ (length (sink_bytes self.old.files self.old.sink) ≡ self.old.room)) }
    {
        match self.write(bytes) {
            Took::Bytes(n) => Took::Bytes(n),
            Took::Failed => Took::Failed,
        }
    }
}
