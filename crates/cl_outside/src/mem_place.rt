//! A place in memory, which fails where it is told to.
ghost use Rattle.std.specs.Prelude.{◌≡◌, ◌↔◌, ◌⊎◌, ◌+◌, ◌-◌, ◌<◌, [], length, None, Some, IsSome};
ghost use Rattle.cl_outside.specs.Memory.{AllPositive, IsToFail, new_plan};
ghost use Rattle.cl_outside.specs.NameTables.{entries_of};
ghost use Rattle.std.specs.Option.{option_copied};
ghost use Rattle.cl_outside.specs.Named.{found};
ghost use Rattle.cl_outside.specs.Outside.{ReadTook, WriteTook};

use crate::answers::{Opened, Took};
use crate::count_table::CountTable;
use crate::file_table::FileTable;
use crate::handing::hand_over;
use crate::pieces::Pieces;
use crate::plan::{FaultPlan, raised};
use crate::reading::Reading;
use std::alloc::Global;
use std::marker::Model;

/// A place in memory. Of two files of one name the first counts. A sink that was made has its own
/// room; its bytes are those of the file of its name.
#[derive(Drop)]
pub struct MemPlace {
    files: FileTable,
    faults: CountTable,
    source: Option<Reading>,
    sink: Option<usize>,
    room: usize,
    pieces: Pieces,
    plan: FaultPlan,
    making_faults: u64,
    writing_faults: u64,
    alloc: Global,
}

impl Model for MemPlace {
    ghost use Rattle.cl_outside.specs.MemoryPlace.{MemoryPlace, IsPlace, named_source, named_sink};

    ghost Value = { MemoryPlace };

    ghost view = { λ p. record {
      files = p.files.entries;
      faults = p.faults;
      source = named_source p.files.entries p.source;
      sink = named_sink p.files.entries p.sink;
      room = p.room;
      pieces = p.pieces;
      plan = p.plan;
      making_faults = p.making_faults;
      writing_faults = p.writing_faults;
    } };

    ghost invariant = { λ p. IsPlace p.files p.faults p.source p.sink p.room };
}

impl MemPlace {
    ghost use Rattle.cl_outside.specs.MemoryPlace.{OpenStep, MakeStep, ReadStep, WriteStep, FailsWhere, ReadsAllOf, left_in, taken_in, sink_bytes};

    /// `room` is the number of bytes that each made sink may take; it is taken in `make_sink`, and
    /// no write takes memory. The n-th of `pieces` says how many bytes the n-th write that does not
    /// fail takes, where as many are offered and there is room; behind the last piece a write takes
    /// all that is offered and has room. `fails` lists the numbers, from 1, of the calls of this
    /// place, of all four kinds, that are to fail.
    pub fn new(
        alloc: Global,
        files: Vec<(String, Vec<u8>)>,
        room: usize,
        pieces: Vec<usize>,
        fails: Vec<u64>,
    ) -> MemPlace
        requires { AllPositive pieces.items }
        ensures files { result.files ≡ entries_of files.items }
        ensures faults { result.faults ≡ [] }
        ensures source { result.source ≡ None }
        ensures sink { result.sink ≡ None }
        ensures room { result.room ≡ room }
        ensures pieces { result.pieces ≡ pieces.items }
        ensures plan { result.plan ≡ new_plan fails.items }
        ensures making_faults { result.making_faults ≡ 0 }
        ensures writing_faults { result.writing_faults ≡ 0 }
    {
        MemPlace {
            files: FileTable::new(files),
            faults: CountTable::new(alloc),
            source: None,
            sink: None,
            room,
            pieces: Pieces::new(pieces),
            plan: FaultPlan::new(fails),
            making_faults: 0,
            writing_faults: 0,
            alloc,
        }
    }

    /// The bytes of a file: None exactly where there is none of this name.
    pub fn file(&self, name: &str) -> Option<&[u8]>
        ensures { option_copied result ≡ found self.now.files name.now }
    {
        self.files.get(name)
    }

    // A call of `open_source`. The name is listed among the faults, also that of a missing file, so
    // that no read needs memory to count a fault.
    pub(crate) fn open(&mut self, name: &str) -> Opened
        ensures step { OpenStep self.old self.new name.now result }
        ensures fails { FailsWhere result
            (IsToFail self.old.plan ⊎ (found self.old.files name.now ≡ None)) }
    {
        let fails = self.plan.next_fails();
        let Ok(fault) = self.faults.ready(self.alloc, name) else {
            return Opened::Memory;
        };
        if fails {
            self.faults.raise(fault);
            return Opened::Failed;
        }
        match self.files.find(name) {
            Some(file) => {
                self.source = Some(Reading { file, at: 0, fault });
                Opened::Done
            }
            None => {
                self.faults.raise(fault);
                Opened::Failed
            }
        }
    }

    // A call of `make_sink`.
    pub(crate) fn make(&mut self, name: &str) -> Opened
        ensures step { MakeStep self.old self.new name.now result }
        ensures fails { FailsWhere result (IsToFail self.old.plan) }
    {
        if self.plan.next_fails() {
            self.making_faults = raised(self.making_faults);
            return Opened::Failed;
        }
        match self.files.make(self.alloc, name, self.room) {
            Ok(place) => {
                self.sink = Some(place);
                Opened::Done
            }
            Err(_) => Opened::Memory,
        }
    }

    // A call of `read_source`. The file may have been made anew since it was opened, and be shorter.
    pub(crate) fn read(&mut self, buf: &mut [u8]) -> Took
        requires open { IsSome self.old.source }
        requires room { 0 < length buf.old }
        ensures step { ReadStep self.old self.new self.old.source result }
        ensures bytes { ReadTook (left_in self.old.files self.old.source)
            (left_in self.new.files self.new.source) buf.new result }
        ensures amount { ReadsAllOf (left_in self.old.files self.old.source) buf.new result }
        ensures fails { (result ≡ Took.Failed) ↔ IsToFail self.old.plan }
    {
        let Some(reading) = self.source else {
            unreachable!()
        };
        if self.plan.next_fails() {
            self.faults.raise(reading.fault);
            return Took::Failed;
        }
        let content = self.files.bytes(reading.file);
        let at = reading.at.min(content.len());
        let n = hand_over(content, at, buf);
        self.source = Some(Reading {
            file: reading.file,
            at: at + n,
            fault: reading.fault,
        });
        Took::Bytes(n)
    }

    // A call of `write_sink`.
    pub(crate) fn write(&mut self, bytes: &[u8]) -> Took
        requires made { IsSome self.old.sink }
        requires some { 0 < length bytes.now }
        ensures step { WriteStep self.old self.new self.old.sink bytes.now result }
        ensures bytes { WriteTook (taken_in self.old.files self.old.sink)
            (taken_in self.new.files self.new.sink) bytes.now result }
        ensures fails { (result ≡ Took.Failed)
            ↔ (IsToFail self.old.plan
            ⊎ (length (sink_bytes self.old.files self.old.sink) ≡ self.old.room)) }
    {
        let Some(place) = self.sink else {
            unreachable!()
        };
        let fails = self.plan.next_fails();
        let room = self.room - self.files.bytes(place).len();
        if fails || room == 0 {
            self.writing_faults = raised(self.writing_faults);
            return Took::Failed;
        }
        let n = self.pieces.next(bytes.len()).min(room);
        self.files.append(place, &bytes[..n]);
        Took::Bytes(n)
    }
}
