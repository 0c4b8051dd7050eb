//! A place over the files of the system.
ghost use Rattle.std.specs.Prelude.{◌≡◌, None, true, false};
ghost use Rattle.cl_outside.specs.Place.{OnDone, OnMemory, OpenedRose};

use crate::answers::{Opened, Took};
use crate::places::Place;
use std::fs;
use std::io::{Read, Write};
use std::marker::Model;
use std::rt::Files;

/// A place over the system's files, named by their paths. It tells no content. It gives one number
/// of application faults for every name, and it takes no memory. A write that takes nothing is a
/// fault.
#[derive(Drop)]
pub struct FilePlace<R: Files + Drop> {
    rt: R,
    source: Option<R::File>,
    sink: Option<R::File>,
    app_faults: u64,
    making_faults: u64,
    writing_faults: u64,
}

impl<R: Files + Drop> Model for FilePlace<R> {
    ghost use Rattle.std.specs.Prelude.{is_some};
    ghost use Rattle.cl_outside.specs.Adapters.{Filing};

    ghost Value = { Filing };

    ghost view = { λ p. record {
      opened = is_some p.source;
      made = is_some p.sink;
      app_faults = p.app_faults;
      making_faults = p.making_faults;
      writing_faults = p.writing_faults;
    } };
}

impl<R: Files + Drop> FilePlace<R> {
    /// No source is open and no sink made.
    pub fn new(rt: R) -> FilePlace<R>
        ensures opened { result.opened ≡ false }
        ensures made { result.made ≡ false }
        ensures app_faults { result.app_faults ≡ 0 }
        ensures making_faults { result.making_faults ≡ 0 }
        ensures writing_faults { result.writing_faults ≡ 0 }
    {
        FilePlace {
            rt,
            source: None,
            sink: None,
            app_faults: 0,
            making_faults: 0,
            writing_faults: 0,
        }
    }
}

impl<R: Files + Drop> Place for FilePlace<R> {
    ghost file = { λ _ _. None };

    ghost left = { λ _. None };

    ghost opened = { λ p. p.opened };

    ghost reads = { λ _ _. Unit {0} };

    ghost made = { λ p. p.made };

    ghost taken = { λ _. None };

    ghost others = { λ _ _. None };

    ghost app_faults = { λ p _. p.app_faults };

    ghost making_faults = { λ p. p.making_faults };

    ghost writing_faults = { λ p. p.writing_faults };

    ghost told = { λ _ _. tt };

    fn open_source(&mut self, name: &str) -> Opened
        ensures made { self.new.made ≡ self.old.made }
        ensures making { self.new.making_faults ≡ self.old.making_faults }
        ensures writing { self.new.writing_faults ≡ self.old.writing_faults }
        ensures opened { OnDone result (self.new.opened ≡ true) }
        ensures cause { OpenedRose self.old.app_faults self.new.app_faults result }
        ensures no_memory { OnMemory result ⊥ }
    {
        match fs::open(&self.rt, name) {
            Ok(file) => {
                self.source = Some(file);
                Opened::Done
            }
            Err(_) => {
                self.app_faults = self.app_faults.saturating_add(1);
                Opened::Failed
            }
        }
    }

    fn read_source(&mut self, buf: &mut [u8]) -> Took {
        let Some(file) = &mut self.source else {
            unreachable!()
        };
        match file.read(buf) {
            Ok(n) => Took::Bytes(n),
            Err(_) => {
                self.app_faults = self.app_faults.saturating_add(1);
                Took::Failed
            }
        }
    }

    fn make_sink(&mut self, name: &str) -> Opened
        ensures opened { self.new.opened ≡ self.old.opened }
        ensures app_faults { self.new.app_faults ≡ self.old.app_faults }
        ensures writing { self.new.writing_faults ≡ self.old.writing_faults }
        ensures made { OnDone result (self.new.made ≡ true) }
        ensures cause { OpenedRose self.old.making_faults self.new.making_faults result }
        ensures no_memory { OnMemory result ⊥ }
    {
        match fs::create(&self.rt, name) {
            Ok(file) => {
                self.sink = Some(file);
                Opened::Done
            }
            Err(_) => {
                self.making_faults = self.making_faults.saturating_add(1);
                Opened::Failed
            }
        }
    }

    fn write_sink(&mut self, bytes: &[u8]) -> Took {
        let Some(file) = &mut self.sink else {
            unreachable!()
        };
        match file.write(bytes) {
            Ok(n) if n > 0 => Took::Bytes(n),
            _ => {
                self.writing_faults = self.writing_faults.saturating_add(1);
                Took::Failed
            }
        }
    }
}
