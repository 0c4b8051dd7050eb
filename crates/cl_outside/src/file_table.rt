//! Files by name, with their bytes.
ghost use Rattle.std.specs.Prelude.{◌≡◌, ◌+◌, ◌≤◌, ◌<◌, [], ◌++◌, length, slice_index, MatchOption, IfOk, OnErr, OnOk, Some, vec_capacity};
ghost use Rattle.std.specs.List.{position};
ghost use Rattle.std.specs.Option.{option_copied};
ghost use Rattle.cl_outside.specs.NameTables.{is_named};
ghost use Rattle.cl_outside.specs.Named.{found, place_in, name_at, IsFirst, updated, bytes_of};

use std::alloc::{AllocError, Global};
use std::marker::Model;

// Files by name: their bytes, and the room that each has. A file is called by its place.
#[derive(Drop)]
pub(crate) struct FileTable {
    list: Vec<(String, Vec<u8>)>,
}

impl Model for FileTable {
    ghost use Rattle.cl_outside.specs.NameTables.{Files, files_of};

    ghost Value = { Files };

    ghost view = { λ t. files_of t.list.items };
}

impl FileTable {
    ghost use Rattle.cl_outside.specs.NameTables.{entries_of};

    pub(crate) fn new(list: Vec<(String, Vec<u8>)>) -> FileTable
        ensures entries { result.entries ≡ entries_of list.items }
    {
        FileTable { list }
    }

    // The place of a name.
    pub(crate) fn find(&self, name: &str) -> Option<usize>
        ensures { MatchOption result (place_in self.now.entries name.now ≡ length self.now.entries)
            (λ k. IsFirst self.now.entries k × (name_at self.now.entries k ≡ name.now)) }
    {
        position_of(self.list.as_slice(), name)
    }

    pub(crate) fn bytes(&self, place: usize) -> &[u8]
        requires { IsFirst self.now.entries place }
        ensures { found self.now.entries (name_at self.now.entries place) ≡ Some result.now }
    {
        self.list[place].1.as_slice()
    }

    pub(crate) fn get(&self, name: &str) -> Option<&[u8]>
        ensures { option_copied result ≡ found self.now.entries name.now }
    {
        match self.find(name) {
            Some(place) => Some(self.bytes(place)),
            None => None,
        }
    }

    // Makes the file of this name empty, with this room, and gives its place.
    pub(crate) fn make(
        &mut self,
        alloc: Global,
        name: &str,
        room: usize,
    ) -> Result<usize, AllocError>
        ensures entries { OnOk result (self.new.entries ≡ updated self.old.entries name.now []) }
        ensures place { IfOk result
            (λ k. IsFirst self.new.entries k × (name_at self.new.entries k ≡ name.now)) }
        ensures room { IfOk result (λ k. room ≤ slice_index self.new.rooms k) }
        ensures err { OnErr result (self.new ≡ self.old) }
    {
        let content = Vec::with_capacity(alloc, room)?;
        match self.find(name) {
            Some(place) => {
                self.replace(place, content);
                Ok(place)
            }
            None => {
                let place = self.list.len();
                self.add(alloc, name, content)?;
                Ok(place)
            }
        }
    }

    // Writes behind the bytes of a file, which has room for them.
    pub(crate) fn append(&mut self, place: usize, bytes: &[u8])
        requires first { IsFirst self.old.entries place }
        requires room { length (bytes_of self.old.entries (name_at self.old.entries place)) + length
            bytes.now ≤ slice_index self.old.rooms place }
        ensures entries { self.new.entries
            ≡ updated self.old.entries (name_at self.old.entries place)
            (bytes_of self.old.entries (name_at self.old.entries place) ++ bytes.now) }
        ensures room { slice_index self.old.rooms place ≤ slice_index self.new.rooms place }
    {
        let file = &mut self.list[place];
        if file.1.extend_from_slice(bytes).is_err() {
            unreachable!();
        }
    }

    fn replace(&mut self, place: usize, content: Vec<u8>)
        requires { IsFirst self.old.entries place }
        ensures entries { self.new.entries
            ≡ updated self.old.entries (name_at self.old.entries place) content.items }
        ensures room { slice_index self.new.rooms place ≡ vec_capacity content }
    {
        let file = &mut self.list[place];
        file.1 = content;
    }

    fn add(&mut self, alloc: Global, name: &str, content: Vec<u8>) -> Result<(), AllocError>
        requires { place_in self.old.entries name.now ≡ length self.old.entries }
        ensures entries { OnOk result
            (self.new.entries ≡ updated self.old.entries name.now content.items) }
        ensures room { OnOk result
            (slice_index self.new.rooms (length self.old.entries) ≡ vec_capacity content) }
        ensures err { OnErr result (self.new ≡ self.old) }
    {
        let name = String::from_str(alloc, name)?;
        self.list.push((name, content))?;
        Ok(())
    }
}

fn position_of(list: &[(String, Vec<u8>)], name: &str) -> Option<usize>
    ensures { result ≡ position (is_named name.now) list.now }
{
    list.iter().position(|file| file.0.as_str() == name)
}
