//! Files in memory.
ghost use Rattle.std.specs.Prelude.{◌≡◌, List, [], ◌∷◌, ◌++◌, Some, length, take, option_map, slice_get, IsNone, IsErr, IsTrue, OnOk, OnErr, IfOk, Contains, ◌↔◌, ◌⊎◌, ◌+◌, ◌<◌, ◌≤◌, true};
ghost use Rattle.std.specs.Io.{ReadsAtMost, WritesAtMost};
ghost use Rattle.std.specs.Io.KnownBytes.{IsAtEnd};
ghost use Rattle.std.specs.Option.{option_copied};
ghost use Rattle.std.specs.Bool.{OnTrue, OnFalse};
ghost use Rattle.texts.specs.Made.{Made};
ghost use Rattle.backsim_io.specs.Calls.{is_listed, after_call};
ghost use Rattle.backsim_io.specs.FilesInMemory.{Places, FileWrites, SameMade, CreatesIn, bytes_under, files_with, list_without};
ghost use Rattle.backsim_io.specs.State.{fresh_files, FileFault, ReadFault, WriteFault, Reads};
ghost use Rattle.backsim_io.specs.inner.FilesInMemory.{files_of, HasRoomAt};

use crate::calls::Calls;
use crate::faults::with_fault;
use crate::slots::Slots;
use crate::stored::StoredFiles;
use crate::{Failed, Files};
use std::alloc::Global;
use texts::Text;

/// Files in memory, some of whose calls fail. One count numbers the calls of all five kinds.
#[derive(Drop)]
pub struct MemFiles {
    alloc: Global,
    stored: StoredFiles,
    created: Vec<(Text, Vec<u8>)>,
    slots: Slots,
    calls: Calls,
    file_faults: u64,
    read_faults: u64,
    write_faults: u64,
    ghost fit: { Places slots.files slots.unfinished },
    ghost all: { slots.files ≡ length created.items },
    ghost few: { slots.files ≤ 4 },
}

impl MemFiles {
    ghost use Rattle.backsim_io.specs.InMemory.{files_calls};

    /// Files with these names and bytes. If two names are equal, the first counts. A call fails if `failing` lists its number; the first
    /// call has number 0. `start_read` also fails for a missing name, and `create` and `write` fail if there is no memory.
    pub fn new(alloc: Global, stored: Vec<(Text, Vec<u8>)>, failing: Vec<u64>) -> MemFiles
        ensures state { ⟦<MemFiles as Files>⟧.state result ≡ fresh_files (bytes_under stored.items)
            (Some []) }
        ensures made { ⟦<MemFiles as Files>⟧.made result [] }
        ensures calls { files_calls result ≡ record { failing = failing.items; next = 0 } }
    {
        MemFiles {
            alloc,
            stored: StoredFiles::new(stored),
            created: Vec::new(alloc),
            slots: Slots::new(),
            calls: Calls::new(failing),
            file_faults: 0,
            read_faults: 0,
            write_faults: 0,
        }
    }

    /// The bytes of the created file at this place.
    pub fn made_file(&self, slot: u32) -> Option<&[u8]>
        ensures bytes { (files : List Made) → ⟦<MemFiles as Files>⟧.made self.now files
            → option_copied result ≡ option_map (λ file. file.bytes) (slice_get files slot) }
        ensures none { IsNone result ↔ ((⟦<MemFiles as Files>⟧.state self.now).created ≤ slot) }
    {
        match self.created.get(slot as usize) {
            Some((_, bytes)) => Some(bytes),
            None => None,
        }
    }
}

/// Appends an empty file of this name. Returns `false` if there is no memory for it.
fn create_empty(alloc: Global, created: &mut Vec<(Text, Vec<u8>)>, name: &str) -> bool
    ensures created { OnTrue result (files_of created.new.items ≡ files_of
        created.old.items ++ record { name = name.now; bytes = [] } ∷ []) }
    ensures none { OnFalse result (created.new.items ≡ created.old.items) }
    ensures count { OnTrue result (length created.new.items ≡ length created.old.items + 1) }
{
    match Text::from_bytes(alloc, name.as_bytes()) {
        Ok(name) => created.push((name, Vec::new(alloc))).is_ok(),
        Err(_) => false,
    }
}

/// Appends bytes to the file at this place. Returns `false` if there is no memory for them.
fn write_more(created: &mut Vec<(Text, Vec<u8>)>, place: usize, piece: &[u8]) -> bool
    requires { place < length created.old.items }
    ensures grown { OnTrue result (files_of created.new.items
        ≡ files_with (files_of created.old.items)
        place piece.now) }
    ensures none { OnFalse result (files_of created.new.items ≡ files_of created.old.items) }
    ensures count { length created.new.items ≡ length created.old.items }
    ensures room { HasRoomAt created.old.items place (length piece.now) → IsTrue result }
{
    created[place].1.extend_from_slice(piece).is_ok()
}

impl Files for MemFiles {
    ghost use Rattle.backsim_io.specs.InMemory.{files_state, files_made, files_calls, FileHasRoom};

    ghost state = { files_state };

    ghost tells_names = { true };

    ghost made = { files_made };

    ghost places = { λ s. s.fit };

    /// Fails exactly when its number is listed or there is no file of this name.
    fn start_read(&mut self, name: &str) -> Result<(), Failed>
        requires { (files_state self.old).started < 4 }
        ensures opens { OnOk result (files_state self.new ≡ record (files_state self.old) {
          started = (files_state self.old).started + 1;
          left = (files_state self.old).bytes
              name.now;
        }) }
        ensures failed { OnErr result (FileFault (files_state self.old) (files_state self.new)) }
        ensures missing { IsNone ((files_state self.old).bytes name.now) → IsErr result }
        ensures listed { IsTrue (is_listed (files_calls self.old)) → IsErr result }
        ensures others { IsErr result → IsTrue (is_listed (files_calls self.old)) ⊎
            IsNone ((files_state self.old).bytes name.now) }
        ensures calls { files_calls self.new ≡ after_call (files_calls self.old) }
        ensures made { SameMade (files_made self.old) (files_made self.new) }
    {
        let place = self.stored.place_of(name);
        if self.calls.fails() || place.is_none() {
            self.file_faults = with_fault(self.file_faults);
            return Err(Failed);
        }
        self.stored.start(place);
        Ok(())
    }

    /// Fails exactly when its number is listed.
    fn read(&mut self, into: &mut [u8]) -> Result<usize, Failed>
        ensures bound { ReadsAtMost result into.new }
        ensures bytes { IfOk result (λ n. Reads (files_state self.old) (files_state self.new)
            (take n into.new)) }
        ensures end { IfOk result (λ n. n ≡ 0 → 0 < length into.new
            → IsAtEnd (files_state self.new).left) }
        ensures failed { OnErr result (ReadFault (files_state self.old) (files_state self.new)) }
        ensures listed { IsErr result ↔ IsTrue (is_listed (files_calls self.old)) }
        ensures calls { files_calls self.new ≡ after_call (files_calls self.old) }
        ensures made { SameMade (files_made self.old) (files_made self.new) }
    {
        if self.calls.fails() {
            self.read_faults = with_fault(self.read_faults);
            return Err(Failed);
        }
        Ok(self.stored.next(into))
    }

    /// Fails if its number is listed, or else only if there is no memory.
    fn create(&mut self, name: &str, _head: &[u8]) -> Result<u32, Failed>
        requires { (files_state self.old).created < 4 }
        ensures place { IfOk result (λ place. place ≡ (files_state self.old).created) }
        ensures creates { OnOk result (files_state self.new ≡ record (files_state self.old) {
          created = (files_state self.old).created + 1;
          unfinished =
              (files_state self.old).unfinished ++ (files_state self.old).created ∷ [];
        }) }
        ensures failed { OnErr result (FileFault (files_state self.old) (files_state self.new)) }
        ensures listed { IsTrue (is_listed (files_calls self.old)) → IsErr result }
        ensures calls { files_calls self.new ≡ after_call (files_calls self.old) }
        ensures made { OnOk result (CreatesIn (files_made self.old) (files_made self.new)
            name.now) }
        ensures none_made { OnErr result (SameMade (files_made self.old) (files_made self.new)) }
    {
        let place = self.slots.files();
        if self.calls.fails() || !create_empty(self.alloc, &mut self.created, name) {
            self.file_faults = with_fault(self.file_faults);
            return Err(Failed);
        }
        self.slots.add();
        Ok(place)
    }

    /// Fails if its number is listed, or else only if it has to allocate. Takes all bytes.
    fn write(&mut self, slot: u32, piece: &[u8]) -> Result<usize, Failed>
        requires { Contains (files_state self.old).unfinished slot }
        ensures bound { WritesAtMost result piece.now }
        ensures some { IfOk result (λ n. 0 < length piece.now → 0 < n) }
        ensures takes { OnOk result (files_state self.new ≡ files_state self.old) }
        ensures failed { OnErr result (WriteFault (files_state self.old) (files_state self.new)) }
        ensures listed { IsTrue (is_listed (files_calls self.old)) → IsErr result }
        ensures others { IsErr result → FileHasRoom self.old slot (length piece.now)
            → IsTrue (is_listed (files_calls self.old)) }
        ensures calls { files_calls self.new ≡ after_call (files_calls self.old) }
        ensures made { FileWrites (files_made self.old) (files_made self.new) slot result
            piece.now }
    {
        let place = slot as usize;
        if self.calls.fails() || !write_more(&mut self.created, place, piece) {
            self.write_faults = with_fault(self.write_faults);
            return Err(Failed);
        }
        Ok(piece.len())
    }

    /// Fails exactly when its number is listed.
    fn finish(&mut self, slot: u32) -> Result<(), Failed>
        requires { Contains (files_state self.old).unfinished slot }
        ensures finishes { OnOk result (files_state self.new ≡ record (files_state self.old)
            { unfinished = list_without (files_state self.old).unfinished slot }) }
        ensures failed { OnErr result (FileFault (files_state self.old) (files_state self.new)) }
        ensures listed { IsErr result ↔ IsTrue (is_listed (files_calls self.old)) }
        ensures calls { files_calls self.new ≡ after_call (files_calls self.old) }
        ensures made { SameMade (files_made self.old) (files_made self.new) }
    {
        if self.calls.fails() {
            self.file_faults = with_fault(self.file_faults);
            return Err(Failed);
        }
        self.slots.remove(slot);
        Ok(())
    }
}
