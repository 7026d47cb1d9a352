//! Files in memory that never fail.
ghost use Rattle.std.specs.Prelude.{◌≡◌, List, [], Some, map, take, drop, length, All, option_map, slice_get, vec_len, vec_capacity, IsNone, IfOk, ◌↔◌, ◌+◌, ◌<◌, ◌≤◌, true};
ghost use Rattle.std.specs.Option.{option_copied};
ghost use Rattle.texts.specs.Made.{Made};
ghost use Rattle.backsim_io.specs.FilesInMemory.{Places};
ghost use Rattle.backsim_io.specs.inner.FilesInMemory.{bytes_at};
ghost use Rattle.backsim_io.specs.KeptBytes.{kept_more};
ghost use Rattle.backsim_io.specs.inner.SureFiles.{KeptFile, IsBlank, kept_file, front_of};
ghost use Rattle.backsim_io.specs.State.{fresh_files};
ghost use Rattle.backsim_io.specs.SureFiles.{bytes_or_empty};

use crate::slots::Slots;
use crate::stored::StoredFiles;
use crate::{Failed, Files, SureSink};
use std::alloc::Global;
use std::marker::Model;
use texts::{OutOfMemory, Text};

/// The greatest number of created files.
const FILES: usize = 4;

/// How many bytes of a created file's name are kept.
const NAME: usize = 255;

/// A created file, or room for one: the first bytes of its name and of its content.
#[derive(Drop)]
struct SureFile {
    name: SureSink,
    bytes: SureSink,
}

impl Model for SureFile {
    ghost Value = { KeptFile };

    ghost view = { λ file. record { name = file.name.bytes; bytes = file.bytes } };

    ghost invariant = { λ file. file.name.room ≡ 255 };
}

impl SureFile {
    /// Room for a file of this size.
    fn new(alloc: Global, room: usize) -> Result<SureFile, OutOfMemory>
        ensures { IfOk result (λ file. IsBlank room file) }
    {
        let name = SureSink::new(alloc, NAME)?;
        let bytes = SureSink::new(alloc, room)?;
        Ok(SureFile { name, bytes })
    }

    /// Names the file.
    fn set_name(&mut self, name: &str)
        requires { self.old.name ≡ [] }
        ensures { self.new ≡ record self.old { name = take 255 name.now } }
    {
        self.name.keep(name.as_bytes());
    }

    /// Keeps the bytes for which there is room.
    fn keep(&mut self, piece: &[u8])
        ensures { self.new ≡ record self.old { bytes = kept_more self.old.bytes piece.now } }
    {
        self.bytes.keep(piece);
    }

    /// The bytes that were kept.
    fn bytes(&self) -> &[u8]
        ensures { result.now ≡ self.now.bytes.bytes }
    {
        self.bytes.bytes()
    }
}

/// Files in memory that never fail. Of each created file they keep the first bytes, as many as there is room for, and the first 255 bytes
/// of its name. Other bytes are discarded.
#[derive(Drop)]
pub struct SureFiles {
    stored: StoredFiles,
    room: usize,
    created: Vec<SureFile>,
    spare: Vec<SureFile>,
    slots: Slots,
    ghost fit: { Places slots.files slots.unfinished },
    ghost all: { slots.files ≡ length created.items },
    ghost four: { vec_len created + vec_len spare ≡ 4 },
    ghost fits: { 4 ≤ vec_capacity created },
    ghost rooms: { All (λ file. file.bytes.room ≡ room) created.items },
    ghost blank: { All (IsBlank room) spare.items },
}

/// Room for four files of this size.
fn blank_files(alloc: Global, room: usize) -> Result<Vec<SureFile>, OutOfMemory>
    ensures four { IfOk result (λ files. vec_len files ≡ 4) }
    ensures blank { IfOk result (λ files. All (IsBlank room) files.items) }
{
    let mut files = Vec::with_capacity(alloc, FILES)?;
    for _ in 0..FILES {
        files.push(SureFile::new(alloc, room)?)?;
    }
    Ok(files)
}

impl SureFiles {
    ghost use Rattle.backsim_io.specs.SureRoom.{room_of};

    /// Files with these names and bytes. If two names are equal, the first counts. Every other name has an empty file. This call allocates
    /// the room for four created files, and no later call allocates.
    pub fn new(
        alloc: Global,
        stored: Vec<(Text, Vec<u8>)>,
        room: usize,
    ) -> Result<SureFiles, OutOfMemory>
        ensures room { IfOk result (λ s. room_of s ≡ room) }
        ensures state { IfOk result (λ s. ⟦<SureFiles as Files>⟧.state s ≡ fresh_files
            (bytes_or_empty stored.items) (Some [])) }
        ensures made { IfOk result (λ s. ⟦<SureFiles as Files>⟧.made s []) }
    {
        let created = Vec::with_capacity(alloc, FILES)?;
        let spare = blank_files(alloc, room)?;
        Ok(SureFiles {
            stored: StoredFiles::new(stored),
            room,
            created,
            spare,
            slots: Slots::new(),
        })
    }

    /// The kept bytes of the created file at this place.
    pub fn made_file(&self, slot: u32) -> Option<&[u8]>
        ensures bytes { (files : List Made) → ⟦<SureFiles as Files>⟧.made self.now files
            → option_copied result ≡ option_map (λ file. take (room_of self.now) file.bytes)
            (slice_get files slot) }
        ensures none { IsNone result ↔ ((⟦<SureFiles as Files>⟧.state self.now).created ≤ slot) }
    {
        match self.created.get(slot as usize) {
            Some(file) => Some(file.bytes()),
            None => None,
        }
    }
}

impl Files for SureFiles {
    ghost state = { λ s. record {
      bytes = bytes_or_empty s.stored.files.items;
      left = Some (drop s.stored.at (bytes_at s.stored.files.items s.stored.reading));
      started = s.stored.started;
      created = s.slots.files;
      unfinished = s.slots.unfinished;
      file_faults = 0;
      read_faults = 0;
      write_faults = 0;
    } };

    ghost tells_names = { true };

    ghost made = { λ s files. map (front_of s.room) files ≡ map kept_file s.created.items };

    ghost places = { λ s. s.fit };

    fn start_read(&mut self, name: &str) -> Result<(), Failed> {
        let place = self.stored.place_of(name);
        self.stored.start(place);
        Ok(())
    }

    fn read(&mut self, into: &mut [u8]) -> Result<usize, Failed> {
        Ok(self.stored.next(into))
    }

    fn create(&mut self, name: &str, _head: &[u8]) -> Result<u32, Failed> {
        let place = self.slots.files();
        let mut file = self.spare.pop().unwrap();
        file.set_name(name);
        self.created.push(file).unwrap();
        self.slots.add();
        Ok(place)
    }

    fn write(&mut self, slot: u32, piece: &[u8]) -> Result<usize, Failed> {
        self.created[slot as usize].keep(piece);
        Ok(piece.len())
    }

    fn finish(&mut self, slot: u32) -> Result<(), Failed> {
        self.slots.remove(slot);
        Ok(())
    }
}
