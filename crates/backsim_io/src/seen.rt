ghost use Rattle.std.specs.Prelude.{◌≡◌, List, [], ◌++◌, ◌<◌, ◌≤◌, ◌↔◌, IsTrue, Contains, length, take};
ghost use Rattle.std.specs.Option.{option_to_list};
ghost use Rattle.backsim_io.specs.declared.seen.FileId.{FileId as FileIdRecord};

use std::fs::Metadata;
use std::marker::Model;
use std::os::unix::fs::MetadataExt;

/// The identity of a file: its device, and its number there.
#[derive(Clone, Copy, Debug, PartialEq, Eq)]
pub(crate) struct FileId {
    device: u64,
    number: u64,
}

impl FileId {
    /// The identity in this metadata.
    pub(crate) fn of(metadata: &Metadata) -> FileId {
        FileId {
            device: metadata.dev(),
            number: metadata.ino(),
        }
    }
}

/// The greatest number of files: two standard streams, four for reading and four created.
const MOST: usize = 10;

/// Up to ten files of the system.
#[derive(Drop)]
pub(crate) struct SeenFiles {
    ids: [FileId; MOST],
    count: usize,
}

impl Model for SeenFiles {
    ghost Value = { List FileIdRecord };

    ghost view = { λ k. take k.count k.ids };

    ghost invariant = { λ k. k.count ≤ 10 };
}

impl SeenFiles {
    pub(crate) fn new() -> SeenFiles
        ensures { result ≡ [] }
    {
        let none = FileId {
            device: 0,
            number: 0,
        };
        SeenFiles {
            ids: [none; MOST],
            count: 0,
        }
    }

    /// Whether this file is one of them.
    pub(crate) fn contains(&self, id: FileId) -> bool
        ensures { IsTrue result ↔ Contains self.now id }
    {
        self.ids[..self.count].contains(&id)
    }

    /// Adds a file if there is one.
    pub(crate) fn add(&mut self, id: Option<FileId>)
        requires { length self.old < 10 }
        ensures { self.new ≡ self.old ++ option_to_list id }
    {
        if let Some(id) = id {
            self.ids[self.count] = id;
            self.count += 1;
        }
    }
}
