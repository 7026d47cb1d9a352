ghost use Rattle.std.specs.Prelude.{◌≡◌, [], ◌++◌, length, take, drop, Some, None, OnSome, IfNone, ◌+◌, ◌<◌, ◌≤◌};
ghost use Rattle.backsim_io.specs.FilesInMemory.{bytes_under};
ghost use Rattle.backsim_io.specs.inner.FilesInMemory.{bytes_at};

use crate::copies::copy_next;
use texts::Text;

/// Files in memory, by name. One of them is being read.
#[derive(Drop)]
pub(crate) struct StoredFiles {
    files: Vec<(Text, Vec<u8>)>,
    reading: Option<usize>,
    at: usize,
    started: u32,
    ghost within: { at ≤ length (bytes_at files.items reading) },
}

impl StoredFiles {
    pub(crate) fn new(files: Vec<(Text, Vec<u8>)>) -> StoredFiles
        ensures files { result.files ≡ files }
        ensures none { drop result.at (bytes_at result.files.items result.reading) ≡ [] }
        ensures started { result.started ≡ 0 }
    {
        StoredFiles {
            files,
            reading: None,
            at: 0,
            started: 0,
        }
    }

    /// The place of the first file with this name.
    pub(crate) fn place_of(&self, name: &str) -> Option<usize>
        ensures bytes { OnSome result (bytes_under self.now.files.items name.now ≡ Some
            (bytes_at self.now.files.items result)) }
        ensures none { IfNone result (bytes_under self.now.files.items name.now ≡ None) }
    {
        for (place, file) in self.files.iter().enumerate() {
            if file.0.bytes() == name.as_bytes() {
                return Some(place);
            }
        }
        None
    }

    /// Starts to read the file at this place, or an empty file if there is no place.
    pub(crate) fn start(&mut self, place: Option<usize>)
        requires { self.old.started < 4 }
        ensures rest { drop self.new.at (bytes_at self.new.files.items self.new.reading) ≡ bytes_at
            self.old.files.items place }
        ensures files { self.new.files ≡ self.old.files }
        ensures started { self.new.started ≡ self.old.started + 1 }
    {
        self.reading = place;
        self.at = 0;
        self.started += 1;
    }

    /// The file that is being read. It is empty if there is none.
    fn current(&self) -> &[u8]
        ensures { result.now ≡ bytes_at self.now.files.items self.now.reading }
    {
        let Some(place) = self.reading else {
            return &[];
        };
        match self.files.get(place) {
            Some((_, bytes)) => bytes,
            None => &[],
        }
    }

    /// Copies the next bytes of the file that is being read to the front of a buffer.
    pub(crate) fn next(&mut self, into: &mut [u8]) -> usize
        ensures bound { result ≤ length into.new }
        ensures bytes { drop self.old.at (bytes_at self.old.files.items self.old.reading) ≡ take
            result into.new ++ drop self.new.at (bytes_at self.new.files.items self.new.reading) }
        ensures end { result ≡ 0 → 0 < length into.new
            → drop self.new.at (bytes_at self.new.files.items self.new.reading) ≡ [] }
        ensures files { self.new.files ≡ self.old.files }
        ensures started { self.new.started ≡ self.old.started }
    {
        let n = copy_next(self.current(), self.at, into, usize::MAX);
        self.at += n;
        n
    }
}
