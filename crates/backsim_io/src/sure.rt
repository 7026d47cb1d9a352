//! A source and a sink in memory that never fail.
ghost use Rattle.std.specs.Prelude.{◌≡◌, ℕ, [], Some, length, take, drop, IfOk, vec_len, vec_capacity, ◌≤◌};
ghost use Rattle.backsim_io.specs.KeptBytes.{KeptBytes, kept_more};

use crate::copies::copy_next;
use crate::{Failed, Sink, Source};
use std::alloc::Global;
use std::marker::Model;
use texts::OutOfMemory;

/// A source in memory that never fails.
#[derive(Drop)]
pub struct SureSource {
    bytes: Vec<u8>,
    at: usize,
    ghost within: { at ≤ length bytes.items },
}

impl SureSource {
    /// A source of these bytes.
    pub fn new(bytes: Vec<u8>) -> SureSource
        ensures { ⟦<SureSource as Source>⟧.state result ≡ record
            { left = Some bytes.items; faults = 0 } }
    {
        SureSource { bytes, at: 0 }
    }
}

impl Source for SureSource {
    ghost state = { λ s. record { left = Some (drop s.at s.bytes.items); faults = 0 } };

    fn read(&mut self, into: &mut [u8]) -> Result<usize, Failed> {
        let n = copy_next(&self.bytes, self.at, into, usize::MAX);
        self.at += n;
        Ok(n)
    }
}

/// A sink in memory that never fails. It keeps the first bytes, as many as it has room for, and discards
/// the others.
#[derive(Drop)]
pub struct SureSink {
    bytes: Vec<u8>,
    room: usize,
}

impl Model for SureSink {
    ghost Value = { KeptBytes };

    ghost view = { λ s. record { room = s.room; bytes = s.bytes.items } };

    ghost invariant = { λ s. (vec_len s.bytes ≤ s.room) × (s.room ≤ vec_capacity s.bytes) };
}

impl SureSink {
    /// A sink that keeps the first `room` bytes. This call allocates the room, and no later call allocates.
    pub fn new(alloc: Global, room: usize) -> Result<SureSink, OutOfMemory>
        ensures { IfOk result (λ s. s ≡ record { room = room; bytes = [] }) }
    {
        let bytes = Vec::with_capacity(alloc, room)?;
        Ok(SureSink { bytes, room })
    }

    /// The bytes that were kept.
    pub fn bytes(&self) -> &[u8]
        ensures { result.now ≡ self.now.bytes }
    {
        &self.bytes
    }

    /// Keeps the bytes for which there is room.
    pub(crate) fn keep(&mut self, piece: &[u8])
        ensures { self.new ≡ kept_more self.old piece.now }
    {
        let n = (self.room - self.bytes.len()).min(piece.len());
        self.bytes.extend_from_slice(&piece[..n]).unwrap();
    }
}

impl Sink for SureSink {
    ghost written = { λ s xs. take s.room xs ≡ s.bytes };

    ghost faults = { λ _. 0 };

    fn write(&mut self, piece: &[u8]) -> Result<usize, Failed> {
        self.keep(piece);
        Ok(piece.len())
    }
}
