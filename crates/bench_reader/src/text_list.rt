//! Texts, and where each is kept.

ghost use Rattle.std.specs.Prelude.{◌≡◌, ◌++◌, ◌<◌, ◌≤◌, [], ◌∷◌, length, take, slice_get, Some, OnOk, OnErr};

use std::alloc::{AllocError, Global};
use std::marker::Model;

/// Where a text is kept.
#[derive(Clone, Copy)]
pub enum Place {
    /// In the first of these bytes.
    Short { len: u8, bytes: [u8; 11] },
    /// In the list of bytes.
    Long { start: u32, end: u32 },
}

/// Texts by their numbers, from 0. The bytes of long ones lie in one list, of at most so many.
#[derive(Drop)]
pub struct TextList {
    places: Vec<Place>,
    bytes: Vec<u8>,
}

/// So long is a short text at most.
const SHORT: usize = 11;

const MOST_BYTES: usize = 4_294_967_295;

/// A short text, and zeros after it.
fn short_of(text: &[u8]) -> [u8; 11]
    requires { length text.now ≤ 11 }
    ensures { take (length text.now) result ≡ text.now }
{
    let mut bytes = [0; SHORT];
    bytes[..text.len()].copy_from_slice(text);
    bytes
}

impl Model for TextList {
    ghost use Rattle.std.specs.Prelude.{List, ℕ, map};

    ghost Value = { List (List ℕ) };

    ghost use Rattle.bench_reader.specs.inner.TextLists.{text_at, LieWithin};

    ghost view = { λ t. map (text_at t.bytes.items) t.places.items };

    ghost invariant = { λ t. LieWithin t.bytes.items t.places.items };
}

impl TextList {
    pub fn new(alloc: Global) -> TextList
        ensures { result ≡ [] }
    {
        TextList {
            places: Vec::new(alloc),
            bytes: Vec::new(alloc),
        }
    }

    pub fn len(&self) -> usize
        ensures { result ≡ length self.now }
    {
        self.places.len()
    }

    pub fn get(&self, number: usize) -> &[u8]
        requires { number < length self.now }
        ensures { slice_get self.now number ≡ Some result.now }
    {
        match &self.places[number] {
            Place::Short { len, bytes } => &bytes[..*len as usize],
            Place::Long { start, end } => &self.bytes[*start as usize..*end as usize],
        }
    }

    /// Adds a text. Where the bytes would be too many, it is answered as where memory runs out.
    pub fn push(&mut self, text: &[u8]) -> Result<(), AllocError>
        ensures added { OnOk result (self.new ≡ self.old ++ text.now ∷ []) }
        ensures unchanged { OnErr result (self.new ≡ self.old) }
    {
        if text.len() <= SHORT {
            self.places.push(Place::Short {
                len: text.len() as u8,
                bytes: short_of(text),
            })?;
            return Ok(());
        }
        let start = self.bytes.len();
        let end = start.saturating_add(text.len());
        if end > MOST_BYTES {
            return Err(AllocError);
        }
        self.bytes.extend_from_slice(text)?;
        self.places.push(Place::Long {
            start: start as u32,
            end: end as u32,
        })?;
        Ok(())
    }
}
