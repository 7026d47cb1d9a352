//! A stream of bytes, cut into its lines.

ghost use Rattle.std.specs.Prelude.{◌≡◌, ◌≢◌, ◌<◌, ◌≤◌, ◌↔◌, length, ℕ, List, [], ◌∷◌, ◌++◌, take, true, IsTrue, IsNone, IfSome};
ghost use Rattle.query_lines.specs.Cutting.{Cutter, IsUnderWay, LineEnds};

use crate::line::LONGEST_LINE;
use std::marker::Model;

/// The result of a byte or of the end of the stream.
#[derive(Clone, Copy, Debug, PartialEq, Eq)]
pub enum Cut {
    /// No line ended.
    More,
    /// A line ended, of at most 4,096 bytes.
    Whole,
    /// A line of more than 4,096 bytes ended.
    Long,
}

/// Cuts a stream of bytes into its lines. Of a line longer than 4,096 bytes only this fact is known. The cutter does not
/// allocate.
#[derive(Drop)]
pub struct LineCutter {
    buffer: [u8; LONGEST_LINE],
    len: usize,
    is_long: bool,
    ended: usize,
}

impl Model for LineCutter {
    ghost Value = { Cutter };

    ghost view = { λ c. record {
      kept = take c.len c.buffer;
      is_long = c.is_long;
      ended = take c.ended c.buffer;
    } };

    ghost invariant = { λ c. (c.len ≤ 4096) × (c.ended ≤ 4096) };
}

impl LineCutter {
    /// A cutter at the start of a stream.
    pub fn new() -> LineCutter
        ensures { IsUnderWay [] result }
    {
        LineCutter {
            buffer: [0; LONGEST_LINE],
            len: 0,
            is_long: false,
            ended: 0,
        }
    }

    /// Takes the next byte. A line feed ends the line.
    pub fn take(&mut self, byte: u8) -> Cut
        ensures more { (line : List ℕ) → IsUnderWay line self.old → byte ≢ 10
            → (result ≡ Cut.More) × IsUnderWay (line ++ byte ∷ []) self.new }
        ensures end { (line : List ℕ) → IsUnderWay line self.old → byte ≡ 10
            → LineEnds line result self.new }
        ensures no_text { byte ≢ 10 → self.new.ended ≡ [] }
    {
        if byte == b'\n' {
            return self.finish();
        }
        self.put(byte);
        Cut::More
    }

    fn put(&mut self, byte: u8)
        ensures no_text { self.new.ended ≡ [] }
        ensures holds { (line : List ℕ) → IsUnderWay line self.old
            → IsUnderWay (line ++ byte ∷ []) self.new }
    {
        self.ended = 0;
        if self.len < LONGEST_LINE {
            self.buffer[self.len] = byte;
            self.len += 1;
        } else {
            self.is_long = true;
        }
    }

    fn finish(&mut self) -> Cut
        ensures { (line : List ℕ) → IsUnderWay line self.old → LineEnds line result self.new }
    {
        let len = self.len;
        self.len = 0;
        if self.is_long {
            self.is_long = false;
            self.ended = 0;
            Cut::Long
        } else {
            self.ended = len;
            Cut::Whole
        }
    }

    /// Ends the stream, and with it the last line, if a byte came after the
    /// last line feed.
    pub fn end(&mut self) -> Cut
        ensures none { IsUnderWay [] self.old
            → (result ≡ Cut.More) × IsUnderWay [] self.new × (self.new.ended ≡ []) }
        ensures some { (line : List ℕ) → IsUnderWay line self.old → 0 < length line
            → LineEnds line result self.new }
    {
        if self.len == 0 {
            self.ended = 0;
            return Cut::More;
        }
        self.finish()
    }

    /// Whether no byte came after the last line feed.
    pub fn is_empty(&self) -> bool
        ensures { IsTrue result ↔ (self.now.kept ≡ []) }
    {
        self.len == 0
    }

    /// The current line, as a line feed would end it now; `None` if it is too long.
    pub fn line(&self) -> Option<&[u8]>
        ensures long { IsNone result ↔ (self.now.is_long ≡ true) }
        ensures whole { IfSome result (λ line. line.now ≡ self.now.kept) }
    {
        if self.is_long {
            return None;
        }
        Some(self.buffer.as_slice().split_at(self.len).0)
    }

    /// The line that just ended. Empty if it was too long.
    pub fn text(&self) -> &[u8]
        ensures { result.now ≡ self.now.ended }
    {
        self.buffer.as_slice().split_at(self.ended).0
    }
}
