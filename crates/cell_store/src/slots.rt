//! The hash of a slot.
ghost use Rattle.std.specs.Prelude.{◌≡◌};
ghost use Rattle.cell_store.specs.inner.Slots as slots;

use std::hash::Hasher;

/// Hashes the number of a slot. The hash map takes a group of 12 places from the low bits of a hash, and a tag from the bits 24 to 31.
/// It holds at most 9 entries a group on average. So nine slots that follow one another lie in one group, with nine tags, no group
/// gets more than nine, and cells that were stored one after another share cache lines.
#[derive(Clone, Copy)]
pub struct SlotHasher {
    state: u64,
}

impl Default for SlotHasher {
    ghost is_default = { λ s. s ≡ slots.initial };

    fn default() -> SlotHasher {
        SlotHasher { state: 0 }
    }
}

impl Hasher for SlotHasher {
    ghost write = { slots.write };

    ghost finish = { slots.finish };

    fn finish(&self) -> u64 {
        self.state / 9 + ((self.state % 9 + 1) << 24)
    }

    fn write(&mut self, bytes: &[u8]) {
        if bytes.len() == 4 {
            self.state = u32::from_le_bytes([bytes[0], bytes[1], bytes[2], bytes[3]]) as u64;
        }
    }
}
