//! Which slots were used, in the order of their use.
ghost use Rattle.std.specs.Prelude.{◌≡◌, ℕ, ◌+◌, ◌<◌, ◌≤◌, List, [], All, OnErr, OnOk, false, length, replicate, vec_capacity};
ghost use Rattle.cell_store.specs.inner.Notes.{Slots, after_notes, noted_slots, with_note};

use crate::recent::Order;
use std::alloc::Global;
use std::marker::Model;
use texts::OutOfMemory;

/// Slots that were used, each as often as it was, the earliest first. Of several notes of a slot only the last counts. There is room for
/// two notes of each slot, which is taken with the slot. So a note takes no memory: where the room is full, only the last note of each
/// slot is kept, in place. The model is the notes, and how many slots there is room for.
#[derive(Drop)]
pub struct Notes {
    noted: Vec<u16>,
    // for each slot whether a later note of it was met, while the notes are thinned
    met: Vec<bool>,
}

impl Model for Notes {
    ghost use Rattle.std.specs.Prelude.{vec_capacity, length};
    ghost use Rattle.cell_store.specs.inner.Notes.{NotedSlots, noted_slots, AreNotes};

    ghost Value = { NotedSlots };

    ghost view = { λ s. noted_slots s.noted.items (length s.met.items) };

    ghost invariant = { λ s. AreNotes s.noted.items s.met.items (vec_capacity s.noted) };
}

impl Notes {
    /// No note, and room for no slot.
    pub fn new(alloc: Global) -> Notes
        ensures { result ≡ noted_slots [] 0 }
    {
        Notes {
            noted: Vec::new(alloc),
            met: Vec::new(alloc),
        }
    }

    /// Takes room for the notes of a slot, and of those before it.
    pub fn take_room(&mut self, slot: u32) -> Result<(), OutOfMemory>
        requires { slot < 65536 }
        ensures noted { self.new.noted ≡ self.old.noted }
        ensures more { self.old.slots ≤ self.new.slots }
        ensures room { OnOk result (slot < self.new.slots) }
    {
        let many = slot as usize + 1;
        if many <= self.met.len() {
            return Ok(());
        }
        self.noted
            .reserve((2 * many).saturating_sub(self.noted.len()))?;
        self.met.resize(many, false)?;
        Ok(())
    }

    /// The slot is used.
    pub fn note(&mut self, slot: u32)
        requires { slot < self.old.slots }
        ensures after { (slots : Slots) → after_notes slots self.new.noted ≡ with_note (after_notes slots self.old.noted) slot }
        ensures slots { self.new.slots ≡ self.old.slots }
    {
        if self.noted.len() == self.noted.capacity() {
            thin(&mut self.noted, &mut self.met);
        }
        self.noted.push_reserved(slot as u16);
    }

    /// Makes the uses that are noted in the order of the slots.
    pub fn put_into(&mut self, order: &mut Order) -> Result<(), OutOfMemory>
        requires within { length (after_notes order.old.entries self.old.noted) ≤ order.old.cap }
        ensures same { after_notes order.new.entries self.new.noted ≡ after_notes order.old.entries self.old.noted }
        ensures cap { order.new.cap ≡ order.old.cap }
        ensures slots { self.new.slots ≡ self.old.slots }
        ensures none { OnOk result (self.new.noted ≡ []) }
    {
        for slot in &self.noted {
            if order.push(*slot as u32, ()).is_err() {
                return Err(OutOfMemory);
            }
        }
        self.noted.clear();
        Ok(())
    }
}

// Keeps the last note of each slot.
fn thin(noted: &mut Vec<u16>, met: &mut Vec<bool>)
    requires below { All (λ slot. slot < length met.old.items) noted.old.items }
    requires clear { All (λ m. m ≡ false) met.old.items }
    ensures same { (slots : Slots) → after_notes slots noted.new.items ≡ after_notes slots noted.old.items }
    ensures below { All (λ slot. slot < length met.new.items) noted.new.items }
    ensures clear { All (λ m. m ≡ false) met.new.items }
    ensures many { length met.new.items ≡ length met.old.items }
    ensures few { length noted.new.items ≤ length met.old.items }
    ensures capacity { vec_capacity noted.new ≡ vec_capacity noted.old }
{
    let len = noted.len();
    let mut kept = len;
    let mut left = len;
    while 0 < left {
        left -= 1;
        let slot = noted[left];
        if !met[slot as usize] {
            met[slot as usize] = true;
            kept -= 1;
            noted[kept] = slot;
        }
    }
    noted.copy_within(kept.., 0);
    noted.truncate(len - kept);
    for i in 0..noted.len() {
        met[noted[i] as usize] = false;
    }
}
