//! The names that are set, each once.

ghost use Rattle.std.specs.Prelude.{◌≡◌, ◌<◌, ◌&&◌, [], List, length, nat_lt, if◌then◌else◌, slice_index_or, slice_set, IfOk, IfSome};
ghost use Rattle.stimulus_file.specs.declared.NumberedSet.{NumberedSet as Numbered};
ghost use Rattle.stimulus_file.specs.inner.KeptSettings.{ArePlaces, Finds, HasNames, StandsAt};

use std::alloc::Global;
use std::collections::BTreeMap;
use texts::{OutOfMemory, Text};

/// The place of a name that is set once more, and whether that is later than ever before.
#[derive(Clone, Copy)]
pub struct Found {
    pub place: u32,
    pub is_later: bool,
}

/// The names in the order in which they came. The keys of `places` lie in the text.
#[derive(Drop)]
pub struct Names<'a> {
    pub texts: Vec<Text>,
    /// The greatest time at which each name is set.
    pub latest: Vec<u32>,
    pub places: BTreeMap<&'a [u8], u32>,
    /// The place of the name that was set after each when it was set last.
    pub followers: Vec<u32>,
    /// The place of the name that was set last.
    pub last: u32,
}

impl<'a> Names<'a> {
    pub fn new(alloc: Global) -> Names<'a>
        ensures { HasNames result [] }
    {
        Names {
            texts: Vec::new(alloc),
            latest: Vec::new(alloc),
            places: BTreeMap::new(alloc),
            followers: Vec::new(alloc),
            last: 0,
        }
    }

    /// Finds a name that is set at this time. A new name is copied.
    pub fn find(&mut self, alloc: Global, name: &'a [u8], time: u32) -> Result<Found, OutOfMemory>
        ensures { (sets : List Numbered) → HasNames self.old sets
            → IfOk result (λ found. Finds self.old self.new sets name.entry.now time found) }
    {
        let Some(place) = self.place_of(name) else {
            return self.add(alloc, name, time);
        };
        self.follow(place);
        let is_later = self.is_later(place, time);
        Ok(Found { place, is_later })
    }

    fn place_of(&self, name: &'a [u8]) -> Option<u32>
        ensures { ArePlaces self.now → StandsAt self.now.texts.items name.entry.now result }
    {
        if let Some(place) = self.follower(name) {
            return Some(place);
        }
        self.places.get(name).copied()
    }

    /// The place of the name that came after the last one the time before, where that is this name.
    fn follower(&self, name: &[u8]) -> Option<u32>
        ensures within { IfSome result (λ place. place < length self.now.texts.items) }
        ensures there { IfSome result (λ place.
            slice_index_or self.now.texts.items place [] ≡ name.now) }
    {
        let place = *self.followers.get(self.last as usize)?;
        let text = self.texts.get(place as usize)?;
        if text.bytes() == name {
            Some(place)
        } else {
            None
        }
    }

    /// The name at this place is set after the last one.
    fn follow(&mut self, place: u32)
        ensures { self.new ≡ record self.old { followers = self.new.followers; last = place } }
    {
        if let Some(follower) = self.followers.get_mut(self.last as usize) {
            *follower = place;
        }
        self.last = place;
    }

    /// Whether this time is later than all times so far of the name at this place.
    fn is_later(&mut self, place: u32, time: u32) -> bool
        ensures later { result ≡ (nat_lt place (length self.old.latest.items)
            && nat_lt (slice_index_or self.old.latest.items place 0) time) }
        ensures latest { self.new.latest.items ≡
            (if result then slice_set self.old.latest.items place time else self.old.latest.items) }
        ensures same { self.new ≡ record self.old { latest = self.new.latest } }
    {
        let place = place as usize;
        if place < self.latest.len() && self.latest[place] < time {
            self.latest[place] = time;
            return true;
        }
        false
    }

    #[cold]
    #[inline(never)]
    fn add(&mut self, alloc: Global, name: &'a [u8], time: u32) -> Result<Found, OutOfMemory>
        ensures { (sets : List Numbered) → HasNames self.old sets
            → StandsAt self.old.texts.items name.entry.now None
            → IfOk result (λ found. Finds self.old self.new sets name.entry.now time found) }
    {
        let Ok(place) = u32::try_from(self.texts.len()) else {
            return Err(OutOfMemory);
        };
        self.texts.push(Text::from_bytes(alloc, name)?)?;
        self.latest.push(time)?;
        self.places.insert(name, place)?;
        self.followers.push(place)?;
        self.follow(place);
        Ok(Found {
            place,
            is_later: true,
        })
    }
}
