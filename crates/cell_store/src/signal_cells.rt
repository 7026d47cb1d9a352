//! The map of a signal: its cells by their start.
//!
//! Most cells come in the order of time, so the end of the list is looked at before it is searched. A cell that comes or goes elsewhere moves
//! those behind it.

ghost use Rattle.std.specs.Prelude.{◌≡◌, ◌<◌, ◌≤◌, ◌↔◌, ℕ, IsTrue, IfNone, IfOk, IfSome, None, OnErr, Some, [], if◌then◌else◌, length, nat_eq, option_map};
ghost use Rattle.std.specs.BTreeMap.{get};
ghost use Rattle.std.specs.Ordering.{nat_cmp};
ghost use Rattle.cell_store.specs.inner.SignalCells.{AreInOrder, HaveBegun, IsLastBegun, NoneHasBegun, kept_at};

use crate::index::Place;
use std::alloc::Global;
use std::collections::BTreeMap;
use std::marker::Model;
use texts::OutOfMemory;

// The most cells of a list.
const MOST_FEW: usize = 512;

/// The places of a signal's cells by their starts. A few are a list in the order of time. More are an ordered map, and stay so. The model
/// is the list.
#[derive(Drop)]
pub struct SignalCells {
    few: Vec<(u32, Place)>,
    many: BTreeMap<u32, Place>,
    are_many: bool,
}

impl Model for SignalCells {
    ghost use Rattle.std.specs.Prelude.{List, ℕ};
    ghost use Rattle.cell_store.specs.declared.index.Place.{Place};
    ghost use Rattle.cell_store.specs.inner.SignalCells.{AreInOrder, few_or_many};

    ghost Value = { List (ℕ × Place) };

    ghost view = { λ c. few_or_many c.are_many c.few.items c.many.entries };

    ghost invariant = { λ c. AreInOrder (few_or_many c.are_many c.few.items c.many.entries) };
}

impl SignalCells {
    /// No cell.
    pub fn new(alloc: Global) -> SignalCells
        ensures { result ≡ [] }
    {
        SignalCells {
            few: Vec::new(alloc),
            many: BTreeMap::new(alloc),
            are_many: false,
        }
    }

    /// Whether there is no cell.
    pub fn is_empty(&self) -> bool
        ensures { IsTrue result ↔ (self.now ≡ []) }
    {
        if self.are_many {
            self.many.is_empty()
        } else {
            self.few.is_empty()
        }
    }

    /// The last cell that begins no later than a time: its start and its place.
    pub fn last_at(&self, time: u32) -> Option<(u32, Place)>
        ensures last { IfSome result (λ last. IsLastBegun self.now time last.0 last.1) }
        ensures none { IfNone result (NoneHasBegun self.now time) }
    {
        if self.are_many {
            last_mapped(&self.many, time)
        } else {
            last_listed(&self.few, time)
        }
    }

    /// Gives a start this place. A start that has a place keeps it, and its slot is returned.
    pub fn insert_if_absent(&mut self, start: u32, place: Place) -> Result<Option<u32>, OutOfMemory>
        ensures had { IfOk result (λ had. had ≡ option_map (λ p. p.slot) (kept_at self.old start)) }
        ensures new { IfOk result (λ had. IfNone had ((t : ℕ) → kept_at self.new t ≡ (if nat_eq start t then Some place else kept_at self.old t))) }
        ensures stays { IfOk result (λ had. IfSome had (λ _. (t : ℕ) → kept_at self.new t ≡ kept_at self.old t)) }
        ensures err { OnErr result ((t : ℕ) → kept_at self.new t ≡ kept_at self.old t) }
    {
        if self.are_many {
            return insert_mapped(&mut self.many, start, place);
        }
        if self.few.len() < MOST_FEW {
            return insert_listed(&mut self.few, start, place);
        }
        let alloc = *self.few.allocator();
        self.many = mapped(alloc, &self.few)?;
        self.few = Vec::new(alloc);
        self.are_many = true;
        insert_mapped(&mut self.many, start, place)
    }

    /// Takes the place of a start away.
    pub fn remove(&mut self, start: u32)
        ensures { (t : ℕ) → kept_at self.new t ≡ (if nat_eq start t then None else kept_at self.old t) }
    {
        if self.are_many {
            self.many.remove(&start);
        } else {
            remove_listed(&mut self.few, start);
        }
    }
}

// How many cells of a list begin no later than a time.
fn begun_by(few: &[(u32, Place)], time: u32) -> usize
    requires { AreInOrder few.now }
    ensures { HaveBegun few.now time result }
{
    let len = few.len();
    if len > 0 && few[len - 1].0 <= time {
        return len;
    }
    few.partition_point(|cell| cell.0 <= time)
}

// The place of a start in a list of which so many cells begin no later.
fn kept_before(few: &[(u32, Place)], begun: usize, start: u32) -> Option<Place>
    requires order { AreInOrder few.now }
    requires begun { HaveBegun few.now start begun }
    ensures { result ≡ kept_at few.now start }
{
    if begun == 0 {
        return None;
    }
    let (last, place) = few[begun - 1];
    if last == start { Some(place) } else { None }
}

fn last_listed(few: &[(u32, Place)], time: u32) -> Option<(u32, Place)>
    requires { AreInOrder few.now }
    ensures last { IfSome result (λ last. IsLastBegun few.now time last.0 last.1) }
    ensures none { IfNone result (NoneHasBegun few.now time) }
{
    let begun = begun_by(few, time);
    if begun == 0 {
        return None;
    }
    Some(few[begun - 1])
}

fn last_mapped(many: &BTreeMap<u32, Place>, time: u32) -> Option<(u32, Place)>
    ensures last { IfSome result (λ last. IsLastBegun many.now.entries time last.0 last.1) }
    ensures none { IfNone result (NoneHasBegun many.now.entries time) }
{
    let (start, place) = many.range(..=time).next_back()?;
    Some((*start, *place))
}

fn insert_listed(
    few: &mut Vec<(u32, Place)>,
    start: u32,
    place: Place,
) -> Result<Option<u32>, OutOfMemory>
    requires { AreInOrder few.old.items }
    ensures had { IfOk result (λ had. had ≡ option_map (λ p. p.slot) (kept_at few.old.items start)) }
    ensures new { IfOk result (λ had. IfNone had ((t : ℕ) → kept_at few.new.items t ≡ (if nat_eq start t then Some place else kept_at few.old.items t))) }
    ensures order { AreInOrder few.new.items }
    ensures stays { IfOk result (λ had. IfSome had (λ _. few.new.items ≡ few.old.items)) }
    ensures err { OnErr result (few.new.items ≡ few.old.items) }
{
    let begun = begun_by(few, start);
    if let Some(had) = kept_before(few, begun, start) {
        return Ok(Some(had.slot as u32));
    }
    few.insert(begun, (start, place))?;
    Ok(None)
}

// Gives a start this place, in one search. One that has a place keeps it, by a second search, and its slot is returned.
fn insert_mapped(
    many: &mut BTreeMap<u32, Place>,
    start: u32,
    place: Place,
) -> Result<Option<u32>, OutOfMemory>
    ensures had { IfOk result (λ had. had ≡ option_map (λ p. p.slot) (get nat_cmp many.old start)) }
    ensures new { IfOk result (λ had. IfNone had ((t : ℕ) → get nat_cmp many.new t ≡ (if nat_eq start t then Some place else get nat_cmp many.old t))) }
    ensures order { AreInOrder many.new.entries }
    ensures stays { IfOk result (λ had. IfSome had (λ _. (t : ℕ) → get nat_cmp many.new t ≡ get nat_cmp many.old t)) }
    ensures err { OnErr result ((t : ℕ) → get nat_cmp many.new t ≡ get nat_cmp many.old t) }
{
    let Some(had) = many.insert(start, place)? else {
        return Ok(None);
    };
    many.insert(start, had)?;
    Ok(Some(had.slot as u32))
}

fn remove_listed(few: &mut Vec<(u32, Place)>, start: u32)
    requires { AreInOrder few.old.items }
    ensures gone { (t : ℕ) → kept_at few.new.items t ≡ (if nat_eq start t then None else kept_at few.old.items t) }
    ensures order { AreInOrder few.new.items }
{
    let begun = begun_by(few, start);
    if kept_before(few, begun, start).is_some() {
        few.remove(begun - 1);
        give_room_back(few);
    }
}

// Gives room back where at most two fifths of it are used, so that a list takes no more than 30 bytes a cell.
fn give_room_back(few: &mut Vec<(u32, Place)>)
    ensures { few.new.items ≡ few.old.items }
{
    if few.len() <= few.capacity() / 5 * 2 {
        few.shrink_to(few.len() + few.len() / 2);
    }
}

// The cells of a list, in a map.
fn mapped(alloc: Global, few: &[(u32, Place)]) -> Result<BTreeMap<u32, Place>, OutOfMemory>
    requires { AreInOrder few.now }
    ensures same { IfOk result (λ many. (t : ℕ) → get nat_cmp many t ≡ kept_at few.now t) }
    ensures order { IfOk result (λ many. AreInOrder many.entries) }
{
    let mut many = BTreeMap::new(alloc);
    for cell in few {
        many.insert(cell.0, cell.1)?;
    }
    Ok(many)
}
