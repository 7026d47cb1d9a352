//! The maps of an index: one for each signal that outgrew its list, and one in common for the signals that can have none.

ghost use Rattle.std.specs.Prelude.{◌≡◌, ◌<◌, true, false, ℕ, List, IfOk, IfSome, IfNone, OnErr, None, Some, length, option_map, slice_get};
ghost use Rattle.std.specs.BTreeMap.{get, IsUnchanged, Updates};
ghost use Rattle.cell_store.specs.declared.Key.{Key};
ghost use Rattle.cell_store.specs.inner.Heads.{has_map, is_own};
ghost use Rattle.cell_store.specs.inner.Index.{key_cmp};
ghost use Rattle.cell_store.specs.inner.Lists.{IsLastAt, IsNoneAt};
ghost use Rattle.cell_store.specs.inner.SignalCells.{kept_at};
ghost use Rattle.cell_store.specs.inner.Maps.{AreSteadyMaps, IsAdded, IsReleased, IsThere, SetsMapped, cells_at, common_at, mapped_by, owner_at, owner_in};

use crate::Key;
use crate::heads::{Head, More};
use crate::index::Place;
use crate::signal_cells::SignalCells;
use std::alloc::Global;
use std::collections::BTreeMap;
use texts::OutOfMemory;
use valid_intervals::Point;

// Own maps have numbers of 16 bits.
const MOST_MAPS: usize = 65_536;

// The map of a signal: the place of each of its cells by their start. A map that no signal has links to the one that was given up before.
#[derive(Drop)]
struct OwnMap {
    owner: Option<u32>,
    next: u16,
    cells: SignalCells,
}

/// The maps. There are at most so many that all of them could be of signals with full lists.
#[derive(Drop)]
pub struct Maps {
    own: Vec<OwnMap>,
    // the map that was given up last, where no signal has it
    free: u16,
    most: usize,
    common: BTreeMap<Key, Place>,
}

impl Maps {
    /// No map has a cell. At most `most` signals can have their own.
    pub fn new(alloc: Global, most: usize) -> Maps
        ensures owners { (n : ℕ) → owner_at result n ≡ None }
        ensures common { (k : Key) → common_at result k ≡ None }
    {
        Maps {
            own: Vec::new(alloc),
            free: 0,
            most,
            common: BTreeMap::new(alloc),
        }
    }

    /// The last cell of the point's signal in the map of its head that begins no later than the point: its start and its place.
    pub fn last_at(&self, head: Head, p: Point) -> Option<(u32, Place)>
        requires { IsThere head self.now }
        ensures last { IfSome result (λ last. IsLastAt (mapped_by head self.now) p last.0 last.1) }
        ensures none { IfNone result (has_map head.more ≡ true → IsNoneAt (mapped_by head self.now) p) }
    {
        match head.more {
            More::Nothing => None,
            More::Own => last_own(&self.own[head.first as usize].cells, p),
            More::Common => last_common(&self.common, p),
        }
    }

    /// Gives a key this place in the map of a head. A key that has a place keeps it, and its slot is returned.
    pub fn insert(&mut self, head: Head, key: Key, place: Place) -> Result<Option<u32>, OutOfMemory>
        requires { IsThere head self.old }
        ensures had { IfOk result (λ had. had ≡ option_map (λ p. p.slot) (mapped_by head self.old key)) }
        ensures new { IfOk result (λ had. IfNone had (SetsMapped head self.old self.new key (Some place))) }
        ensures stays { IfOk result (λ had. IfSome had (λ _. AreSteadyMaps self.old self.new)) }
        ensures err { OnErr result (AreSteadyMaps self.old self.new) }
    {
        if head.is_own() {
            self.own[head.first as usize]
                .cells
                .insert_if_absent(key.start, place)
        } else {
            insert_common(&mut self.common, key, place)
        }
    }

    /// Takes the place of a key away from the map of a head.
    pub fn remove(&mut self, head: Head, key: &Key)
        requires { IsThere head self.old }
        ensures { SetsMapped head self.old self.new key.now None }
    {
        if head.is_own() {
            self.own[head.first as usize].cells.remove(key.start);
        } else {
            self.common.remove(key);
        }
    }

    /// Gives a signal a map of its own with these cells, and returns its number, where one can be had.
    pub fn add(&mut self, signal: u32, cells: SignalCells) -> Result<Option<u16>, OutOfMemory>
        ensures added { IfOk result (λ added. IfSome added (IsAdded self.old self.new signal cells)) }
        ensures stays { IfOk result (λ added. IfNone added (AreSteadyMaps self.old self.new)) }
        ensures err { OnErr result (AreSteadyMaps self.old self.new) }
    {
        let map = OwnMap {
            owner: Some(signal),
            next: 0,
            cells,
        };
        if let Some(next) = next_free(&self.own, self.free) {
            let n = self.free;
            self.own[n as usize] = map;
            self.free = next;
            return Ok(Some(n));
        }
        let n = self.own.len();
        if n >= self.most || n >= MOST_MAPS {
            return Ok(None);
        }
        self.own.push(map)?;
        Ok(Some(n as u16))
    }

    /// Takes the own map of a head away from its signal, if the map is empty. Returns whether it did.
    pub fn release_empty(&mut self, head: Head) -> bool
        requires { IsThere head self.old }
        ensures released { result ≡ true → IsReleased self.old self.new head.first }
        ensures own { result ≡ true → is_own head.more ≡ true }
        ensures empty { result ≡ true → (t : ℕ) → cells_at self.old head.first t ≡ None }
        ensures stays { result ≡ false → AreSteadyMaps self.old self.new }
    {
        if head.is_own() && self.own[head.first as usize].cells.is_empty() {
            let map = &mut self.own[head.first as usize];
            map.owner = None;
            map.next = self.free;
            self.free = head.first;
            return true;
        }
        false
    }
}

fn last_own(cells: &SignalCells, p: Point) -> Option<(u32, Place)>
    ensures last { IfSome result (λ last. IsLastAt (λ k. kept_at cells.now k.start) p last.0 last.1) }
    ensures none { IfNone result (IsNoneAt (λ k. kept_at cells.now k.start) p) }
{
    cells.last_at(p.time)
}

fn last_common(common: &BTreeMap<Key, Place>, p: Point) -> Option<(u32, Place)>
    ensures last { IfSome result (λ last. IsLastAt (get key_cmp common.now) p last.0 last.1) }
    ensures none { IfNone result (IsNoneAt (get key_cmp common.now) p) }
{
    let at = Key {
        signal: p.signal,
        start: p.time,
    };
    let (key, place) = common.range(..=at).next_back()?;
    if key.signal == p.signal {
        Some((key.start, *place))
    } else {
        None
    }
}

fn insert_common(
    common: &mut BTreeMap<Key, Place>,
    key: Key,
    place: Place,
) -> Result<Option<u32>, OutOfMemory>
    ensures had { IfOk result (λ had. had ≡ option_map (λ p. p.slot) (get key_cmp common.old key)) }
    ensures new { IfOk result (λ had. IfNone had (Updates key_cmp common.old common.new key (Some place))) }
    ensures stays { IfOk result (λ had. IfSome had (λ _. IsUnchanged common.old common.new)) }
    ensures err { OnErr result (IsUnchanged common.old common.new) }
{
    if let Some(had) = common.get(&key) {
        return Ok(Some(had.slot as u32));
    }
    common.insert(key, place)?;
    Ok(None)
}

// The link of the map of this number, if no signal has it.
fn next_free(own: &[OwnMap], free: u16) -> Option<u16>
    ensures within { IfSome result (λ _. free < length own.now) }
    ensures free { IfSome result (λ _. owner_in (slice_get own.now free) ≡ None) }
{
    let map = own.get(free as usize)?;
    if map.owner.is_none() {
        Some(map.next)
    } else {
        None
    }
}
