//! Where the entry stands that was recorded for a point.

ghost use Rattle.std.specs.Prelude.{◌≡◌, ◌≢◌, ℕ, ◌+◌, ◌<◌, ◌≤◌, true, List, length, set, slice_index, Some, IfSome, IfNone, OnSome, IfOk, OnOk};
ghost use Rattle.plan_core.specs.asked.Wanted.{Marked, is_wanted};
ghost use Rattle.plan_core.specs.asked.inner.Exact.{IsSaidFor};
ghost use Rattle.plan_core.specs.asked.inner.Places.{point_at, points_of, numbers_before, chain_of, IsChain, HasPoint, LacksPoint, IsUnsaid, HasNoted, AreLinked, AreEnough, ArePlaces};

use crate::asked::wanted::Wanted;
use journal_meaning::Entry;
use std::alloc::Global;
use texts::OutOfMemory;
use valid_intervals::{Cell, Point};

/// So many entries of a chain are looked at. Few chains are as long, unless points were chosen for it.
const LONGEST: u32 = 32;

/// An entry that is noted. Its number is its place among these, from 1 on; 0 is none.
#[derive(Clone, Copy)]
pub struct Noted {
    /// Its place in the journal.
    place: u32,
    /// The number of the one before it in its chain.
    before: u32,
}

/// The entries of a journal that say cells of wanted points, in chains, by a hash of the points for which they were recorded. Of the
/// entries for one point only the first stands in its chain.
///
/// What is kept here are places to look at: the entry itself says what it was recorded for. `read` leaves chains that have each wanted
/// point (`ArePlaces`), so `seek` finds what was recorded for such a point where its chain is no longer than `LONGEST`.
#[derive(Drop)]
pub struct Places {
    /// In the order of the journal.
    noted: Vec<Noted>,
    /// The number of the last one of each chain.
    last: Vec<u32>,
}

/// The number in a place, 0 past the end.
fn number_at(numbers: &[u32], place: usize) -> u32
    ensures { result ≡ slice_index numbers.now place }
{
    match numbers.get(place) {
        Some(number) => *number,
        None => 0,
    }
}

/// Writes a number, unless the place is past the end.
fn write_at(numbers: &mut Vec<u32>, place: usize, number: u32)
    ensures { numbers.new.items ≡ set numbers.old.items place number }
{
    if place < numbers.len() {
        numbers[place] = number;
    }
}

/// A power of two that is at least half of the number of entries.
fn chains_for(entries: usize) -> usize
    ensures { AreEnough entries result }
{
    let mut chains = 1usize;
    for _step in 0..31u32 {
        if chains < entries / 2 {
            chains *= 2;
        }
    }
    chains
}

/// The chain of a point, of so many, a power of two. Times after one another have chains after one another.
fn chain_of(p: Point, chains: usize) -> usize
    ensures { 0 < chains → result ≡ chain_of p chains }
{
    let mixed = (p.signal as usize).wrapping_mul(0x9E37_79B1) >> 16;
    mixed.wrapping_add(p.time as usize) & chains.wrapping_sub(1)
}

/// The point for which the entry in this place says a cell.
fn point_in(journal: &[Entry], place: usize) -> Option<Point>
    ensures { result ≡ point_at journal.now place }
{
    if place >= journal.len() {
        return None;
    }
    let (p, _) = journal[place].said()?;
    Some(p)
}

/// The cell that the entry in this place says, where it was recorded for this very point.
fn said_at(journal: &[Entry], place: usize, p: Point) -> Option<Cell>
    ensures said { IfSome result (IsSaidFor journal.now p) }
    ensures some { OnSome result (point_at journal.now place ≡ Some p) }
    ensures none { IfNone result (point_at journal.now place ≢ Some p) }
{
    if place >= journal.len() {
        return None;
    }
    let (point, cell) = journal[place].said()?;
    if point == p { Some(cell) } else { None }
}

/// What an entry of a chain says that was recorded for this very point, among the last of it. The chain ends with the entry of this
/// number.
fn seek(noted: &[Noted], journal: &[Entry], last: u32, p: Point) -> Option<Cell>
    ensures said { IfSome result (IsSaidFor journal.now p) }
    ensures some { (places : List ℕ) → IsChain (numbers_before noted.now) last places
        → OnSome result (HasPoint (points_of journal.now noted.now) p places) }
    ensures none { (places : List ℕ) → IsChain (numbers_before noted.now) last places
        → IfNone result (LacksPoint (points_of journal.now noted.now) p places) }
{
    let mut number = last;
    for _step in 0..LONGEST {
        if number == 0 {
            return None;
        }
        let entry = noted.get((number - 1) as usize)?;
        if let Some(cell) = said_at(journal, entry.place as usize, p) {
            return Some(cell);
        }
        number = entry.before;
    }
    None
}

impl Places {
    /// Reads a journal.
    pub(crate) fn read(
        alloc: Global,
        journal: &[Entry],
        wanted: &Wanted,
    ) -> Result<Places, OutOfMemory>
        ensures { IfOk result (λ places. ArePlaces journal.now wanted.now places.last.items
            places.noted.items) }
    {
        let mut places = Places {
            noted: Vec::new(alloc),
            last: Vec::new(alloc),
        };
        for place in 0..journal.len() {
            places.note(journal, place, wanted)?;
        }
        if places.noted.is_empty() {
            return Ok(places);
        }
        let count = places.noted.len();
        places.last = vec![in alloc; 0; chains_for(count)]?;
        for index in 0..count {
            places.link(journal, index);
        }
        Ok(places)
    }

    /// Notes the entry in this place, if it says the cell of a wanted point.
    fn note(&mut self, journal: &[Entry], place: usize, wanted: &Wanted) -> Result<(), OutOfMemory>
        requires few { length self.old.noted.items ≤ place }
        requires noted { HasNoted journal.now wanted.now place
            (points_of journal.now self.old.noted.items) }
        ensures last { self.new.last ≡ self.old.last }
        ensures few { OnOk result (length self.new.noted.items ≤ place + 1) }
        ensures noted { OnOk result (HasNoted journal.now wanted.now (place + 1)
            (points_of journal.now self.new.noted.items)) }
    {
        let Some(p) = point_in(journal, place) else {
            return Ok(());
        };
        if !wanted.has(p) {
            return Ok(());
        }
        let Ok(place) = u32::try_from(place) else {
            return Ok(());
        };
        self.noted.push(Noted { place, before: 0 })?;
        Ok(())
    }

    /// Puts the noted entry with this index into the chain of its point, unless the chain has one for the same point.
    fn link(&mut self, journal: &[Entry], index: usize)
        requires index { index < length self.old.noted.items }
        requires some { 0 < length self.old.last.items }
        requires linked { AreLinked (points_of journal.now self.old.noted.items) index
            self.old.last.items (numbers_before self.old.noted.items) }
        ensures points { points_of journal.now self.new.noted.items ≡ points_of journal.now
            self.old.noted.items }
        ensures count { length self.new.noted.items ≡ length self.old.noted.items }
        ensures chains { length self.new.last.items ≡ length self.old.last.items }
        ensures linked { AreLinked (points_of journal.now self.new.noted.items) (index + 1)
            self.new.last.items (numbers_before self.new.noted.items) }
    {
        let place = self.noted[index].place;
        let Some(p) = point_in(journal, place as usize) else {
            return;
        };
        let Ok(number) = u32::try_from(index.saturating_add(1)) else {
            return;
        };
        let chain = chain_of(p, self.last.len());
        let before = number_at(&self.last, chain);
        if seek(&self.noted, journal, before, p).is_some() {
            return;
        }
        self.noted[index] = Noted { place, before };
        write_at(&mut self.last, chain, number);
    }

    /// What an entry of this journal says that was recorded for this very point. If the point is wanted, and its chain has at most 32
    /// entries, this is none only if no entry was recorded for the point.
    pub(crate) fn seek(&self, journal: &[Entry], p: Point) -> Option<Cell>
        ensures said { IfSome result (IsSaidFor journal.now p) }
        ensures none { (wanted : Marked)
            → (are : ArePlaces journal.now wanted self.now.last.items self.now.noted.items)
            → is_wanted wanted p ≡ true
            → length (are.linked (chain_of p (length self.now.last.items))).places ≤ 32
            → IfNone result (IsUnsaid journal.now p) }
    {
        let last = number_at(&self.last, chain_of(p, self.last.len()));
        seek(&self.noted, journal, last, p)
    }
}
