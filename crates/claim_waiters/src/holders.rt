//! The query that has claimed each point.

ghost use Rattle.std.specs.Prelude.{◌≡◌, ◌↔◌, ◌<◌, ◌≤◌, IsTrue, true, IfOk, IsSome, None, OnErr, OnOk, Some, [], length, insert, remove, slice_get, suc};
ghost use Rattle.std.specs.Bool.{OnFalse, OnTrue};
ghost use Rattle.std.specs.BTreeMap.{insert_entry, is_at};
ghost use Rattle.std.specs.List.Sorted.{IsStrictlySortedBy};
ghost use Rattle.std.specs.Map.{keys_of, remove_entry};
ghost use Rattle.std.specs.Ordering.{is_gt};
ghost use Rattle.valid_intervals.specs.Cells.{point_cmp};
ghost use Rattle.claim_waiters.specs.inner.View.{at, place_in};

use std::alloc::Global;
use std::collections::BTreeMap;
use std::marker::Model;
use texts::OutOfMemory;
use valid_intervals::Point;

/// The most claims of a list.
const MOST_LISTED: usize = 32;

/// The queries that have claimed points, by the points. A few are a list in their order, which takes no memory again. More are an ordered
/// map, until all of these have ended.
#[derive(Drop)]
pub struct Holders {
    few: Vec<(Point, u32)>,
    many: BTreeMap<Point, u32>,
    are_many: bool,
}

impl Model for Holders {
    ghost use Rattle.std.specs.Prelude.{List, ℕ};
    ghost use Rattle.std.specs.List.Sorted.{IsStrictlySortedBy};
    ghost use Rattle.std.specs.Map.{keys_of};
    ghost use Rattle.valid_intervals.specs.declared.Point.{Point};
    ghost use Rattle.valid_intervals.specs.Cells.{point_cmp};
    ghost use Rattle.claim_waiters.specs.inner.View.{held_in};

    ghost Value = { List (Point × ℕ) };

    ghost view = { λ h. held_in h.are_many h.few.items h.many.entries };

    ghost invariant = { λ h. IsStrictlySortedBy point_cmp (keys_of (held_in h.are_many h.few.items h.many.entries)) };
}

impl Holders {
    /// No claim.
    pub fn new(alloc: Global) -> Holders
        ensures { result ≡ [] }
    {
        Holders {
            few: Vec::new(alloc),
            many: BTreeMap::new(alloc),
            are_many: false,
        }
    }

    /// The number of claims.
    pub fn len(&self) -> usize
        ensures { result ≡ length self.now }
    {
        if self.are_many {
            self.many.len()
        } else {
            self.few.len()
        }
    }

    /// The query that has claimed the point.
    pub fn get(&self, p: Point) -> Option<u32>
        ensures { result ≡ at self.now p }
    {
        if self.are_many {
            query_mapped(&self.many, p)
        } else {
            query_listed(&self.few, p)
        }
    }

    /// The first claimed point, with its query.
    pub fn first(&self) -> Option<(Point, u32)>
        ensures { result ≡ slice_get self.now 0 }
    {
        if self.are_many {
            first_mapped(&self.many)
        } else {
            first_listed(&self.few)
        }
    }

    /// Claims a point for a query, if the point is free, and says whether it was.
    pub fn claim(&mut self, alloc: Global, q: u32, p: Point) -> Result<bool, OutOfMemory>
        ensures free { IfOk result (λ free. IsTrue free ↔ (at self.old p ≡ None)) }
        ensures claimed { IfOk result (λ free. OnTrue free
            (self.new ≡ insert_entry point_cmp self.old p q)) }
        ensures order { IsStrictlySortedBy point_cmp (keys_of self.new) }
        ensures taken { IfOk result (λ free. OnFalse free (self.new ≡ self.old)) }
        ensures err_free { OnErr result (at self.old p ≡ None) }
        ensures err { OnErr result (self.new ≡ self.old) }
    {
        if self.are_many {
            return claim_mapped(&mut self.many, q, p);
        }
        if self.few.len() < MOST_LISTED {
            return claim_listed(&mut self.few, q, p);
        }
        if query_listed(&self.few, p).is_some() {
            return Ok(false);
        }
        self.many = mapped(alloc, &self.few)?;
        self.are_many = true;
        claim_mapped(&mut self.many, q, p)
    }

    /// Ends the claim of a point.
    pub fn remove(&mut self, p: Point)
        requires { IsSome (at self.old p) }
        ensures rest { self.new ≡ remove_entry (is_at (point_cmp p)) self.old }
        ensures order { IsStrictlySortedBy point_cmp (keys_of self.new) }
    {
        if !self.are_many {
            remove_listed(&mut self.few, p);
            return;
        }
        self.many.remove(&p);
        if self.many.is_empty() {
            self.few.clear();
            self.are_many = false;
        }
    }
}

/// Whether a comes after b.
fn is_after(a: Point, b: Point) -> bool
    ensures { result ≡ is_gt (point_cmp a b) }
{
    a.signal > b.signal || (a.signal == b.signal && a.time > b.time)
}

/// How many claims of a list stand before the point.
fn place_in(few: &[(Point, u32)], p: Point) -> usize
    ensures place { result ≡ place_in few.now p }
    ensures within { result ≤ length few.now }
{
    let mut place = 0;
    while place < few.len() && is_after(p, few[place].0) {
        place += 1;
    }
    place
}

fn query_listed(few: &[(Point, u32)], p: Point) -> Option<u32>
    requires { IsStrictlySortedBy point_cmp (keys_of few.now) }
    ensures { result ≡ at few.now p }
{
    let (point, q) = *few.get(place_in(few, p))?;
    if point == p { Some(q) } else { None }
}

fn query_mapped(many: &BTreeMap<Point, u32>, p: Point) -> Option<u32>
    ensures { result ≡ at many.now.entries p }
{
    let q = many.get(&p)?;
    Some(*q)
}

fn first_listed(few: &[(Point, u32)]) -> Option<(Point, u32)>
    ensures { result ≡ slice_get few.now 0 }
{
    let first = few.first()?;
    Some(*first)
}

fn first_mapped(many: &BTreeMap<Point, u32>) -> Option<(Point, u32)>
    ensures { result ≡ slice_get many.now.entries 0 }
{
    let (p, q) = many.first_key_value()?;
    Some((*p, *q))
}

fn claim_listed(few: &mut Vec<(Point, u32)>, q: u32, p: Point) -> Result<bool, OutOfMemory>
    requires { IsStrictlySortedBy point_cmp (keys_of few.old.items) }
    ensures free { IfOk result (λ free. IsTrue free ↔ (at few.old.items p ≡ None)) }
    ensures claimed { IfOk result (λ free. OnTrue free
        (few.new.items ≡ insert_entry point_cmp few.old.items p q)) }
    ensures order { IsStrictlySortedBy point_cmp (keys_of few.new.items) }
    ensures taken { IfOk result (λ free. OnFalse free (few.new.items ≡ few.old.items)) }
    ensures err_free { OnErr result (at few.old.items p ≡ None) }
    ensures err { OnErr result (few.new.items ≡ few.old.items) }
{
    if query_listed(few, p).is_some() {
        return Ok(false);
    }
    let place = place_in(few, p);
    match few.insert(place, (p, q)) {
        Ok(()) => Ok(true),
        Err(_) => Err(OutOfMemory),
    }
}

fn claim_mapped(many: &mut BTreeMap<Point, u32>, q: u32, p: Point) -> Result<bool, OutOfMemory>
    requires { IsStrictlySortedBy point_cmp (keys_of many.old.entries) }
    ensures free { IfOk result (λ free. IsTrue free ↔ (at many.old.entries p ≡ None)) }
    ensures claimed { IfOk result (λ free. OnTrue free
        (many.new.entries ≡ insert_entry point_cmp many.old.entries p q)) }
    ensures order { IsStrictlySortedBy point_cmp (keys_of many.new.entries) }
    ensures taken { IfOk result (λ free. OnFalse free (many.new.entries ≡ many.old.entries)) }
    ensures err_free { OnErr result (at many.old.entries p ≡ None) }
    ensures err { OnErr result (many.new.entries ≡ many.old.entries) }
{
    match many.insert(p, q) {
        Ok(None) => Ok(true),
        Ok(Some(holder)) => {
            // The place is there, so this takes no memory.
            let _ = many.insert(p, holder);
            Ok(false)
        }
        Err(_) => Err(OutOfMemory),
    }
}

/// The claims of a list, in a map.
fn mapped(alloc: Global, few: &[(Point, u32)]) -> Result<BTreeMap<Point, u32>, OutOfMemory>
    requires { IsStrictlySortedBy point_cmp (keys_of few.now) }
    ensures { IfOk result (λ many. many.entries ≡ few.now) }
{
    let mut many = BTreeMap::new(alloc);
    for claim in few {
        let (p, q) = *claim;
        many.insert(p, q)?;
    }
    Ok(many)
}

fn remove_listed(few: &mut Vec<(Point, u32)>, p: Point)
    requires order { IsStrictlySortedBy point_cmp (keys_of few.old.items) }
    requires claimed { IsSome (at few.old.items p) }
    ensures rest { few.new.items ≡ remove_entry (is_at (point_cmp p)) few.old.items }
    ensures order { IsStrictlySortedBy point_cmp (keys_of few.new.items) }
{
    let place = place_in(few, p);
    few.remove(place);
}
