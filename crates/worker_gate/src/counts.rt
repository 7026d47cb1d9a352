//! How many claims and fills the strands have made, and the shards have recorded.

ghost use Rattle.std.specs.Prelude.{◌≡◌, ◌^◌, ◌≤◌, true, Some, None, length, map, slice_get, sum, vec_len, IfOk, IfSome, MatchOption};
ghost use Rattle.journal_meaning.specs.Counts.{is_booked};
ghost use Rattle.plan_core.specs.InTurn.{booked_by};
ghost use Rattle.worker_gate.specs.Ends.{AreCounted, booked_at};

use crate::board::booked_of;
use demand_points::{BatchName, Strand};
use journal_meaning::Entry;
use memo_shards::Shard;
use std::alloc::Global;
use std::sync::Wait;
use texts::OutOfMemory;

// Whether the entry begins a claim or fills a point.
fn is_booked(entry: &Entry) -> bool
    ensures { result ≡ is_booked entry.now }
{
    matches!(entry, Entry::Claimed { .. } | Entry::Filled { .. })
}

/// How many claims and fills the shard has recorded.
pub fn booked_by<B: BatchName>(shard: &Shard<B>) -> usize
    ensures { result ≡ booked_by shard.now }
{
    shard.journal().iter().filter(|e| is_booked(e)).count()
}

// How often the strand at the place has claimed and filled a point.
fn booked_there<B: BatchName>(place: &Option<Strand<B>>) -> u64
    ensures { result ≡ booked_at place.now }
{
    match place {
        Some(strand) => booked_of(strand),
        None => 0,
    }
}

// How often the strand at each place has claimed and filled a point.
fn counts_of<B: BatchName>(
    alloc: Global,
    places: &[Option<Strand<B>>],
) -> Result<Vec<u64>, OutOfMemory>
    ensures { IfOk result (λ v. v.items ≡ map booked_at places.now) }
{
    Ok(places.iter().map(|p| booked_there(p)).collect(alloc)?)
}

// The sum of the counts, where it is within a u64.
fn sum_of(counts: &[u64]) -> Option<u64>
    ensures { MatchOption result (2 ^ 64 ≤ sum counts.now) (λ n. n ≡ sum counts.now) }
{
    let mut all = 0u64;
    for &count in counts {
        all = all.checked_add(count)?;
    }
    Some(all)
}

// The first place without a strand.
fn first_empty<B: BatchName>(places: &[Option<Strand<B>>]) -> Option<usize>
    ensures { IfSome result (λ n. slice_get places.now n ≡ Some None) }
{
    for n in 0..places.len() {
        if places[n].is_none() {
            return Some(n);
        }
    }
    None
}

// Puts what the counts lack of the total at the first empty place. False where there is none, or they have more.
fn add_rest<B: BatchName>(counts: &mut Vec<u64>, places: &[Option<Strand<B>>], total: u64) -> bool
    requires { counts.old.items ≡ map booked_at places.now }
    ensures as_many { vec_len counts.new ≡ vec_len counts.old }
    ensures counted { AreCounted places.now counts.new.items }
    ensures total { result ≡ true → sum counts.new.items ≡ total }
{
    let Some(counted) = sum_of(counts.as_slice()) else {
        return false;
    };
    let Some(rest) = total.checked_sub(counted) else {
        return false;
    };
    if rest == 0 {
        return true;
    }
    let Some(n) = first_empty(places) else {
        return false;
    };
    if n >= counts.len() {
        return false;
    }
    counts[n] = rest;
    true
}

/// The counts of the strands at their places. What the others have claimed and filled, of so many claims and fills in all, stands at the
/// first empty place. It waits for ever where the strands at their places have more, or less and none is missing.
pub fn match_counts<B: BatchName, R: Wait>(
    rt: &R,
    alloc: Global,
    places: &[Option<Strand<B>>],
    total: u64,
) -> Result<Vec<u64>, OutOfMemory>
    ensures as_many { IfOk result (λ v. vec_len v ≡ length places.now) }
    ensures counted { IfOk result (λ v. AreCounted places.now v.items) }
    ensures total { IfOk result (λ v. sum v.items ≡ total) }
{
    let mut counts = counts_of(alloc, places)?;
    if add_rest(&mut counts, places, total) {
        return Ok(counts);
    }
    for _ in rt.forever() {}
    unreachable!()
}
