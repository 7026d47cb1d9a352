//! What the workers leave.

ghost use Rattle.std.specs.Prelude.{◌≡◌, ◌<◌, Some, None, length, slice_get, slice_index, MatchOption};

use demand_points::{BatchName, Strand};
use memo_shards::Shard;
use plan_core::asked::Said;
use std::marker::Model;

/// The shards, in the order of their numbers.
#[derive(Drop)]
pub struct ShardList<B: BatchName> {
    shards: Vec<Shard<B>>,
}

impl<B: BatchName> Model for ShardList<B> {
    ghost use Rattle.std.specs.Prelude.{List};
    ghost use Rattle.memo_shards.specs.KeptShards.{KeptShard};

    ghost Value = { List KeptShard };

    ghost view = { λ s. s.shards.items };
}

impl<B: BatchName> ShardList<B> {
    /// These shards.
    pub fn new(shards: Vec<Shard<B>>) -> ShardList<B>
        ensures { result ≡ shards.items }
    {
        ShardList { shards }
    }

    /// The shards themselves.
    pub fn into_vec(self) -> Vec<Shard<B>>
        ensures { result.items ≡ self }
    {
        self.shards
    }
}

/// One place for each strand, in the order of their numbers. A place that no worker has filled is empty.
#[derive(Drop)]
pub struct EndedList<B: BatchName> {
    places: Vec<Option<Strand<B>>>,
}

impl<B: BatchName> Model for EndedList<B> {
    ghost use Rattle.std.specs.Prelude.{List, Option};
    ghost use Rattle.demand_points.specs.Demands.{Demand};

    ghost Value = { List (Option Demand) };

    ghost view = { λ s. s.places.items };
}

impl<B: BatchName> EndedList<B> {
    /// These places.
    pub fn new(places: Vec<Option<Strand<B>>>) -> EndedList<B>
        ensures { result ≡ places.items }
    {
        EndedList { places }
    }

    /// The strand as it ended; none exactly where its place is empty.
    pub fn strand(&self, number: u32) -> Option<&Strand<B>>
        requires { number < length self.now }
        ensures { MatchOption result (slice_get self.now number ≡ Some None)
            (λ s. slice_get self.now number ≡ Some (Some s.now)) }
    {
        self.places[number as usize].as_ref()
    }
}

/// How many claims and fills were booked for each strand, in the order of their numbers.
#[derive(Drop)]
pub struct CountList {
    counts: Vec<u64>,
}

impl Model for CountList {
    ghost use Rattle.std.specs.Prelude.{ℕ, List};

    ghost Value = { List ℕ };

    ghost view = { λ s. s.counts.items };
}

impl CountList {
    /// These counts.
    pub fn new(counts: Vec<u64>) -> CountList
        ensures { result ≡ counts.items }
    {
        CountList { counts }
    }

    /// How many claims and fills were booked for the strand.
    pub fn amount(&self, number: u32) -> u64
        requires { number < length self.now }
        ensures { result ≡ slice_index self.now number }
    {
        self.counts[number as usize]
    }
}

/// What the workers leave.
#[derive(Drop)]
pub struct Ran<B: BatchName> {
    pub shards: ShardList<B>,
    pub strands: EndedList<B>,
    pub counts: CountList,
    /// True only where each point that was evaluated is known to have heard its children.
    pub heard: bool,
    /// What was noted of the entries, where several workers left them.
    pub said: Option<Said>,
}
