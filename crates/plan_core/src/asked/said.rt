//! What is noted of the entries of a batch before it is asked alone.

ghost use Rattle.std.specs.Prelude.{◌≡◌, ◌++◌, [], length, vec_len, IfOk, OnOk};
ghost use Rattle.plan_core.specs.asked.FillCounts.{HaveCounted};
ghost use Rattle.plan_core.specs.asked.Memos.{entries_of};

use crate::asked::fill_counts::{FillCounts, count_fills};
use crate::asked::places::Places;
use crate::asked::reading::places_in;
use crate::asked::wanted::Wanted;
use demand_points::BatchName;
use memo_shards::Shard;
use std::alloc::Global;
use texts::OutOfMemory;

/// What is noted of the entries of some shards.
#[derive(Drop)]
pub struct Said {
    /// Where they stand, shard by shard, by the points for which they were recorded.
    pub places: Vec<Places>,
    /// How many points each query filled, in parts: `filled_by` adds these up.
    pub fills: Vec<FillCounts>,
}

impl Said {
    /// Of no shard.
    pub fn new(alloc: Global) -> Said
        ensures places { result.places.items ≡ [] }
        ensures fills { result.fills.items ≡ [] }
    {
        Said {
            places: Vec::new(alloc),
            fills: Vec::new(alloc),
        }
    }

    /// Reads the entries of shards, and counts the fills in one part.
    pub fn read<B: BatchName>(alloc: Global, shards: &[Shard<B>]) -> Result<Said, OutOfMemory>
        ensures places { IfOk result (λ said. vec_len said.places ≡ length shards.now) }
        ensures fills { IfOk result (λ said. HaveCounted (entries_of shards.now) said.fills.items) }
    {
        let places = places_in(alloc, shards, &Wanted::all())?;
        let fills = count_fills(alloc, shards)?;
        Ok(Said { places, fills })
    }

    /// Adds what is noted of the shards that follow.
    pub fn append(&mut self, next: Said) -> Result<(), OutOfMemory>
        ensures places { OnOk result (self.new.places.items
            ≡ self.old.places.items ++ next.places.items) }
        ensures fills { OnOk result (self.new.fills.items
            ≡ self.old.fills.items ++ next.fills.items) }
    {
        let Said {
            mut places,
            mut fills,
        } = next;
        self.places.append(&mut places)?;
        self.fills.append(&mut fills)?;
        Ok(())
    }
}
