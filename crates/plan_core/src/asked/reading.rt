//! The shards as asking begins: their claims are freed, and their entries are read.

ghost use Rattle.std.specs.Prelude.{◌≡◌, ◌<◌, ℕ, length, slice_index_or, IfOk, IfSome};
ghost use Rattle.std.specs.BTreeMap.{get};
ghost use Rattle.std.specs.List.{AllByRecursion};
ghost use Rattle.circuit_meaning.specs.Circuit.{Circuit, IsCircuit};
ghost use Rattle.journal_meaning.specs.Listed.{IsRightEntry};
ghost use Rattle.journal_meaning.specs.Index.{cells_said, IsCellIndex};
ghost use Rattle.valid_intervals.specs.Cells.{point_cmp};
ghost use Rattle.memo_shards.specs.KeptShards.{KeptShard};
ghost use Rattle.memo_shards.specs.Ends.{FreesAll};
ghost use Rattle.plan_core.specs.asked.Memos.{entries_of};
ghost use Rattle.plan_core.specs.declared.asked.places.Places.{Places as PlacesRecord};
ghost use Rattle.plan_core.specs.asked.inner.Exact.{IsSaidFor};
ghost use Rattle.plan_core.specs.asked.inner.Places.{ArePlaces};

use crate::asked::cells::SaidCells;
use crate::asked::places::Places;
use crate::asked::wanted::Wanted;
use demand_points::BatchName;
use memo_shards::{Shard, shard_number};
use std::alloc::Global;
use texts::OutOfMemory;
use valid_intervals::{Cell, Point};

/// Frees the claims of each shard.
pub fn free_all<B: BatchName>(shards: &mut Vec<Shard<B>>)
    ensures count { length shards.new.items ≡ length shards.old.items }
    ensures freed { (n : ℕ) (d : KeptShard) → n < length shards.old.items
        → FreesAll (slice_index_or shards.old.items n d) (slice_index_or shards.new.items n d) }
{
    for k in 0..shards.len() {
        shards[k].free_claims();
    }
}

/// The cells that the entries of shards say.
pub fn read_all<B: BatchName>(alloc: Global, shards: &[Shard<B>]) -> Result<SaidCells, OutOfMemory>
    ensures { (c : Circuit) → IsCircuit c → AllByRecursion (IsRightEntry c) (entries_of shards.now)
        → IfOk result (λ cells. IsCellIndex c (cells_said (entries_of shards.now))
        (get point_cmp cells.cells)) }
{
    let mut cells = SaidCells::new(alloc);
    for shard in shards {
        cells.note_all(shard.journal())?;
    }
    Ok(cells)
}

/// The index of what the entries of shards say, which is made where there is none.
pub fn index_of<B: BatchName>(
    alloc: Global,
    index: Option<SaidCells>,
    shards: &[Shard<B>],
) -> Result<SaidCells, OutOfMemory>
    ensures { (c : Circuit) → IsCircuit c → AllByRecursion (IsRightEntry c) (entries_of shards.now)
        → IfSome index (λ cells. IsCellIndex c (cells_said (entries_of shards.now))
        (get point_cmp cells.cells))
        → IfOk result (λ cells. IsCellIndex c (cells_said (entries_of shards.now))
        (get point_cmp cells.cells)) }
{
    match index {
        Some(cells) => Ok(cells),
        None => read_all(alloc, shards),
    }
}

/// Where the entries stand in each journal that were recorded for wanted points.
pub fn places_in<B: BatchName>(
    alloc: Global,
    shards: &[Shard<B>],
    wanted: &Wanted,
) -> Result<Vec<Places>, OutOfMemory>
    ensures count { IfOk result (λ places. length places.items ≡ length shards.now) }
    ensures each { IfOk result (λ places. (n : ℕ) (d : KeptShard) (e : PlacesRecord)
        → n < length shards.now
        → ArePlaces (slice_index_or shards.now n d).shard.journal wanted.now
        (slice_index_or places.items n e).last.items
        (slice_index_or places.items n e).noted.items) }
{
    let mut places = Vec::new(alloc);
    for shard in shards {
        let read = Places::read(alloc, shard.journal(), wanted)?;
        places.push(read)?;
    }
    Ok(places)
}

/// What an entry says that was recorded for this very point.
pub fn said_for<B: BatchName>(shards: &[Shard<B>], places: &[Places], p: Point) -> Option<Cell>
    ensures { IfSome result (IsSaidFor (entries_of shards.now) p) }
{
    if shards.is_empty() {
        return None;
    }
    let home = shard_number(p.signal, shards.len());
    if home >= places.len() {
        return None;
    }
    if home >= shards.len() {
        return None;
    }
    places[home].seek(shards[home].journal(), p)
}
