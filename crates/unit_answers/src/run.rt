//! The queries of a batch, run under the batch's name.

ghost use Rattle.std.specs.Prelude.{◌≡◌, ◌≤◌, [], length, map, flat_map, All, IfOk};
ghost use Rattle.cell_store.specs.Recency.{Contents};
ghost use Rattle.journal_meaning.specs.Pieces.{pieces};
ghost use Rattle.unit_answers.specs.Stores.{setup_of, cells_of, AreStores};
ghost use Rattle.unit_answers.specs.Crewed.{HasCrewed};
ghost use Rattle.unit_answers.specs.inner.Runs.{asks, IsNamed, AreOpened, AreBegun, AreEnded, HasRun};

use crate::sizes::Sizes;
use cell_store::CellStore;
use demand_points::{BatchDesign, BatchName};
use design::Design;
use journal_meaning::Query;
use journal_text::EntryList;
use memo_shards::Shard;
use query_answers::windows::{Settled, settle, strands_of};
use reply_lines::Outcome;
use std::alloc::Global;
use texts::OutOfMemory;
use window_walks::Runs;
use worker_gate::Crew;

/// The result of the queries of a batch: the outcome of each, the journal of each shard, and the stores after it.
#[derive(Drop)]
pub struct BatchRun {
    pub outcomes: Vec<Outcome<Runs>>,
    pub lists: Vec<EntryList>,
    pub stores: Vec<CellStore>,
}

/// Opens a shard over each store.
pub fn begin_all<B: BatchName>(
    alloc: Global,
    stores: Vec<CellStore>,
) -> Result<Vec<Shard<B>>, OutOfMemory>
    requires { AreOpened B.batch B.opening stores.items }
    ensures { IfOk result (λ shards. AreBegun stores.items shards.items) }
{
    let mut shards = Vec::new(alloc);
    for store in stores {
        let number = shards.len() as u32;
        shards.push(Shard::begin(alloc, number, store))?;
    }
    Ok(shards)
}

/// Closes the shards: the journal and the store of each.
pub fn end_all<B: BatchName>(
    alloc: Global,
    shards: Vec<Shard<B>>,
) -> Result<(Vec<EntryList>, Vec<CellStore>), OutOfMemory>
    requires { All (λ m. m.shard.state.claims ≡ []) shards.items }
    ensures { IfOk result (λ ended.
        AreEnded B.batch.capacity shards.items ended.0.items ended.1.items) }
{
    let mut lists = Vec::new(alloc);
    let mut stores = Vec::new(alloc);
    for shard in shards {
        let (store, journal) = shard.end_batch();
        lists.push(EntryList::from_vec(journal))?;
        stores.push(store)?;
    }
    Ok((lists, stores))
}

/// Has the crew run the strands of the queries, in the batch that B names, and settles the batch.
pub fn run_batch<B: BatchName + Send + Sync, C: Crew>(
    crew: &C,
    alloc: Global,
    design: &Design,
    queries: &[Query],
    sizes: Sizes,
    stores: Vec<CellStore>,
) -> Result<BatchRun, OutOfMemory>
    requires named { IsNamed B.batch B.opening (asks (setup_of design.now sizes) queries.now)
        stores.items }
    requires stores { AreStores (setup_of design.now sizes) stores.items }
    requires few { length (flat_map pieces queries.now) ≤ 256 }
    ensures run { IfOk result (λ run. HasRun (asks (setup_of design.now sizes) queries.now)
        (cells_of stores.items) run.outcomes.items run.lists.items run.stores.items) }
    ensures crewed { IfOk result (λ run. HasCrewed (flat_map pieces queries.now)
        (C.is_open crew.now) run.lists.items) }
{
    let design = BatchDesign::<B>::new(design);
    let begun = begin_all::<B>(alloc, stores)?;
    let strands = strands_of::<B>(alloc, queries)?;
    let ran = crew.run(alloc, design, begun, strands)?;
    let heard = ran.heard;
    let said = ran.said;
    let handed = ran.shards.into_vec();
    let Settled { outcomes, shards } = settle(alloc, design, handed, queries, heard, said)?;
    let (lists, stores) = end_all(alloc, shards)?;
    Ok(BatchRun {
        outcomes,
        lists,
        stores,
    })
}

/// An empty journal for each store.
pub fn no_entries(alloc: Global, stores: &[CellStore]) -> Result<Vec<EntryList>, OutOfMemory>
    ensures { IfOk result (λ lists. lists.items ≡ map (λ _. []) stores.now) }
{
    let mut lists = Vec::with_capacity(alloc, stores.len())?;
    for _store in stores {
        lists.push(EntryList::from_vec(Vec::new(alloc)))?;
    }
    Ok(lists)
}
