//! A look at all journals after several workers, by as many threads: where entries stand, how many points each query filled, and whether
//! what was evaluated has heard its children.

ghost use Rattle.std.specs.Prelude.{◌≡◌, ◌↔◌, ◌<◌, ℕ, Bool, true, IsTrue, length, slice_index_or, vec_len, All, IfOk};
ghost use Rattle.journal_meaning.specs.Lawful.{IsLawful};
ghost use Rattle.memo_shards.specs.KeptShards.{IsKnownShard};
ghost use Rattle.plan_core.specs.InTurn.{AllChildrenCovered};
ghost use Rattle.plan_core.specs.Parts.{shards_in};
ghost use Rattle.plan_machine.specs.Settle.{entries_in};
ghost use Rattle.plan_core.specs.asked.FillCounts.{HaveCounted};
ghost use Rattle.plan_core.specs.asked.Memos.{entries_of};
ghost use Rattle.worker_gate.specs.Heard.{HaveHeard};
ghost use Rattle.worker_gate.specs.Said.{AreJoined};

use demand_points::{BatchDesign, BatchName};
use memo_shards::{Shard, know_all};
use plan_core::asked::{Places, Said, has_heard};
use std::alloc::Global;
use std::thread;
use std::thread::Threads;
use texts::OutOfMemory;

/// With fewer entries one thread looks sooner than several are started.
const ENTRIES_FOR_TWO: usize = 16_384;

/// How many threads look: one, or as many as the workers where there is much to look at.
fn threads_for<B: BatchName>(shards: &[Shard<B>], workers: usize) -> usize
    requires { 0 < workers }
    ensures { 0 < result }
{
    let mut entries = 0usize;
    for shard in shards {
        entries = entries.saturating_add(shard.journal().len());
    }
    if entries < ENTRIES_FOR_TWO {
        1
    } else {
        workers
    }
}

/// What was noted of the parts, one after another, if all were read.
fn joined(alloc: Global, parts: Vec<Result<Said, OutOfMemory>>) -> Result<Said, OutOfMemory>
    ensures { IfOk result (λ said. AreJoined parts.items said.fills.items) }
{
    let mut said = Said::new(alloc);
    for part in parts {
        said.append(part?)?;
    }
    Ok(said)
}

/// Reads the entries of all shards. Each thread reads those of some shards that stand together.
fn read_all<B: BatchName + Send + Sync, R: Threads + Sync>(
    rt: &R,
    alloc: Global,
    shards: &[Shard<B>],
    threads: usize,
) -> Result<Said, OutOfMemory>
    requires { 0 < threads }
    ensures { IfOk result (λ said. HaveCounted (entries_of shards.now) said.fills.items) }
{
    let size = shards.len().div_ceil(threads).max(1);
    let parts = thread::map_chunks(
        rt,
        alloc,
        shards,
        size,
        &|_start: usize, part: &[Shard<B>]| -> Result<Said, OutOfMemory> {
            Said::read(alloc, part)
        },
    )?;
    joined(alloc, parts)
}

/// Whether what was evaluated has heard its children, in each shard whose number leaves this remainder.
fn share_has_heard<B: BatchName>(
    design: BatchDesign<'_, B>,
    shards: &[Shard<B>],
    places: &[Places],
    remainder: usize,
    divisor: usize,
) -> bool
    requires lawful { IsLawful B.batch }
    requires known { All (IsKnownShard B.batch B.opening) shards.now }
    requires some { 0 < divisor }
    ensures { result ≡ true → HaveHeard B.batch.circuit shards.now divisor remainder }
{
    for k in 0..shards.len() {
        if k % divisor == remainder && !has_heard(design, shards, places, k) {
            return false;
        }
    }
    true
}

/// Has each of so many threads look at its share of the shards. What each of them found, by the remainders.
fn looks<B: BatchName + Send + Sync, R: Threads + Sync>(
    rt: &R,
    alloc: Global,
    design: BatchDesign<'_, B>,
    shards: &[Shard<B>],
    places: &[Places],
    threads: usize,
) -> Result<Vec<bool>, OutOfMemory>
    requires lawful { IsLawful B.batch }
    requires known { All (IsKnownShard B.batch B.opening) shards.now }
    requires some { 0 < threads }
    ensures count { IfOk result (λ v. vec_len v ≡ threads) }
    ensures each { IfOk result (λ v. (r : ℕ) (d : Bool) → r < threads
        → slice_index_or v.items r d ≡ true → HaveHeard B.batch.circuit shards.now threads r) }
{
    let found = thread::map_indices(
        rt,
        alloc,
        threads,
        &|remainder: usize| -> bool
            requires { IsLawful B.batch × All (IsKnownShard B.batch B.opening) shards.now
                × (0 < threads) }
            ensures { result ≡ true → HaveHeard B.batch.circuit shards.entry.now threads remainder }
        { share_has_heard(design, shards, places, remainder, threads) },
    )?;
    Ok(found)
}

/// Whether each is true.
fn are_all(found: &[bool]) -> bool
    ensures { IsTrue result ↔ All (λ one. one ≡ true) found.now }
{
    found.iter().all(|one| *one)
}

/// What a look at all journals finds.
#[derive(Drop)]
pub struct Look {
    /// What is noted of the entries.
    pub said: Said,
    /// Whether each point that was evaluated has heard its children, as the entries say.
    pub heard: bool,
}

/// Looks at all journals, by as many threads as there are workers, where there is much to look at.
pub fn look_at_all<B: BatchName + Send + Sync, R: Threads + Sync>(
    rt: &R,
    alloc: Global,
    design: BatchDesign<'_, B>,
    shards: &[Shard<B>],
    workers: usize,
) -> Result<Look, OutOfMemory>
    requires shards { 0 < length shards.now }
    requires workers { 0 < workers }
    ensures said { IfOk result (λ look. HaveCounted (entries_in (shards_in shards.now))
        look.said.fills.items) }
    ensures heard { IfOk result (λ look. look.heard ≡ true → AllChildrenCovered B.batch.circuit
        (entries_in (shards_in shards.now))) }
{
    know_all(shards);
    let threads = threads_for(shards, workers);
    let said = read_all(rt, alloc, shards, threads)?;
    let found = looks(rt, alloc, design, shards, said.places.as_slice(), threads)?;
    let heard = are_all(found.as_slice());
    Ok(Look { said, heard })
}
