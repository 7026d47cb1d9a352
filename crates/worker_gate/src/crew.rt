//! The trait of crews.

ghost use Rattle.std.specs.Prelude.{◌≡◌, ◌<◌, ◌≤◌, Bool, true, [], length, map, sum, sum_by, All, IfOk, IfSome, flat_map, vec_len};
ghost use Rattle.journal_text.specs.Spelling.{entry_line};
ghost use Rattle.plan_core.specs.InTurn.{AllChildrenCovered, AreStarted, task_of, booked_by};
ghost use Rattle.plan_core.specs.Parts.{shards_in, strands_in, AreInOrder};
ghost use Rattle.plan_machine.specs.Settle.{entries_in};
ghost use Rattle.plan_core.specs.asked.FillCounts.{HaveCounted};
ghost use Rattle.worker_gate.specs.Ends.{AreNew, AreEnds, AreFilled};

use crate::begun::{Begun, tasks_of};
use crate::gate::Gate;
use crate::in_turn::{end_in_turn, make_turns, run_alone};
use crate::lines::{lines_alone, lines_of};
use crate::ran::Ran;
use crate::run::run_workers;
use demand_points::{BatchDesign, BatchName, Strand};
use journal_meaning::Entry;
use memo_shards::Shard;
use std::alloc::Global;
use std::sync::Wait;
use std::thread::Threads;
use texts::OutOfMemory;

/// Workers that run the strands of a batch.
pub trait Crew {
    type Gate: Gate;

    type Runtime: Threads + Wait + Sync;

    /// Whether its gate lets every worker go on.
    ghost is_open: { Self → Bool };

    /// The gate that each worker passes before each turn.
    fn gate(&self) -> &Self::Gate
        ensures open { is_open self.now ≡ true → Self.Gate.is_open result.now ≡ true };

    /// The runtime in which the workers are started.
    fn runtime(&self) -> &Self::Runtime;

    /// The number of workers.
    fn workers(&self) -> u32
        ensures some { 0 < result }
        ensures most { result ≤ 64 };

    /// Runs the strands over the shards. One strand after another makes the first turns of a batch on the caller's thread, without locks,
    /// and all turns where there is one worker or one strand: the functions that do this cannot wait, so they are proved to end. Where turns
    /// are left, so many workers make them, and no more than there are strands. Returns the shards in their order, the strands that ended,
    /// and how many claims and fills each strand made. If memory runs out, the shards are dropped.
    final fn run<B: BatchName + Send + Sync>(
        &self,
        alloc: Global,
        design: BatchDesign<'_, B>,
        shards: Vec<Shard<B>>,
        strands: Vec<Strand<B>>,
    ) -> Result<Ran<B>, OutOfMemory>
        requires named { vec_len shards ≡ B.batch.shards }
        requires some { 0 < vec_len shards }
        requires most { vec_len shards ≤ 64 }
        requires order { AreInOrder shards.items }
        requires empty { All (λ m. m.shard.journal ≡ []) shards.items }
        requires strands { vec_len strands ≤ 256 }
        requires new { AreNew strands.items }
        ensures counted { IfOk result (λ ran. sum ran.counts ≡ sum_by booked_by ran.shards) }
        ensures ended { IfOk result (λ ran. AreEnds ran.strands (map task_of strands.items)
            ran.counts) }
        ensures filled { is_open self.now ≡ true → IfOk result (λ ran. AreFilled ran.strands) }
        ensures places { IfOk result (λ ran. length ran.strands ≡ vec_len strands) }
        ensures counts { IfOk result (λ ran. length ran.counts ≡ vec_len strands) }
        ensures shards { IfOk result (λ ran. length ran.shards ≡ vec_len shards) }
        ensures order { IfOk result (λ ran. AreInOrder ran.shards) }
        ensures heard { AreStarted B.batch.circuit (strands_in strands.items) → IfOk result
            (λ ran. ran.heard ≡ true → AllChildrenCovered B.batch.circuit
            (entries_in (shards_in ran.shards))) }
        ensures said { IfOk result (λ ran. IfSome ran.said
            (λ said. HaveCounted (entries_in (shards_in ran.shards)) said.fills.items)) }
    {
        if self.workers() == 1 || strands.len() <= 1 {
            return run_alone(alloc, design, shards, strands);
        }
        let mut shards = shards;
        let mut strands = strands;
        let most = turns_before(self.gate(), self.workers(), strands.len());
        match make_turns(&mut strands, &mut shards, design, Some(most))? {
            Some(unrefused) => end_in_turn(alloc, shards, strands, unrefused),
            None => {
                let tasks = tasks_of(alloc, strands.as_slice())?;
                let begun = Begun {
                    shards,
                    strands,
                    tasks,
                };
                let gate = self.gate();
                run_workers(self.runtime(), alloc, design, begun, self.workers(), gate)
            }
        }
    }

    /// The lines of the entries, in texts that follow one another. As many threads as there are workers make them, each those of entries
    /// that stand together; one worker starts none.
    final fn lines_of(&self, alloc: Global, entries: &[Entry]) -> Result<Vec<Vec<u8>>, OutOfMemory>
        ensures { IfOk result (λ texts. flat_map (λ text. text.items) texts.items
            ≡ flat_map entry_line entries.now) }
    {
        if self.workers() == 1 {
            return lines_alone(alloc, entries);
        }
        lines_of(self.runtime(), alloc, entries, self.workers() as usize)
    }
}

/// How many turns a batch of so many strands makes before the workers are started. No more of these start than there are strands.
fn turns_before<G: Gate>(gate: &G, workers: u32, strands: usize) -> u64
    requires { strands ≤ 256 }
{
    gate.turns_before() as u64 * workers.min(strands as u32) as u64
}
