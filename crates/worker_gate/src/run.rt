//! Runs the workers, and takes out what they leave.

ghost use Rattle.std.specs.Prelude.{◌≡◌, ◌+◌, ◌^◌, ◌<◌, ◌≤◌, true, false, length, sum, sum_by, vec_len, All, IfOk, IfSome};
ghost use Rattle.plan_core.specs.InTurn.{AllChildrenCovered, booked_by};
ghost use Rattle.plan_core.specs.Parts.{shards_in, AreInOrder};
ghost use Rattle.plan_machine.specs.Settle.{entries_in};
ghost use Rattle.ready_queue.specs.Queue.{IsPassOf, IsFreshPassOf};
ghost use Rattle.plan_core.specs.asked.FillCounts.{HaveCounted};
ghost use Rattle.worker_gate.specs.Ends.{AreEnds, AreFilled};

use crate::begun::Begun;
use crate::board::Board;
use crate::counts::{booked_by, match_counts};
use crate::gate::Gate;
use crate::hearing::{Look, look_at_all};
use crate::ran::{CountList, EndedList, Ran, ShardList};
use crate::slot::{CountedShard, Slot};
use crate::worker::{LockedShard, Shared, Worker};
use crossbeam_utils::CachePadded;
use demand_points::{BatchDesign, BatchName, Strand, Task};
use memo_shards::Shard;
use ready_queue::{QueuePass, ReadyQueue};
use std::alloc::Global;
use std::sync::{Condvar, Mutex, Wait};
use std::thread;
use std::thread::Threads;
use texts::OutOfMemory;

// Puts a shard behind a lock, with the number of its claims and fills.
fn lock_one<B: BatchName>(shard: Shard<B>) -> LockedShard<B> {
    let booked = booked_by(&shard) as u64;
    let content = Some(CountedShard { shard, booked });
    CachePadded::new(Mutex::new(Slot { content }))
}

// Puts each shard behind a lock.
fn lock_each<B: BatchName>(
    alloc: Global,
    shards: Vec<Shard<B>>,
) -> Result<Vec<LockedShard<B>>, OutOfMemory>
    ensures { IfOk result (λ v. vec_len v ≡ vec_len shards) }
{
    Ok(
        shards
            .into_iter()
            .map(|shard| lock_one(shard))
            .collect(alloc)?,
    )
}

/// A board with these tasks, on which nothing has ended.
pub fn empty_board<B: BatchName>(alloc: Global, tasks: &[Task]) -> Result<Board<B>, OutOfMemory>
    ensures { IfOk result (λ b. b.tasks.items ≡ tasks.now) }
{
    let tasks = tasks.to_vec(alloc)?;
    let mut places = Vec::with_capacity(alloc, tasks.len())?;
    for _i in 0..tasks.len() {
        places.push(None)?;
    }
    Ok(Board {
        empty: tasks.len(),
        tasks,
        places,
        no_memory: false,
        moves: 0,
        sleeping: 0,
    })
}

// Takes out the shard with this number, however often the lock has to be taken.
fn take_shard<B: BatchName, R: Wait>(rt: &R, lock: &LockedShard<B>, number: u32) -> CountedShard<B>
    ensures { result.shard.number ≡ number }
{
    for _ in rt.forever() {
        if let Some(counted) = lock.lock(rt).take(number) {
            return counted;
        }
    }
    unreachable!()
}

// The sum of two numbers of claims and fills. It waits for ever where it is not within a u64.
fn sum_of_both<R: Wait>(rt: &R, total: u64, more: u64) -> u64
    ensures { result ≡ total + more }
{
    if let Some(sum) = total.checked_add(more) {
        return sum;
    }
    for _ in rt.forever() {}
    unreachable!()
}

// Takes all shards out, and adds up what they have recorded. It waits for ever where the sum is not within a u64.
fn take_all<B: BatchName, R: Wait>(
    rt: &R,
    alloc: Global,
    slots: &[LockedShard<B>],
) -> Result<(Vec<Shard<B>>, u64), OutOfMemory>
    requires few { length slots.now < 2 ^ 32 }
    ensures count { IfOk result (λ r. vec_len r.0 ≡ length slots.now) }
    ensures numbers { IfOk result (λ r. AreInOrder r.0.items) }
    ensures amount { IfOk result (λ r. r.1 ≡ sum_by booked_by r.0.items) }
{
    let mut shards = Vec::with_capacity(alloc, slots.len())?;
    let mut total = 0u64;
    for i in 0..slots.len() {
        let CountedShard { shard, booked } = take_shard(rt, &slots[i], i as u32);
        total = sum_of_both(rt, total, booked);
        shards.push(shard)?;
    }
    Ok((shards, total))
}

/// The board. It waits for ever where the board isn't what the workers leave.
pub fn whole_board<B: BatchName, R: Wait>(
    rt: &R,
    board: Board<B>,
    tasks: &[Task],
    left: bool,
) -> Board<B>
    ensures tasks { result.tasks.items ≡ tasks.now }
    ensures full { left ≡ false → AreFilled result.places.items }
{
    let is_whole = left || board.is_full();
    if board.tasks.as_slice() == tasks && is_whole {
        return board;
    }
    for _ in rt.forever() {}
    unreachable!()
}

// Takes the board out; none where memory ran out. It waits for ever where the board isn't what the workers leave.
fn take_board<B: BatchName, R: Wait>(
    rt: &R,
    board: Mutex<Board<B>>,
    tasks: &[Task],
    left: bool,
) -> Option<Board<B>>
    ensures tasks { IfSome result (λ b. b.tasks.items ≡ tasks.now) }
    ensures full { IfSome result (λ b. left ≡ false → AreFilled b.places.items) }
{
    let board = board.into_inner();
    if board.no_memory {
        return None;
    }
    Some(whole_board(rt, board, tasks, left))
}

/// What one worker is given.
#[derive(Drop)]
pub struct Job<B: BatchName> {
    worker: u32,
    pass: QueuePass<Strand<B>>,
}

fn jobs_of<B: BatchName>(
    alloc: Global,
    queue: &ReadyQueue<Strand<B>>,
    passes: Vec<QueuePass<Strand<B>>>,
) -> Result<Vec<Job<B>>, OutOfMemory>
    requires of { All (IsFreshPassOf queue.now) passes.items }
    requires few { vec_len passes < 2 ^ 32 }
    ensures { IfOk result (λ v. All (λ job. IsPassOf queue.now job.pass) v.items) }
{
    let mut passes = passes;
    let mut jobs = Vec::new(alloc);
    while let Some(pass) = passes.pop() {
        let worker = passes.len() as u32;
        jobs.push(Job { worker, pass })?;
    }
    Ok(jobs)
}

// Runs the workers. True where one was told to leave.
fn all_run<B: BatchName + Send + Sync, G: Gate, R: Threads + Wait + Sync>(
    rt: &R,
    design: BatchDesign<'_, B>,
    shared: &Shared<B>,
    gate: &G,
    jobs: Vec<Job<B>>,
) -> Result<bool, OutOfMemory>
    requires passes { All (λ job. IsPassOf shared.now.queue job.pass) jobs.items }
    ensures { IfOk result (λ left. G.is_open gate.now ≡ true → left ≡ false) }
{
    let left = thread::map_vec(
        rt,
        jobs,
        &|job: Job<B>| -> bool
            requires { IsPassOf shared.now.queue job.pass }
            ensures { G.is_open gate.entry.now ≡ true → result ≡ false }
        {
            let worker = Worker {
                number: job.worker,
                gate,
            };
            shared.work(rt, design, &worker, job.pass)
        },
    )?;
    Ok(left.iter().any(|x| *x))
}

/// Serves the strands by so many workers at once, and by no more than there are strands, until each has ended, a worker is told to
/// leave by the gate, or memory runs out.
pub fn run_workers<B: BatchName + Send + Sync, G: Gate, R: Threads + Wait + Sync>(
    rt: &R,
    alloc: Global,
    design: BatchDesign<'_, B>,
    begun: Begun<B>,
    workers: u32,
    gate: &G,
) -> Result<Ran<B>, OutOfMemory>
    requires named { vec_len begun.shards ≡ B.batch.shards }
    requires shards { (0 < vec_len begun.shards) × (vec_len begun.shards ≤ 64) }
    requires strands { vec_len begun.tasks ≤ 256 }
    requires workers { (0 < workers) × (workers ≤ 64) }
    ensures counted { IfOk result (λ r. sum r.counts ≡ sum_by booked_by r.shards) }
    ensures ended { IfOk result (λ r. AreEnds r.strands begun.tasks.items r.counts) }
    ensures filled { G.is_open gate.now ≡ true → IfOk result (λ r. AreFilled r.strands) }
    ensures places { IfOk result (λ r. length r.strands ≡ vec_len begun.tasks) }
    ensures counts { IfOk result (λ r. length r.counts ≡ vec_len begun.tasks) }
    ensures shards { IfOk result (λ r. length r.shards ≡ vec_len begun.shards) }
    ensures order { IfOk result (λ r. AreInOrder r.shards) }
    ensures heard { IfOk result (λ r. r.heard ≡ true → AllChildrenCovered B.batch.circuit
        (entries_in (shards_in r.shards))) }
    ensures said { IfOk result (λ r. IfSome r.said
        (λ said. HaveCounted (entries_in (shards_in r.shards)) said.fills.items)) }
{
    let Begun {
        shards,
        strands,
        tasks,
    } = begun;
    let count = shards.len() as u32;
    let slots = lock_each(alloc, shards)?;
    let capacity = (tasks.len() as u32).max(1);
    let workers = workers.min(capacity);
    let (queue, mut passes) = ReadyQueue::new(alloc, capacity, workers + 1)?;
    let Some(mut mine) = passes.pop() else {
        unreachable!()
    };
    let board = CachePadded::new(Mutex::new(empty_board(alloc, tasks.as_slice())?));
    let shared = Shared {
        slots,
        board,
        moved: Condvar::new(),
        queue,
        count,
    };
    shared.push_all(rt, &mut mine, strands);
    let jobs = jobs_of(alloc, &shared.queue, passes)?;
    let left = all_run(rt, design, &shared, gate, jobs)?;
    let Shared { slots, board, .. } = shared;
    let Some(board) = take_board(rt, board.into_inner(), tasks.as_slice(), left) else {
        return Err(OutOfMemory);
    };
    let Board { places, .. } = board;
    let (shards, total) = take_all(rt, alloc, slots.as_slice())?;
    let counts = match_counts(rt, alloc, places.as_slice(), total)?;
    let Look { said, heard } = look_at_all(rt, alloc, design, shards.as_slice(), workers as usize)?;
    Ok(Ran {
        shards: ShardList::new(shards),
        strands: EndedList::new(places),
        counts: CountList::new(counts),
        heard,
        said: Some(said),
    })
}
