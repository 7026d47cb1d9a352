//! What one worker does.

ghost use Rattle.std.specs.Prelude.{◌≡◌, ◌<◌, ◌-◌, ◌^◌, true, false, IsSome, IfSome};
ghost use Rattle.std.specs.Sync.Mutex.{mutex_guard_value};
ghost use Rattle.memo_shards.specs.Steps.{MayStep};
ghost use Rattle.memo_shards.specs.Grants.{IsGranted, step_of};
ghost use Rattle.ready_queue.specs.Queue.{IsPassOf};
ghost use Rattle.plan_machine.specs.Strands.{next as next_of};
ghost use Rattle.plan_machine.specs.declared.strand.Next.TheVariants.{Done};

use crate::board::Board;
use crate::gate::{Gate, Pass};
use crate::slot::Slot;
use crossbeam_utils::CachePadded;
use demand_points::{BatchDesign, BatchName, Strand};
use memo_shards::{Grant, Request, Step, follow, request_of, shard_number};
use plan_machine::Next;
use ready_queue::{QueuePass, ReadyQueue};
use std::hint::spin_loop;
use std::sync::{Condvar, Mutex, MutexGuard, Wait};

/// How often a lock is tried before the thread sleeps for it.
const TRIES: u32 = 50;

/// How long a thread pauses between two tries, in the processor's own pauses.
const PAUSES: u32 = 4;

/// A shard behind a lock, on cache lines of its own: what a worker changes in one shard does not take a line of another from the others.
pub type LockedShard<B> = CachePadded<Mutex<Slot<B>>>;

/// What the workers share: each shard behind a lock of its own, the board, and the queue of strands that are ready.
#[derive(Drop)]
pub struct Shared<B: BatchName> {
    pub slots: Vec<LockedShard<B>>,
    pub board: CachePadded<Mutex<Board<B>>>,
    pub moved: Condvar,
    pub queue: ReadyQueue<Strand<B>>,
    pub count: u32,
    ghost named: { count ≡ B.batch.shards },
    ghost some: { 0 < count },
}

/// A worker: its number, and the gate that it passes.
#[derive(Drop)]
pub struct Worker<'a, G: Gate> {
    pub number: u32,
    pub gate: &'a G,
}

/// What became of a strand's turn.
#[derive(Drop)]
pub enum TurnEnd<B: BatchName> {
    /// It goes on.
    Goes(Strand<B>),
    /// It goes on, and its step woke these.
    Wakes(Strand<B>, Vec<Strand<B>>),
    /// It waits in a shard, or stands on the board.
    Rests,
    /// Memory ran out.
    NoMemory,
}

fn pause() {
    for _ in 0..PAUSES {
        spin_loop();
    }
}

// Takes the lock. A worker makes the shard's half of one step under a lock, which takes a microsecond at most. To sleep and to be woken takes
// longer. So the lock is tried for some microseconds before the thread sleeps.
fn take_lock<'a, T, R: Wait>(rt: &R, lock: &'a Mutex<T>) -> MutexGuard<'a, T> {
    for _ in 0..TRIES {
        if let Some(guard) = lock.try_lock() {
            return guard;
        }
        pause();
    }
    lock.lock(rt)
}

// Lets the strand follow what was granted, after the lock. A strand that is refused memory for its claim has none: the batch ends.
fn end_turn<B: BatchName>(
    strand: Strand<B>,
    design: BatchDesign<'_, B>,
    grant: Grant<B>,
) -> TurnEnd<B>
    requires granted { IsGranted B.batch strand grant }
{
    let mut strand = strand;
    match follow(&mut strand, design, grant) {
        Ok(Step::Heard) => TurnEnd::Goes(strand),
        Ok(Step::Holds) => TurnEnd::Goes(strand),
        Ok(Step::Taken) => TurnEnd::Goes(strand),
        Ok(Step::Refused) => TurnEnd::Goes(strand),
        Ok(Step::Filled(woken)) => TurnEnd::Wakes(strand, woken),
        Ok(Step::Dropped(woken)) => TurnEnd::Wakes(strand, woken),
        Err(_) => TurnEnd::NoMemory,
    }
}

impl<B: BatchName> Shared<B> {
    // Tells of a push, and wakes a worker for it where one sleeps.
    //
    // No wake is lost. A worker goes to sleep under the board's lock, after it found there that no strand was pushed since it looked at
    // the queue, that memory is left, and that a place is empty. Each of these changes under the same lock, and each change wakes
    // sleepers. A push wakes one worker. If none sleeps, each worker looks at the queue once more before it sleeps. The worker that
    // pushed the strand does so too, unless it leaves at its gate; then another one takes the strand.
    fn tell<R: Wait>(&self, rt: &R) {
        let mut board = take_lock(rt, &self.board);
        board.moves = board.moves.wrapping_add(1);
        if board.sleeping > 0 {
            self.moved.notify_one();
        }
    }

    // Tells all of want of memory.
    fn give_up<R: Wait>(&self, rt: &R) {
        let mut board = take_lock(rt, &self.board);
        board.no_memory = true;
        self.moved.notify_all();
    }

    // The number of moves so far, or none where memory ran out.
    fn look<R: Wait>(&self, rt: &R) -> Option<u64> {
        let board = take_lock(rt, &self.board);
        if board.no_memory {
            None
        } else {
            Some(board.moves)
        }
    }

    // Sleeps until a strand was pushed since the look, each has ended, or memory ran out. True where there is nothing more to do.
    fn wait_past<R: Wait>(&self, rt: &R, seen: u64) -> bool {
        let mut board = take_lock(rt, &self.board);
        board.sleeping = board.sleeping.wrapping_add(1);
        let mut board = self.moved.wait_while(rt, board, |b| {
            b.moves == seen && !b.no_memory && !b.is_full()
        });
        board.sleeping = board.sleeping.wrapping_sub(1);
        board.no_memory || board.is_full()
    }

    // Puts a strand into the queue, however often it is refused.
    fn push<R: Wait>(&self, rt: &R, pass: &mut QueuePass<Strand<B>>, strand: Strand<B>)
        requires { IsPassOf self.now.queue pass.old }
        ensures { IsPassOf self.now.queue pass.new }
    {
        let mut strand = strand;
        for _ in rt.forever() {
            match self.queue.push(rt, pass, strand) {
                Ok(()) => {
                    self.tell(rt);
                    return;
                }
                Err(back) => strand = back,
            }
        }
        unreachable!()
    }

    /// Puts the strands into the queue, in their order.
    pub fn push_all<R: Wait>(
        &self,
        rt: &R,
        pass: &mut QueuePass<Strand<B>>,
        strands: Vec<Strand<B>>,
    )
        requires { IsPassOf self.now.queue pass.old }
        ensures { IsPassOf self.now.queue pass.new }
    {
        for strand in strands {
            self.push(rt, pass, strand);
        }
    }

    // Puts a strand that has ended on the board, however often the board has to be looked at. The last one wakes all.
    fn put<R: Wait>(&self, rt: &R, strand: Strand<B>)
        requires { next_of strand.strand ≡ Done }
    {
        let mut strand = strand;
        for _ in rt.forever() {
            let mut board = take_lock(rt, &self.board);
            match board.try_put(strand) {
                Ok(()) => {
                    if board.is_full() {
                        self.moved.notify_all();
                    }
                    return;
                }
                Err(back) => strand = back,
            }
        }
        unreachable!()
    }

    // Locks the shard of the point once it can make its half of the strand's next step.
    fn lock_shard<G: Gate, R: Wait>(
        &self,
        rt: &R,
        worker: &Worker<'_, G>,
        strand: &Strand<B>,
        request: Request,
    ) -> MutexGuard<'_, Slot<B>>
        ensures some { IsSome (mutex_guard_value result).content }
        ensures stands { IfSome (mutex_guard_value result).content
            (λ h. MayStep B.batch h.shard (step_of request) strand.now) }
        ensures room { IfSome (mutex_guard_value result).content (λ h. h.booked < 2 ^ 64 - 1) }
    {
        let number = shard_number(request.point().signal, self.count as usize);
        for _ in rt.forever() {
            let Some(lock) = self.slots.get(number) else {
                continue;
            };
            let slot = take_lock(rt, lock);
            let Some(counted) = &slot.content else {
                continue;
            };
            if counted.can_grant(strand, request, number) {
                worker.gate.within(worker.number, number as u32);
                return slot;
            }
        }
        unreachable!()
    }

    // Makes the turn of a strand whose next step is this one. The shard of its point makes its half under its lock, and the strand follows
    // once the lock is free. Where the point is claimed the strand waits there, under the same lock, so that it misses no end of the claim.
    fn turn<G: Gate, R: Wait>(
        &self,
        rt: &R,
        design: BatchDesign<'_, B>,
        worker: &Worker<'_, G>,
        strand: Strand<B>,
        next: Next,
    ) -> TurnEnd<B>
        requires next { next_of strand.strand ≡ next }
    {
        let Some(request) = request_of(&strand, design, next) else {
            self.put(rt, strand);
            return TurnEnd::Rests;
        };
        let mut slot = self.lock_shard(rt, worker, &strand, request);
        let Some(counted) = &mut slot.content else {
            unreachable!();
        };
        match counted.grant(&strand, request) {
            Ok(Grant::Taken) => match counted.park(strand, request.point()) {
                Ok(()) => TurnEnd::Rests,
                Err(_) => TurnEnd::NoMemory,
            },
            Ok(grant) => {
                drop(slot);
                end_turn(strand, design, grant)
            }
            Err(_) => TurnEnd::NoMemory,
        }
    }

    // Makes the turns of a strand until it waits or has ended. True where the worker was told to leave.
    fn run<G: Gate, R: Wait>(
        &self,
        rt: &R,
        design: BatchDesign<'_, B>,
        worker: &Worker<'_, G>,
        pass: &mut QueuePass<Strand<B>>,
        strand: Strand<B>,
    ) -> bool
        requires queue { IsPassOf self.now.queue pass.old }
        ensures queue { IsPassOf self.now.queue pass.new }
        ensures stays { G.is_open worker.now.gate.now ≡ true → result ≡ false }
    {
        let mut strand = strand;
        for _ in rt.forever() {
            let step = strand.next_step(design);
            if step != Next::Done && worker.gate.before(worker.number) == Pass::Leave {
                self.push(rt, pass, strand);
                return true;
            }
            match self.turn(rt, design, worker, strand, step) {
                TurnEnd::Goes(s) => strand = s,
                TurnEnd::Wakes(s, woken) => {
                    self.push_all(rt, pass, woken);
                    strand = s;
                }
                TurnEnd::Rests => return false,
                TurnEnd::NoMemory => {
                    self.give_up(rt);
                    return false;
                }
            }
        }
        unreachable!()
    }

    /// Takes strands from the queue until each has ended, or memory runs out. True where the worker was told to leave.
    pub fn work<G: Gate, R: Wait>(
        &self,
        rt: &R,
        design: BatchDesign<'_, B>,
        worker: &Worker<'_, G>,
        pass: QueuePass<Strand<B>>,
    ) -> bool
        requires queue { IsPassOf self.now.queue pass }
        ensures { G.is_open worker.now.gate.now ≡ true → result ≡ false }
    {
        let mut pass = pass;
        for _ in rt.forever() {
            let Some(seen) = self.look(rt) else {
                return false;
            };
            match self.queue.pop(rt, &mut pass) {
                Some(strand) => {
                    if self.run(rt, design, worker, &mut pass, strand) {
                        return true;
                    }
                }
                None => {
                    if self.wait_past(rt, seen) {
                        return false;
                    }
                }
            }
        }
        unreachable!()
    }
}
