//! The queue of strands that are ready to take a turn: bounded, and shared by all workers.
//!
//! A [`ReadyQueue`] is made with a [`QueuePass`] for each thread that will use it. The queue is shared by reference; a pass belongs to one
//! thread at a time, which pushes and pops with it. A pass takes no room at run time: in proofs it is two lists, the items pushed and the
//! items popped through it, in order. All passes are made with the queue, so nobody else can push or pop, and the caller's proof refuses a
//! pass of another queue.
//!
//! # The rule
//!
//! At every moment, under every schedule of the threads, the items in the queue, together with the items popped through all its passes, are,
//! up to order, the items pushed through all its passes. No item is lost, made up or handed out twice. Of one call:
//!
//! - [`ReadyQueue::push`] that answers `Ok` appends the item to the list of its pass (`pushed`), and changes nothing else of it. `Err` hands
//!   the same item back (`handed_back`) and leaves both lists (`refused`).
//! - [`ReadyQueue::pop`] that answers an item appends it to the list of its pass (`popped`). `None` leaves both lists (`none`).
//! - A queue with one pass says more. After a refusal as many items as the capacity were pushed and not popped through this pass
//!   (`full_of_own`). After `None` everything that was pushed through it was popped through it (`all_own_popped`).
//!
//! # What `full` and `empty` do not say
//!
//! The clause `full` of `push` says of a refusal: there are items, as many as the capacity, and a list of histories, one of them that of
//! this pass, of which the rule holds. `empty` of `pop` says the same of `None` with no items. Neither says that the queue was full, or
//! empty, at a moment of the call: of a pass beside others both always hold. If this pass has pushed P and popped Q, another may have
//! pushed Q and any n items, and popped P: the rule holds of those n. A `push` that always refuses and a `pop` that never finds an item
//! (the edits `always_refuses` and `never_finds_an_item`) meet both; `full_of_own` and `all_own_popped` refuse them.
//!
//! Nothing rests on them: a worker that is told `None` sleeps until the count of moves changes, and settlement does what workers leave.
//!
//! # What the rule does not say
//!
//! - The order in which items come out. A thread alone gets them first in, first out; nothing rests on it.
//! - Which thread gets an item, or how many it gets.
//! - That a call returns. `push` and `pop` try again while another thread stands in the middle of its step at the same slot, so both carry
//!   the bound `Wait`. There is no lock.
//! - That a refused push succeeds later.
//! - That items left in the queue are handed to anybody: they are dropped with it.
//!
//! # Costs
//!
//! A push and a pop do not allocate. Each takes a few atomic steps, however many items the queue holds, and tries again while threads meet
//! at one slot. `new` allocates room for `capacity` items.
#![tactic(auto)]

ghost use Rattle.std.specs.Prelude.{◌≡◌, ◌<◌, [], ◌∷◌, ◌++◌, All, IfErr, IfNone, IfOk, IfSome, OnErr, OnOk, IsPermutation, vec_len};
ghost use Rattle.ready_queue.specs.History.{history, IsKept, IsKeptBeside};
ghost use Rattle.ready_queue.specs.Queue.{pushed_by, popped_by, history_of, capacity_of, IsOnly, IsPassOf, IsFreshPassOf, HeldBeside, Lacks};

use crossbeam_queue::protocol::{Lesson, Outcome, Protocol, Split};
use crossbeam_queue::{Pass, RuledArrayQueue};
use std::alloc::Global;
use std::collections::LinkedList;
use std::sync::Wait;
use texts::OutOfMemory;

/// What went through a pass, in order, and whether the queue has no other pass. Only proofs have such a value.
pub struct History<T> {
    pub pushed: LinkedList<T>,
    pub popped: LinkedList<T>,
    pub only: bool,
}

/// The queue's rule.
pub struct NoneLost;

impl<T> Protocol<T, History<T>> for NoneLost {
    ghost use Rattle.std.specs.Prelude.{true};

    ghost holds = { IsKept };

    ghost first = { history [] [] true };
}

// A pass makes another. From then on neither is the only one.
struct Another;

impl<T> Split<History<T>> for Another {
    ghost use Rattle.std.specs.Prelude.{false};

    ghost left = { λ p. history p.pushed p.popped false };

    ghost right = { λ _. history [] [] false };
}

struct Pushed;

impl<T> Outcome<T, History<T>> for Pushed {
    ghost then = { λ p item after. after ≡ history (p.pushed ++ item ∷ []) p.popped p.only };
}

impl<T> Lesson<T, History<T>> for Pushed {
    ghost fact = { IsKeptBeside };
}

struct Popped;

impl<T> Outcome<T, History<T>> for Popped {
    ghost then = { λ p item after. after ≡ history p.pushed (p.popped ++ item ∷ []) p.only };
}

impl<T> Lesson<T, History<T>> for Popped {
    ghost fact = { IsKeptBeside };
}

/// A queue of fixed capacity that threads share by reference.
#[derive(Drop)]
pub struct ReadyQueue<T: Drop> {
    queue: RuledArrayQueue<T, History<T>, NoneLost>,
}

/// The right of one thread to push to and pop from a queue. It has no bytes.
#[derive(Drop)]
pub struct QueuePass<T> {
    pass: Pass<T, History<T>>,
}

impl<T: Drop> ReadyQueue<T> {
    /// An empty queue and its `passes` passes. Their order does not matter. No later call makes a pass.
    pub fn new(
        alloc: Global,
        capacity: u32,
        passes: u32,
    ) -> Result<(ReadyQueue<T>, Vec<QueuePass<T>>), OutOfMemory>
        requires capacity { 0 < capacity }
        requires passes { 0 < passes }
        ensures capacity { IfOk result (λ made. capacity_of made.0 ≡ capacity) }
        ensures count { IfOk result (λ made. vec_len made.1 ≡ passes) }
        ensures fresh { IfOk result (λ made. All (IsFreshPassOf made.0) made.1.items) }
        ensures only { passes ≡ 1 → IfOk result (λ made. All IsOnly made.1.items) }
    {
        let (queue, mut first) = RuledArrayQueue::<T, History<T>, NoneLost>::ruled(
            alloc,
            capacity as usize,
        )?;
        let queue = ReadyQueue { queue };
        let mut all = Vec::new(alloc);
        for _made in 1..passes {
            let pass = queue.queue.another::<Another>(&mut first);
            all.push(QueuePass { pass })?;
        }
        all.push(QueuePass { pass: first })?;
        Ok((queue, all))
    }

    /// Pushes an item, or hands it back. A caller that was refused may pop, or try again later.
    pub fn push<R: Wait>(&self, rt: &R, pass: &mut QueuePass<T>, item: T) -> Result<(), T>
        requires { IsPassOf self.now pass.old }
        ensures of_queue { IsPassOf self.now pass.new }
        ensures pushed { OnOk result (pushed_by pass.new ≡ pushed_by pass.old ++ item ∷ []) }
        ensures popped { popped_by pass.new ≡ popped_by pass.old }
        ensures only { IsOnly pass.old → IsOnly pass.new }

        ensures handed_back { IfErr result (λ refused. refused ≡ item) }
        ensures refused { OnErr result (pushed_by pass.new ≡ pushed_by pass.old) }
        ensures full { OnErr result (HeldBeside (capacity_of self.now) pass.old) }
        ensures full_of_own { IsOnly pass.old
            → OnErr result (Lacks (capacity_of self.now) pass.old) }
    {
        self.queue.push_as::<Pushed, R>(rt, &mut pass.pass, item)
    }

    /// Pops the item that has been in the queue longest, if the queue has one.
    pub fn pop<R: Wait>(&self, rt: &R, pass: &mut QueuePass<T>) -> Option<T>
        requires { IsPassOf self.now pass.old }
        ensures of_queue { IsPassOf self.now pass.new }
        ensures popped { IfSome result (λ item. popped_by pass.new ≡ popped_by
            pass.old ++ item ∷ []) }
        ensures pushed { pushed_by pass.new ≡ pushed_by pass.old }
        ensures only { IsOnly pass.old → IsOnly pass.new }

        ensures none { IfNone result (popped_by pass.new ≡ popped_by pass.old) }
        ensures empty { IfNone result (HeldBeside 0 pass.old) }
        ensures all_own_popped { IsOnly pass.old
            → IfNone result (IsPermutation (pushed_by pass.old) (popped_by pass.old)) }
    {
        self.queue.pop_as::<Popped, R>(rt, &mut pass.pass)
    }
}
