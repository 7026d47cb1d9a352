//! Sessions whose workers a gate of the test holds where they have to meet, or sends away. The gates have them started before the first
//! turn.

ghost use Rattle.std.specs.Prelude.{◌≡◌, false};

use super::objects::{bytes_in, file};
use crate::serve::serve;
use crate::status::Status;
use backsim_io::{MemFiles, MemSink, MemSource};
use std::alloc::Global;
use std::sync::Wait;
use std::sync::atomic::{AtomicU64, Ordering};
use std::test::Fail;
use std::thread;
use std::thread::Threads;
use texts::Text;
use worker_gate::{Gate, Pass};

const LOOKS: u64 = 10_000_000;

/// Looks until the number is as great as wanted; false where that did not come.
fn hold(number: &AtomicU64, wanted: u64) -> bool {
    for _ in 0..LOOKS {
        if number.load(Ordering::SeqCst) >= wanted {
            return true;
        }
        thread::yield_now();
    }
    false
}

/// What a session wrote.
#[derive(Drop)]
struct Wrote {
    status: Status,
    replies: Vec<u8>,
    journal: Vec<u8>,
}

/// The files of a session over this netlist with delays of 1, whose input is 1 from time 0 to the horizon, 10.
fn inputs(alloc: Global, netlist: &[u8]) -> Result<Vec<(Text, Vec<u8>)>, Fail> {
    let mut held = Vec::new(alloc);
    held.push(file(alloc, b"n", netlist)?)?;
    held.push(file(alloc, b"t", b"")?)?;
    held.push(file(alloc, b"s", b"horizon 10\nset a 0 1\n")?)?;
    Ok(held)
}

/// Runs a session of these words, whose workers pass this gate, and gives what it wrote.
fn run<G: Gate, R: Threads + Wait + Sync>(
    rt: &R,
    alloc: Global,
    words: &[&str],
    netlist: &[u8],
    script: &[u8],
    gate: &G,
) -> Result<Wrote, Fail> {
    let mut files = MemFiles::new(alloc, inputs(alloc, netlist)?, Vec::new(alloc));
    let mut queries = MemSource::new(script.to_vec(alloc)?, 100, Vec::new(alloc));
    let mut out = MemSink::new(alloc, 100, Vec::new(alloc));
    let status = serve(rt, alloc, words, &mut files, &mut queries, &mut out, gate);
    Ok(Wrote {
        status,
        replies: out.bytes().to_vec(alloc)?,
        journal: bytes_in(alloc, &files, 0)?,
    })
}

/// Holds worker 0 before its first turn until worker 1 has come, and each worker within a shard until another is within the other shard.
#[derive(Drop)]
struct Apart {
    came: AtomicU64,
    zero: AtomicU64,
    one: AtomicU64,
    gave_up: AtomicU64,
}

impl Apart {
    fn hold(&self, number: &AtomicU64) {
        if !hold(number, 1) {
            self.gave_up.store(1, Ordering::SeqCst);
        }
    }
}

impl Gate for Apart {
    ghost is_open = { λ _. false };

    fn turns_before(&self) -> u32 {
        0
    }

    fn before(&self, worker: u32) -> Pass {
        if worker == 0 {
            self.hold(&self.came);
        } else {
            self.came.store(1, Ordering::SeqCst);
        }
        Pass::Go
    }

    fn within(&self, _worker: u32, shard: u32) {
        if shard == 0 {
            self.zero.store(1, Ordering::SeqCst);
            self.hold(&self.one);
        } else {
            self.one.store(1, Ordering::SeqCst);
            self.hold(&self.zero);
        }
    }
}

/// Signal 1 is p, in shard 1, and signal 2 is q, in shard 0.
const FORK: &[u8] = b"INPUT(a)\np = BUFF(a)\nq = BUFF(a)\n";

/// One lock around all shards would not let a second worker in.
#[test]
fn two_workers_are_inside_two_shards_at_once(rt: HostRuntime) -> Result<(), Fail> {
    let gate = Apart {
        came: AtomicU64::new(0),
        zero: AtomicU64::new(0),
        one: AtomicU64::new(0),
        gave_up: AtomicU64::new(0),
    };
    let words = ["n", "t", "s", "j", "--workers", "2", "--shards", "2"];
    let wrote = run(&rt, rt.alloc(), &words, FORK, b"at p 5\nat q 5\n", &gate)?;
    assert_eq!(rt; gate.gave_up.load(Ordering::SeqCst), 0);
    assert_eq!(rt; gate.came.load(Ordering::SeqCst), 1);
    assert_eq!(rt; wrote.status, Status::Ended);
    assert!(rt; wrote.replies.as_slice() == b"at p 5 1\nat q 5 1\n".as_slice());
    Ok(())
}

/// How often a worker came before a turn, and within a shard.
#[derive(Drop)]
struct Visits {
    before: AtomicU64,
    within: AtomicU64,
}

impl Visits {
    fn new() -> Visits {
        Visits {
            before: AtomicU64::new(0),
            within: AtomicU64::new(0),
        }
    }
}

/// Holds the second turn of each worker until the other has come to its second, and the fourth turn of a worker until the other has
/// come within a shard for the second time.
#[derive(Drop)]
struct Meeting {
    zero: Visits,
    one: Visits,
    gave_up: AtomicU64,
}

impl Meeting {
    fn hold(&self, number: &AtomicU64) {
        if !hold(number, 2) {
            self.gave_up.store(1, Ordering::SeqCst);
        }
    }

    fn of(&self, worker: u32) -> &Visits {
        if worker == 0 { &self.zero } else { &self.one }
    }
}

impl Gate for Meeting {
    ghost is_open = { λ _. false };

    fn turns_before(&self) -> u32 {
        0
    }

    fn before(&self, worker: u32) -> Pass {
        let other = if worker == 0 { 1 } else { 0 };
        let earlier = self.of(worker).before.fetch_add(1, Ordering::SeqCst);
        if earlier == 1 {
            self.hold(&self.of(other).before);
        }
        if earlier == 3 {
            self.hold(&self.of(other).within);
        }
        Pass::Go
    }

    fn within(&self, worker: u32, _shard: u32) {
        self.of(worker).within.fetch_add(1, Ordering::SeqCst);
    }
}

/// Signal 1 is n3, which reads n2, signal 3, which reads n1, signal 2.
const CHAIN: &[u8] = b"INPUT(a)\nOUTPUT(n3)\nn1 = BUFF(a)\nn2 = BUFF(n1)\nn3 = BUFF(n2)\n";

const FIRST_BEGINS: &[u8] =
    b"journal shards 1 cells 16384\nbatch 1\nshard 0\nclaim 1 1 5\nclaim 2 3 4\nclaim 2 2 3\nfill 2 2 3 1 11 1\nfill 2 3 4 2 11 1\nfill 1 1 5 3 11 1\nend\n";

const SECOND_BEGINS: &[u8] =
    b"journal shards 1 cells 16384\nbatch 1\nshard 0\nclaim 2 3 4\nclaim 1 1 5\nclaim 2 2 3\nfill 2 2 3 1 11 1\nfill 2 3 4 2 11 1\nfill 1 1 5 3 11 1\nend\n";

/// Both strands claim a point; the first one comes to n2 at 4, which the second has claimed, and leaves it. The second fills all that
/// it needs, and lets the first out, which fills its own.
#[test]
fn a_strand_waits_for_a_point_that_another_has_claimed(rt: HostRuntime) -> Result<(), Fail> {
    let gate = Meeting {
        zero: Visits::new(),
        one: Visits::new(),
        gave_up: AtomicU64::new(0),
    };
    let words = ["n", "t", "s", "j", "--workers", "2", "--shards", "1"];
    let wrote = run(&rt, rt.alloc(), &words, CHAIN, b"at n3 5\nat n2 4\n", &gate)?;
    assert_eq!(rt; gate.gave_up.load(Ordering::SeqCst), 0);
    assert_eq!(rt; wrote.status, Status::Ended);
    assert!(rt; wrote.replies.as_slice() == b"at n3 5 1\nat n2 4 1\n".as_slice());
    let journal = wrote.journal.as_slice();
    assert!(rt; journal == FIRST_BEGINS || journal == SECOND_BEGINS);
    Ok(())
}

/// A gate that sends each worker away before its first turn, and counts them.
#[derive(Drop)]
struct Closed {
    sent: AtomicU64,
}

impl Gate for Closed {
    ghost is_open = { λ _. false };

    fn turns_before(&self) -> u32 {
        0
    }

    fn before(&self, _worker: u32) -> Pass {
        self.sent.fetch_add(1, Ordering::SeqCst);
        Pass::Leave
    }

    fn within(&self, _worker: u32, _shard: u32) {}
}

/// Settlement does all that the workers leave.
#[test]
fn workers_that_are_sent_away_leave_the_same_replies(rt: HostRuntime) -> Result<(), Fail> {
    let gate = Closed {
        sent: AtomicU64::new(0),
    };
    let words = ["n", "t", "s", "j", "--workers", "2"];
    let wrote = run(&rt, rt.alloc(), &words, CHAIN, b"at n3 5\nat n2 4\n", &gate)?;
    assert!(rt; gate.sent.load(Ordering::SeqCst) > 0);
    assert_eq!(rt; wrote.status, Status::Ended);
    assert!(rt; wrote.replies.as_slice() == b"at n3 5 1\nat n2 4 1\n".as_slice());
    Ok(())
}
