//! Sessions whose script and replies share a count: what is replied before the script is asked for again.

use super::objects::{ends, files_of};
use crate::status::Status;
use backsim_io::{Failed, MemSink, MemSource, Sink, Source};
use std::alloc::Global;
use std::sync::Wait;
use std::sync::atomic::{AtomicU64, Ordering};
use std::test::Fail;
use std::thread::Threads;

/// What the script and the sink share: how many bytes were replied, how often the script was asked for, and how many bytes had been
/// replied when it was for the second and the third time.
#[derive(Drop)]
struct Shared {
    replied: AtomicU64,
    reads: AtomicU64,
    at_second: AtomicU64,
    at_third: AtomicU64,
}

/// A script that looks at what was replied when it is asked for.
#[derive(Drop)]
struct SharingSource<'a> {
    source: MemSource,
    shared: &'a Shared,
}

impl Source for SharingSource<'_> {
    ghost state = { λ s. ⟦<MemSource as Source>⟧.state s.source };

    fn read(&mut self, into: &mut [u8]) -> Result<usize, Failed> {
        let replied = self.shared.replied.load(Ordering::SeqCst);
        let earlier = self.shared.reads.fetch_add(1, Ordering::SeqCst);
        if earlier == 1 {
            self.shared.at_second.store(replied, Ordering::SeqCst);
        }
        if earlier == 2 {
            self.shared.at_third.store(replied, Ordering::SeqCst);
        }
        self.source.read(into)
    }
}

/// A sink that counts what it takes.
#[derive(Drop)]
struct SharingSink<'a> {
    sink: MemSink,
    shared: &'a Shared,
}

impl Sink for SharingSink<'_> {
    ghost written = { λ s. ⟦<MemSink as Sink>⟧.written s.sink };

    ghost faults = { λ s. ⟦<MemSink as Sink>⟧.faults s.sink };

    fn write(&mut self, piece: &[u8]) -> Result<usize, Failed> {
        let taken = self.sink.write(piece)?;
        self.shared
            .replied
            .fetch_add(taken as u64, Ordering::SeqCst);
        Ok(taken)
    }
}

/// How a session ended, how often its script was asked for, and how many bytes had been replied before the second and the third time.
#[derive(Clone, Copy, Debug, PartialEq, Eq)]
struct Order {
    status: Status,
    reads: u64,
    at_second: u64,
    at_third: u64,
}

/// Serves a script of two pieces of 19 bytes: the lines of a batch and of a trim, which ends it, and blanks before a request for the
/// counts.
fn served_in_pieces<R: Threads + Wait + Sync>(rt: &R, alloc: Global) -> Result<Order, Fail> {
    let shared = Shared {
        replied: AtomicU64::new(0),
        reads: AtomicU64::new(0),
        at_second: AtomicU64::new(0),
        at_third: AtomicU64::new(0),
    };
    let script = b"wave y 0 11\ntrim 1\n             stats\n".to_vec(alloc)?;
    let mut queries = SharingSource {
        source: MemSource::new(script, 19, Vec::new(alloc)),
        shared: &shared,
    };
    let mut out = SharingSink {
        sink: MemSink::new(alloc, 7, Vec::new(alloc)),
        shared: &shared,
    };
    let mut files = files_of(alloc, Vec::new(alloc))?;
    let words = ["n", "t", "s", "j"];
    let status = ends(rt, alloc, &words, &mut files, &mut queries, &mut out);
    Ok(Order {
        status,
        reads: shared.reads.load(Ordering::SeqCst),
        at_second: shared.at_second.load(Ordering::SeqCst),
        at_third: shared.at_third.load(Ordering::SeqCst),
    })
}

/// The replies to the wave and the trim have 38 bytes (`wave y 0 11`, `0 x`, `3 1`, `8 0`, `end`, `trimmed 1`), and the line of counts has
/// 44 (`stats batches 1 fills 2 evictions 1 cells 1`).
#[test]
fn each_piece_is_answered_before_the_next_is_read(rt: HostRuntime) -> Result<(), Fail> {
    let order = served_in_pieces(&rt, rt.alloc())?;
    assert_eq!(rt; order.status, Status::Ended);
    assert_eq!(rt; order.reads, 3);
    assert_eq!(rt; order.at_second, 38);
    assert_eq!(rt; order.at_third, 82);
    Ok(())
}
