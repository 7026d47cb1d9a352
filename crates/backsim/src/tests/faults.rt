//! Each call of each object fails, and what that leaves.

use super::objects::{Left, Object, left_by};
use crate::status::{Input, NamedFile, Output, Status};
use circuit_files::CircuitFile;
use std::alloc::Global;
use std::sync::Wait;
use std::test::Fail;
use std::thread::Threads;

fn script() -> &'static [u8] {
    b"wave y 0 11\ntrim 1\nstats\nvcd w\n"
}

fn replies() -> &'static [u8] {
    b"wave y 0 11\n0 x\n3 1\n8 0\nend\ntrimmed 1\nstats batches 1 fills 2 evictions 1 cells 1\nvcd w wires 1\n"
}

fn journal() -> &'static [u8] {
    b"journal shards 8 cells 16384\nbatch 1\nshard 0\nshard 1\nclaim 1 1 3\nfill 1 1 3 3 8 1\nclaim 1 1 8\nfill 1 1 8 8 11 0\nshard 2\nshard 3\nshard 4\nshard 5\nshard 6\nshard 7\nend\ntrim 2\nshard 0\nshard 1\nevict 1 3\nshard 2\nshard 3\nshard 4\nshard 5\nshard 6\nshard 7\nend\n"
}

fn dump() -> &'static [u8] {
    b"$timescale 1 ns $end\n$scope module top $end\n$var wire 1 ! y $end\n$upscope $end\n$enddefinitions $end\n#0\nx!\n#3\n1!\n#8\n0!\n#11\nx!\n"
}

/// Whether replies, journal and dump are beginnings of those of the whole session.
fn is_beginning(left: &Left) -> bool {
    replies().starts_with(&left.replies)
        && journal().starts_with(&left.journal)
        && dump().starts_with(&left.dump)
}

fn is_whole(left: &Left) -> bool {
    left.replies.as_slice() == replies()
        && left.journal.as_slice() == journal()
        && left.dump.as_slice() == dump()
}

/// Whether this status comes after the last, or is the same.
fn goes_on(seen: &[Status], status: Status) -> bool {
    seen.last() == Some(&status)
}

/// The statuses of the runs in which call 0, 1, 2 and so on of the object fails, up to one that ends well, and how many fail. Of
/// runs one after another that end alike the status is listed once. None where one writes anything but a beginning of what the
/// whole session writes, or the last less than the whole.
fn runs<R: Threads + Wait + Sync>(
    rt: &R,
    alloc: Global,
    faulty: Object,
) -> Result<Option<(Vec<Status>, u64)>, Fail> {
    let mut seen = Vec::new(alloc);
    for call in 0..100u64 {
        let left = left_by(rt, alloc, script(), 7, faulty, call)?;
        if !is_beginning(&left) {
            return Ok(None);
        }
        if !goes_on(&seen, left.status) {
            seen.push(left.status)?;
        }
        if left.status == Status::Ended {
            return Ok(if is_whole(&left) {
                Some((seen, call))
            } else {
                None
            });
        }
    }
    Ok(None)
}

#[test]
fn each_call_of_the_files_fails(rt: HostRuntime) -> Result<(), Fail> {
    let (seen, _) = runs(&rt, rt.alloc(), Object::Files)?.expect(&rt, "beginnings");
    let want = [
        Status::FileFault(NamedFile::Circuit(CircuitFile::Netlist)),
        Status::ReadFault(Input::Circuit(CircuitFile::Netlist)),
        Status::FileFault(NamedFile::Circuit(CircuitFile::Timing)),
        Status::ReadFault(Input::Circuit(CircuitFile::Timing)),
        Status::FileFault(NamedFile::Circuit(CircuitFile::Stimulus)),
        Status::ReadFault(Input::Circuit(CircuitFile::Stimulus)),
        Status::FileFault(NamedFile::Journal),
        Status::WriteFault(Output::Journal),
        Status::FileFault(NamedFile::Vcd),
        Status::WriteFault(Output::Vcd),
        Status::FileFault(NamedFile::Vcd),
        Status::FileFault(NamedFile::Journal),
        Status::Ended,
    ];
    assert!(rt; seen.as_slice() == want.as_slice());
    Ok(())
}

/// The 31 bytes come in five reads, and a sixth finds the end.
#[test]
fn each_call_of_the_script_fails(rt: HostRuntime) -> Result<(), Fail> {
    let (seen, failed) = runs(&rt, rt.alloc(), Object::Script)?.expect(&rt, "beginnings");
    let want = [Status::ReadFault(Input::Script), Status::Ended];
    assert!(rt; seen.as_slice() == want.as_slice());
    assert_eq!(rt; failed, 6);
    Ok(())
}

/// The replies have 28, 10, 44 and 14 bytes, which go in four, two, seven and two writes.
#[test]
fn each_call_of_the_replies_fails(rt: HostRuntime) -> Result<(), Fail> {
    let (seen, failed) = runs(&rt, rt.alloc(), Object::Replies)?.expect(&rt, "beginnings");
    let want = [Status::WriteFault(Output::Replies), Status::Ended];
    assert!(rt; seen.as_slice() == want.as_slice());
    assert_eq!(rt; failed, 15);
    Ok(())
}
