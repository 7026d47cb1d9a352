//! Sessions over objects in memory.

ghost use Rattle.std.specs.Prelude.{◌≡◌, ◌<◌, IfOk};

use crate::serve::serve;
use crate::status::Status;
use backsim_io::{Files, MemFiles, MemSink, MemSource, Sink, Source};
use std::alloc::Global;
use std::sync::Wait;
use std::test::Fail;
use std::thread::Threads;
use texts::Text;
use worker_gate::OpenGate;

/// An object that a session is served over.
#[derive(Clone, Copy, PartialEq, Eq)]
pub enum Object {
    Files,
    Script,
    Replies,
}

/// How a session ended, and what it wrote.
#[derive(Drop)]
pub struct Left {
    pub status: Status,
    pub replies: Vec<u8>,
    pub journal: Vec<u8>,
    /// The first dump.
    pub dump: Vec<u8>,
}

pub fn file(alloc: Global, name: &[u8], bytes: &[u8]) -> Result<(Text, Vec<u8>), Fail> {
    Ok((Text::from_bytes(alloc, name)?, bytes.to_vec(alloc)?))
}

/// One inverter with a delay of 3, whose input is 0 from 0 on and 1 from 5 on.
fn inverter(alloc: Global) -> Result<Vec<(Text, Vec<u8>)>, Fail> {
    let mut held = Vec::new(alloc);
    held.push(file(alloc, b"n", b"INPUT(a)\nOUTPUT(y)\ny = NOT(a)\n")?)?;
    held.push(file(alloc, b"t", b"default 3\n")?)?;
    held.push(file(alloc, b"s", b"horizon 10\nset a 0 0\nset a 5 1\n")?)?;
    Ok(held)
}

/// The files of the inverter, of which these calls fail.
pub fn files_of(alloc: Global, failing: Vec<u64>) -> Result<MemFiles, Fail>
    ensures started { IfOk result (λ files. (⟦<MemFiles as Files>⟧.state files).started ≡ 0) }
    ensures created { IfOk result (λ files. (⟦<MemFiles as Files>⟧.state files).created ≡ 0) }
{
    Ok(MemFiles::new(alloc, inverter(alloc)?, failing))
}

/// How a session of these words ends. It has four workers.
pub fn ends<F: Files, Q: Source, S: Sink, R: Threads + Wait + Sync>(
    rt: &R,
    alloc: Global,
    words: &[&str],
    files: &mut F,
    queries: &mut Q,
    out: &mut S,
) -> Status
    requires started { (F.state files.old).started ≡ 0 }
    requires created { (F.state files.old).created ≡ 0 }
{
    serve(rt, alloc, words, files, queries, out, &OpenGate)
}

/// The numbers of the calls that fail of this object: one, or none where another is to fail.
fn failing(alloc: Global, object: Object, faulty: Object, call: u64) -> Result<Vec<u64>, Fail> {
    let mut calls = Vec::new(alloc);
    if object == faulty {
        calls.push(call)?;
    }
    Ok(calls)
}

/// What was written into the created file at this place; nothing where there is none.
pub fn bytes_in(alloc: Global, files: &MemFiles, place: u32) -> Result<Vec<u8>, Fail> {
    match files.made_file(place) {
        Some(bytes) => Ok(bytes.to_vec(alloc)?),
        None => Ok(Vec::new(alloc)),
    }
}

/// What a session leaves in which this call of an object fails. Script and replies go in pieces of so many bytes.
pub fn left_by<R: Threads + Wait + Sync>(
    rt: &R,
    alloc: Global,
    script: &[u8],
    piece: usize,
    faulty: Object,
    call: u64,
) -> Result<Left, Fail>
    requires { 0 < piece }
{
    let mut files = files_of(alloc, failing(alloc, Object::Files, faulty, call)?)?;
    let script_calls = failing(alloc, Object::Script, faulty, call)?;
    let mut queries = MemSource::new(script.to_vec(alloc)?, piece, script_calls);
    let mut out = MemSink::new(alloc, piece, failing(alloc, Object::Replies, faulty, call)?);
    let status = ends(
        rt,
        alloc,
        &["n", "t", "s", "j"],
        &mut files,
        &mut queries,
        &mut out,
    );
    Ok(Left {
        status,
        replies: out.bytes().to_vec(alloc)?,
        journal: bytes_in(alloc, &files, 0)?,
        dump: bytes_in(alloc, &files, 1)?,
    })
}
