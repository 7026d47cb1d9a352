//! A run of the workload, from its number to the status.

ghost use Rattle.std.specs.Prelude.{◌≡◌, ◌<◌, ◌≤◌, Contains, IfErr, IfOk, IfSome, filter, length, string_bytes};
ghost use Rattle.backsim_io.specs.FilesInMemory.{SameMade};
ghost use Rattle.backsim_io.specs.State.{SourceState};
ghost use Rattle.session_loop.specs.Halting as session;
ghost use Rattle.session_loop.specs.Halting.{WroteJournal, IsWorkHalted};
ghost use Rattle.session_loop.specs.Outside.{JournalChanges};
ghost use Rattle.workload.specs.Workload.{IsWork};
ghost use Rattle.backsim.specs.Serves.{ServesWorkload};
ghost use Rattle.backsim.specs.Seen.{seen_of};
ghost use Rattle.backsim.specs.Work as work;
ghost use Rattle.backsim.specs.Work.{counts_line, work_line, runs_in, setup_of_work};
ghost use Rattle.backsim.specs.inner.Work.{EndsWork, IsLineTold, of_line};
ghost use Rattle.backsim.specs.declared.work.LineStop.TheVariants.{OutOfMemory as out_of_memory};

use crate::status::{NamedFile, Output, Status};
use backsim_io::{Files, Sink, write_all};
use gate_values::Value;
use query_lines::script_units_are_fit;
use reply_lines::{Outcome, Reply};
use session_loop::{JournalHalt, Service, finish_journal, serve_work};
use std::alloc::{AllocError, Global};
use std::mem;
use std::sync::Wait;
use std::thread::Threads;
use texts::OutOfMemory;
use unit_answers::Sizes;
use window_walks::Run;
use worker_gate::{Gate, Workers};
use workload::{Work, workload};

/// The horizon of every workload. That its stimulus text names it isn't proved, so it is looked at.
const HORIZON: u32 = 100_000;

/// Why the line of a workload is not written.
#[derive(Clone, Copy, Debug, PartialEq, Eq)]
pub enum LineStop {
    /// A write failed.
    Unwritten,
    /// There is no memory, or a count is too great for its type.
    OutOfMemory,
}

impl From<AllocError> for LineStop {
    ghost from_gives = { λ _ stop. stop ≡ out_of_memory };

    fn from(_: AllocError) -> LineStop {
        LineStop::OutOfMemory
    }
}

impl From<LineStop> for Status {
    ghost from_gives = { λ stop status. status ≡ of_line stop };

    fn from(stop: LineStop) -> Status {
        match stop {
            LineStop::Unwritten => Status::WriteFault(Output::Replies),
            LineStop::OutOfMemory => Status::OutOfMemory,
        }
    }
}

/// What the words of a workload ask for.
#[derive(Clone, Copy)]
pub struct Workload<'a> {
    pub number: u32,
    pub journal: &'a str,
    pub workers: u32,
}

/// Serves the workload of this number, of 31 bits. In place of the replies one line is written, which counts them; then the journal is
/// finished.
pub fn serve_workload<F: Files, S: Sink, G: Gate, R: Threads + Wait + Sync>(
    rt: &R,
    alloc: Global,
    asked: &Workload<'_>,
    files: &mut F,
    out: &mut S,
    gate: &G,
) -> Status
    requires number { asked.now.number ≤ 2147483647 }
    requires started { (F.state files.old).started ≡ 0 }
    requires created { (F.state files.old).created ≡ 0 }
    requires workers { (0 < asked.now.workers) × (asked.now.workers ≤ 64) }
    ensures no_usage { ¬ (result ≡ Status.Words) }
    ensures serves { (script : SourceState) → ServesWorkload asked.now.number asked.now.journal.now
        (seen_of (F.state files.old) (F.made files.old) script (S.faults out.old) (S.written out.old))
        (seen_of (F.state files.new) (F.made files.new) script (S.faults out.new) (S.written out.new))
        result }
{
    let Ok(work) = drawn_work(alloc, asked.number) else {
        return Status::OutOfMemory;
    };
    let status = match answer_work(rt, alloc, asked, &work, files, gate) {
        Ok(replies) => end_work(alloc, asked.number, &replies, files, out),
        Err(halt) => Status::from(halt),
    };
    // its memory goes with the process
    mem::forget(work);
    status
}

/// The workload with this number, if there is memory for it and its horizon is that of every workload.
fn drawn_work(alloc: Global, number: u32) -> Result<Work, OutOfMemory>
    requires { number ≤ 2147483647 }
    ensures work { IfOk result (IsWork number) }
    ensures horizon { IfOk result (λ work. work.design.circuit.horizon ≡ 100000) }
{
    let work = workload(alloc, number)?;
    if work.design.horizon() != HORIZON {
        return Err(OutOfMemory);
    }
    Ok(work)
}

/// Answers the items of a workload as one batch, and hands back the replies. The journal is left to be finished.
fn answer_work<F: Files, G: Gate, R: Threads + Wait + Sync>(
    rt: &R,
    alloc: Global,
    asked: &Workload<'_>,
    work: &Work,
    files: &mut F,
    gate: &G,
) -> Result<Vec<Reply>, JournalHalt>
    requires work { IsWork asked.now.number work.now }
    requires horizon { work.now.design.circuit.horizon ≡ 100000 }
    requires created { (F.state files.old).created ≡ 0 }
    requires workers { (0 < asked.now.workers) × (asked.now.workers ≤ 64) }
    ensures worked { IfOk result (λ replies. WroteJournal
        (session.IsWork (setup_of_work work.now) work.now.items replies.items) asked.now.journal.now
        (F.made files.old) (F.made files.new)) }
    ensures halted { IfErr result (IsWorkHalted (setup_of_work work.now) work.now.items
        asked.now.journal.now (F.made files.old) (F.made files.new)) }
    ensures state { JournalChanges (F.state files.old) (F.state files.new) result }
{
    script_units_are_fit();
    let crew = Workers::new(rt, gate, asked.workers);
    let sizes = Sizes {
        shards: 8,
        cells: 16_384,
    };
    let service = Service {
        alloc,
        design: &work.design,
        sizes,
    };
    let items = work.items.as_slice();
    let done = serve_work(&crew, &service, items, asked.journal, files)?;
    // their memory goes with the process
    mem::forget(done.stores);
    Ok(done.replies)
}

/// Writes the line that counts the replies, and then finishes the journal.
fn end_work<F: Files, S: Sink>(
    alloc: Global,
    number: u32,
    replies: &[Reply],
    files: &mut F,
    out: &mut S,
) -> Status
    requires unfinished { Contains (F.state files.old).unfinished 0 }
    ensures made { SameMade (F.made files.old) (F.made files.new) }
    ensures ends { EndsWork (work_line number replies.now) (F.state files.old) (F.state files.new)
        (S.faults out.old) (S.written out.old) (S.faults out.new) (S.written out.new) result }
{
    match tell_counts(alloc, number, replies, out) {
        Ok(()) => match finish_journal(files) {
            Ok(()) => Status::Ended,
            Err(_) => Status::FileFault(NamedFile::Journal),
        },
        Err(stop) => Status::from(stop),
    }
}

/// Writes the line that counts the replies.
fn tell_counts<S: Sink>(
    alloc: Global,
    number: u32,
    replies: &[Reply],
    out: &mut S,
) -> Result<(), LineStop>
    ensures { IsLineTold (work_line number replies.now) result
        (S.faults out.old) (S.written out.old) (S.faults out.new) (S.written out.new) }
{
    let (Some(runs), Some(ones)) = (run_count(replies), one_count(replies)) else {
        return Err(LineStop::OutOfMemory);
    };
    let text = line_text(alloc, number, runs, ones)?;
    match write_all(out, text.as_bytes()) {
        Ok(()) => Ok(()),
        Err(_) => Err(LineStop::Unwritten),
    }
}

fn line_text(alloc: Global, number: u32, runs: u64, ones: u64) -> Result<String, AllocError>
    ensures { IfOk result (λ text. string_bytes text ≡ counts_line number runs ones) }
{
    format!(in alloc; "work {number} replies 16 lines {runs} ones {ones}\n")
}

/// How many runs the waves have, if that is a number.
fn run_count(replies: &[Reply]) -> Option<u64>
    ensures { IfSome result (λ n. n ≡ work.run_count replies.now) }
{
    let mut runs = 0u64;
    for reply in replies {
        runs = runs.checked_add(runs_of(reply))?;
    }
    Some(runs)
}

/// How many of their runs have the value 1, if that is a number.
fn one_count(replies: &[Reply]) -> Option<u64>
    ensures { IfSome result (λ n. n ≡ work.one_count replies.now) }
{
    let mut ones = 0u64;
    for reply in replies {
        ones = ones.checked_add(ones_of(reply))?;
    }
    Some(ones)
}

fn runs_of(reply: &Reply) -> u64
    ensures { result ≡ length (runs_in reply.now) }
{
    match reply {
        Reply::Window(Outcome::Answer(runs)) => runs.as_slice().len() as u64,
        _ => 0,
    }
}

fn ones_of(reply: &Reply) -> u64
    ensures { result ≡ work.ones_in reply.now }
{
    match reply {
        Reply::Window(Outcome::Answer(runs)) => ones_among(runs.as_slice()),
        _ => 0,
    }
}

fn ones_among(runs: &[Run]) -> u64
    ensures { result ≡ length (filter work.is_one runs.now) }
{
    runs.iter().filter(|run| is_one(run)).count() as u64
}

fn is_one(run: &Run) -> bool
    ensures { result ≡ work.is_one run.now }
{
    run.value == Value::One
}
