//! One session, from the words to the status.

ghost use Rattle.std.specs.Prelude.{◌≡◌, ◌<◌, ◌≤◌, ℕ, List, Some, None, map};
ghost use Rattle.backsim_io.specs.FilesInMemory.{ConsumesUpTo};
ghost use Rattle.command_words.specs.Words.{words_of};
ghost use Rattle.backsim.specs.Commands.{command_of, OnNoSession};
ghost use Rattle.backsim.specs.Serves.{Serves, ServesSession};
ghost use Rattle.backsim.specs.Seen.{seen_of};

use crate::line::{USAGE, tell};
use crate::status::Status;
use crate::stopped::{end_files, end_halted};
use crate::work::{Workload, serve_workload};
use backsim_io::{Files, Sink, Source};
use circuit_files::read_design;
use command_words::{Words, read_words};
use session_loop::{Service, serve_session};
use session_meaning::sessions_are_whole;
use std::alloc::Global;
use std::mem;
use std::sync::Wait;
use std::thread::Threads;
use unit_answers::Sizes;
use worker_gate::{Gate, Workers};

/// What the words of a session ask for.
#[derive(Clone, Copy)]
struct Session<'a> {
    netlist: &'a str,
    timing: &'a str,
    stimulus: &'a str,
    journal: &'a str,
    workers: u32,
    sizes: Sizes,
}

/// Serves a session over four files.
fn serve_files<F: Files, Q: Source, S: Sink, G: Gate, R: Threads + Wait + Sync>(
    rt: &R,
    alloc: Global,
    asked: &Session<'_>,
    files: &mut F,
    queries: &mut Q,
    out: &mut S,
    gate: &G,
) -> Status
    requires started { (F.state files.old).started ≡ 0 }
    requires created { (F.state files.old).created ≡ 0 }
    requires workers { (0 < asked.now.workers) × (asked.now.workers ≤ 64) }
    requires shards { (0 < asked.now.sizes.shards) × (asked.now.sizes.shards ≤ 64) }
    requires cells { (0 < asked.now.sizes.cells) × (asked.now.sizes.cells ≤ 65536) }
    ensures serves { let asks = asked.now in
        let sizes = asks.sizes in
        ServesSession
        (command_of asks.netlist.now asks.timing.now asks.stimulus.now asks.journal.now
        asks.workers sizes.shards sizes.cells)
        (seen_of (F.state files.old) (F.made files.old) (Q.state queries.old) (S.faults out.old) (S.written out.old))
        (seen_of (F.state files.new) (F.made files.new) (Q.state queries.new) (S.faults out.new) (S.written out.new))
        result }
    ensures at_most { (script : List ℕ) → (Q.state queries.old).left ≡ Some script
        → ConsumesUpTo (Some script) (Q.state queries.new).left 16777217 }
{
    let Session {
        netlist,
        timing,
        stimulus,
        journal,
        workers,
        sizes,
    } = *asked;
    let design = match read_design(alloc, netlist, timing, stimulus, files) {
        Ok(design) => design,
        Err(stop) => return end_files(alloc, stop, out),
    };
    design.facts();
    sessions_are_whole();
    let crew = Workers::new(rt, gate, workers);
    let service = Service {
        alloc,
        design: &design,
        sizes,
    };
    let inputs = [netlist, timing, stimulus];
    match serve_session(&crew, &service, &inputs, journal, files, queries, out) {
        Ok(stores) => {
            // their memory goes with the process
            mem::forget(stores);
            mem::forget(design);
            Status::Ended
        }
        Err(halt) => end_halted(halt, out),
    }
}

/// Serves what the words ask for. What it promises is told by what they ask for (`specs/Serves`); no clause names the number of
/// workers but as a part of the words, so it is promised for every number and under every order of their steps. With one worker the
/// functions that make a batch's turns cannot wait (`worker_gate`), so these are proved to end.
pub fn serve<F: Files, Q: Source, S: Sink, G: Gate, R: Threads + Wait + Sync>(
    rt: &R,
    alloc: Global,
    words: &[&str],
    files: &mut F,
    queries: &mut Q,
    out: &mut S,
    gate: &G,
) -> Status
    requires started { (F.state files.old).started ≡ 0 }
    requires created { (F.state files.old).created ≡ 0 }
    ensures serves { Serves (words_of (map (λ word. word.now) words.now))
        (seen_of (F.state files.old) (F.made files.old) (Q.state queries.old) (S.faults out.old) (S.written out.old))
        (seen_of (F.state files.new) (F.made files.new) (Q.state queries.new) (S.faults out.new) (S.written out.new))
        result }
    ensures at_most { (script : List ℕ) → (Q.state queries.old).left ≡ Some script
        → ConsumesUpTo (Some script) (Q.state queries.new).left 16777217 }
    ensures no_script { OnNoSession (queries.new ≡ queries.old)
        (words_of (map (λ word. word.now) words.now)) }
    ensures no_files { words_of (map (λ word. word.now) words.now) ≡ None
        → files.new ≡ files.old }
{
    match read_words(alloc, words) {
        Err(_) => Status::OutOfMemory,
        Ok(None) => tell(USAGE, Status::Words, out),
        Ok(
            Some(
                Words::Session {
                    netlist,
                    timing,
                    stimulus,
                    journal,
                    workers,
                    shards,
                    cells,
                },
            ),
        ) => {
            let asked = Session {
                netlist,
                timing,
                stimulus,
                journal,
                workers,
                sizes: Sizes { shards, cells },
            };
            serve_files(rt, alloc, &asked, files, queries, out, gate)
        }
        Ok(
            Some(
                Words::Workload {
                    number,
                    journal,
                    workers,
                },
            ),
        ) => {
            let asked = Workload {
                number,
                journal,
                workers,
            };
            serve_workload(rt, alloc, &asked, files, out, gate)
        }
    }
}
