//! The program: it serves queries about the waveforms of a gate-level circuit, and evaluates only what
//! they need.
//!
//! It is given the names of four files: a netlist, its timing, a stimulus, and a journal, which it writes. Standard input is the
//! script, and standard output gets the replies to a batch as soon as its last line was read. A script may ask for dumps of waves,
//! which are files too: at most three of a session, and none under one of the four names. A fault that ends a session, or a lack
//! of memory, is told on standard error, and every end by the exit status.
//!
//! - The crate `circuit_files` reads and joins the three files. The crate `session_loop` reads the script and serves its units, and
//!   the workers of `worker_gate` evaluate what they need.
//! - `serve` is all of it over any files, source and sink. Its contract says which status comes only where
//!   which count of faults rose, and what was written of the files' design and the script where a session
//!   ends or refuses something (`specs/Session`, `specs/Refused`): the replies, the journal, and after it the dumps, which can be
//!   read back. Where a fault or a lack of memory ends it, what was written is a prefix of the same. The contract also says which of
//!   the created files may be unfinished at the end (`specs/Broken`).
//! - `work` is a run of the crate `workload`'s workload: one batch without a script, in place of whose replies one line counts
//!   them (`specs/Work`).
//! - `stopped` ends a session that stopped, where it refuses something by a line, and `status` numbers the ways in which a session ends.
//!
//! ```text
//! $ echo "wave 22 0 11" | backsim c17.bench c17.timing c17.stimulus c17.journal
//! wave 22 0 11
//! 0 x
//! 2 0
//! end
//! ```
#![tactic(auto)]

mod line;
mod serve;
mod status;
mod stopped;
#[cfg(test)]
mod tests;
mod work;

use crate::status::Status;
use backsim_io::{RealFiles, RealSink, RealSource, words_after_name};
use std::process::ExitCode;
use std::sync::Wait;
use std::thread::Threads;
use std::{env, io};
use texts::OutOfMemory;
use worker_gate::OpenGate;

/// Serves the words of the process over the system's files and streams. The workers run on the threads of the handle.
fn run<R: Threads + Wait + Sync>(rt: &HostRuntime, threads: &R) -> Result<Status, OutOfMemory> {
    let all = match env::args(rt) {
        Ok(args) => Ok(args.collect(rt.alloc())?),
        Err(error) => Err(error),
    };
    let given = words_after_name(rt.alloc(), all)?;
    let mut words = Vec::new(rt.alloc());
    for word in &given {
        words.push(word.as_str())?;
    }
    let Ok(own) = rt.clone() else {
        return Err(OutOfMemory);
    };
    let mut files = RealFiles::new(own);
    let mut queries = RealSource::new(rt.reader());
    let mut out = RealSink::new(io::writer(rt));
    Ok(serve::serve(
        threads,
        rt.alloc(),
        &words,
        &mut files,
        &mut queries,
        &mut out,
        &OpenGate,
    ))
}

fn main(rt: HostRuntime) -> ExitCode {
    let status = run(&rt, &rt).unwrap_or(Status::OutOfMemory);
    let _ = match status {
        Status::ReadFault(input) => eprintln!(rt; "backsim: read fault: {}", input.name()),
        Status::WriteFault(output) => eprintln!(rt; "backsim: write fault: {}", output.name()),
        Status::FileFault(file) => eprintln!(rt; "backsim: file fault: {}", file.name()),
        Status::OutOfMemory => eprintln!(rt; "backsim: out of memory"),
        _ => Ok(()),
    };
    ExitCode::from(status.number())
}
