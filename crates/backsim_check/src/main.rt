//! The program that checks explanations: whether a signal of a circuit has a value at a time, as a proof claims.
//!
//! A proof is a text that says line by line why a signal has a value at a time (`why_proofs`). It may come from any source. The program
//! simulates nothing: it looks at each line once. It takes the names of four files: a netlist, its timing, a stimulus, and the proof. It
//! writes one line to standard output, nothing to standard error, and ends with a status.
//!
//! ```text
//! $ backsim_check chain.bench chain.timing chain.stim chain.proof
//! yes n3 6 1
//! ```
//!
//! [`check`] is all that it does, over any files and any sink. `main` hands it the words, the system's files and standard output, of which
//! only the counts of faults are known. The call reads the three files and joins them (`circuit_files`). Then it reads the proof
//! (`src/reading.rt`) and judges it (`src/judging.rt`, by `why_proofs`). It writes one line (`src/lines.rt`) and returns a [`CheckStatus`],
//! whose number is the exit status of the program.
//!
//! | status | exactly when | written |
//! |---|---|---|
//! | `Yes` | the text is one justified proof | `yes NAME T V`, its claim |
//! | `Words` | there are not four words | the usage text |
//! | `Refused` | a file or the join is refused, or the proof has more than 268,435,456 bytes | its line |
//! | `No` | the text is no justified proof | `no line L`, its first line that is not; `bad line L`, where it stops being a proof |
//!
//! A fault or a lack of memory may end the call early. `ReadFault`, `WriteFault` and `FileFault` come only if the count of their kind rose,
//! or stands at its greatest value.
//!
//! Further guarantees (`specs/Checks` has all):
//!
//! - **`yes NAME T V` is true**: in forward simulation of the circuit of the three files the signal NAME has the value V at the time T,
//!   whoever wrote the proof. This holds even if the proof is unknown.
//! - The refusal of a file is reported whatever the later files hold, even if they are missing or cannot be read, since no later file is
//!   opened. The proof comes last.
//! - If the line could not be written, a part of it was. Under the other faults, and for lack of memory, nothing is written. Of the files
//!   only the number opened, the bytes left and the count that rose change.
//!
//! The call takes the time of the readers and of the join, and O(n log n) for a proof of n bytes.
#![tactic(auto)]

mod checking;
mod judging;
mod lines;
mod reading;
mod status;

use backsim_io::{RealFiles, RealSink, words_after_name};
pub use checking::check;
pub use status::CheckStatus;
use std::process::ExitCode;
use std::{env, io};
use texts::OutOfMemory;

/// Checks the proof that the words of the process name, over the system's files and standard output.
fn run(rt: &HostRuntime) -> Result<CheckStatus, OutOfMemory> {
    let all = match env::args(rt) {
        Ok(args) => Ok(args.collect(rt.alloc())?),
        Err(error) => Err(error),
    };
    let given = words_after_name(rt.alloc(), all)?;
    let mut words = Vec::new(rt.alloc());
    for word in &given {
        words.push(word.as_str())?;
    }
    let Ok(own) = rt.clone() else {
        return Err(OutOfMemory);
    };
    let mut files = RealFiles::new(own);
    let mut out = RealSink::new(io::writer(rt));
    Ok(check(rt.alloc(), &words, &mut files, &mut out))
}

fn main(rt: HostRuntime) -> ExitCode {
    let status = run(&rt).unwrap_or(CheckStatus::OutOfMemory);
    ExitCode::from(status.number())
}
