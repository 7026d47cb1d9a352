//! A call, from the words to the status.

ghost use Rattle.std.specs.Prelude.{◌≡◌, map, length};
ghost use Rattle.backsim_io.specs.FilesInMemory.{SameMade};
ghost use Rattle.backsim_check.specs.Checks.{IsTold, ChecksProof, Checks};
ghost use Rattle.backsim_check.specs.Given.{names_of};
ghost use Rattle.backsim_check.specs.Seen.{output_of, seen_of};
ghost use Rattle.backsim_check.specs.inner.Judged.{Judges};

use crate::judging::{Verdict, verdict_of, verdict_on_stop};
use crate::lines::USAGE;
use crate::reading::read_all;
use crate::status::CheckStatus;
use backsim_io::{Files, Sink, write_all};
use std::alloc::Global;
use why_proofs::verdicts_are_fixed;

/// Judges the proof in the fourth file against the circuit of the other three.
fn judge<F: Files>(
    alloc: Global,
    netlist: &str,
    timing: &str,
    stimulus: &str,
    proof: &str,
    files: &mut F,
) -> Result<Verdict, CheckStatus>
    requires { (F.state files.old).started ≡ 0 }
    ensures judges { Judges (names_of netlist.now timing.now stimulus.now proof.now)
        (F.state files.old) (F.state files.new) result }
    ensures made { SameMade (F.made files.old) (F.made files.new) }
{
    match read_all(alloc, netlist, timing, stimulus, proof, files) {
        Ok(inputs) => verdict_of(alloc, &inputs.design, &inputs.text),
        Err(stop) => verdict_on_stop(alloc, stop),
    }
}

/// Writes a line. Returns the status that is due if all of it was written.
fn tell<S: Sink>(out: &mut S, line: &[u8], due: CheckStatus) -> CheckStatus
    ensures { IsTold due line.now (output_of (S.written out.old) (S.faults out.old))
        (output_of (S.written out.new) (S.faults out.new)) result }
{
    match write_all(out, line) {
        Ok(()) => due,
        Err(_) => CheckStatus::WriteFault,
    }
}

/// Checks the proof in the fourth file against the circuit of the other three.
fn check_files<F: Files, S: Sink>(
    alloc: Global,
    netlist: &str,
    timing: &str,
    stimulus: &str,
    proof: &str,
    files: &mut F,
    out: &mut S,
) -> CheckStatus
    requires { (F.state files.old).started ≡ 0 }
    ensures { ChecksProof (names_of netlist.now timing.now stimulus.now proof.now)
        (seen_of (F.state files.old) (F.made files.old) (S.written out.old) (S.faults out.old))
        (seen_of (F.state files.new) (F.made files.new) (S.written out.new) (S.faults out.new))
        result }
{
    verdicts_are_fixed();
    match judge(alloc, netlist, timing, stimulus, proof, files) {
        Ok(verdict) => tell(out, &verdict.line, verdict.status),
        Err(status) => status,
    }
}

/// Checks a proof against a circuit. The words name its netlist, its timing file, its stimulus, and the proof. What is promised is told
/// by the words (`specs/Checks`).
pub fn check<F: Files, S: Sink>(
    alloc: Global,
    words: &[&str],
    files: &mut F,
    out: &mut S,
) -> CheckStatus
    requires { (F.state files.old).started ≡ 0 }
    ensures checks { Checks (map (λ word. word.now) words.now)
        (seen_of (F.state files.old) (F.made files.old) (S.written out.old) (S.faults out.old))
        (seen_of (F.state files.new) (F.made files.new) (S.written out.new) (S.faults out.new))
        result }
    ensures no_files { ¬ (length words.now ≡ 4) → files.new ≡ files.old }
{
    match words {
        [netlist, timing, stimulus, proof] => {
            check_files(alloc, netlist, timing, stimulus, proof, files, out)
        }
        _ => tell(out, USAGE, CheckStatus::Words),
    }
}
