//! Reading the three files.

ghost use Rattle.std.specs.Prelude.{◌≡◌, ◌≤◌, ◌+◌, List, ℕ, Some, IfErr, IfOk, vec_len};
ghost use Rattle.backsim_io.specs.FilesInMemory.{SameMade};
ghost use Rattle.design.specs.Join.{design_of};
ghost use Rattle.circuit_files.specs.Changes.{DesignChanges};
ghost use Rattle.circuit_files.specs.Files.{netlist_of, delays_of, settings_of, first_two, design_of_files, or_refusal, refused_join, within_limit};
ghost use Rattle.circuit_files.specs.Stops.{before, IsAnswerOf, AnswersFirst, IsQuiet};
ghost use Rattle.circuit_files.specs.inner.Reading.{AnswersText, IsAt, ReadsContent, TextChanges};

use crate::refusal::{CircuitFile, FileRefusal};
use crate::stop::FilesStop;
use backsim_io::{Files, ReadFile, read_file};
use bench_reader::{Netlist, read_bench};
use design::Design;
use std::alloc::Global;
use stimulus_file::{Stimulus, read_stimulus};
use timing_file::{Timing, read_timing};

const FILE_LIMIT: u32 = 67_108_864;

/// Reads the three files, in this order, and joins them. Parses each before it opens the next.
pub fn read_design<F: Files>(
    alloc: Global,
    netlist: &str,
    timing: &str,
    stimulus: &str,
    files: &mut F,
) -> Result<Design, FilesStop>
    requires { (F.state files.old).started ≡ 0 }
    // For all three files: their design, or the refusal. For the first, or the first two: their refusal, whatever the later files hold.
    ensures design { (first second third : List ℕ)
        → (F.state files.old).bytes netlist.now ≡ Some first
        → (F.state files.old).bytes timing.now ≡ Some second
        → (F.state files.old).bytes stimulus.now ≡ Some third
        → IsAnswerOf result (design_of_files first second third) }
    ensures first { (first : List ℕ) → (F.state files.old).bytes netlist.now ≡ Some first
        → AnswersFirst 1 (F.state files.new).started result (netlist_of first) }
    ensures second { (first second : List ℕ)
        → (F.state files.old).bytes netlist.now ≡ Some first
        → (F.state files.old).bytes timing.now ≡ Some second
        → AnswersFirst 2 (F.state files.new).started result (first_two first second) }
    ensures state { DesignChanges (F.state files.old) (F.state files.new) result }
    ensures made { SameMade (F.made files.old) (F.made files.new) }
{
    let netlist = read_netlist(alloc, files, netlist)?;
    let timing = read_delays(alloc, files, timing)?;
    let stimulus = read_settings(alloc, files, stimulus)?;
    join_contents(alloc, netlist, &timing, &stimulus)
}

/// Reads and parses the netlist, before the other files.
fn read_netlist<F: Files>(alloc: Global, files: &mut F, name: &str) -> Result<Netlist, FilesStop>
    requires { (F.state files.old).started ≡ before CircuitFile.Netlist }
    ensures reads { ReadsContent CircuitFile.Netlist name.now netlist_of
        (F.state files.old) (F.state files.new) result }
    ensures made { SameMade (F.made files.old) (F.made files.new) }
{
    let text = read_text(alloc, files, name, CircuitFile::Netlist)?;
    Ok(read_bench(alloc, &text)?)
}

/// Reads and parses the timing file, after the netlist.
fn read_delays<F: Files>(alloc: Global, files: &mut F, name: &str) -> Result<Timing, FilesStop>
    requires { (F.state files.old).started ≡ before CircuitFile.Timing }
    ensures reads { ReadsContent CircuitFile.Timing name.now delays_of
        (F.state files.old) (F.state files.new) result }
    ensures made { SameMade (F.made files.old) (F.made files.new) }
{
    let text = read_text(alloc, files, name, CircuitFile::Timing)?;
    Ok(read_timing(alloc, &text)?)
}

/// Reads and parses the stimulus, after the two others.
fn read_settings<F: Files>(alloc: Global, files: &mut F, name: &str) -> Result<Stimulus, FilesStop>
    requires { (F.state files.old).started ≡ before CircuitFile.Stimulus }
    ensures reads { ReadsContent CircuitFile.Stimulus name.now settings_of
        (F.state files.old) (F.state files.new) result }
    ensures made { SameMade (F.made files.old) (F.made files.new) }
{
    let text = read_text(alloc, files, name, CircuitFile::Stimulus)?;
    Ok(read_stimulus(alloc, &text)?)
}

/// Joins what the three files hold, or tells the refusal of the first row that does not join.
fn join_contents(
    alloc: Global,
    netlist: Netlist,
    timing: &Timing,
    stimulus: &Stimulus,
) -> Result<Design, FilesStop>
    ensures answer { IsAnswerOf result
        (or_refusal refused_join (design_of netlist timing.now stimulus.now)) }
    ensures quiet { IfErr result IsQuiet }
{
    Ok(Design::join(alloc, netlist, timing, stimulus)?)
}

/// Reads one of the three files when it is its turn.
fn read_text<F: Files>(
    alloc: Global,
    files: &mut F,
    name: &str,
    file: CircuitFile,
) -> Result<Vec<u8>, FilesStop>
    requires { (F.state files.old).started ≡ before file }
    ensures text { (bytes : List ℕ) → (F.state files.old).bytes name.now ≡ Some bytes
        → AnswersText (λ text. text.items) result (within_limit file bytes) }
    ensures within { IfOk result (λ text. vec_len text ≤ 67108864) }
    ensures place { IfErr result (IsAt file) }
    ensures started { (F.state files.new).started ≤ before file + 1 }
    ensures state { TextChanges file (F.state files.old) (F.state files.new) result }
    ensures made { SameMade (F.made files.old) (F.made files.new) }
{
    match read_file(alloc, files, name, FILE_LIMIT) {
        Ok(text) => Ok(text),
        Err(ReadFile::NotOpened) => Err(FilesStop::NotOpened(file)),
        Err(ReadFile::Failed) => Err(FilesStop::Unread(file)),
        Err(ReadFile::TooLong) => Err(FilesStop::Refused(FileRefusal::TooLong(file))),
        Err(ReadFile::OutOfMemory) => Err(FilesStop::OutOfMemory),
    }
}
