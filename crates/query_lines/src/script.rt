//! A script, read a byte at a time.

ghost use Rattle.std.specs.Prelude.{◌≡◌, ◌<◌, ◌≤◌, ◌+◌, ◌++◌, ◌∷◌, [], ℕ, List, length, All, IfOk, OnErr};
ghost use Rattle.query_lines.specs.Laws.{IsWithinLimits};
ghost use Rattle.query_lines.specs.Cutting.{IsUnderWay};
ghost use Rattle.query_lines.specs.Lines.{line_of};
ghost use Rattle.query_lines.specs.Reading.{script_units};
ghost use Rattle.query_lines.specs.Readers.{HasRead};
ghost use Rattle.query_lines.specs.inner.Reading.{ReadsLine};
ghost use Rattle.query_lines.specs.Units.{closed_unit};
ghost use Rattle.query_lines.specs.declared.unit.Unit.{Unit as ScriptUnit};

use crate::batcher::Batcher;
use crate::cutter::LineCutter;
use crate::line::{Line, read_line};
use crate::unit::UnitList;
use std::alloc::Global;
use std::marker::Model;
use texts::OutOfMemory;

/// Reads a script a byte at a time, and gives each unit as soon as the line
/// that completes it has ended.
#[derive(Drop)]
pub struct ScriptReader {
    alloc: Global,
    cutter: LineCutter,
    batcher: Batcher,
    lines: u32,
}

impl Model for ScriptReader {
    ghost use Rattle.query_lines.specs.Readers.{Reader};

    ghost Value = { Reader };

    ghost view = { λ r. record { cutter = r.cutter; pending = r.batcher; lines = r.lines } };
}

impl ScriptReader {
    /// A reader at the start of a script, for a simulation up to this horizon.
    pub fn new(alloc: Global, horizon: u32) -> ScriptReader
        ensures { HasRead horizon [] [] result }
    {
        ScriptReader {
            alloc,
            cutter: LineCutter::new(),
            batcher: Batcher::new(alloc, horizon),
            lines: 0,
        }
    }

    /// Takes the next byte, and gives the units that it completes. If memory runs out, the byte is not
    /// taken, and the reader is as it was.
    pub fn take(&mut self, byte: u8) -> Result<UnitList, OutOfMemory>
        requires { self.old.lines < 4294967295 }
        ensures read { (horizon : ℕ) (script : List ℕ) (given : List ScriptUnit)
            → HasRead horizon script given self.old
            → IfOk result (λ units. HasRead horizon (script ++ byte ∷ []) (given ++ units)
            self.new) }
        ensures within { (horizon : ℕ) (script : List ℕ) (given : List ScriptUnit)
            → HasRead horizon script given self.old
            → horizon ≤ 1000000 → IfOk result (All (IsWithinLimits horizon)) }
        ensures err { OnErr result (self.new ≡ self.old) }
    {
        if byte != b'\n' {
            self.cutter.take(byte);
            return Ok(UnitList::from_vec(Vec::new(self.alloc)));
        }
        // The line is read before its end is given to the cutter, so a failure does not lose it.
        let units = self.read_under_way()?;
        self.cutter.take(byte);
        Ok(units)
    }

    /// Ends the script, and gives the units that are left.
    pub fn end(self) -> Result<UnitList, OutOfMemory>
        requires { self.lines < 4294967295 }
        ensures whole { (horizon : ℕ) (script : List ℕ) (given : List ScriptUnit)
            → HasRead horizon script given self
            → IfOk result (λ units. script_units horizon script ≡ given ++ units) }
        ensures within { (horizon : ℕ) (script : List ℕ) (given : List ScriptUnit)
            → HasRead horizon script given self
            → horizon ≤ 1000000 → IfOk result (All (IsWithinLimits horizon)) }
    {
        let mut reader = self;
        let units = reader.read_last()?;
        reader.close(units)
    }

    // Reads the last line, which no line feed ends, if it has a byte.
    fn read_last(&mut self) -> Result<UnitList, OutOfMemory>
        requires { self.old.lines < 4294967295 }
        ensures { (horizon : ℕ) (script : List ℕ) (given : List ScriptUnit)
            → HasRead horizon script given self.old
            → IfOk result (λ units. script_units horizon script
            ≡ given ++ (units ++ closed_unit self.new.pending.items)) }
    {
        if self.cutter.is_empty() {
            return Ok(UnitList::from_vec(Vec::new(self.alloc)));
        }
        self.read_under_way()
    }

    // Appends the pending batch to these units.
    fn close(&mut self, units: UnitList) -> Result<UnitList, OutOfMemory>
        ensures { IfOk result (λ all. all ≡ units ++ closed_unit self.old.pending.items) }
    {
        let mut units = units.into_vec();
        if let Some(batch) = self.batcher.end() {
            units.push(batch)?;
        }
        Ok(UnitList::from_vec(units))
    }

    // Reads the current line as one that ends here. The cutter keeps it.
    fn read_under_way(&mut self) -> Result<UnitList, OutOfMemory>
        requires { self.old.lines < 4294967295 }
        ensures read { (line : List ℕ) → IsUnderWay line self.old.cutter
            → IfOk result (ReadsLine line self.old self.new) }
        ensures err { OnErr result (self.new ≡ self.old) }
    {
        let line = line_under_way(self.alloc, &self.cutter)?;
        let units = self.batcher.take(self.lines + 1, line)?;
        self.lines += 1;
        Ok(units)
    }
}

// What the current line says.
fn line_under_way(alloc: Global, cutter: &LineCutter) -> Result<Line, OutOfMemory>
    ensures { (bytes : List ℕ) → IsUnderWay bytes cutter.now
        → IfOk result (λ line. line ≡ line_of bytes) }
{
    match cutter.line() {
        Some(text) => read_line(alloc, text),
        None => Ok(Line::Bad),
    }
}

/// The units of a whole script in memory.
pub fn read_script(alloc: Global, horizon: u32, script: &[u8]) -> Result<UnitList, OutOfMemory>
    requires { length script.now < 4294967295 }
    ensures { IfOk result (λ units. units ≡ script_units horizon script.now) }
{
    let mut reader = ScriptReader::new(alloc, horizon);
    let mut units = Vec::new(alloc);
    for byte in script {
        let mut completed = reader.take(*byte)?.into_vec();
        units.append(&mut completed)?;
    }
    let mut left = reader.end()?.into_vec();
    units.append(&mut left)?;
    Ok(UnitList::from_vec(units))
}
