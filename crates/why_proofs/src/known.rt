//! The cells of the lines that were accepted, with an index.

ghost use Rattle.std.specs.Prelude.{◌≡◌, ◌≤◌, ◌<◌, ◌++◌, ◌∷◌, [], ℕ, length, List, None, IfSome, MatchOption, OnOk, IfOk};
ghost use Rattle.std.specs.BTreeMap.{get};
ghost use Rattle.circuit_meaning.specs.Circuit.{Circuit, IsCircuit};
ghost use Rattle.circuit_meaning.specs.Cells.{cell_at};
ghost use Rattle.circuit_meaning.specs.Need.{IsEvaluable};
ghost use Rattle.valid_intervals.specs.Cells.{point_cmp};
ghost use Rattle.valid_intervals.specs.declared.SignalCell.{SignalCell};
ghost use Rattle.why_proofs.specs.Spelling.{Proof};
ghost use Rattle.why_proofs.specs.Justified.{answer, line_at, IsJustified, IsClaimed};
ghost use Rattle.design.specs.PinWalks.{IsPoint, IsPinWalk, IsLooking, LooksOn};
ghost use Rattle.why_proofs.specs.Known.{IsTrueCell, AreTrueCells, IsIndexOf, Hears, Rules, Judges, Accepts, place_of};

use crate::cells::CellLine;
use design::{Design, PinWalk};
use gate_values::Value;
use std::alloc::Global;
use std::collections::BTreeMap;
use texts::OutOfMemory;
use valid_intervals::{Cell, Point};

/// Cells of signals, found by the points that they cover.
#[derive(Drop)]
pub struct KnownCells {
    /// Each cell under its signal and first time.
    cells: BTreeMap<Point, Cell>,
}

impl KnownCells {
    /// None is known yet.
    pub fn new(alloc: Global) -> KnownCells
        ensures cells { (c : Circuit) → AreTrueCells c (get point_cmp result.cells) }
        ensures lines { IsIndexOf [] (get point_cmp result.cells) }
    {
        KnownCells {
            cells: BTreeMap::new(alloc),
        }
    }

    /// The cell that covers the point: of those of its signal that begin no later, the last is the only one that can.
    fn find(&self, p: Point) -> Option<Cell>
        ensures cell { (c : Circuit) → IsCircuit c → AreTrueCells c (get point_cmp self.now.cells)
            → IfSome result (λ cell. cell ≡ cell_at c p) }
        ensures line { (c : Circuit) (lines : List SignalCell) → IsCircuit c
            → AreTrueCells c (get point_cmp self.now.cells)
            → IsIndexOf lines (get point_cmp self.now.cells)
            → result ≡ line_at lines p.signal p.time }
    {
        let (first, cell) = self.cells.range(..=p).next_back()?;
        if first.signal == p.signal && cell.covers(p.time) {
            Some(*cell)
        } else {
            None
        }
    }

    /// The base answer of the point, or the known cell that covers it.
    fn answer(&self, design: &Design, p: Point) -> Option<Cell>
        requires point { IsPoint design.now.circuit p }
        requires cells { AreTrueCells design.now.circuit (get point_cmp self.now.cells) }
        ensures cell { IfSome result (λ cell. cell ≡ cell_at design.now.circuit p) }
        ensures answer { (lines : List SignalCell) → IsIndexOf lines (get point_cmp self.now.cells)
            → result ≡ answer design.now.circuit lines p.signal p.time }
    {
        design.facts();
        match design.base(p.signal, p.time) {
            Some(cell) => Some(cell),
            None => self.find(p),
        }
    }

    /// The walk after it has looked at the next pin; None where that pin has no answer.
    fn look(&self, design: &Design, walk: &PinWalk) -> Option<PinWalk>
        requires walk { IsPinWalk design.now.circuit walk.now }
        requires looking { IsLooking design.now.circuit walk.now }
        requires cells { AreTrueCells design.now.circuit (get point_cmp self.now.cells) }
        ensures looks { IfSome result (LooksOn design.now.circuit walk.now) }
        ensures known { (lines : List SignalCell) → IsIndexOf lines (get point_cmp self.now.cells)
            → Hears design.now.circuit (answer design.now.circuit lines) walk.now result }
    {
        let heard = match walk.next_source() {
            None => None,
            Some(source) => Some(self.answer(design, source)?),
        };
        let mut next = *walk;
        next.see(design, heard);
        Some(next)
    }

    /// The cell of the point, by the rules of values and cells; None where a pin that is looked at has no answer.
    fn rule(&self, design: &Design, p: Point) -> Option<Cell>
        requires point { IsPoint design.now.circuit p }
        requires evaluable { IsEvaluable design.now.circuit p.signal p.time }
        requires cells { AreTrueCells design.now.circuit (get point_cmp self.now.cells) }
        ensures rules { (lines : List SignalCell) → IsIndexOf lines (get point_cmp self.now.cells)
            → Rules design.now.circuit (answer design.now.circuit lines) p result }
        ensures cell { IfSome result (λ cell. cell ≡ cell_at design.now.circuit p) }
    {
        design.facts();
        let mut walk = PinWalk::new(design, p);
        'pins: loop {
            if walk.is_done() {
                return Some(walk.cell(design));
            }
            match self.look(design, &walk) {
                None => return None,
                Some(next) => walk = next,
            }
        }
    }

    /// The cell that a line says, where the known cells justify it.
    fn judge(&self, design: &Design, line: &CellLine) -> Option<Cell>
        requires { AreTrueCells design.now.circuit (get point_cmp self.now.cells) }
        ensures judged { (lines : List SignalCell) → IsIndexOf lines (get point_cmp self.now.cells)
            → Judges design.now.circuit lines line.now result }
        ensures said { IfSome result (λ cell. line.now.cell ≡ cell) }
        ensures cell { IfSome result (IsTrueCell design.now.circuit (place_of line.now)) }
    {
        design.facts();
        let netlist = design.netlist();
        let p = Point {
            signal: line.signal(),
            time: line.start(),
        };
        if p.signal >= netlist.signals() || p.time > design.horizon() {
            return None;
        }
        if design.base(p.signal, p.time).is_some() {
            return None;
        }
        let cell = self.rule(design, p)?;
        if line.says(&cell) { Some(cell) } else { None }
    }

    /// Adds a cell at its first time.
    fn insert(&mut self, p: Point, cell: Cell) -> Result<(), OutOfMemory>
        ensures cells { (c : Circuit) → AreTrueCells c (get point_cmp self.old.cells)
            → IsTrueCell c p cell → OnOk result (AreTrueCells c (get point_cmp self.new.cells)) }
        ensures lines { (c : Circuit) (lines : List SignalCell) (x : SignalCell)
            → AreTrueCells c (get point_cmp self.old.cells) → IsTrueCell c p cell
            → IsIndexOf lines (get point_cmp self.old.cells) → x.cell ≡ cell → place_of x ≡ p
            → OnOk result (IsIndexOf (lines ++ x ∷ []) (get point_cmp self.new.cells)) }
    {
        self.cells.insert(p, cell)?;
        Ok(())
    }

    /// Accepts a line that the known cells justify, and answers whether they do.
    pub fn accept(&mut self, design: &Design, line: &CellLine) -> Result<bool, OutOfMemory>
        requires { AreTrueCells design.now.circuit (get point_cmp self.old.cells) }
        ensures cells { OnOk result (AreTrueCells design.now.circuit
            (get point_cmp self.new.cells)) }
        ensures judged { (lines : List SignalCell) → IsIndexOf lines (get point_cmp self.old.cells)
            → IfOk result (λ yes. Accepts design.now.circuit lines line.now
            (get point_cmp self.new.cells) yes) }
    {
        let Some(cell) = self.judge(design, line) else {
            return Ok(false);
        };
        let p = Point {
            signal: line.signal(),
            time: line.start(),
        };
        self.insert(p, cell)?;
        Ok(true)
    }

    /// The signal of the claim, where it follows from the known cells.
    pub fn claimed(&self, design: &Design, name: &[u8], time: u32, value: Value) -> Option<u32>
        requires { AreTrueCells design.now.circuit (get point_cmp self.now.cells) }
        ensures { (lines : List SignalCell) → IsIndexOf lines (get point_cmp self.now.cells)
            → let p : Proof = record { name = name.now; time = time; value = value; cells = lines }
            in MatchOption result ((s : ℕ) → IsClaimed design.now p s → ⊥)
            (IsClaimed design.now p) }
    {
        design.facts();
        let signal = design.netlist().id_of(name)?;
        if time > design.horizon() {
            return None;
        }
        let cell = self.answer(design, Point { signal, time })?;
        if cell.value == value {
            Some(signal)
        } else {
            None
        }
    }
}
