//! The cells that the entries of a batch say, with an index.

ghost use Rattle.std.specs.Prelude.{◌≡◌, ◌≤◌, ◌++◌, ◌∷◌, [], List, IfSome, IfNone, OnSome, OnOk};
ghost use Rattle.std.specs.BTreeMap.{get};
ghost use Rattle.std.specs.List.{AllByRecursion};
ghost use Rattle.circuit_meaning.specs.Circuit.{Circuit, IsCircuit};
ghost use Rattle.journal_meaning.specs.declared.Entry.{Entry as EntryRecord};
ghost use Rattle.circuit_meaning.specs.Cells.{cell_at};
ghost use Rattle.journal_meaning.specs.Listed.{IsRightEntry};
ghost use Rattle.journal_meaning.specs.Entries.{SaidCell};
ghost use Rattle.journal_meaning.specs.Index.{cells_said, IsFound, IsCellIndex};
ghost use Rattle.valid_intervals.specs.Cells.{point_cmp};

use journal_meaning::Entry;
use std::alloc::Global;
use std::collections::BTreeMap;
use texts::OutOfMemory;
use valid_intervals::{Cell, Point};

/// Cells, found by the points that they cover.
#[derive(Drop)]
pub struct SaidCells {
    /// Each cell under its signal and first time.
    cells: BTreeMap<Point, Cell>,
}

impl SaidCells {
    /// Nothing is said yet.
    pub fn new(alloc: Global) -> SaidCells
        ensures { (c : Circuit) → IsCellIndex c [] (get point_cmp result.cells) }
    {
        SaidCells {
            cells: BTreeMap::new(alloc),
        }
    }

    /// The cell that covers the point.
    pub fn find(&self, p: Point) -> Option<Cell>
        ensures cell { (c : Circuit) (cells : List SaidCell) → IsCircuit c
            → IsCellIndex c cells (get point_cmp self.now.cells)
            → IfSome result (λ cell. cell ≡ cell_at c p) }
        ensures some { (c : Circuit) (cells : List SaidCell) → IsCircuit c
            → IsCellIndex c cells (get point_cmp self.now.cells) → OnSome result (IsFound cells p) }
        ensures none { (c : Circuit) (cells : List SaidCell) → IsCircuit c
            → IsCellIndex c cells (get point_cmp self.now.cells)
            → IfNone result (IsFound cells p → ⊥) }
    {
        let (first, cell) = self.cells.range(..=p).next_back()?;
        if first.signal == p.signal && cell.covers(p.time) {
            Some(*cell)
        } else {
            None
        }
    }

    /// Adds the cell of a point.
    fn insert(&mut self, point: Point, cell: Cell) -> Result<(), OutOfMemory>
        ensures { (c : Circuit) (cells : List SaidCell) → IsCircuit c
            → IsCellIndex c cells (get point_cmp self.old.cells) → cell ≡ cell_at c point
            → point.time ≤ c.horizon
            → let one : SaidCell = record { point = point; cell = cell } in
            OnOk result (IsCellIndex c (cells ++ one ∷ []) (get point_cmp self.new.cells)) }
    {
        let first = Point {
            signal: point.signal,
            time: cell.span.start(),
        };
        self.cells.insert(first, cell)?;
        Ok(())
    }

    /// Adds what an entry says.
    fn note(&mut self, entry: &Entry) -> Result<(), OutOfMemory>
        ensures { (c : Circuit) (es : List EntryRecord) → IsCircuit c
            → IsCellIndex c (cells_said es) (get point_cmp self.old.cells)
            → IsRightEntry c entry.now
            → OnOk result (IsCellIndex c (cells_said (es ++ entry.now ∷ []))
            (get point_cmp self.new.cells)) }
    {
        match entry.said() {
            Some((point, cell)) => self.insert(point, cell),
            None => Ok(()),
        }
    }

    /// Adds what entries say.
    pub fn note_all(&mut self, entries: &[Entry]) -> Result<(), OutOfMemory>
        ensures { (c : Circuit) (es : List EntryRecord) → IsCircuit c
            → IsCellIndex c (cells_said es) (get point_cmp self.old.cells)
            → AllByRecursion (IsRightEntry c) entries.now
            → OnOk result (IsCellIndex c (cells_said (es ++ entries.now))
            (get point_cmp self.new.cells)) }
    {
        for entry in entries {
            self.note(entry)?;
        }
        Ok(())
    }
}
