//! The shards of a batch as it is asked alone, with an index of what their entries say.

ghost use Rattle.std.specs.Prelude.{◌≡◌, ◌<◌, ◌≤◌, ◌+◌, ◌++◌, ◌∷◌, [], ℕ, List, length, drop, slice_index_or, min, IfOk, IfSome, IfNone, OnSome, OnOk};
ghost use Rattle.std.specs.BTreeMap.{get};
ghost use Rattle.std.specs.List.{AllByRecursion};
ghost use Rattle.circuit_meaning.specs.Circuit.{Circuit, IsCircuit};
ghost use Rattle.circuit_meaning.specs.Need.{IsEvaluable};
ghost use Rattle.journal_meaning.specs.declared.Entry.{Entry as EntryRecord};
ghost use Rattle.journal_meaning.specs.Answers.{fill_count};
ghost use Rattle.circuit_meaning.specs.Cells.{cell_at};
ghost use Rattle.journal_meaning.specs.Listed.{IsRightEntry};
ghost use Rattle.journal_meaning.specs.Index.{cells_said, IsCellIndex, IsFound};
ghost use Rattle.valid_intervals.specs.Cells.{point_cmp};
ghost use Rattle.journal_meaning.specs.Lawful.{IsLawful};
ghost use Rattle.journal_meaning.specs.Pieces.{IsStart};
ghost use Rattle.plan_machine.specs.Settle.{AreShards, AreFreed};
ghost use Rattle.plan_machine.specs.Sound.{IsFresh};
ghost use Rattle.memo_shards.specs.KeptShards.{KeptShard};
ghost use Rattle.plan_core.specs.Parts.{shards_in};
ghost use Rattle.plan_core.specs.asked.Shards.{AreNumbered};
ghost use Rattle.plan_core.specs.asked.Memos.{AreFreeShards, IsChargedMemo, entries_of, asked_at, at_time, is_missing};
ghost use Rattle.plan_core.specs.asked.Asked.{HasAsked};
ghost use Rattle.plan_core.specs.asked.inner.Tails.{lengths_of, tails};

use crate::asked::cells::SaidCells;
use crate::asked::places::Places;
use crate::asked::reading::{free_all, index_of, places_in, said_for};
use crate::asked::wanted::Wanted;
use crate::{Alone, Plan};
use demand_points::{BatchDesign, BatchName, Strand};
use journal_meaning::{Entry, Query};
use memo_shards::{Shard, know_all};
use std::alloc::Global;
use std::marker::Model;
use std::mem;
use texts::OutOfMemory;
use valid_intervals::{Cell, Point};

/// The shards of the batch that B names, and what finds the cells that their entries say.
#[derive(Drop)]
pub struct Memo<B: BatchName> {
    alloc: Global,
    shards: Vec<Shard<B>>,
    /// Where entries stand that there were at the beginning, at least those for wanted points.
    places: Vec<Places>,
    /// The index of all cells, once a point was asked for which no entry was noted.
    cells: Option<SaidCells>,
}

impl<B: BatchName> Model for Memo<B> {
    ghost use Rattle.std.specs.Prelude.{List};
    ghost use Rattle.memo_shards.specs.KeptShards.{KeptShard};

    ghost Value = { List KeptShard };

    ghost use Rattle.std.specs.Prelude.{IfSome};
    ghost use Rattle.std.specs.BTreeMap.{get};
    ghost use Rattle.journal_meaning.specs.Index.{cells_said, IsCellIndex};
    ghost use Rattle.valid_intervals.specs.Cells.{point_cmp};
    ghost use Rattle.plan_core.specs.asked.Memos.{entries_of};

    ghost view = { λ m. m.shards.items };

    ghost invariant = { λ m. IfSome m.cells (λ i. IsCellIndex B.batch.circuit (cells_said (entries_of m.shards.items)) (get point_cmp i.cells)) };
}

impl<B: BatchName> Memo<B> {
    /// No shard.
    fn empty(alloc: Global) -> Memo<B>
        ensures { result ≡ [] }
    {
        Memo {
            alloc,
            shards: Vec::new(alloc),
            places: Vec::new(alloc),
            cells: None,
        }
    }

    /// The shards, in order.
    pub fn shards(&self) -> &[Shard<B>]
        ensures { result.now ≡ self.now }
    {
        &self.shards
    }

    /// The shards again.
    pub fn into_shards(self) -> Vec<Shard<B>>
        ensures { result.items ≡ self }
    {
        let Memo {
            alloc: _,
            shards,
            places: _,
            cells: _,
        } = self;
        shards
    }

    /// The cell that covers the point, where an entry says it.
    fn find(&mut self, p: Point) -> Result<Option<Cell>, OutOfMemory>
        requires lawful { IsLawful B.batch }
        requires fresh { IsFresh B.batch B.opening (shards_in self.old) }
        ensures same { self.new ≡ self.old }
        ensures cell { IfOk result (λ r. IfSome r (λ cell. cell ≡ cell_at B.batch.circuit p)) }
        ensures some { IfOk result (λ r. OnSome r (IsFound (cells_said (entries_of self.old)) p)) }
        ensures none { IfOk result (λ r. IfNone r
            (IsFound (cells_said (entries_of self.old)) p → ⊥)) }
    {
        if let Some(cell) = said_for(&self.shards, &self.places, p) {
            return Ok(Some(cell));
        }
        let cells = index_of(self.alloc, self.cells.take(), &self.shards)?;
        let found = cells.find(p);
        self.cells = Some(cells);
        Ok(found)
    }
}

/// Frees the claims that are left, over shards of which it was noted where entries stand.
pub fn begin_with<B: BatchName>(
    alloc: Global,
    shards: Vec<Shard<B>>,
    places: Vec<Places>,
) -> Memo<B>
    requires lawful { IsLawful B.batch }
    requires count { length shards.items ≡ B.batch.shards }
    requires numbers { AreNumbered shards.items }
    ensures shards { AreShards B.batch B.opening (shards_in shards.items) }
    ensures freed { AreFreed (shards_in shards.items) (shards_in result) }
    ensures free { AreFreeShards B.batch B.opening result }
{
    know_all(&shards);
    let mut freed = shards;
    free_all(&mut freed);
    Memo {
        alloc,
        shards: freed,
        places,
        cells: None,
    }
}

/// Notes where the entries for wanted points stand, and frees the claims that are left.
pub fn begin<B: BatchName>(
    alloc: Global,
    shards: Vec<Shard<B>>,
    wanted: &Wanted,
) -> Result<Memo<B>, OutOfMemory>
    requires lawful { IsLawful B.batch }
    requires count { length shards.items ≡ B.batch.shards }
    requires numbers { AreNumbered shards.items }
    ensures shards { AreShards B.batch B.opening (shards_in shards.items) }
    ensures freed { IfOk result (λ memo. AreFreed (shards_in shards.items) (shards_in memo)) }
    ensures free { IfOk result (AreFreeShards B.batch B.opening) }
{
    know_all(&shards);
    let places = places_in(alloc, &shards, wanted)?;
    Ok(begin_with(alloc, shards, places))
}

/// What the query is charged after this entry, at most its budget.
fn charged_once(entry: &Entry, query: Query, charge: u32) -> u32
    requires { charge ≤ query.budget }
    ensures { result ≡ min (charge + fill_count (entry.now ∷ []) query.number) query.budget }
{
    if !entry.is_fill_of(query.number) {
        return charge;
    }
    if charge < query.budget {
        charge + 1
    } else {
        charge
    }
}

/// What the query is charged after these entries, at most its budget.
fn charge_after(entries: &[Entry], query: Query, charge: u32) -> u32
    requires { charge ≤ query.budget }
    ensures { result ≡ min (charge + fill_count entries.now query.number) query.budget }
{
    let mut total = charge;
    for entry in entries {
        total = charged_once(entry, query, total);
    }
    total
}

/// How long each journal is.
fn lengths<B: BatchName>(alloc: Global, shards: &[Shard<B>]) -> Result<Vec<usize>, OutOfMemory>
    ensures { IfOk result (λ lengths. lengths.items ≡ lengths_of shards.now) }
{
    let mut lengths = Vec::new(alloc);
    for shard in shards {
        lengths.push(shard.journal().len())?;
    }
    Ok(lengths)
}

/// Reads the entries of one journal after so many.
fn read_tail<B: BatchName>(
    cells: &mut SaidCells,
    shard: &Shard<B>,
    from: usize,
    query: Query,
    charge: &mut u32,
) -> Result<(), OutOfMemory>
    requires from { from ≤ length shard.now.shard.journal }
    requires charge { charge.old ≤ query.budget }
    ensures indexed { (c : Circuit) (es : List EntryRecord) → IsCircuit c
        → IsCellIndex c (cells_said es) (get point_cmp cells.old.cells)
        → AllByRecursion (IsRightEntry c) (drop from shard.now.shard.journal)
        → OnOk result (IsCellIndex c (cells_said (es ++ drop from shard.now.shard.journal))
        (get point_cmp cells.new.cells)) }
    ensures charge { OnOk result (charge.new ≡ min
        (charge.old + fill_count (drop from shard.now.shard.journal) query.number) query.budget) }
{
    let new = &shard.journal()[from..];
    cells.note_all(new)?;
    *charge = charge_after(new, query, *charge);
    Ok(())
}

/// Reads what stands in the journals after so many entries of each.
fn read_new<B: BatchName>(
    cells: &mut SaidCells,
    shards: &[Shard<B>],
    read: &[usize],
    query: Query,
    charge: &mut u32,
) -> Result<(), OutOfMemory>
    requires count { length read.now ≡ length shards.now }
    requires read { (i d : ℕ) (e : KeptShard) → i < length read.now
        → slice_index_or read.now i d ≤ length (slice_index_or shards.now i e).shard.journal }
    requires charge { charge.old ≤ query.budget }
    ensures indexed { (c : Circuit) (es : List EntryRecord) → IsCircuit c
        → IsCellIndex c (cells_said es) (get point_cmp cells.old.cells)
        → AllByRecursion (IsRightEntry c) (tails read.now shards.now)
        → OnOk result (IsCellIndex c (cells_said (es ++ tails read.now shards.now))
        (get point_cmp cells.new.cells)) }
    ensures charge { OnOk result (charge.new ≡ min
        (charge.old + fill_count (tails read.now shards.now) query.number) query.budget) }
{
    for k in 0..read.len() {
        read_tail(cells, &shards[k], read[k], query, charge)?;
    }
    Ok(())
}

/// Runs a strand alone for one time of a query; whether it was refused.
fn run_one<B: BatchName>(
    alloc: Global,
    design: BatchDesign<'_, B>,
    shards: Vec<Shard<B>>,
    query: Query,
    time: u32,
    charge: u32,
) -> Result<(Vec<Shard<B>>, bool), OutOfMemory>
    requires lawful { IsLawful B.batch }
    requires numbers { AreNumbered shards.items }
    requires fresh { IsFresh B.batch B.opening (shards_in shards.items) }
    requires start { IsStart B.batch (asked_at query time charge) }
    ensures numbers { IfOk result (λ r. AreNumbered r.0.items) }
    ensures asked { IfOk result (λ r. HasAsked B.batch B.opening (asked_at query time charge)
        (shards_in shards.items) (shards_in r.0.items) r.1) }
{
    let strand = Strand::<B>::start(alloc, 0, query, time, time + 1, query.budget, charge);
    let mut strands = Vec::new(alloc);
    strands.push(strand)?;
    let mut plan = Plan::new(alloc, design, strands, shards)?;
    let alone = plan.run_alone(design, 0)?;
    let refused = matches!(alone, Alone::Spent(_));
    Ok((plan.into_shards(), refused))
}

/// Asks for one time of a query; whether it was refused.
fn ask<B: BatchName>(
    memo: &mut Memo<B>,
    design: BatchDesign<'_, B>,
    query: Query,
    time: u32,
    charge: &mut u32,
) -> Result<bool, OutOfMemory>
    requires lawful { IsLawful B.batch }
    requires asking { IsChargedMemo B.batch B.opening memo.old query charge.old }
    requires start { IsStart B.batch (asked_at query time charge.old) }
    ensures asking { OnOk result (IsChargedMemo B.batch B.opening memo.new query charge.new) }
    ensures asked { IfOk result (HasAsked B.batch B.opening (asked_at query time charge.old)
        (shards_in memo.old) (shards_in memo.new)) }
{
    let alloc = memo.alloc;
    let Memo {
        alloc: _,
        shards,
        places,
        cells,
    } = mem::replace(memo, Memo::empty(alloc));
    let mut index = index_of(alloc, cells, &shards)?;
    let read = lengths(alloc, &shards)?;
    let (shards, refused) = run_one(alloc, design, shards, query, time, *charge)?;
    read_new(&mut index, &shards, &read, query, charge)?;
    *memo = Memo {
        alloc,
        shards,
        places,
        cells: Some(index),
    };
    Ok(refused)
}

/// The cell at one time of a query, asked for where no entry says it; none where the query is refused.
pub fn reach<B: BatchName>(
    memo: &mut Memo<B>,
    design: BatchDesign<'_, B>,
    query: Query,
    time: u32,
    charge: &mut u32,
) -> Result<Option<Cell>, OutOfMemory>
    requires lawful { IsLawful B.batch }
    requires signal { query.signal < length B.batch.circuit.drivers }
    requires time { time ≤ B.batch.circuit.horizon }
    requires asking { IsChargedMemo B.batch B.opening memo.old query charge.old }
    requires start { IsEvaluable B.batch.circuit query.signal time
        → IsStart B.batch (asked_at query time charge.old) }
    ensures asking { OnOk result (IsChargedMemo B.batch B.opening memo.new query charge.new) }
    ensures cell { IfOk result (λ r. IfSome r
        (λ cell. cell ≡ cell_at B.batch.circuit (at_time query time))) }
    ensures asked { IfOk result (λ r. HasAsked B.batch B.opening (asked_at query time charge.old)
        (shards_in memo.old) (shards_in memo.new) (is_missing r)) }
{
    if let Some(cell) = design.design().base(query.signal, time) {
        return Ok(Some(cell));
    }
    let p = Point {
        signal: query.signal,
        time,
    };
    if let Some(cell) = memo.find(p)? {
        return Ok(Some(cell));
    }
    if ask(memo, design, query, time, charge)? {
        return Ok(None);
    }
    memo.find(p)
}
