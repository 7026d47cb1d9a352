//! Whether what was evaluated has heard its children, by a look at what entries say.

ghost use Rattle.std.specs.Prelude.{◌≡◌, ◌<◌, true, length, All, Contains, IfSome, OnSome};
ghost use Rattle.journal_meaning.specs.Lawful.{IsLawful};
ghost use Rattle.circuit_meaning.specs.Cells.{cell_at};
ghost use Rattle.circuit_meaning.specs.Need.{IsEvaluable, children};
ghost use Rattle.journal_meaning.specs.Answers.{IsCovered};
ghost use Rattle.memo_shards.specs.KeptShards.{IsKnownShard};
ghost use Rattle.design.specs.PinWalks.{IsLooking, IsPinWalk, IsPoint, LooksOn, next_point};
ghost use Rattle.plan_core.specs.asked.Heard.{HasHeard, IsHeard};
ghost use Rattle.plan_core.specs.asked.Memos.{entries_of};
ghost use Rattle.plan_core.specs.asked.Sources.{IsSourceCovered};

use crate::asked::places::Places;
use crate::asked::reading::said_for;
use demand_points::{BatchDesign, BatchName};
use design::PinWalk;
use journal_meaning::Entry;
use memo_shards::Shard;
use valid_intervals::{Cell, Point};

/// The cell of a point: as a base answer, or as an entry says that was recorded for it.
fn said_cell<B: BatchName>(
    design: BatchDesign<'_, B>,
    shards: &[Shard<B>],
    places: &[Places],
    x: Point,
) -> Option<Cell>
    requires lawful { IsLawful B.batch }
    requires known { All (IsKnownShard B.batch B.opening) shards.now }
    requires point { IsPoint B.batch.circuit x }
    ensures cell { IfSome result (λ cell. cell ≡ cell_at B.batch.circuit x) }
    ensures covered { OnSome result (IsCovered B.batch.circuit (entries_of shards.now) x) }
{
    match design.design().base(x.signal, x.time) {
        Some(cell) => Some(cell),
        None => said_for(shards, places, x),
    }
}

/// Looks at the next pin of an evaluated point; none where nothing is said of what it reads.
fn look<B: BatchName>(
    design: BatchDesign<'_, B>,
    shards: &[Shard<B>],
    places: &[Places],
    walk: &PinWalk,
) -> Option<PinWalk>
    requires lawful { IsLawful B.batch }
    requires known { All (IsKnownShard B.batch B.opening) shards.now }
    requires walk { IsPinWalk B.batch.circuit walk.now }
    requires looking { IsLooking B.batch.circuit walk.now }
    ensures walk { IfSome result (LooksOn B.batch.circuit walk.now) }
    ensures covered { OnSome result (IsSourceCovered B.batch.circuit (entries_of shards.now)
        (next_point B.batch.circuit walk.now)) }
{
    let mut next = *walk;
    let Some(x) = walk.next_source() else {
        next.see(design.design(), None);
        return Some(next);
    };
    let cell = said_cell(design, shards, places, x)?;
    next.see(design.design(), Some(cell));
    Some(next)
}

/// Whether something is said of each child of the point.
fn are_children_said<B: BatchName>(
    design: BatchDesign<'_, B>,
    shards: &[Shard<B>],
    places: &[Places],
    p: Point,
) -> bool
    requires lawful { IsLawful B.batch }
    requires known { All (IsKnownShard B.batch B.opening) shards.now }
    requires point { IsPoint B.batch.circuit p }
    requires evaluable { IsEvaluable B.batch.circuit p.signal p.time }
    ensures { result ≡ true → All (IsCovered B.batch.circuit (entries_of shards.now))
        (children B.batch.circuit p.signal p.time) }
{
    let mut walk = PinWalk::new(design.design(), p);
    'pins: while !walk.is_done() {
        match look(design, shards, places, &walk) {
            None => return false,
            Some(next) => walk = next,
        }
    }
    true
}

/// Whether the children of the point are said, if the entry is a fill.
fn is_heard<B: BatchName>(
    design: BatchDesign<'_, B>,
    shards: &[Shard<B>],
    places: &[Places],
    entry: &Entry,
) -> bool
    requires lawful { IsLawful B.batch }
    requires known { All (IsKnownShard B.batch B.opening) shards.now }
    requires entry { Contains (entries_of shards.now) entry.now }
    ensures { result ≡ true → IsHeard B.batch.circuit (entries_of shards.now) entry.now }
{
    match entry.filled() {
        Some((_, p, _)) => are_children_said(design, shards, places, p),
        None => true,
    }
}

/// Whether each point that the shard in this place has evaluated has heard its children, as the entries of all shards say for these very
/// points. So it may be false of one that has.
pub fn has_heard<B: BatchName>(
    design: BatchDesign<'_, B>,
    shards: &[Shard<B>],
    places: &[Places],
    number: usize,
) -> bool
    requires lawful { IsLawful B.batch }
    requires known { All (IsKnownShard B.batch B.opening) shards.now }
    requires number { number < length shards.now }
    ensures { result ≡ true → HasHeard B.batch.circuit shards.now number }
{
    let journal = shards[number].journal();
    for entry in journal {
        if !is_heard(design, shards, places, entry) {
            return false;
        }
    }
    true
}
