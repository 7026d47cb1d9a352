//! Turns of two strands over two shards. The results, the strands that are ready and the journals were worked out by hand. A contract
//! leaves want of memory open, so no proof says that a strand ever waits or is woken.

ghost use Rattle.std.specs.Prelude.{◌≡◌, ◌<◌, ◌≤◌, ◌+◌, IsTrue, [], ◌∷◌, length, Contains, None, IfOk};
ghost use Rattle.journal_meaning.specs.Lawful.{IsLawful};
ghost use Rattle.plan_core.specs.Parts.{IsFreshStrand};

use crate::Plan;
use bench_reader::read_bench;
use cell_store::CellStore;
use demand_points::{BatchDesign, BatchName, Strand};
use design::Design;
use gate_values::Value;
use journal_meaning::{Entry, Query};
use memo_shards::Shard;
use plan_machine::Turned;
use std::alloc::Global;
use std::marker::Brand;
use std::test::Fail;
use stimulus_file::read_stimulus;
use timing_file::read_timing;
use valid_intervals::Cell;

/// A netlist whose gates have a delay of 1, its stimulus, and the query of each of the two strands.
#[derive(Clone, Copy)]
struct Scene {
    netlist: &'static str,
    stimulus: &'static str,
    queries: [Query; 2],
}

/// One turn as it should be: the number of its strand, its result, and whether each strand is ready after it.
type Wanted = (u32, Turned, [bool; 2]);

/// An entry of a journal: its query, the signal and the time of its point, and of a cell the first time, the first time after it and
/// the value.
#[derive(Clone, Copy, PartialEq, Eq)]
enum Line {
    Told(u32, u32, u32, (u32, u32, Value)),
    Claimed(u32, u32, u32),
    Filled(u32, u32, u32, (u32, u32, Value)),
    Dropped(u32, u32, u32),
    Another,
}

/// A scene, its turns one after another, and the journal of each shard after the last.
#[derive(Clone, Copy)]
struct Story {
    scene: Scene,
    turns: &'static [Wanted],
    journals: [&'static [Line]; 2],
}

/// What turns came to: the result of each, and the journal of each shard after the last.
#[derive(Drop)]
struct Outcome {
    turned: Vec<Turned>,
    journals: Vec<Vec<Line>>,
}

/// The text, where it is short.
fn short(text: &str) -> &[u8]
    ensures { length result.now ≤ 1000 }
{
    let bytes = text.as_bytes();
    if bytes.len() > 1000 { &[] } else { bytes }
}

/// The design of the scene.
fn joined(alloc: Global, scene: &Scene) -> Result<Design, Fail> {
    let netlist = read_bench(alloc, short(scene.netlist))?;
    let timing = read_timing(alloc, short(""))?;
    let stimulus = read_stimulus(alloc, short(scene.stimulus))?;
    Ok(Design::join(alloc, netlist, &timing, &stimulus)?)
}

/// Whether the query is for some times of a signal of the design.
fn fits(design: &Design, query: Query) -> bool
    ensures signal { IsTrue result → query.signal < length design.now.circuit.drivers }
    ensures some { IsTrue result → query.from < query.to }
    ensures window { IsTrue result → query.to ≤ design.now.circuit.horizon + 1 }
{
    design.facts();
    query.signal < design.netlist().signals()
        && query.from < query.to
        && query.to <= design.horizon() + 1
}

/// The strand with this number, for the whole window of its query.
fn started<B: BatchName>(alloc: Global, number: u32, query: Query) -> Strand<B>
    requires lawful { IsLawful B.batch }
    requires site { B.batch.site ≡ None }
    requires known { Contains B.batch.queries query }
    requires some { query.from < query.to }
    ensures { IsFreshStrand B.batch number result }
{
    let strand = Strand::<B>::start(alloc, number, query, query.from, query.to, query.budget, 0);
    strand.facts();
    strand
}

/// The shard with this number, which holds no cells.
fn opened<B: BatchName>(alloc: Global, number: u32) -> Result<Shard<B>, Fail>
    requires lawful { IsLawful B.batch }
    requires number { number < B.batch.shards }
    requires capacity { B.batch.capacity ≡ 8 }
    requires opening { B.opening number ≡ [] }
    ensures number { IfOk result (λ shard. shard.number ≡ number) }
    ensures free { IfOk result (λ shard. shard.shard.state.claims ≡ []) }
{
    let store = CellStore::new(alloc, 8, 1, 0)?;
    Ok(Shard::begin(alloc, number, store))
}

/// The plan of a strand for each query, and of two shards that hold no cells.
fn planned<B: BatchName>(
    alloc: Global,
    design: BatchDesign<'_, B>,
    first: Query,
    second: Query,
) -> Result<Plan<B>, Fail>
    requires lawful { IsLawful B.batch }
    requires shards { B.batch.shards ≡ 2 }
    requires capacity { B.batch.capacity ≡ 8 }
    requires site { B.batch.site ≡ None }
    requires queries { B.batch.queries ≡ first ∷ second ∷ [] }
    requires opening { (B.opening 0 ≡ []) × (B.opening 1 ≡ []) }
    requires some { (first.from < first.to) × (second.from < second.to) }
    ensures { IfOk result (λ plan. length plan.strands ≡ 2) }
{
    let strands = vec![in alloc;
        started::<B>(alloc, 0, first),
        started::<B>(alloc, 1, second),
    ]?;
    let shards = vec![in alloc; opened::<B>(alloc, 0)?, opened::<B>(alloc, 1)?]?;
    Ok(Plan::new(alloc, design, strands, shards)?)
}

/// The results of turns of the strands with these numbers, one after another.
fn make_turns<B: BatchName>(
    alloc: Global,
    design: BatchDesign<'_, B>,
    plan: &mut Plan<B>,
    numbers: &[u32],
) -> Result<Vec<Turned>, Fail>
    requires strands { length plan.old.strands ≡ 2 }
{
    let mut turned = Vec::new(alloc);
    for &number in numbers {
        if number >= 2 {
            return Err(Fail::new("there are two strands"));
        }
        turned.push(plan.turn(design, number)?)?;
    }
    Ok(turned)
}

fn parts(cell: &Cell) -> (u32, u32, Value) {
    (cell.span.start(), cell.span.end(), cell.value)
}

fn line_of(entry: &Entry) -> Line {
    match entry {
        Entry::Told { q, p, cell } => Line::Told(*q, p.signal, p.time, parts(cell)),
        Entry::Claimed { q, p } => Line::Claimed(*q, p.signal, p.time),
        Entry::Filled { q, p, cell } => Line::Filled(*q, p.signal, p.time, parts(cell)),
        Entry::Dropped { q, p } => Line::Dropped(*q, p.signal, p.time),
        _ => Line::Another,
    }
}

fn lines_of(alloc: Global, entries: &[Entry]) -> Result<Vec<Line>, Fail> {
    let mut lines = Vec::new(alloc);
    for entry in entries {
        lines.push(line_of(entry))?;
    }
    Ok(lines)
}

/// The journal of each shard.
fn journals_of<B: BatchName>(alloc: Global, shards: &[Shard<B>]) -> Result<Vec<Vec<Line>>, Fail> {
    let mut journals = Vec::new(alloc);
    for shard in shards {
        journals.push(lines_of(alloc, shard.journal())?)?;
    }
    Ok(journals)
}

/// What the turns of the strands with these numbers come to, in the batch that B names.
fn play_in<B: BatchName>(
    alloc: Global,
    design: &Design,
    first: Query,
    second: Query,
    numbers: &[u32],
) -> Result<Outcome, Fail>
    requires lawful { IsLawful B.batch }
    requires design { design.now.circuit ≡ B.batch.circuit }
    requires shards { B.batch.shards ≡ 2 }
    requires capacity { B.batch.capacity ≡ 8 }
    requires site { B.batch.site ≡ None }
    requires queries { B.batch.queries ≡ first ∷ second ∷ [] }
    requires opening { (B.opening 0 ≡ []) × (B.opening 1 ≡ []) }
    requires some { (first.from < first.to) × (second.from < second.to) }
{
    let design = BatchDesign::<B>::new(design);
    let mut plan = planned(alloc, design, first, second)?;
    let turned = make_turns(alloc, design, &mut plan, numbers)?;
    let shards = plan.into_shards();
    let journals = journals_of(alloc, &shards)?;
    Ok(Outcome { turned, journals })
}

fn play_on(
    alloc: Global,
    design: &Design,
    [first, second]: [Query; 2],
    numbers: &[u32],
) -> Result<Outcome, Fail> {
    design.facts();
    if first.number == second.number || !fits(design, first) || !fits(design, second) {
        return Err(Fail::new("the queries are of no batch of the design"));
    }
    play_in::<Brand>(alloc, design, first, second, numbers)
}

/// What the turns of the strands with these numbers come to.
fn play(alloc: Global, scene: &Scene, numbers: &[u32]) -> Result<Outcome, Fail> {
    let design = joined(alloc, scene)?;
    play_on(alloc, &design, scene.queries, numbers)
}

/// The result of one more turn, of this strand.
fn turn_after(
    alloc: Global,
    scene: &Scene,
    numbers: &[u32],
    number: u32,
) -> Result<Option<Turned>, Fail> {
    let mut numbers = numbers.to_vec(alloc)?;
    numbers.push(number)?;
    let mut outcome = play(alloc, scene, &numbers)?;
    Ok(outcome.turned.pop())
}

/// Whether each strand is ready after these turns: one that waits or has ended makes no further turn.
fn ready_after(alloc: Global, scene: &Scene, numbers: &[u32]) -> Result<[bool; 2], Fail> {
    let not_ready = Some(Turned::NotReady);
    let first = turn_after(alloc, scene, numbers, 0)?;
    let second = turn_after(alloc, scene, numbers, 1)?;
    Ok([first != not_ready, second != not_ready])
}

/// Whether the turn after these is as it should be.
fn is_as_wanted(
    alloc: Global,
    scene: &Scene,
    numbers: &[u32],
    (number, wanted, ready): Wanted,
) -> Result<bool, Fail> {
    let turned = turn_after(alloc, scene, numbers, number)?;
    let mut numbers = numbers.to_vec(alloc)?;
    numbers.push(number)?;
    let found = ready_after(alloc, scene, &numbers)?;
    Ok(turned == Some(wanted) && found == ready)
}

/// Whether these turns of a scene leave these journals.
fn are_journals(
    alloc: Global,
    scene: &Scene,
    numbers: &[u32],
    journals: [&[Line]; 2],
) -> Result<bool, Fail> {
    let outcome = play(alloc, scene, numbers)?;
    let [first, second] = journals;
    Ok(match outcome.journals.as_slice() {
        [zero, one] => zero.as_slice() == first && one.as_slice() == second,
        _ => false,
    })
}

/// The place of the first turn that is not as it should be. Where only a journal is not, it is the number of turns.
fn first_wrong(alloc: Global, story: &Story) -> Result<Option<usize>, Fail> {
    let mut numbers = Vec::new(alloc);
    for wanted in story.turns {
        if !is_as_wanted(alloc, &story.scene, &numbers, *wanted)? {
            return Ok(Some(numbers.len()));
        }
        numbers.push(wanted.0)?;
    }
    if are_journals(alloc, &story.scene, &numbers, story.journals)? {
        Ok(None)
    } else {
        Ok(Some(numbers.len()))
    }
}

// a is 0, y is 1. a is 0 from 0 on and 1 from 4 on, so y is x at 0, 1 from 1 on and 0 from 5 on.
static TWO_POINTS_OF_A_GATE: Story = Story {
    scene: Scene {
        netlist: "INPUT(a)\nOUTPUT(y)\ny = NOT(a)\n",
        stimulus: "horizon 10\nset a 0 0\nset a 4 1\n",
        queries: [
            // its roots are 3, and 5, where the cell of 3 ends
            Query {
                number: 10,
                signal: 1,
                from: 3,
                to: 9,
                budget: 4,
            },
            Query {
                number: 20,
                signal: 1,
                from: 7,
                to: 8,
                budget: 4,
            },
        ],
    },
    turns: &[
        // each claims a point, whose child is one of the input, and is heard at once
        (0, Turned::Claimed, [true, true]),
        (1, Turned::Claimed, [true, true]),
        (0, Turned::Filled, [true, true]),
        // the only root of the strand 1 is heard
        (1, Turned::Filled, [true, false]),
        (1, Turned::NotReady, [true, false]),
        // the cell that the strand 1 stored is that of 5 too
        (0, Turned::Told, [false, false]),
        (0, Turned::NotReady, [false, false]),
    ],
    journals: [
        &[],
        &[
            Line::Claimed(10, 1, 3),
            Line::Claimed(20, 1, 7),
            Line::Filled(10, 1, 3, (1, 5, Value::One)),
            Line::Filled(20, 1, 7, (5, 11, Value::Zero)),
            Line::Told(10, 1, 5, (5, 11, Value::Zero)),
        ],
    ],
};

#[test]
fn strands_take_turns_on_two_points_of_a_gate(rt: HostRuntime) -> Result<(), Fail> {
    assert_eq!(rt; first_wrong(rt.alloc(), &TWO_POINTS_OF_A_GATE)?, None);
    Ok(())
}

// a is 0, n2 is 1, n1 is 2. a is 1 from 0 on, so n1 is 1 from 1 on, and n2 from 2 on. The shard 0 has the points of n1, and the shard 1
// those of n2.
static A_DROPPED_CLAIM: Story = Story {
    scene: Scene {
        netlist: "INPUT(a)\nOUTPUT(n2)\nn1 = BUFF(a)\nn2 = BUFF(n1)\n",
        stimulus: "horizon 10\nset a 0 1\n",
        queries: [
            // n2 at 5 needs n1 at 4, for which the budget has no room
            Query {
                number: 10,
                signal: 1,
                from: 5,
                to: 6,
                budget: 1,
            },
            Query {
                number: 20,
                signal: 1,
                from: 5,
                to: 6,
                budget: 2,
            },
        ],
    },
    turns: &[
        (0, Turned::Claimed, [true, true]),
        (1, Turned::Waits, [true, false]),
        (1, Turned::NotReady, [true, false]),
        (0, Turned::Spent, [true, false]),
        // the strand 0 ends without its root, and the strand 1 still has to ask for n2 at 5
        (0, Turned::Dropped, [false, true]),
        (0, Turned::NotReady, [false, true]),
        // n2 at 5, and then n1 at 4
        (1, Turned::Claimed, [false, true]),
        (1, Turned::Claimed, [false, true]),
        (1, Turned::Filled, [false, true]),
        (1, Turned::Filled, [false, false]),
        (1, Turned::NotReady, [false, false]),
    ],
    journals: [
        &[
            Line::Claimed(20, 2, 4),
            Line::Filled(20, 2, 4, (1, 11, Value::One)),
        ],
        &[
            Line::Claimed(10, 1, 5),
            Line::Dropped(10, 1, 5),
            Line::Claimed(20, 1, 5),
            Line::Filled(20, 1, 5, (2, 11, Value::One)),
        ],
    ],
};

#[test]
fn a_strand_waits_until_a_claim_is_dropped(rt: HostRuntime) -> Result<(), Fail> {
    assert_eq!(rt; first_wrong(rt.alloc(), &A_DROPPED_CLAIM)?, None);
    Ok(())
}

// The same chain. a is 0 from 0 on and 1 from 4 on, so n1 is 0 from 1 on and 1 from 5 on, and n2 is 0 from 2 on and 1 from 6 on.
static A_FILLED_POINT: Story = Story {
    scene: Scene {
        netlist: "INPUT(a)\nOUTPUT(n2)\nn1 = BUFF(a)\nn2 = BUFF(n1)\n",
        stimulus: "horizon 10\nset a 0 0\nset a 4 1\n",
        queries: [
            Query {
                number: 10,
                signal: 1,
                from: 5,
                to: 6,
                budget: 2,
            },
            // its roots are 5, and 6, where the cell of 5 ends
            Query {
                number: 20,
                signal: 1,
                from: 5,
                to: 8,
                budget: 2,
            },
        ],
    },
    turns: &[
        (0, Turned::Claimed, [true, true]),
        (1, Turned::Waits, [true, false]),
        // n1 at 4
        (0, Turned::Claimed, [true, false]),
        (1, Turned::NotReady, [true, false]),
        (0, Turned::Filled, [true, false]),
        // n2 at 5: the strand 0 ends, and the strand 1 hears the cell without a turn
        (0, Turned::Filled, [false, true]),
        (0, Turned::NotReady, [false, true]),
        // n2 at 6, and then n1 at 5
        (1, Turned::Claimed, [false, true]),
        (1, Turned::Claimed, [false, true]),
        (1, Turned::Filled, [false, true]),
        (1, Turned::Filled, [false, false]),
        (1, Turned::NotReady, [false, false]),
    ],
    journals: [
        &[
            Line::Claimed(10, 2, 4),
            Line::Filled(10, 2, 4, (1, 5, Value::Zero)),
            Line::Claimed(20, 2, 5),
            Line::Filled(20, 2, 5, (5, 11, Value::One)),
        ],
        &[
            Line::Claimed(10, 1, 5),
            Line::Filled(10, 1, 5, (2, 6, Value::Zero)),
            Line::Claimed(20, 1, 6),
            Line::Filled(20, 1, 6, (6, 11, Value::One)),
        ],
    ],
};

#[test]
fn a_strand_waits_until_a_point_is_filled(rt: HostRuntime) -> Result<(), Fail> {
    assert_eq!(rt; first_wrong(rt.alloc(), &A_FILLED_POINT)?, None);
    Ok(())
}
