//! The strands of a batch: one for each piece of each window.

ghost use Rattle.std.specs.Prelude.{◌≡◌, ◌≤◌, ◌++◌, ◌∷◌, [], Contains, None, length, map, flat_map, IfOk, OnOk};
ghost use Rattle.journal_meaning.specs.Lawful.{IsLawful};
ghost use Rattle.journal_meaning.specs.Pieces.{IsStart};
ghost use Rattle.plan_machine.specs.Strands.{started_strand};
ghost use Rattle.journal_meaning.specs.Pieces.{next_cut, spans_of, pieces};
ghost use Rattle.plan_core.specs.Parts.{strands_in};
ghost use Rattle.query_answers.specs.windows.Strands.{IsInOrder};
ghost use Rattle.query_answers.specs.windows.inner.Starts.{piece_start};

use demand_points::{BatchName, Strand};
use journal_meaning::Query;
use std::alloc::Global;
use texts::OutOfMemory;

/// The least multiple of 65,536 above a time.
fn next_cut(t: u32) -> u64
    ensures { result ≡ next_cut t }
{
    (t as u64 / 65_536 + 1) * 65_536
}

/// The number of pieces of a window.
fn count_pieces(q: Query) -> u32
    ensures count { result ≡ length (spans_of q) }
    ensures some { 1 ≤ result }
{
    let mut t = q.from;
    let mut count = 1;
    'cuts: while next_cut(t) < q.to as u64 {
        let next = next_cut(t) as u32;
        t = next;
        count += 1;
    }
    count
}

/// One strand for a piece of a window, with the next number.
fn push_piece<B: BatchName>(
    alloc: Global,
    strands: &mut Vec<Strand<B>>,
    q: Query,
    from: u32,
    to: u32,
    budget: u32,
) -> Result<(), OutOfMemory>
    requires lawful { IsLawful B.batch }
    requires start { IsStart B.batch (piece_start q from to budget) }
    requires order { IsInOrder strands.old.items }
    ensures order { OnOk result (IsInOrder strands.new.items) }
    ensures strands { OnOk result (strands_in strands.new.items ≡ strands_in
        strands.old.items ++ started_strand B.batch.circuit (piece_start q from to budget) ∷ []) }
{
    let Ok(number) = u32::try_from(strands.len()) else {
        return Err(OutOfMemory);
    };
    strands.push(Strand::<B>::start(alloc, number, q, from, to, budget, 0))?;
    Ok(())
}

/// One strand for each piece of a window, each with its part of the budget.
fn push_pieces<B: BatchName>(
    alloc: Global,
    strands: &mut Vec<Strand<B>>,
    q: Query,
) -> Result<(), OutOfMemory>
    requires lawful { IsLawful B.batch }
    requires site { B.batch.site ≡ None }
    requires known { Contains B.batch.queries q }
    requires order { IsInOrder strands.old.items }
    ensures order { OnOk result (IsInOrder strands.new.items) }
    ensures strands { OnOk result (strands_in strands.new.items ≡ strands_in
        strands.old.items ++ map (started_strand B.batch.circuit) (pieces q)) }
{
    let count = count_pieces(q);
    let each = q.budget / count;
    let mut budget = each + q.budget % count;
    let mut t = q.from;
    'cuts: while next_cut(t) < q.to as u64 {
        let next = next_cut(t) as u32;
        push_piece(alloc, strands, q, t, next, budget)?;
        t = next;
        budget = each;
    }
    push_piece(alloc, strands, q, t, q.to, budget)
}

/// The strands of the queries of a batch: one for each piece of each window, with numbers from 0.
pub fn strands_of<B: BatchName>(
    alloc: Global,
    queries: &[Query],
) -> Result<Vec<Strand<B>>, OutOfMemory>
    requires lawful { IsLawful B.batch }
    requires site { B.batch.site ≡ None }
    requires queries { queries.now ≡ B.batch.queries }
    ensures order { IfOk result (λ strands. IsInOrder strands.items) }
    ensures strands { IfOk result (λ strands. strands_in strands.items ≡ map
        (started_strand B.batch.circuit) (flat_map pieces queries.now)) }
{
    let mut strands = Vec::new(alloc);
    for &q in queries {
        push_pieces(alloc, &mut strands, q)?;
    }
    Ok(strands)
}
