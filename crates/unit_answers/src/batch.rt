//! A batch of items.

ghost use Rattle.std.specs.Prelude.{◌≡◌, ◌≢◌, flat_map, AllPairs, IfOk};
ghost use Rattle.journal_meaning.specs.Pieces.{pieces};
ghost use Rattle.query_lines.specs.Laws.{IsWithin};
ghost use Rattle.session_meaning.specs.Verdicts.{queries_of};
ghost use Rattle.unit_answers.specs.Crewed.{HasCrewed};
ghost use Rattle.unit_answers.specs.Stores.{setup_of, AreStores};
ghost use Rattle.unit_answers.specs.Done.{IsBatchDone};

use crate::replies::{place_replies, queries_of};
use crate::run::run_batch;
use crate::sizes::Sizes;
use cell_store::CellStore;
use design::Design;
use journal_text::EntryList;
use query_answers::windows::verdicts_of;
use query_lines::Item;
use reply_lines::Reply;
use std::alloc::Global;
use std::marker::Brand;
use texts::OutOfMemory;
use worker_gate::Crew;

/// The result of a batch: the reply to each item, the journal of each shard, and the stores after it.
#[derive(Drop)]
pub struct BatchDone {
    pub replies: Vec<Reply>,
    pub lists: Vec<EntryList>,
    pub stores: Vec<CellStore>,
}

/// Answers the items of a batch over the stores. The crew runs the strands of the queries, and settlement does the rest. If memory
/// runs out, the stores are dropped.
pub fn answer_batch<C: Crew>(
    crew: &C,
    alloc: Global,
    design: &Design,
    items: &[Item],
    sizes: Sizes,
    stores: Vec<CellStore>,
) -> Result<BatchDone, OutOfMemory>
    requires stores { AreStores (setup_of design.now sizes) stores.items }
    requires within { IsWithin design.now.circuit.horizon items.now }
    requires lines { AllPairs (λ a b. a.line ≢ b.line) items.now }
    ensures done { IfOk result (λ done. IsBatchDone (setup_of design.now sizes) items.now
        stores.items done.replies.items done.lists.items done.stores.items) }
    ensures crewed { let queries = queries_of design.now items.now in
        IfOk result (λ done. HasCrewed (flat_map pieces queries) (C.is_open crew.now)
        done.lists.items) }
{
    design.facts();
    let verdicts = verdicts_of(alloc, design, items)?;
    let queries = queries_of(alloc, &verdicts)?;
    let ran = run_batch::<Brand, C>(crew, alloc, design, &queries, sizes, stores)?;
    let replies = place_replies(alloc, &verdicts, ran.outcomes)?;
    Ok(BatchDone {
        replies,
        lists: ran.lists,
        stores: ran.stores,
    })
}
