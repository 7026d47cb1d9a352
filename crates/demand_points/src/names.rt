//! The name of a batch.

use std::marker::Brand;

/// Names one batch: its circuit, its queries, its shards with their capacity, and the site of a forced signal or none; and the cells
/// that each shard held as the batch began. A name exists in proofs alone, and has no value: a type that carries it speaks of that
/// batch.
pub trait BatchName {
    ghost use Rattle.std.specs.Prelude.{ℕ, List};
    ghost use Rattle.journal_meaning.specs.Batches.{Batch};
    ghost use Rattle.valid_intervals.specs.declared.SignalCell.{SignalCell};

    /// The batch.
    ghost batch: { Batch };

    /// The cells that a shard held as the batch began, the most recent first.
    ghost opening: { ℕ → List SignalCell };
}

/// The name of any batch, whose meanings are picked at the one call that serves it.
impl BatchName for Brand {
    ghost use Rattle.std.specs.Prelude.{[]};
    ghost use Rattle.demand_points.specs.inner.Names.{no_batch};

    ghost batch = { no_batch };

    ghost opening = { λ _. [] };
}
