//! What a question asks, and the two memos of which it asks it.

use crate::asking::Asking;
use demand_points::BatchName;
use gate_values::Value;
use journal_meaning::Query;
use memo_shards::Shard;

/// A query, where the signal `site` is stuck at a value.
#[derive(Clone, Copy)]
pub struct StuckQuery {
    pub query: Query,
    pub site: u32,
    pub value: Value,
}

/// The session's memo, as it is asked for the query, and the memo of its own.
#[derive(Drop)]
pub struct Memos<'d, B: BatchName, H: BatchName> {
    pub session: Asking<'d, B>,
    pub own: Shard<H>,
    /// How many points it has filled in the memo of its own.
    pub filled: u32,
}
