//! What a session keeps from one unit to the next.

use cell_store::CellStore;
use query_answers::stuck::LastSite;
use query_lines::ItemList;
use reply_lines::Reply;
use texts::Text;

/// How many sections were written, and how many of them are of batches; how many points were filled, and how many cells evicted.
#[derive(Clone, Copy, Debug, PartialEq, Eq)]
pub struct Counts {
    pub sections: u32,
    pub batches: u64,
    pub fills: u64,
    pub evictions: u64,
}

/// The items of the last batch, and the replies to them, which a dump shows.
#[derive(Drop)]
pub struct LastBatch {
    pub items: ItemList,
    pub replies: Vec<Reply>,
}

/// What dumps need: the last batch, if there was one, and the names that a dump may not have.
#[derive(Drop)]
pub struct Dumps {
    pub last: Option<LastBatch>,
    /// The names of the session's own files.
    pub own: Vec<Text>,
    /// Those of the dumps that were made.
    pub made: Vec<Text>,
}

/// The stores of the shards, the counts so far, and what dumps and questions need.
#[derive(Drop)]
pub struct Desk {
    pub stores: Vec<CellStore>,
    pub counts: Counts,
    pub dumps: Dumps,
    /// What the last stuck signal reaches, once that was asked for.
    pub last_site: Option<LastSite>,
}
