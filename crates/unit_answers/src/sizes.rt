//! The sizes of a memo.

/// The number of shards of the memo, and the number of cells for which
/// each has room.
#[derive(Clone, Copy, Debug, PartialEq, Eq)]
pub struct Sizes {
    pub shards: u32,
    pub cells: u32,
}
