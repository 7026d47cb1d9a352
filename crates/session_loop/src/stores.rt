//! The stores as a session begins.

ghost use Rattle.std.specs.Prelude.{◌≡◌, ◌<◌, ◌≤◌, replicate, [], IfOk};
ghost use Rattle.cell_store.specs.Recency.{contents};

use cell_store::CellStore;
use std::alloc::Global;
use texts::OutOfMemory;
use unit_answers::Sizes;

/// An empty store for each shard. A shard's signals are those whose remainder, divided by the number of shards, is its own.
pub fn empty_stores(alloc: Global, sizes: Sizes) -> Result<Vec<CellStore>, OutOfMemory>
    requires { (0 < sizes.cells) × (sizes.cells ≤ 65536) }
    ensures { IfOk result (λ stores. stores.items ≡ replicate sizes.shards
        (contents sizes.cells [])) }
{
    let mut stores = Vec::new(alloc);
    for number in 0..sizes.shards {
        stores.push(CellStore::new(alloc, sizes.cells, sizes.shards, number)?)?;
    }
    Ok(stores)
}
