//! What units are served with.

use design::Design;
use std::alloc::Global;
use unit_answers::Sizes;

/// The allocator, the circuit with its stimulus, and the sizes of the memo.
#[derive(Drop)]
pub struct Service<'a> {
    pub alloc: Global,
    pub design: &'a Design,
    pub sizes: Sizes,
}
