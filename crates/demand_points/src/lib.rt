//! Strands: one suspended demand each.
//!
//! A [`Strand`] serves a window of a query. It asks for points, one after another: for the roots of the window, and, for a point
//! that it has claimed, for the children that the point waits for. A claimed point is a walk over its pins (`PinWalk`): where a
//! gate's first pins decide its value, the others are not asked for. A strand hears base answers (inputs, gates before their least
//! delay, flip-flops before their first shown edge) by itself, so that its next step is one for the memo: to ask for a point, to fill
//! the claimed point on top of its stack, to drop it where the budget is spent, or none. `plan_machine` says what each step makes
//! of a strand; the contracts here say that the code does just that, and that each cell that it makes is the cell of the definitions.
//!
//! A strand asks the design what its points come from, and a shard of the memo (`memo_shards`) makes its steps.
//!
//! A strand is of the batch that its parameter B names ([`BatchName`]). The name exists in proofs alone and costs nothing when the
//! program runs. By its type, every point that a strand asks for or holds is needed by its query, and it has charged at most its
//! budget. A [`BatchDesign`] is a reference to the design of that batch, and copied as one: by its type, the design's circuit is the
//! circuit of the batch.
//!
//! A claimed point takes 36 bytes on the stack. A step takes constant time, but for the base answers that it hears: each is a
//! look-up in the design. Only `take_claim` takes memory.
//!
//! ```
//! let mut strand = Strand::<B>::start(alloc, 0, query, query.from, query.to, query.budget, 0);
//! let design = BatchDesign::<B>::new(&design);
//! loop {
//!     match strand.next_step(design) {
//!         Next::Ask(p) => strand.take_claim(design, p)?,
//!         Next::Fill(_) => {
//!             let cell = strand.top_cell(design);
//!             strand.finish_with(design, &cell);
//!         }
//!         Next::Drop(_) => { strand.drop_top(); }
//!         Next::Done => break,
//!     }
//! }
//! ```
#![tactic(auto)]

mod bases;
mod batch_design;
mod names;
mod parts;
mod stack;
mod strand;

pub use batch_design::BatchDesign;
pub use names::BatchName;
pub use strand::{Strand, Task};
