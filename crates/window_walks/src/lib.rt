//! The runs of a waveform, and the walk of a window from cell to cell.
//!
//! A [`WindowWalk`] goes over a window from cell to cell and gathers its [`Runs`]. A run begins if the value differs from the value
//! just before. If the cells are those of the definitions, the runs of a complete walk are the waveform of the window
//! (`specs/Walks`), and they are maximal (`specs/Runs`).
//!
//! ```text
//! let mut walk = WindowWalk::new(alloc, 0, 11);
//! while let Some(time) = walk.next() {
//!     walk.push(cell_at(time))?;
//! }
//! let runs = walk.into_runs();
//! ```
//!
//! A cell takes constant time. Memory grows with the runs.
#![tactic(auto)]

mod laws;
mod runs;
mod walk;

pub use circuit_meaning::Run;
pub use laws::runs_of_cells;
pub use runs::Runs;
pub use walk::WindowWalk;
