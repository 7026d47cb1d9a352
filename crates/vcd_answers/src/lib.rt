//! Waveform dumps of answered queries, in a profile of VCD, the value change dump of IEEE 1364-2005 (section 18).
//!
//! ```text
//! $timescale 1 ns $end
//! $scope module top $end
//! $var wire 1 ! y $end
//! $var wire 1 " a $end
//! $upscope $end
//! $enddefinitions $end
//! #0
//! x!
//! 0"
//! #3
//! 1!
//! #5
//! x"
//! ```
//!
//! A [`Wire`] is a name and its changes: the times at which a value begins. [`wire_of`] makes a wire from an answered
//! query: the runs inside the window, and x before and after it. A dump holds up to 64 wires. Its head names them, each
//! with a code of one byte, from `!` on. Then come a line `#T` for time 0 and each later time at which a wire changes,
//! and after it a line for each change, a value and the code, in the order of the wires. `specs/Wires` says what a wire
//! shows, and `specs/Dumps` defines the text.
//!
//! Guarantees: if the runs are the waveform of a window, [`wire_of`] gives the defined changes. [`vcd_text`] writes
//! exactly the defined text. [`read_vcd`] returns exactly the wires whose dump the text is, and none only if there are no
//! such wires: another order of lines, a number with a leading zero or a further line make no dump. By [`one_dump`], no
//! text is the dump of two lists of wires. Other VCD is not read.
//!
//! ```text
//! let y = wire_of(alloc, b"y", 0, 11, &runs, 10)?;
//! let text = vcd_text(alloc, &wires)?;
//! let again = read_vcd(alloc, &text)?;       // Some(wires)
//! ```
//!
//! [`wire_of`] takes time and memory linear in the runs. [`vcd_text`] gathers the n changes of all wires, sorts them by
//! time and writes the text once, in O(n log n) time and O(n) memory, whatever the times are. [`read_vcd`] goes over the
//! text once, writes the dump of what it has read, and compares the bytes.
#![tactic(auto)]

mod laws;
mod reading;
mod wire;
mod writing;

pub use laws::one_dump;
pub use reading::read_vcd;
pub use wire::{Wire, WireList, wire_of};
pub use writing::vcd_text;
