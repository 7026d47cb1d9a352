//! A design: a netlist joined with its delays, clocks and settings; and the walk over the pins of a point in it.
//!
//! [`Design::join`] makes a design of a `Netlist`, a `Timing` and a `Stimulus`, or returns the first row at fault. `specs/Join` says
//! which row has which cause, and what the design is. In a design a signal is a number. The model of a design is the netlist's content
//! and one circuit of `circuit_meaning`. The calls return what that circuit's definitions say of a signal at a time; how delays,
//! clocks and settings are kept is hidden. [`Design::facts`] states what holds of every design. By [`order_of_settings_is_free`],
//! nothing depends on the order in which a design keeps settings. It keeps the settings that change the value of their input, and by
//! [`repeated_settings_are_free`] no value depends on the others. [`Design::hold`] makes the design in which one signal is forced to a
//! value. [`Design::reached`] returns the signals that read a signal, however far back; forcing it changes no others. Whoever asks for
//! that more than once calls [`Design::with_readers`] before.
//!
//! [`PinWalk`] looks at the pins of a point up to the first that decides, and comes to its cell (`src/pin_walk.rt`). Whoever evaluates
//! a point, or checks that a cell follows from others, walks so over a design.
//!
//! Costs: `base` takes O(log n) steps for an input with n settings, by binary search, and constant time for a gate or a flip-flop.
//! `gate_of`, `child_time`, `pin_span`, `span_over`, `netlist` and `horizon` take constant time. None of these allocates.
//! `reached` takes a flag for each signal, and time for the pins that read a signal of its result; and, where the design has no
//! links to readers, time and memory for a link for each pin, at each call. `with_readers` makes these links once, for itself and
//! all designs that are made of it. `hold` takes constant time, and a place for each held signal: the new design shares all else
//! with the old one. `join` takes the time of its rows and pins, and sorts the settings. It looks a name up for each timing row,
//! and once for all settings of a name. No choice of names or of their order makes it slow: until it ends, it keeps what rows
//! state in lists by the numbers of signals, and delays of pins and clocks with names in ordered maps. A design holds the netlist,
//! a list of settings for each input, and, in flat lists, a row for each signal, a delay for each pin of a gate, the flip-flops,
//! and, where they were made, the links.
//!
//! ```
//! let design = Design::join(alloc, netlist, &timing, &stimulus)?;
//! let y = design.netlist().id_of(b"y")?;
//! if let Some(cell) = design.base(y, 0) { .. } // no evaluation is needed
//! ```
#![tactic(auto)]

mod cells;
mod cone;
mod design;
mod fault;
mod flags;
mod held;
mod laws;
mod origin;
mod pin_walk;
mod readers;
mod rows;
mod settings;
mod signal_timing;

pub use design::Design;
pub use fault::{JoinCause, JoinFault, JoinFile};
pub use flags::FlagList;
pub use laws::{order_of_settings_is_free, repeated_settings_are_free};
pub use pin_walk::PinWalk;
