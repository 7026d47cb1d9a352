//! The netlist: the signals of a circuit and what drives each, read from the
//! text form of the ISCAS'85 and ISCAS'89 benchmarks (`.bench`).
//!
//! The file is text after the rules of `texts`. Its tokens are names and
//! the marks `(`, `)`, `,` and `=`; blanks may stand between them. A line that
//! isn't blank has one of three forms:
//!
//! | line | meaning |
//! |---|---|
//! | `INPUT ( name )` | the signal is a primary input |
//! | `OUTPUT ( name )` | the signal is an output |
//! | `name = KIND ( LIST )` | the signal is driven by a gate or flip-flop of this kind, whose pins are the names of LIST in order, divided by `,` |
//!
//! INPUT, OUTPUT and the kinds are read in either case; the kinds are AND,
//! NAND, OR, NOR, XOR, XNOR, NOT, BUFF (also BUF) and DFF. A first name that
//! `=` follows is the name of a gate, whatever it is. A name may be used above
//! the line that defines it, a gate may have itself among its pins, and an
//! INPUT or OUTPUT line may be said again. Lines may stand in any order.
//!
//! A line has the form that its tokens say (`specs/Lines.antt`). INPUT and
//! OUTPUT take one name, a list has any length, and the kind is any name there:
//! which kinds there are and how many pins they take is tested after it.
//!
//! [`read_bench`] reads a whole file. Its one clause says that the answer is
//! `bench_of` of the text (`specs/Netlists.antt`): the netlist, or the first
//! line at fault with its cause. A line's cause is a fact about the line and
//! the lines before it; only where no line has one, the first use of a name
//! that is defined nowhere is the fault. Want of memory alone is left open.
//!
//! [`Netlist`] is seen by contracts as its content: the names of the signals
//! in the order of first appearance, whose places are their numbers; what
//! drives each; and the outputs. `facts` tells a proof what holds of each
//! netlist: all pins and outputs are signals, the numbers of pins are those
//! that the kinds take, and no name stands twice.
//!
//! Reading takes one walk over the text and one look-up by a hash for each name
//! that it meets, so its time grows with the length of the text. Of a comment
//! only the end is looked for. A netlist keeps
//! each name once, and the pins of all gates in one list. A name of at most 11
//! bytes takes 16 bytes, and the bytes of longer names lie in one list. The two
//! lists by which names are found take 4 bytes each for each 24 bytes of the
//! text, or 4 to 8 for each name where there are more names. `id_of` is one
//! look-up, and the other calls read one place each. Names that differ in their
//! last two digits alone are looked up beside one another, so numbered names
//! that follow one another seldom wait for memory. The hash is fixed, but no
//! choice of names makes look-ups slow: where more than 33 have one bucket, all
//! are from then on found by SipHash, in an ordered map of the hashes.
//! While a file is read, a flag for each signal up to the last output tells
//! which are outputs.
//!
//! ```text
//! let netlist = read_bench(alloc, b"INPUT(a)\nOUTPUT(y)\ny = NOT(a)\n")?;
//! match netlist.row(1) {
//!     Row::Input => ..,
//!     Row::Gate { kind, pins } => .. // Kind::Not, [0]
//! }
//! ```
#![tactic(auto)]

mod chains;
mod fault;
mod form;
mod index;
mod keyed;
mod names;
mod netlist;
mod outputs;
mod reader;
mod sip;
mod text_list;

pub use fault::{BenchCause, BenchFault};
pub use netlist::{Netlist, Row};
pub use reader::read_bench;
