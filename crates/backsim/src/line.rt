//! What is written beside replies: a line that tells of a refusal, and the usage.

ghost use Rattle.backsim.specs.inner.Stops.{Tells};

use crate::status::{Output, Status};
use backsim_io::{Sink, write_all};

/// What is written where the words are none of the forms.
pub const USAGE: &[u8] =
    b"usage: backsim NETLIST TIMING STIMULUS JOURNAL [--workers N] [--shards N] [--cells N]\n       backsim --work N JOURNAL [--workers N]\n";

/// The line that tells of a script that is too long.
pub const TOO_LONG: &[u8] = b"refused script too long\n";

/// Writes a text after the replies, and gives this status, or that of the fault.
pub fn tell<S: Sink>(text: &[u8], status: Status, out: &mut S) -> Status
    ensures { Tells text.now status
        (S.faults out.old) (S.written out.old) (S.faults out.new) (S.written out.new) result }
{
    match write_all(out, text) {
        Ok(()) => status,
        Err(_) => Status::WriteFault(Output::Replies),
    }
}
