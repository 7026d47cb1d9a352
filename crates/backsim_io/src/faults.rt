//! The error for a failed call.
ghost use Rattle.backsim_io.specs.State.{Rises};

use std::error::Error;
use std::fmt;

/// A call of a source, a sink or files failed, and the object has counted
/// it.
#[derive(Clone, Copy, Debug, PartialEq, Eq)]
pub struct Failed;

impl fmt::Display for Failed {
    fn fmt<W: fmt::Write>(&self, f: &mut fmt::Formatter<W>) -> fmt::Result {
        write!(f, "a read or a write failed")
    }
}

impl Error for Failed {}

/// The count after one more fault. The greatest `u64` stays as it is.
pub(crate) fn with_fault(count: u64) -> u64
    ensures { Rises count result }
{
    count.saturating_add(1)
}
