//! Verdicts.

ghost use Rattle.std.specs.Prelude.{◌≤◌, length};
ghost use Rattle.backsim_check.specs.inner.Judged.{IsJudged, EndsStopped};

use crate::lines::{bad_line, no_line, yes_line};
use crate::reading::CheckStop;
use crate::status::CheckStatus;
use design::Design;
use std::alloc::Global;
use why_proofs::{Checked, check_proof};

/// A status, and the line that is written with it.
#[derive(Drop)]
pub struct Verdict {
    pub status: CheckStatus,
    pub line: Vec<u8>,
}

/// The verdict on a proof.
pub fn verdict_of(alloc: Global, design: &Design, text: &[u8]) -> Result<Verdict, CheckStatus>
    requires { length text.now ≤ 268435456 }
    ensures { IsJudged design.now text.now result }
{
    match check_proof(alloc, design, text)? {
        Checked::Yes {
            signal,
            time,
            value,
        } => {
            let name = design.netlist().name_of(signal);
            let line = yes_line(alloc, name, time, value)?;
            Ok(Verdict {
                status: CheckStatus::Yes,
                line,
            })
        }
        Checked::No { line } => Ok(Verdict {
            status: CheckStatus::No,
            line: no_line(alloc, line)?,
        }),
        Checked::Bad { line } => Ok(Verdict {
            status: CheckStatus::No,
            line: bad_line(alloc, line)?,
        }),
    }
}

/// The verdict where no proof was read: a refusal. After a fault, or for lack of memory, there is none.
pub fn verdict_on_stop(alloc: Global, stop: CheckStop) -> Result<Verdict, CheckStatus>
    ensures { EndsStopped stop result }
{
    match stop {
        CheckStop::Refused(refusal) => Ok(Verdict {
            status: CheckStatus::Refused,
            line: refusal.line(alloc)?,
        }),
        CheckStop::NotOpened => Err(CheckStatus::FileFault),
        CheckStop::Unread => Err(CheckStatus::ReadFault),
        CheckStop::OutOfMemory => Err(CheckStatus::OutOfMemory),
    }
}
