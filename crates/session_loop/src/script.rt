//! The script, read a block at a time and served a unit at a time.

ghost use Rattle.std.specs.Prelude.{◌≡◌, ℕ, List, length, Some, IfOk};
ghost use Rattle.backsim_io.specs.FilesInMemory.{ConsumesUpTo};
ghost use Rattle.unit_answers.specs.Stores.{AreStores};
ghost use Rattle.session_loop.specs.Outside.{outside, seen};
ghost use Rattle.session_loop.specs.Serving.{memo_of, session_of};
ghost use Rattle.session_loop.specs.inner.Desks.{IsReady};
ghost use Rattle.session_loop.specs.inner.Scripts.{CanTake, IsFresh, ServesBytes, ServesEnd, ServesScript};
ghost use Rattle.session_loop.specs.inner.Outside.{ScriptChanges};

use crate::desk::{Counts, Desk, Dumps};
use crate::service::Service;
use crate::stop::{ScriptStop, UnitStop};
use crate::unit::serve_units;
use backsim_io::{Files, Sink, Source};
use cell_store::CellStore;
use query_lines::ScriptReader;
use texts::Text;
use worker_gate::Crew;

/// The most bytes that a script has.
const SCRIPT_LIMIT: u32 = 16_777_216;

const BLOCK: usize = 4096;

/// A script under way.
#[derive(Drop)]
struct Script {
    reader: ScriptReader,
    /// How many bytes were taken.
    taken: u32,
}

impl Script {
    /// Takes the next bytes, and serves each unit as soon as its last line has ended.
    fn serve_bytes<C: Crew, F: Files, S: Sink>(
        &mut self,
        crew: &C,
        service: &Service<'_>,
        bytes: &[u8],
        desk: Desk,
        files: &mut F,
        out: &mut S,
    ) -> Result<Desk, UnitStop>
        requires script { CanTake service.now self.old (length bytes.now) }
        requires ready { IsReady (memo_of service.now) desk (F.state files.old) }
        ensures { ServesBytes service.now self.old self.new bytes.now desk result
            (seen (F.state files.old) (F.made files.old) (S.faults out.old) (S.written out.old))
            (seen (F.state files.new) (F.made files.new) (S.faults out.new) (S.written out.new)) }
    {
        let mut desk = desk;
        for byte in bytes {
            let units = self.reader.take(*byte)?;
            self.taken += 1;
            desk = serve_units(crew, service, units, desk, files, out)?;
        }
        Ok(desk)
    }

    /// Serves the units that the script's end completes.
    fn serve_end<C: Crew, F: Files, S: Sink>(
        self,
        crew: &C,
        service: &Service<'_>,
        desk: Desk,
        files: &mut F,
        out: &mut S,
    ) -> Result<Desk, UnitStop>
        requires script { CanTake service.now self 0 }
        requires ready { IsReady (memo_of service.now) desk (F.state files.old) }
        ensures { ServesEnd service.now self.reader desk result
            (seen (F.state files.old) (F.made files.old) (S.faults out.old) (S.written out.old))
            (seen (F.state files.new) (F.made files.new) (S.faults out.new) (S.written out.new)) }
    {
        let units = self.reader.end()?;
        serve_units(crew, service, units, desk, files, out)
    }
}

/// Serves a script to its end, and returns the stores as they are then. It is read again only when each unit that was complete is
/// served.
pub fn serve_script<C: Crew, F: Files, Q: Source, S: Sink>(
    crew: &C,
    service: &Service<'_>,
    stores: Vec<CellStore>,
    names: Vec<Text>,
    files: &mut F,
    queries: &mut Q,
    out: &mut S,
) -> Result<Vec<CellStore>, ScriptStop>
    requires fresh { IsFresh service.now stores.items (F.state files.old) }
    ensures at_most { (script : List ℕ) → (Q.state queries.old).left ≡ Some script
        → ConsumesUpTo (Some script) (Q.state queries.new).left 16777217 }
    ensures stores { IfOk result (λ stores. AreStores (memo_of service.now) stores.items) }
    ensures served { ServesScript (session_of service.now names.items)
        (Q.state queries.old).left (Q.state queries.new).left result
        (seen (F.state files.old) (F.made files.old) (S.faults out.old) (S.written out.old))
        (seen (F.state files.new) (F.made files.new) (S.faults out.new) (S.written out.new)) }
    ensures state { ScriptChanges
        (outside (F.state files.old) (S.faults out.old) (Q.state queries.old))
        (outside (F.state files.new) (S.faults out.new) (Q.state queries.new)) result }
{
    let alloc = service.alloc;
    let design = service.design;
    let mut script = Script {
        reader: ScriptReader::new(alloc, design.horizon()),
        taken: 0,
    };
    let mut desk = Desk {
        stores,
        counts: Counts {
            sections: 0,
            batches: 0,
            fills: 0,
            evictions: 0,
        },
        dumps: Dumps {
            last: None,
            own: names,
            made: Vec::new(alloc),
        },
        last_site: None,
    };
    let mut block = [0u8; BLOCK];
    loop {
        let left = (SCRIPT_LIMIT - script.taken) as usize;
        let room = BLOCK.min(left + 1);
        let Ok(n) = queries.read(&mut block[..room]) else {
            return Err(ScriptStop::Unread);
        };
        if n == 0 {
            let last = script.serve_end(crew, service, desk, files, out)?;
            return Ok(last.stores);
        }
        desk = script.serve_bytes(crew, service, &block[..n.min(left)], desk, files, out)?;
        if n > left {
            return Err(ScriptStop::TooLong);
        }
    }
}
