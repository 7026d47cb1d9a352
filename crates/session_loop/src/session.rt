//! A session of a script, with its journal.

ghost use Rattle.std.specs.Prelude.{◌≡◌, ◌++◌, ◌∷◌, ◌<◌, ◌≤◌, [], ℕ, List, Some, map, IfOk};
ghost use Rattle.backsim_io.specs.FilesInMemory.{ConsumesUpTo};
ghost use Rattle.unit_answers.specs.Stores.{AreStores};
ghost use Rattle.session_loop.specs.Halting.{ServesSession};
ghost use Rattle.session_loop.specs.Serving.{memo_of, session_of};
ghost use Rattle.session_loop.specs.Outside.{outside, seen, SessionChanges};

use crate::halt::Halt;
use crate::journal::{begin_journal, finish_journal};
use crate::script::serve_script;
use crate::service::Service;
use crate::stores::empty_stores;
use backsim_io::{Files, Sink, Source};
use cell_store::CellStore;
use std::alloc::Global;
use texts::{OutOfMemory, Text};
use worker_gate::Crew;

/// The names of a session's own files: those of its inputs, and that of its journal.
fn own_names(alloc: Global, inputs: &[&str], journal: &str) -> Result<Vec<Text>, OutOfMemory>
    ensures { IfOk result (λ names. names.items ≡ map (λ name. name.now)
        inputs.now ++ journal.now ∷ []) }
{
    let mut names = Vec::with_capacity(alloc, inputs.len() + 1)?;
    for name in inputs {
        names.push(Text::from_bytes(alloc, name.as_bytes())?)?;
    }
    names.push(Text::from_bytes(alloc, journal.as_bytes())?)?;
    Ok(names)
}

/// Creates the journal and writes its head, serves the script to its end over empty stores, and finishes the journal. No dump is made
/// under the name of the journal, or one of those of the inputs.
///
/// The script is read again only when the replies and the sections of every unit that it has completed so far are written, and at
/// most 16,777,216 bytes and one more are read. The stores are handed back, as each of their cells has memory of its own: a program that
/// ends next may leave them to the end of its process.
pub fn serve_session<C: Crew, F: Files, Q: Source, S: Sink>(
    crew: &C,
    service: &Service<'_>,
    inputs: &[&str],
    journal: &str,
    files: &mut F,
    queries: &mut Q,
    out: &mut S,
) -> Result<Vec<CellStore>, Halt>
    requires shards { (0 < service.now.sizes.shards) × (service.now.sizes.shards ≤ 64) }
    requires cells { (0 < service.now.sizes.cells) × (service.now.sizes.cells ≤ 65536) }
    requires files { (F.state files.old).created ≡ 0 }
    ensures served { let names = map (λ name. name.now) inputs.now ++ journal.now ∷ [] in
        ServesSession (session_of service.now names) journal.now
        (Q.state queries.old).left (Q.state queries.new).left result
        (seen (F.state files.old) (F.made files.old) (S.faults out.old) (S.written out.old))
        (seen (F.state files.new) (F.made files.new) (S.faults out.new) (S.written out.new)) }
    ensures stores { IfOk result (λ stores. AreStores (memo_of service.now) stores.items) }
    ensures at_most { (script : List ℕ) → (Q.state queries.old).left ≡ Some script
        → ConsumesUpTo (Some script) (Q.state queries.new).left 16777217 }
    ensures state { SessionChanges
        (outside (F.state files.old) (S.faults out.old) (Q.state queries.old))
        (outside (F.state files.new) (S.faults out.new) (Q.state queries.new)) result }
{
    let alloc = service.alloc;
    let sizes = service.sizes;
    begin_journal(alloc, sizes, journal, files)?;
    let stores = empty_stores(alloc, sizes)?;
    let names = own_names(alloc, inputs, journal)?;
    let left = serve_script(crew, service, stores, names, files, queries, out)?;
    finish_journal(files)?;
    Ok(left)
}
