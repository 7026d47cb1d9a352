//! What becomes of the windows that lines ask for.

ghost use Rattle.std.specs.Prelude.{◌≡◌, map, IfOk};
ghost use Rattle.session_meaning.specs.Verdicts.{verdict, verdict_of};

use design::Design;
use journal_meaning::Query;
use query_lines::{Item, What, Window};
use session_meaning::Verdict;
use std::alloc::Global;
use texts::OutOfMemory;

/// What becomes of the window that the line of this number asks for: one look-up of its name by hashing.
pub fn verdict_of(design: &Design, line: u32, window: &Window) -> Verdict
    ensures { result ≡ verdict design.now line window.now }
{
    let Some(signal) = design.netlist().id_of(window.name.bytes()) else {
        return Verdict::Unknown;
    };
    if window.to as u64 > design.horizon() as u64 + 1 {
        return Verdict::Past;
    }
    Verdict::Ask(Query {
        number: line,
        signal,
        from: window.from,
        to: window.to,
        budget: window.budget,
    })
}

/// What becomes of the window of an item; a bad line has none.
fn item_verdict(design: &Design, item: &Item) -> Option<Verdict>
    ensures { result ≡ verdict_of design.now item.now }
{
    match &item.what {
        What::Window(window, _) => Some(verdict_of(design, item.line, window)),
        What::Bad => None,
    }
}

/// What becomes of the window of each item: one look-up of its name by hashing.
pub fn verdicts_of(
    alloc: Global,
    design: &Design,
    items: &[Item],
) -> Result<Vec<Option<Verdict>>, OutOfMemory>
    ensures { IfOk result (λ verdicts. verdicts.items ≡ map (verdict_of design.now) items.now) }
{
    let mut verdicts = Vec::new(alloc);
    for item in items {
        verdicts.push(item_verdict(design, item))?;
    }
    Ok(verdicts)
}
