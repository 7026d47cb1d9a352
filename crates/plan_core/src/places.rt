//! The places of strands.

ghost use Rattle.std.specs.Prelude.{◌≡◌, ◌<◌, length, map, slice_get, slice_set, Some, None, IfOk, IfSome};
ghost use Rattle.plan_machine.specs.Parts.{put_back as put_all};
ghost use Rattle.plan_machine.specs.Plans.{itself};
ghost use Rattle.demand_points.specs.Demands.{Demand};
ghost use Rattle.memo_shards.specs.Seen.{numbered_strand};
ghost use Rattle.plan_core.specs.inner.Places.{seats, tags, tag_of, AreNumbered, HaveNumbers, IsNextAt};

use crate::paused::Paused;
use demand_points::{BatchDesign, BatchName, Strand};
use plan_machine::Next;
use std::alloc::Global;
use texts::OutOfMemory;

/// The next step of the strand in a place.
pub fn next_at<B: BatchName>(places: &[Option<Paused<B>>], number: usize) -> Option<Next>
    requires { number < length places.now }
    ensures { IsNextAt places.now number result }
{
    match &places[number] {
        Some(paused) => Some(paused.next()),
        None => None,
    }
}

/// The strand in a place.
pub fn strand_at<B: BatchName>(places: &[Option<Paused<B>>], number: usize) -> Option<&Strand<B>>
    ensures some { IfSome result (λ s. slice_get places.now number ≡ Some (Some s.now)) }
    ensures none { result ≡ None → (s : Demand) → slice_get places.now number ≡ Some (Some s) → ⊥ }
{
    if number >= places.len() {
        return None;
    }
    match &places[number] {
        Some(paused) => Some(paused.strand()),
        None => None,
    }
}

/// Puts the result of a step into the place.
pub fn put_at<B: BatchName>(
    places: &mut Vec<Option<Paused<B>>>,
    number: usize,
    back: Option<Paused<B>>,
)
    requires { number < length places.old.items }
    ensures { places.new.items ≡ slice_set places.old.items number back }
{
    places[number] = back;
}

/// Puts each strand into the place of its number.
pub fn put_back<B: BatchName>(
    places: &mut Vec<Option<Paused<B>>>,
    woken: Vec<Strand<B>>,
    design: BatchDesign<'_, B>,
)
    requires numbers { HaveNumbers (length places.old.items) woken.items }
    requires numbered { AreNumbered places.old.items }
    ensures seats { seats places.new.items ≡ put_all itself (seats places.old.items)
        (map numbered_strand woken.items) }
    ensures length { length places.new.items ≡ length places.old.items }
    ensures numbered { AreNumbered places.new.items }
{
    for strand in woken {
        let number = strand.number() as usize;
        put_at(places, number, Some(Paused::new(strand, design)));
    }
}

/// A place for each strand, advanced to its next step.
pub fn pause_all<B: BatchName>(
    alloc: Global,
    strands: Vec<Strand<B>>,
    design: BatchDesign<'_, B>,
) -> Result<Vec<Option<Paused<B>>>, OutOfMemory>
    ensures { IfOk result (λ v. tags v.items ≡ map tag_of strands.items) }
{
    let mut places = Vec::new(alloc);
    for strand in strands {
        places.push(Some(Paused::new(strand, design)))?;
    }
    Ok(places)
}
