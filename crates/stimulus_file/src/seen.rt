//! Whether a name is set twice at one time.

ghost use Rattle.std.specs.Prelude.{◌≡◌, IfOk, map, true, false};
ghost use Rattle.std.specs.BTreeSet.{IsFromIterResult};
ghost use Rattle.std.specs.List.{list_any};
ghost use Rattle.stimulus_file.specs.declared.NumberedSet.{NumberedSet as Numbered};
ghost use Rattle.stimulus_file.specs.inner.KeptSettings.{HasSeen, Tells, is_at, key_cmp};

use crate::NumberedSet;
use crate::names::Found;
use std::alloc::{AllocError, Global};
use std::collections::BTreeSet;

/// The places and times of some settings.
pub type Seen = BTreeSet<(u32, u32)>;

/// The set that these settings make.
fn seen_in(alloc: Global, sets: &[NumberedSet]) -> Result<Seen, AllocError>
    ensures { IfOk result (IsFromIterResult key_cmp (map (λ (set : Numbered). (set.name, set.time))
        sets.now)) }
{
    sets.iter().map(|set| (set.name, set.time)).collect(alloc)
}

/// Whether none of these settings is of the name at this place, at this time, by a set of them all.
#[inline(never)]
fn is_unseen(
    alloc: Global,
    seen: &mut Option<Seen>,
    sets: &[NumberedSet],
    place: u32,
    time: u32,
) -> Result<bool, AllocError>
    ensures { HasSeen seen.old sets.now → IfOk result (Tells seen.new sets.now place time) }
{
    match seen {
        Some(seen) => Ok(seen.insert((place, time))?),
        None => {
            let mut all = seen_in(alloc, sets)?;
            let is_new = all.insert((place, time))?;
            *seen = Some(all);
            Ok(is_new)
        }
    }
}

/// Whether none of these settings is of the name that was found, at this time. A setting that is
/// later than all of its name before is new without a look-up. From the first that is not, a set
/// of all of them tells.
pub fn is_new(
    alloc: Global,
    seen: &mut Option<Seen>,
    sets: &[NumberedSet],
    found: Found,
    time: u32,
) -> Result<bool, AllocError>
    ensures { HasSeen seen.old sets.now
        → (found.is_later ≡ true → list_any (is_at found.place time) sets.now ≡ false)
        → IfOk result (Tells seen.new sets.now found.place time) }
{
    if found.is_later && seen.is_none() {
        return Ok(true);
    }
    is_unseen(alloc, seen, sets, found.place, time)
}
