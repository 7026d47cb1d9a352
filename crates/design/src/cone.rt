//! The signals with a given signal in their cones, by a walk forward through the readers.

ghost use Rattle.std.specs.Prelude.{◌≡◌, ◌<◌, ◌↔◌, ◌∷◌, [], ℕ, length, slice_index_or, false, All, IsTrue, OnOk, IfOk};
ghost use Rattle.circuit_meaning.specs.Need.{IsInCone};
ghost use Rattle.design.specs.inner.Walk.{Marks};

use crate::design::Design;
use crate::flags::FlagList;
use std::alloc::{AllocError, Global};
use texts::OutOfMemory;

/// A walk: a mark for each signal, and the marked signals still to be visited.
#[derive(Drop)]
struct Walk {
    marks: Vec<bool>,
    ahead: Vec<u32>,
}

impl Walk {
    /// Marks a signal. If it was not marked, it has to be visited.
    fn mark(&mut self, signal: u32) -> Result<(), AllocError>
        requires { signal < length self.old.marks.items }
        ensures { OnOk result (Marks (signal ∷ []) self.old.marks.items self.new.marks.items
            self.old.ahead.items self.new.ahead.items) }
    {
        if !self.marks[signal as usize] {
            self.marks[signal as usize] = true;
            self.ahead.push(signal)?;
        }
        Ok(())
    }

    /// Marks these signals. Those that were not marked have to be visited.
    fn mark_all(&mut self, signals: &[u32]) -> Result<(), AllocError>
        requires { All (λ x. x < length self.old.marks.items) signals.now }
        ensures { OnOk result (Marks signals.now self.old.marks.items self.new.marks.items
            self.old.ahead.items self.new.ahead.items) }
    {
        for signal in signals {
            self.mark(*signal)?;
        }
        Ok(())
    }
}

impl Design {
    /// For each signal whether it reads `site`, however far back. The site counts as one of them. All other signals are free of the
    /// site.
    ///
    /// The call takes a flag for each signal, and the time to look once at each pin that reads a marked signal. Without the links of
    /// [`Design::with_readers`] it makes them first, one for each pin, and gives them up in the end.
    pub fn reached(&self, alloc: Global, site: u32) -> Result<FlagList, OutOfMemory>
        requires { site < length self.now.circuit.drivers }
        ensures length { IfOk result (λ flags. length flags ≡ length self.now.circuit.drivers) }
        ensures flags { IfOk result (λ flags. (x : ℕ) → x < length self.now.circuit.drivers
            → IsTrue (slice_index_or flags x false) ↔ IsInCone self.now.circuit x site) }
    {
        let readers = self.readers(alloc)?;
        let mut walk = Walk {
            marks: vec![in alloc; false; self.signals() as usize]?,
            ahead: Vec::new(alloc),
        };
        let mut found = Vec::new(alloc);
        walk.mark(site)?;
        'signals: loop {
            match walk.ahead.pop() {
                None => break,
                Some(next) => {
                    readers.find(next, &mut found)?;
                    walk.mark_all(&found)?;
                }
            }
        }
        Ok(FlagList::from_vec(walk.marks))
    }
}
