//! The readers of each signal.

ghost use Rattle.std.specs.Prelude.{◌≡◌, ◌∷◌, ◌<◌, [], length, slice_set, All, OnOk, IfOk, replicate};
ghost use Rattle.std.specs.Option.{ForSome};
ghost use Rattle.std.specs.Arc.{arc_value};
ghost use Rattle.design.specs.inner.HeldSignals.{open_readers};
ghost use Rattle.design.specs.inner.Walk.{list_at, AddsReader, AreReaders};

use crate::held::{HeldSignal, drop_held};
use crate::origin::Origin;
use std::alloc::{AllocError, Global};
use std::marker::Model;
use std::sync::Arc;
use texts::OutOfMemory;

/// A reader of a signal, and the number of the link before it; 0 if there is none.
#[derive(Clone, Copy)]
pub struct Link {
    pub reader: u32,
    pub before: u32,
}

/// The readers of each signal, the last one first. The links of all signals stand in one array, numbered from 1.
#[derive(Drop)]
pub struct Readers {
    /// For each signal the number of its last link; 0 if it has no reader.
    last: Vec<u32>,
    links: Vec<Link>,
}

impl Model for Readers {
    ghost use Rattle.std.specs.Prelude.{ℕ, List};

    ghost Value = { List (List ℕ) };

    ghost use Rattle.design.specs.inner.Links.{lists_of, AreLinks};

    ghost view = { λ r. lists_of r.links.items r.last.items };

    ghost invariant = { λ r. AreLinks r.links.items r.last.items };
}

impl Readers {
    /// This many signals without readers, with room for the links of this many pins.
    pub fn none(alloc: Global, signals: u32, pins: usize) -> Result<Readers, AllocError>
        ensures { IfOk result (λ readers. readers ≡ replicate signals []) }
    {
        Ok(Readers {
            last: vec![in alloc; 0; signals as usize]?,
            links: Vec::with_capacity(alloc, pins)?,
        })
    }

    /// Adds a reader of a signal.
    fn add(&mut self, signal: u32, reader: u32) -> Result<(), AllocError>
        requires { signal < length self.old }
        ensures { OnOk result (self.new ≡ slice_set self.old signal
            (reader ∷ list_at self.old signal)) }
    {
        let before = self.last[signal as usize];
        let Ok(number) = u32::try_from(self.links.len() + 1) else {
            return Err(AllocError);
        };
        self.links.push(Link { reader, before })?;
        self.last[signal as usize] = number;
        Ok(())
    }

    /// Adds a reader of these signals.
    pub fn add_to_all(&mut self, signals: &[u32], reader: u32) -> Result<(), AllocError>
        requires { All (λ x. x < length self.old) signals.now }
        ensures { OnOk result (AddsReader reader signals.now self.old self.new) }
    {
        for signal in signals {
            self.add(*signal, reader)?;
        }
        Ok(())
    }

    /// Replaces the content of `found` by the signals that read a signal.
    pub fn find(&self, signal: u32, found: &mut Vec<u32>) -> Result<(), AllocError>
        requires { signal < length self.now }
        ensures { OnOk result (found.new.items ≡ list_at self.now signal) }
    {
        found.clear();
        let mut number = self.last[signal as usize];
        while number != 0 {
            let link = self.links[number as usize - 1];
            found.push(link.reader)?;
            number = link.before;
        }
        Ok(())
    }
}

/// The readers of each signal.
fn readers_in(alloc: Global, origin: &Origin) -> Result<Readers, AllocError>
    ensures { IfOk result (λ readers. AreReaders origin.now.circuit readers) }
{
    let signals = origin.signals();
    let pins = origin.delays.len() + origin.flops.len();
    let mut readers = Readers::none(alloc, signals, pins)?;
    for signal in 0..signals {
        readers.add_to_all(origin.reads(signal), signal)?;
    }
    Ok(readers)
}

/// The readers of each signal: those that were made before, if they were, or else new ones.
pub fn shared_readers(
    alloc: Global,
    origin: &Origin,
    made: &Option<Arc<Readers>>,
) -> Result<Arc<Readers>, OutOfMemory>
    requires { ForSome made.now (λ readers. AreReaders origin.now.circuit (arc_value readers)) }
    ensures { IfOk result (λ readers. AreReaders origin.now.circuit (arc_value readers)) }
{
    match made {
        Some(readers) => Ok(Arc::try_clone(readers)?),
        None => Ok(Arc::new(alloc, readers_in(alloc, origin)?)?),
    }
}

/// The readers of each signal where some signals are held, which read nothing.
#[derive(Drop)]
pub struct OpenReaders<'a> {
    /// The readers where none is held.
    pub all: Arc<Readers>,
    pub held: &'a [HeldSignal],
}

impl OpenReaders<'_> {
    /// Replaces the content of `found` by the signals that read a signal.
    pub fn find(&self, signal: u32, found: &mut Vec<u32>) -> Result<(), AllocError>
        requires { signal < length (arc_value self.now.all) }
        ensures { OnOk result (found.new.items ≡ open_readers (arc_value self.now.all)
            self.now.held.now signal) }
    {
        self.all.find(signal, found)?;
        drop_held(self.held, found);
        Ok(())
    }
}
