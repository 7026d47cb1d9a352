//! Workers as a crew.

ghost use Rattle.std.specs.Prelude.{◌≡◌, ◌<◌, ◌≤◌};

use crate::crew::Crew;
use crate::gate::Gate;
use std::sync::Wait;
use std::thread::Threads;

/// From 1 to 64 workers, the gate that each passes, and the runtime in which they are started. They are started anew for each batch.
#[derive(Drop)]
pub struct Workers<'a, G: Gate, R: Threads + Wait + Sync> {
    rt: &'a R,
    gate: &'a G,
    count: u32,
    ghost some: { 0 < count },
    ghost most: { count ≤ 64 },
}

impl<'a, G: Gate, R: Threads + Wait + Sync> Workers<'a, G, R> {
    /// Workers of this runtime, with this gate.
    pub fn new(rt: &'a R, gate: &'a G, count: u32) -> Workers<'a, G, R>
        requires some { 0 < count }
        requires most { count ≤ 64 }
        ensures count { result.count ≡ count }
    {
        Workers { rt, gate, count }
    }
}

impl<G: Gate, R: Threads + Wait + Sync> Crew for Workers<'_, G, R> {
    type Gate = G;

    type Runtime = R;

    ghost is_open = { λ workers. G.is_open workers.gate.now };

    fn gate(&self) -> &G {
        self.gate
    }

    fn runtime(&self) -> &R {
        self.rt
    }

    fn workers(&self) -> u32 {
        self.count
    }
}
