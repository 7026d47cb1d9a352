//! The gate of the workers: a test can hold them there.

ghost use Rattle.std.specs.Prelude.{◌≡◌, Bool, true};

/// How many turns a batch makes, for each worker that it can start, before the workers are started, where a gate says nothing else. One
/// thread makes so many in some five milliseconds.
const TURNS_BEFORE: u32 = 16_384;

/// What a gate answers a worker before a turn.
#[derive(Clone, Copy, Debug, PartialEq, Eq)]
pub enum Pass {
    Go,
    Leave,
}

/// A gate that each worker passes before each turn, and within each shard's lock.
pub trait Gate: Sync {
    /// Whether it lets every worker go on.
    ghost is_open: { Self → Bool };

    /// Called before each turn of a strand.
    fn before(&self, worker: u32) -> Pass
        ensures { is_open self.now ≡ true → result ≡ Pass.Go };

    /// Called while the shard's lock is held, before its step.
    fn within(&self, worker: u32, shard: u32);

    /// How many turns of a batch, for each worker that it can start, are made before the workers are started. To start threads, and to
    /// look at what they left, takes as long as some thousand turns, and with several workers a turn takes longer.
    fn turns_before(&self) -> u32 {
        TURNS_BEFORE
    }
}

/// The gate that is open, and at which nobody waits.
pub struct OpenGate;

impl Gate for OpenGate {
    ghost is_open = { λ _. true };

    fn before(&self, _worker: u32) -> Pass {
        Pass::Go
    }

    fn within(&self, _worker: u32, _shard: u32) {}
}
