//! The generator of draws.

ghost use Rattle.std.specs.Prelude.{◌≡◌, ◌+◌, ◌<◌};
ghost use Rattle.workload.specs.Draws as draws;
ghost use Rattle.workload.specs.Draws.{state_after, draw};

const MODULUS: u64 = 2_147_483_648;

/// The generator of draws: its seed, the number of draws made, and its state.
#[derive(Drop)]
pub struct Draws {
    pub seed: u32,
    pub made: u32,
    state: u32,
    ghost stands: { state ≡ state_after seed made },
    ghost bounded: { state < 2147483648 },
}

impl Draws {
    pub fn new(seed: u32) -> Draws
        requires { seed < 2147483648 }
        ensures seed { result.seed ≡ seed }
        ensures made { result.made ≡ 0 }
    {
        Draws {
            seed,
            made: 0,
            state: seed,
        }
    }

    /// The next draw, below 32,768.
    pub fn next(&mut self) -> u32
        requires { self.old.made < 4294967295 }
        ensures draw { result ≡ draw self.old.seed (self.old.made + 1) }
        ensures seed { self.new.seed ≡ self.old.seed }
        ensures made { self.new.made ≡ self.old.made + 1 }
        ensures bounded { result < 32768 }
    {
        let state = next_state(self.state);
        self.made += 1;
        self.state = state;
        state / 65_536
    }
}

fn next_state(state: u32) -> u32
    requires { state < 2147483648 }
    ensures next { result ≡ draws.next_state state }
    ensures bounded { result < 2147483648 }
{
    ((1_103_515_245 * state as u64 + 12_345) % MODULUS) as u32
}
