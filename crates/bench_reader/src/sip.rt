//! SipHash-2-4 with the key 0 (Aumasson and Bernstein, "SipHash: a fast short-input PRF", 2012). It is made for a secret key, and this one
//! is known.

ghost use Rattle.std.specs.Prelude.{◌≡◌, ◌<◌, ◌%◌, length, fold};
ghost use Rattle.bench_reader.specs.inner.Sip as sip;

/// The four words that rounds mix.
#[derive(Clone, Copy)]
pub struct State {
    pub v0: u64,
    pub v1: u64,
    pub v2: u64,
    pub v3: u64,
}

/// The state that the key 0 begins with.
const START: State = State {
    v0: 0x736f_6d65_7073_6575,
    v1: 0x646f_7261_6e64_6f6d,
    v2: 0x6c79_6765_6e65_7261,
    v3: 0x7465_6462_7974_6573,
};

impl State {
    #[inline(always)]
    fn round(self) -> State
        ensures { result ≡ sip.round self }
    {
        let v0 = self.v0.wrapping_add(self.v1);
        let v1 = self.v1.rotate_left(13) ^ v0;
        let v2 = self.v2.wrapping_add(self.v3);
        let v3 = self.v3.rotate_left(16) ^ v2;
        let v0 = v0.rotate_left(32).wrapping_add(v3);
        let v2 = v2.wrapping_add(v1);
        State {
            v0,
            v1: v1.rotate_left(17) ^ v2,
            v2: v2.rotate_left(32),
            v3: v3.rotate_left(21) ^ v0,
        }
    }

    /// The state with one more word.
    #[inline(always)]
    fn with_word(self, word: u64) -> State
        ensures { result ≡ sip.with_word self word }
    {
        let entered = State {
            v3: self.v3 ^ word,
            ..self
        };
        let mixed = entered.round().round();
        State {
            v0: mixed.v0 ^ word,
            ..mixed
        }
    }

    /// The hash, once all words are in.
    #[inline(always)]
    fn finish(self) -> u64
        ensures { result ≡ sip.finish self }
    {
        let ended = State {
            v2: self.v2 ^ 255,
            ..self
        };
        let mixed = ended.round().round().round().round();
        mixed.v0 ^ mixed.v1 ^ mixed.v2 ^ mixed.v3
    }
}

/// The last word: the bytes that fill no word, zeros, and how many bytes there are in all, modulo 256.
#[inline(always)]
fn last_word(rest: &[u8], len: usize) -> u64
    requires { length rest.now < 8 }
    ensures { result ≡ sip.last_word rest.now len }
{
    let mut bytes = [0; 8];
    bytes[..rest.len()].copy_from_slice(rest);
    bytes[7] = (len % 256) as u8;
    u64::from_le_bytes(bytes)
}

#[tactic(auto, unfolding(crate::specs::inner::Sip::sip_hash))]
pub fn sip_hash(bytes: &[u8]) -> u64
    ensures { result ≡ sip.sip_hash bytes.now }
{
    let (words, rest) = bytes.as_chunks::<8>();
    let mut state = START;
    for word in words {
        state = state.with_word(u64::from_le_bytes(*word));
    }
    state.with_word(last_word(rest, bytes.len())).finish()
}
