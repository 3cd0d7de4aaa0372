//! The hasher, and what makes it.
ghost use Rattle.std.specs.Prelude.{◌≡◌};
ghost use Rattle.number_hash.specs.Numbers.{number_of};

use fol::mix;
use std::hash::{BuildHasher, Hasher};

// The number that bytes stand for.
fn number(bytes: &[u8]) -> u64
    ensures { result ≡ number_of bytes.now }
{
    match bytes {
        [a, b, c, d] => u64::from(u32::from_le_bytes([*a, *b, *c, *d])),
        [a, b, c, d, e, f, g, h] => u64::from_le_bytes([*a, *b, *c, *d, *e, *f, *g, *h]),
        _ => bytes
            .iter()
            .fold(0, |number, byte| mix(number, u64::from(*byte))),
    }
}

/// A hasher that mixes in each number of 32 or 64 bits by one multiplication. Other writes are mixed in byte by byte. Its seed is fixed.
#[derive(Clone, Copy)]
pub struct NumberHasher {
    state: u64,
}

impl Hasher for NumberHasher {
    ghost use Rattle.number_hash.specs.Numbers.{written};

    ghost write = { written };

    ghost finish = { λ hasher. hasher.state };

    fn finish(&self) -> u64 {
        self.state
    }

    fn write(&mut self, bytes: &[u8]) {
        self.state = mix(self.state, number(bytes));
    }

    #[tactic(auto, using(crate::proofs::Numbers::of_32))]
    fn write_u32(&mut self, i: u32) {
        self.state = mix(self.state, u64::from(i));
    }

    #[tactic(auto, using(crate::proofs::Numbers::of_64))]
    fn write_u64(&mut self, i: u64) {
        self.state = mix(self.state, i);
    }
}

/// Makes a `NumberHasher` for each look-up.
#[derive(Clone, Copy)]
pub struct ByNumber;

impl BuildHasher for ByNumber {
    type Hasher = NumberHasher;

    ghost use Rattle.number_hash.specs.Numbers.{start};

    ghost build_hasher = { λ _. start };

    fn build_hasher(&self) -> NumberHasher {
        NumberHasher { state: 0 }
    }
}
