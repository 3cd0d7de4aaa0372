//! Proofs with two parts by their numbers, as keys of a table.
ghost use Rattle.std.specs.Prelude.{◌≡◌, ◌↔◌, IsTrue};
ghost use Rattle.std.specs.Hash as fed;
ghost use Rattle.std.specs.Cmp.{partial_equiv_from_equiv};
ghost use Rattle.number_hash.specs.Codes.{same_by_equiv, fingerprints_agree};
ghost use Rattle.arena_interp.specs.Keys.{coded_partition, same_partition, partition_fingerprint};

use fol::mix;
use std::hash::{Hash, Hasher};

/// The number of a proof and those of two sequents, the parts of its end sequent.
#[derive(Clone, Copy)]
pub(crate) struct Partition {
    pub proof: u32,
    pub first: u32,
    pub second: u32,
}

impl Partition {
    // A number in which unequal ones mostly differ.
    #[tactic(auto, unfolding(crate::specs::Keys::partition_fingerprint))]
    fn fingerprint(self) -> u64
        ensures { result ≡ partition_fingerprint self }
    {
        let start = mix(0, u64::from(self.proof));
        mix(mix(start, u64::from(self.first)), u64::from(self.second))
    }
}

fn is_same(one: Partition, other: Partition) -> bool
    ensures { IsTrue result ↔ (one ≡ other) }
{
    one.proof == other.proof && one.first == other.first && one.second == other.second
}

impl PartialEq for Partition {
    ghost eq = { same_partition };

    ghost laws = { partial_equiv_from_equiv (same_by_equiv coded_partition) };

    fn eq(&self, other: &Partition) -> bool {
        is_same(*self, *other)
    }
}

impl Eq for Partition {
    ghost laws = { same_by_equiv coded_partition };
}

impl Hash for Partition {
    ghost hash_input = { λ q. fed.u64 (partition_fingerprint q) };

    ghost respects_eq = { fingerprints_agree coded_partition partition_fingerprint };

    fn hash<H: Hasher>(&self, state: &mut H) {
        state.write_u64(self.fingerprint());
    }
}
