//! At which places of a list keys stand.
ghost use Rattle.std.specs.Prelude.{◌≡◌, ℕ, None, OnOk, OnErr};
ghost use Rattle.proof_graph.specs.declared.node.Node.{Node};
ghost use Rattle.proof_graph.specs.Places.{first_at, other_at, Notes, AreSame};

use crate::key::Key;
use number_hash::ByNumber;
use std::alloc::{AllocError, Global};
use std::collections::HashMap;

/// The places of keys. The first key with a fingerprint is found by that alone, so that no keys are compared, and each later one by itself.
#[derive(Drop)]
pub(crate) struct Places {
    firsts: HashMap<u64, u64, ByNumber>,
    others: HashMap<Key, u64, ByNumber>,
}

impl Places {
    /// No places.
    pub fn new(alloc: Global) -> Places
        ensures firsts { (fingerprint : ℕ) → first_at result fingerprint ≡ None }
        ensures others { (key : Node) → other_at result key ≡ None }
    {
        Places {
            firsts: HashMap::with_hasher(alloc, ByNumber),
            others: HashMap::with_hasher(alloc, ByNumber),
        }
    }

    /// The place of the first key with this fingerprint.
    pub fn first(&self, fingerprint: u64) -> Option<u64>
        ensures { result ≡ first_at self.now fingerprint }
    {
        self.firsts.get(&fingerprint).copied()
    }

    /// The place of a key that isn't the first with its fingerprint.
    pub fn other(&self, key: &Key) -> Option<u64>
        ensures { result ≡ other_at self.now key.now }
    {
        self.others.get(key).copied()
    }

    /// Makes room for one more key.
    pub fn reserve(&mut self) -> Result<(), AllocError>
        ensures { AreSame self.old self.new }
    {
        self.firsts.reserve(1)?;
        self.others.reserve(1)?;
        Ok(())
    }

    /// Notes the place of a key.
    pub fn note(&mut self, key: Key, place: u64) -> Result<(), AllocError>
        ensures ok { OnOk result (Notes self.old key place self.new) }
        ensures err { OnErr result (AreSame self.old self.new) }
    {
        let fingerprint = key.fingerprint();
        if self.first(fingerprint).is_some() {
            self.others.insert(key, place)?;
        } else {
            self.firsts.insert(fingerprint, place)?;
        }
        Ok(())
    }
}
