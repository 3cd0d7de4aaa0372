//! The pairs of a table.
ghost use Rattle.std.specs.Prelude.{◌≡◌, ◌++◌, ◌∷◌, [], IfOk, OnOk, OnErr, MatchBool, IfSome, IsNone, IsSome, length, map};
ghost use mathlib.Core.List.{IsPrefix};
ghost use Rattle.memo_table.specs.Pairs.{IsIn, IsAbsent, IsLegal, pair};
ghost use Rattle.memo_table.specs.Events.{Adds};

use crate::law::Law;
use std::alloc::{AllocError, Global};
use std::collections::BTreeMap;
use std::marker::Model;
use std::snapshot::Snapshot;
use turn_log::Grows;

/// A key and a value that is true of it, as contracts list them. A table keeps keys and values, and no pairs.
#[derive(Drop)]
pub struct Pair<K, V> {
    pub key: K,
    pub val: V,
}

// The value of each key. The snapshots list the pairs in the order in which they were noted, and take no bytes.
#[derive(Drop)]
pub struct Rows<L: Law> {
    values: BTreeMap<L::Key, L::Val>,
    pairs: Vec<Snapshot<Pair<L::Key, L::Val>>>,
    home: Snapshot<L::Home>,
}

impl<L: Law> Model for Rows<L> {
    ghost use Rattle.std.specs.Prelude.{map};
    ghost use Rattle.memo_table.specs.Table.{Table, AreKept};

    ghost Value = { Table L.Key L.Val L.Home };

    ghost view = { λ r. record { pairs = map (λ s. s.value) r.pairs.items; home = r.home.value } };

    ghost invariant = { λ r. AreKept (L.Truth r.home.value) L.Key.cmp r.values.entries (map (λ s. s.value) r.pairs.items) };
}

impl<L: Law> Rows<L> {
    /// No pairs.
    pub fn new(alloc: Global, home: &L::Home) -> Rows<L>
        ensures pairs { result.pairs ≡ [] }
        ensures home { result.home ≡ home.now }
    {
        Rows {
            values: BTreeMap::new(alloc),
            pairs: Vec::new(alloc),
            home: Snapshot::of(home),
        }
    }

    /// The pairs of a table are legal.
    pub fn known(&self)
        ensures { IsLegal (L.Truth self.now.home) L.Key.cmp self.now.pairs }
    {
        let _pairs = &self.pairs;
    }

    // Whether the key stands here.
    fn has(&self, key: &L::Key) -> bool
        ensures { MatchBool result (IsIn L.Key.cmp self.now.pairs key.now) (IsAbsent L.Key.cmp self.now.pairs key.now) }
    {
        let _pairs = &self.pairs;
        self.values.contains_key(key)
    }

    /// A value that is true of the key, where the key stands here.
    pub fn find(
        &self,
        alloc: Global,
        home: &L::Home,
        key: &L::Key,
    ) -> Result<Option<L::Val>, AllocError>
        requires { home.now ≡ self.now.home }
        ensures found { IfOk result (λ o. IfSome o (λ val. L.Truth home.now key.now val)) }
        ensures some { IfOk result (λ o. IsIn L.Key.cmp self.now.pairs key.now → IsSome o) }
        ensures stands { IfOk result (λ o. IsSome o → IsIn L.Key.cmp self.now.pairs key.now) }
        ensures none { IfOk result (λ o. IsNone o → IsAbsent L.Key.cmp self.now.pairs key.now) }
    {
        match self.values.get(key) {
            Some(val) => Ok(Some(L::copy(alloc, home, val)?)),
            None => Ok(None),
        }
    }

    // Adds a pair at the end.
    fn put(&mut self, key: L::Key, val: L::Val) -> Result<(), AllocError>
        requires truth { L.Truth self.old.home key val }
        requires absent { IsAbsent L.Key.cmp self.old.pairs key }
        ensures ok { OnOk result (self.new.pairs ≡ self.old.pairs ++ pair key val ∷ []) }
        ensures err { OnErr result (self.new.pairs ≡ self.old.pairs) }
        ensures home { self.new.home ≡ self.old.home }
    {
        self.pairs.reserve(1)?;
        let pair = Pair { key, val };
        let noted = Snapshot::of(&pair);
        let Pair { key, val } = pair;
        self.values.insert(key, val)?;
        self.pairs.push_reserved(noted);
        Ok(())
    }

    /// Adds a pair, unless its key stands here.
    pub fn note(&mut self, key: L::Key, val: L::Val) -> Result<(), AllocError>
        requires { L.Truth self.old.home key val }
        ensures adds { OnOk result (Adds L.Key.cmp self.old.pairs key val self.new.pairs) }
        ensures err { OnErr result (self.new.pairs ≡ self.old.pairs) }
        ensures stands { OnOk result (IsIn L.Key.cmp self.new.pairs key) }
        ensures grown { IsPrefix self.old.pairs self.new.pairs }
        ensures home { self.new.home ≡ self.old.home }
    {
        if self.has(&key) {
            return Ok(());
        }
        self.put(key, val)
    }
}

impl<L: Law> Grows for Rows<L> {
    type Entry = Pair<L::Key, L::Val>;

    ghost Home = { L.Home };

    ghost entries = { λ r. r.pairs };

    ghost home = { λ r. r.home };

    fn count(&self) -> u64 {
        self.pairs.len() as u64
    }
}
