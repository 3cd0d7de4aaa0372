//! A table and its passes.
ghost use Rattle.std.specs.Prelude.{◌≡◌, [], IfOk, OnOk, IfSome, IsNone, IsSome};
ghost use mathlib.Core.List.{IsPrefix};
ghost use Rattle.turn_log.specs.Passes.{seen};
ghost use Rattle.turn_log.specs.Rules.{longer};
ghost use Rattle.memo_table.specs.Pairs.{IsIn, IsAbsent, IsLegal};
ghost use Rattle.memo_table.specs.Events.{AddsAtMost};
ghost use Rattle.memo_table.specs.Memos.{home_of, IsPassOf};

use crate::law::Law;
use crate::rows::Rows;
use std::alloc::{AllocError, Global};
use std::mem::forget;
use std::sync::Wait;
use turn_log::{Pass, TurnLog};

/// A table over a log of its pairs. A bound on its parameter would keep threads from sharing it.
pub struct MemoOf<G> {
    log: G,
}

/// A table of pairs that are true at one home. It can't be dropped: it is ended by `close` or `leave`.
pub type Memo<L> = MemoOf<TurnLog<Rows<L>>>;

/// The right of one thread to look up and to note, with the list of pairs that it has seen.
pub type MemoPass<L> = Pass<Rows<L>>;

impl<L: Law> MemoOf<TurnLog<Rows<L>>> {
    /// A table with no pairs, and its first pass.
    pub fn new(alloc: Global, home: &L::Home) -> Result<(Memo<L>, MemoPass<L>), AllocError>
        ensures home { IfOk result (λ made. home_of made.0 ≡ home.now) }
        ensures of { IfOk result (λ made. IsPassOf made.0 made.1) }
        ensures seen { IfOk result (λ made. seen made.1 ≡ []) }
    {
        let (log, pass) = TurnLog::new(alloc, Rows::new(alloc, home))?;
        Ok((MemoOf { log }, pass))
    }

    /// A value that is true of the key, where a key that compares equal was noted. Waits for other threads.
    pub fn find<R: Wait>(
        &self,
        rt: &R,
        alloc: Global,
        pass: &mut MemoPass<L>,
        home: &L::Home,
        key: &L::Key,
    ) -> Result<Option<L::Val>, AllocError>
        requires of { IsPassOf self.now pass.old }
        requires home { home.now ≡ home_of self.now }
        ensures of { IsPassOf self.now pass.new }
        ensures grown { IsPrefix (seen pass.old) (seen pass.new) }
        ensures legal { IsLegal (L.Truth (home_of self.now)) L.Key.cmp (seen pass.new) }
        ensures found { IfOk result (λ o. IfSome o (λ val. L.Truth (home_of self.now) key.now val)) }
        ensures some { IfOk result (λ o. IsIn L.Key.cmp (seen pass.new) key.now → IsSome o) }
        ensures known { IfOk result (λ o. IsIn L.Key.cmp (seen pass.old) key.now → IsSome o) }
        ensures stands { IfOk result (λ o. IsSome o → IsIn L.Key.cmp (seen pass.new) key.now) }
        ensures none { IfOk result (λ o. IsNone o → IsAbsent L.Key.cmp (seen pass.new) key.now) }
    {
        let turn = self.log.take(rt, pass);
        turn.value().known();
        let found = turn.value().find(alloc, home, key);
        self.log.give(pass, turn);
        found
    }

    /// Adds a true pair, unless a key that compares equal was noted before: then the table stays as it is, and the value that it has
    /// is the one that is found. Waits for other threads.
    pub fn note<R: Wait>(
        &self,
        rt: &R,
        pass: &mut MemoPass<L>,
        key: L::Key,
        val: L::Val,
    ) -> Result<(), AllocError>
        requires of { IsPassOf self.now pass.old }
        requires truth { L.Truth (home_of self.now) key val }
        ensures of { IsPassOf self.now pass.new }
        ensures grown { IsPrefix (seen pass.old) (seen pass.new) }
        ensures legal { IsLegal (L.Truth (home_of self.now)) L.Key.cmp (seen pass.new) }
        ensures stands { OnOk result (IsIn L.Key.cmp (seen pass.new) key) }
        ensures adds { OnOk result (AddsAtMost L.Key.cmp (seen pass.old) key val (seen pass.new)) }
    {
        let mut turn = self.log.take(rt, pass);
        let noted = turn.value_mut().note(key, val);
        turn.value().known();
        self.log.give(pass, turn);
        noted
    }

    /// A pass that has seen the same, as for another thread.
    pub fn split(&self, pass: &mut MemoPass<L>) -> MemoPass<L>
        requires { IsPassOf self.now pass.old }
        ensures of { IsPassOf self.now pass.new × IsPassOf self.now result }
        ensures seen { (seen pass.new ≡ seen pass.old) × (seen result ≡ seen pass.old) }
    {
        self.log.split(pass)
    }

    /// Takes another pass in. Of what the two had seen the one begins the other, and the pass has then seen the longer.
    pub fn join(&self, pass: &mut MemoPass<L>, other: MemoPass<L>)
        requires { IsPassOf self.now pass.old × IsPassOf self.now other }
        ensures of { IsPassOf self.now pass.new }
        ensures seen { seen pass.new ≡ longer (seen pass.old) (seen other) }
        ensures first { IsPrefix (seen pass.old) (seen pass.new) }
        ensures second { IsPrefix (seen other) (seen pass.new) }
    {
        self.log.join(pass, other);
    }

    /// Ends the table, with all that it has. Waits for other threads.
    pub fn close<R: Wait>(self, rt: &R, pass: MemoPass<L>)
        requires { IsPassOf self pass }
    {
        let MemoOf { log } = self;
        drop(log.close(rt, pass));
    }

    /// Ends the table as `close` does, but gives no memory back: for a process that ends next, which the system takes all memory from.
    pub fn leave<R: Wait>(self, rt: &R, pass: MemoPass<L>)
        requires { IsPassOf self pass }
    {
        let MemoOf { log } = self;
        forget(log.close(rt, pass));
    }
}
