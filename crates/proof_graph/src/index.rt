//! The index of a graph: which key stands at which number.
ghost use Rattle.std.specs.Prelude.{◌≡◌, ◌≢◌, ◌↔◌, ◌<◌, ◌≤◌, ◌^◌, ◌++◌, ◌∷◌, [], length, map, None, IsTrue, IfOk, OnOk, OnErr, IfSome, IsNone, vec_capacity};
ghost use Rattle.std.specs.List.{All, Contains};
ghost use mathlib.Core.List.{IsPrefix};
ghost use Rattle.proof_trees.specs.Trees.{below};
ghost use Rattle.proof_graph.specs.declared.node.Node.{Node};
ghost use Rattle.proof_graph.specs.Keys.{node_fingerprint};
ghost use Rattle.proof_graph.specs.References.{key_of, trees_of, numbers_of};
ghost use Rattle.proof_graph.specs.History.{IsLegal, IsAbsent, StandsAt, StandEach, Adds, AddsEach};
ghost use Rattle.proof_graph.specs.Drafts.{IsDraftOf, drafted, AreDrafts, keys_in, trees_in};
ghost use Rattle.proof_graph.specs.Entered.{IsCandidate, AreCandidates, IsRight, IsEntered, key_entered, tree_entered, made_in};

use crate::key::{Key, is_same_key};
use crate::places::Places;
use crate::reference::{Draft, ProofRef};
use crate::tree::Nodes;
use std::alloc::{AllocError, Global};
use std::marker::Model;
use std::snapshot::Snapshot;
use std::sync::Wait;

/// What becomes of a draft in a turn: its reference, and the draft itself with its key where it wasn't put in. Then the reference is that of
/// the key, or, after a turn in which no keys are compared, a candidate: the reference of a key with the same fingerprint.
#[derive(Drop)]
pub(crate) struct Entered {
    pub made: ProofRef,
    pub left: Option<(Key, Draft)>,
}

impl Entered {
    /// Whether the reference is that of the key. Keys are compared here, with no turn.
    pub fn is_right(&self, nodes: &Nodes) -> bool
        requires { self.now.made.home ≡ nodes.now }
        ensures { IsTrue result ↔ IsRight self.now }
    {
        match &self.left {
            Some((key, _draft)) => is_same_key(self.made.key(nodes), key),
            None => true,
        }
    }

    /// The reference, which means the draft's tree. What is left over is dropped.
    pub fn settle(self, nodes: &Nodes) -> ProofRef
        requires { IsEntered nodes.now self }
        ensures made { result ≡ self.made }
        ensures tree { result.tree ≡ tree_entered self }
    {
        let Entered { made, left } = self;
        if let Some((_key, draft)) = left {
            see_trees(nodes, &made, draft.premises());
        }
        made
    }
}

/// Whether each reference is that of its key.
pub(crate) fn are_right(nodes: &Nodes, entered: &[Entered]) -> bool
    requires { AreCandidates nodes.now entered.now }
    ensures { IsTrue result → All IsRight entered.now }
{
    for one in entered {
        if !one.is_right(nodes) {
            return false;
        }
    }
    true
}

/// The references of several drafts, as `settle` gives them. They go into `made`, where room for them was made.
pub(crate) fn settle_each(
    nodes: &Nodes,
    entered: Vec<Entered>,
    mut made: Vec<ProofRef>,
) -> Vec<ProofRef>
    requires entered { All (IsEntered nodes.now) entered.items }
    requires empty { made.items ≡ [] }
    requires room { length entered.items ≤ vec_capacity made }
    ensures made { result.items ≡ made_in entered.items }
    ensures trees { map (λ r. r.tree) result.items ≡ map tree_entered entered.items }
{
    for one in entered {
        made.push_reserved(one.settle(nodes));
    }
    made
}

/// The references of a graph in the order in which they were interned, and for the key of each its place.
#[derive(Drop)]
pub(crate) struct Index {
    home: Snapshot<Nodes>,
    refs: Vec<ProofRef>,
    places: Places,
    // No number is above it.
    top: u64,
}

impl Model for Index {
    ghost use Rattle.proof_graph.specs.History.{Recorded, coded_recorded};

    ghost Value = { Recorded };

    ghost coded = { coded_recorded };

    ghost use Rattle.proof_graph.specs.Indexed.{recorded, IsIndexed};

    ghost view = { recorded };

    ghost invariant = { IsIndexed };
}

impl Index {
    /// An index with no entry.
    pub fn new(alloc: Global, nodes: &Nodes) -> Index
        ensures home { result.home ≡ nodes.now }
        ensures history { result.history ≡ [] }
    {
        Index {
            home: Snapshot::of(nodes),
            refs: Vec::new(alloc),
            places: Places::new(alloc),
            top: 0,
        }
    }

    /// How many entries there are.
    pub fn count(&self) -> u64
        ensures length { result ≡ length self.now.history }
        ensures bound { result < 2 ^ 63 }
    {
        self.refs.len() as u64
    }

    /// A history is legal.
    pub fn known(&self)
        ensures { IsLegal self.now.history }
    {
        let _refs = &self.refs;
    }

    // The first reference whose key has this fingerprint. Keys aren't compared.
    fn first(&self, fingerprint: u64) -> Option<&ProofRef>
        ensures found { IfSome result (λ r. Contains self.now.history r.now × (r.now.home ≡ self.now.home)) }
        ensures absent { IsNone result → (key : Node) → node_fingerprint key ≡ fingerprint → IsAbsent self.now.history key }
    {
        match self.places.first(fingerprint) {
            Some(place) => Some(&self.refs[place as usize]),
            None => None,
        }
    }

    // The reference whose key this is.
    fn find(&self, nodes: &Nodes, key: &Key) -> Option<&ProofRef>
        requires { self.now.home ≡ nodes.now }
        ensures found { IfSome result (λ r. (key_of r.now ≡ key.now) × Contains self.now.history r.now × (r.now.home ≡ self.now.home)) }
        ensures absent { IsNone result → IsAbsent self.now.history key.now }
    {
        let place = self.places.first(key.fingerprint())?;
        let first = &self.refs[place as usize];
        if is_same_key(first.key(nodes), key) {
            return Some(first);
        }
        match self.places.other(key) {
            Some(place) => Some(&self.refs[place as usize]),
            None => None,
        }
    }

    // The first reference whose key has the fingerprint of this one, once more.
    fn candidate(&self, key: &Key) -> Result<Option<ProofRef>, AllocError>
        ensures found { IfOk result (λ o. IfSome o (λ r. Contains self.now.history r × (r.home ≡ self.now.home))) }
        ensures absent { IfOk result (λ o. IsNone o → IsAbsent self.now.history key.now) }
        ensures legal { IsLegal self.now.history }
    {
        self.known();
        match self.first(key.fingerprint()) {
            Some(found) => Ok(Some(found.keep()?)),
            None => Ok(None),
        }
    }

    // The reference whose key this is, once more.
    fn look_up(&self, nodes: &Nodes, key: &Key) -> Result<Option<ProofRef>, AllocError>
        requires { self.now.home ≡ nodes.now }
        ensures found { IfOk result (λ o. IfSome o (λ r. (key_of r ≡ key.now) × Contains self.now.history r × (r.home ≡ self.now.home))) }
        ensures absent { IfOk result (λ o. IsNone o → IsAbsent self.now.history key.now) }
        ensures legal { IsLegal self.now.history }
    {
        self.known();
        match self.find(nodes, key) {
            Some(found) => Ok(Some(found.keep()?)),
            None => Ok(None),
        }
    }

    /// The reference of a key, which is added with its node at the end where no key has its fingerprint. Else the first reference whose key
    /// has it, and the key and the draft are left over. So no keys are compared.
    pub fn enter<R: Wait>(
        &mut self,
        rt: &R,
        nodes: &Nodes,
        key: Key,
        draft: Draft,
    ) -> Result<Entered, AllocError>
        requires home { self.old.home ≡ nodes.now }
        requires draft { IsDraftOf nodes.now key draft }
        ensures candidate { IfOk result (IsCandidate nodes.now) }
        ensures key { IfOk result (λ e. key_entered e ≡ key) }
        ensures tree { IfOk result (λ e. tree_entered e ≡ drafted draft) }
        ensures adds { IfOk result (λ e. Adds self.old.history (key_of e.made) e.made self.new.history) }
        ensures err { OnErr result (self.new.history ≡ self.old.history) }
        ensures grown { IsPrefix self.old.history self.new.history }
        ensures legal { IsLegal self.new.history }
        ensures home { self.new.home ≡ self.old.home }
    {
        match self.candidate(&key)? {
            Some(made) => Ok(Entered {
                made,
                left: Some((key, draft)),
            }),
            None => self.put_in(rt, nodes, key, draft),
        }
    }

    /// The reference of a key, which is added with its node at the end where it isn't there. Else the key and the draft are left over.
    pub fn intern<R: Wait>(
        &mut self,
        rt: &R,
        nodes: &Nodes,
        key: Key,
        draft: Draft,
    ) -> Result<Entered, AllocError>
        requires home { self.old.home ≡ nodes.now }
        requires draft { IsDraftOf nodes.now key draft }
        ensures entered { IfOk result (IsEntered nodes.now) }
        ensures key { IfOk result (λ e. key_of e.made ≡ key) }
        ensures tree { IfOk result (λ e. tree_entered e ≡ drafted draft) }
        ensures adds { IfOk result (λ e. Adds self.old.history key e.made self.new.history) }
        ensures err { OnErr result (self.new.history ≡ self.old.history) }
        ensures grown { IsPrefix self.old.history self.new.history }
        ensures legal { IsLegal self.new.history }
        ensures home { self.new.home ≡ self.old.home }
    {
        if let Some(made) = self.look_up(nodes, &key)? {
            let left = Some((key, draft));
            return Ok(Entered { made, left });
        }
        self.put_in(rt, nodes, key, draft)
    }

    /// What `intern` makes of a key and a draft that `enter` left over. A reference that was put in stays as it is.
    pub fn intern_left<R: Wait>(
        &mut self,
        rt: &R,
        nodes: &Nodes,
        candidate: Entered,
    ) -> Result<Entered, AllocError>
        requires home { self.old.home ≡ nodes.now }
        requires candidate { IsCandidate nodes.now candidate }
        requires stands { StandsAt self.old.history (key_of candidate.made) candidate.made.number }
        ensures entered { IfOk result (IsEntered nodes.now) }
        ensures key { IfOk result (λ e. key_of e.made ≡ key_entered candidate) }
        ensures tree { IfOk result (λ e. tree_entered e ≡ tree_entered candidate) }
        ensures adds { IfOk result (λ e. Adds self.old.history (key_entered candidate) e.made self.new.history) }
        ensures err { OnErr result (self.new.history ≡ self.old.history) }
        ensures grown { IsPrefix self.old.history self.new.history }
        ensures legal { IsLegal self.new.history }
        ensures home { self.new.home ≡ self.old.home }
    {
        self.known();
        let Entered { made, left } = candidate;
        match left {
            Some((key, draft)) => self.intern(rt, nodes, key, draft),
            None => Ok(Entered { made, left: None }),
        }
    }

    /// What `enter` makes of several keys, one after another. It goes into `entered`, where room for it was made.
    pub fn enter_each<R: Wait>(
        &mut self,
        rt: &R,
        nodes: &Nodes,
        drafts: Vec<(Key, Draft)>,
        mut entered: Vec<Entered>,
    ) -> Result<Vec<Entered>, AllocError>
        requires home { self.old.home ≡ nodes.now }
        requires drafts { AreDrafts nodes.now drafts.items }
        requires empty { entered.items ≡ [] }
        requires room { length drafts.items ≤ vec_capacity entered }
        ensures candidates { IfOk result (λ es. AreCandidates nodes.now es.items) }
        ensures keys { IfOk result (λ es. map key_entered es.items ≡ keys_in drafts.items) }
        ensures trees { IfOk result (λ es. map tree_entered es.items ≡ trees_in drafts.items) }
        ensures adds { IfOk result (λ es. AddsEach self.old.history (made_in es.items) self.new.history) }
        ensures grown { IsPrefix self.old.history self.new.history }
        ensures legal { IsLegal self.new.history }
        ensures home { self.new.home ≡ self.old.home }
    {
        self.known();
        for (key, draft) in drafts {
            entered.push_reserved(self.enter(rt, nodes, key, draft)?);
        }
        Ok(entered)
    }

    /// What `intern_left` makes of several, one after another. It goes into `entered`, where room for it was made.
    pub fn intern_left_each<R: Wait>(
        &mut self,
        rt: &R,
        nodes: &Nodes,
        candidates: Vec<Entered>,
        mut entered: Vec<Entered>,
    ) -> Result<Vec<Entered>, AllocError>
        requires home { self.old.home ≡ nodes.now }
        requires candidates { AreCandidates nodes.now candidates.items }
        requires stand { StandEach self.old.history (made_in candidates.items) }
        requires empty { entered.items ≡ [] }
        requires room { length candidates.items ≤ vec_capacity entered }
        ensures entered { IfOk result (λ es. All (IsEntered nodes.now) es.items) }
        ensures keys { IfOk result (λ es. map key_of (made_in es.items) ≡ map key_entered candidates.items) }
        ensures trees { IfOk result (λ es. map tree_entered es.items ≡ map tree_entered candidates.items) }
        ensures adds { IfOk result (λ es. AddsEach self.old.history (made_in es.items) self.new.history) }
        ensures grown { IsPrefix self.old.history self.new.history }
        ensures legal { IsLegal self.new.history }
        ensures home { self.new.home ≡ self.old.home }
    {
        self.known();
        for one in candidates {
            entered.push_reserved(self.intern_left(rt, nodes, one)?);
        }
        Ok(entered)
    }

    // What becomes of a draft whose key isn't there: its node is added at the end.
    fn put_in<R: Wait>(
        &mut self,
        rt: &R,
        nodes: &Nodes,
        key: Key,
        draft: Draft,
    ) -> Result<Entered, AllocError>
        requires home { self.old.home ≡ nodes.now }
        requires draft { IsDraftOf nodes.now key draft }
        requires absent { IsAbsent self.old.history key }
        ensures made { IfOk result (λ e. e.left ≡ None) }
        ensures of { IfOk result (λ e. e.made.home ≡ nodes.now) }
        ensures key { IfOk result (λ e. key_of e.made ≡ key) }
        ensures tree { IfOk result (λ e. e.made.tree ≡ drafted draft) }
        ensures ok { IfOk result (λ e. self.new.history ≡ self.old.history ++ e.made ∷ []) }
        ensures err { OnErr result (self.new.history ≡ self.old.history) }
        ensures legal { IsLegal self.new.history }
        ensures home { self.new.home ≡ self.old.home }
    {
        let added = self.add(rt, nodes, key, draft);
        self.known();
        let made = added?;
        Ok(Entered { made, left: None })
    }

    // The reference of a node whose key isn't there, which is added at the end. Memory for it is taken before the node is put in.
    fn add<R: Wait>(
        &mut self,
        rt: &R,
        nodes: &Nodes,
        key: Key,
        draft: Draft,
    ) -> Result<ProofRef, AllocError>
        requires home { self.old.home ≡ nodes.now }
        requires draft { IsDraftOf nodes.now key draft }
        requires absent { IsAbsent self.old.history key }
        ensures of { IfOk result (λ r. r.home ≡ nodes.now) }
        ensures key { IfOk result (λ r. key_of r ≡ key) }
        ensures tree { IfOk result (λ r. r.tree ≡ drafted draft) }
        ensures ok { IfOk result (λ r. self.new.history ≡ self.old.history ++ r ∷ []) }
        ensures err { OnErr result (self.new.history ≡ self.old.history) }
        ensures home { self.new.home ≡ self.old.home }
    {
        self.make_room()?;
        let made = draft.enter(rt, nodes, &key)?;
        self.see_new(nodes, &made);
        let kept = made.keep()?;
        self.put(key, made)?;
        Ok(kept)
    }

    // Makes room for one more entry.
    fn make_room(&mut self) -> Result<(), AllocError>
        ensures { self.new ≡ self.old }
    {
        self.refs.reserve(1)?;
        self.places.reserve()?;
        Ok(())
    }

    // The number of a new reference is that of no entry. Numbers rise, so that mostly it is above all of them; else it is compared
    // with each.
    fn see_new(&self, nodes: &Nodes, made: &ProofRef)
        requires home { self.now.home ≡ nodes.now }
        requires of { made.now.home ≡ nodes.now }
        requires absent { IsAbsent self.now.history (key_of made.now) }
        ensures { All (λ r. r.number ≢ made.now.number) self.now.history }
    {
        if made.number() > self.top {
            return;
        }
        see_apart(nodes, &self.refs, made);
    }

    // Adds a reference with its key.
    fn put(&mut self, key: Key, made: ProofRef) -> Result<(), AllocError>
        requires of { made.home ≡ self.old.home }
        requires key { key_of made ≡ key }
        requires absent { IsAbsent self.old.history key }
        requires number { All (λ r. r.number ≢ made.number) self.old.history }
        ensures ok { OnOk result (self.new.history ≡ self.old.history ++ made ∷ []) }
        ensures err { OnErr result (self.new.history ≡ self.old.history) }
        ensures home { self.new.home ≡ self.old.home }
    {
        made.known();
        self.refs.reserve(1)?;
        let place = self.refs.len() as u64;
        self.places.note(key, place)?;
        self.top = self.top.max(made.number());
        self.refs.push_reserved(made);
        Ok(())
    }
}

// A reference whose key has the numbers of these premises has their trees below the root of its own.
fn see_trees(nodes: &Nodes, found: &ProofRef, premises: &[ProofRef])
    requires of { found.now.home ≡ nodes.now }
    requires premises { All (λ p. p.home ≡ nodes.now) premises.now }
    requires numbers { found.now.premises ≡ numbers_of premises.now }
    ensures { below found.now.tree ≡ trees_of premises.now }
{
    see_same(nodes, found.premises(), premises);
}

// References with the same numbers are the same references.
fn see_same(nodes: &Nodes, one: &[ProofRef], other: &[ProofRef])
    requires one { All (λ r. r.home ≡ nodes.now) one.now }
    requires other { All (λ r. r.home ≡ nodes.now) other.now }
    requires numbers { numbers_of one.now ≡ numbers_of other.now }
    ensures { one.now ≡ other.now }
{
    for (i, first) in one.iter().enumerate() {
        let _same = first.is_same(nodes, &other[i]);
    }
}

// References of other keys have other numbers.
fn see_apart(nodes: &Nodes, refs: &[ProofRef], made: &ProofRef)
    requires home { All (λ r. r.home ≡ nodes.now) refs.now }
    requires of { made.now.home ≡ nodes.now }
    requires keys { All (λ r. key_of r ≢ key_of made.now) refs.now }
    ensures { All (λ r. r.number ≢ made.now.number) refs.now }
{
    for one in refs {
        if one.is_same(nodes, made) {
            unreachable!();
        }
    }
}
