//! Graphs of proofs.
ghost use Rattle.std.specs.Prelude.{◌≡◌, ◌↔◌, ◌<◌, ◌≤◌, ℕ, [], length, map, slice_index, Some, IsTrue, IfOk, OnErr, IfSome, vec_capacity};
ghost use Rattle.std.specs.List.{All, Contains};
ghost use mathlib.Core.List.{IsPrefix};
ghost use Rattle.turn_log.specs.Rules.{longer};
ghost use Rattle.turn_log.specs.Logs.{opening};
ghost use Rattle.turn_log.specs.Passes.{seen};
ghost use Rattle.boxcar.specs.Table.{shelves_coded};
ghost use Rattle.std.specs.Coded.{Coded-set};
ghost use Rattle.proof_trees.specs.Trees.{node, below, IsInference};
ghost use Rattle.proof_trees.specs.TreeLists.{tree_at};
ghost use Rattle.proof_graph.specs.References.{key_of, key_over, trees_of, numbers_of};
ghost use Rattle.proof_graph.specs.History.{IsLegal, StandsAt, StandEach, AddsAtMost, AddsAtMostEach, AddsFirst};
ghost use Rattle.proof_graph.specs.Unique.{legal_prop};
ghost use Rattle.proof_graph.specs.Drafts.{IsDraftOf, drafted, AreDrafts, keys_in, trees_in};
ghost use Rattle.proof_graph.specs.Entered.{IsCandidate, AreCandidates, IsEntered, key_entered, tree_entered, made_in};

use crate::boxed::BoxedIndex;
use crate::index::{Entered, are_right, settle_each};
use crate::inference::Inference;
use crate::key::Key;
use crate::node::Node;
use crate::reference::{Draft, ProofRef, keep_all};
use crate::tree::Nodes;
use lk_rules::{Numbers, Rule, Sequent};
use std::alloc::{AllocError, Global};
use std::mem::forget;
use std::sync::Wait;
use turn_log::{Pass, TurnLog};

/// A graph: proofs as shared trees, in which each node stands once. It only grows, and what stands at a number stays. Threads share it:
/// each puts nodes in by a pass of its own. It can't be dropped, and is ended by `close` or `leave`.
pub struct Graph {
    nodes: Nodes,
    // Threads that wait for a turn read what stands behind, and each turn writes the counters of the nodes: so they lie in other lines of
    // a cache.
    apart: [u64; 8],
    index: TurnLog<BoxedIndex>,
    // The references of the index are of this graph.
    ghost home: { (opening index).index.value.home ≡ nodes } by { Coded-set shelves_coded _ _ },
}

/// What a thread needs to put nodes into a graph. It has seen a beginning of the graph's history.
#[derive(Drop)]
pub struct GraphPass {
    pass: Pass<BoxedIndex>,
    ghost legal: { IsLegal (seen pass) } by { legal_prop _ },
}

impl GraphPass {
    ghost use Rattle.proof_graph.specs.Graphs.{history};

    /// A history is legal.
    pub fn known(&self)
        ensures { IsLegal (history self.now) }
    {}
}

impl Graph {
    ghost use Rattle.proof_graph.specs.Graphs.{IsOf, IsPassOf, history};
    ghost use Rattle.proof_graph.specs.Inferences.{IsInferenceOf, tree_by, key_by};

    /// A graph with no node, and its pass.
    pub fn new(alloc: Global) -> Result<(Graph, GraphPass), AllocError>
        ensures pass { IfOk result (λ made. IsPassOf made.0 made.1) }
        ensures history { IfOk result (λ made. history made.1 ≡ []) }
    {
        let nodes = boxcar::Vec::new(alloc)?;
        let index = BoxedIndex::new(alloc, &nodes)?;
        index.index.known();
        let (index, pass) = TurnLog::new(alloc, index)?;
        let apart = [0; 8];
        let graph = Graph {
            nodes,
            apart,
            index,
        };
        Ok((graph, GraphPass { pass }))
    }

    /// The reference of the tree whose last inference has this rule and this end sequent over the trees of the premises. Its key is the
    /// rule, the end sequent and the numbers of the premises. A key that is there keeps its number, whoever interned it. All that can be
    /// made before is made before the one short turn, in which the key's fingerprint is looked for, and the key put in where no key has it.
    /// A key that has it is compared after the turn. Where it is another, a second turn looks for the key itself.
    pub fn intern<R: Wait>(
        &self,
        rt: &R,
        alloc: Global,
        pass: &mut GraphPass,
        rule: Rule,
        end: Sequent,
        premises: &[ProofRef],
    ) -> Result<ProofRef, AllocError>
        requires pass_of { IsPassOf self.now pass.old }
        requires premises_of { All (IsOf self.now) premises.now }
        requires inference { IsInference rule end (trees_of premises.now) }
        ensures tree { IfOk result (λ r. r.tree ≡ node rule end (trees_of premises.now)) }
        ensures of { IfOk result (IsOf self.now) }
        ensures stands { IfOk result (λ r. StandsAt (history pass.new) (key_over rule end premises.now) r.number) }
        ensures known { IfOk result (λ r. (n : ℕ) → StandsAt (history pass.old) (key_over rule end premises.now) n → r.number ≡ n) }
        ensures adds { IfOk result (λ r. AddsAtMost (history pass.old) (key_over rule end premises.now) r (history pass.new)) }
        ensures grown { IsPrefix (history pass.old) (history pass.new) }
        ensures pass_stays { IsPassOf self.now pass.new }
    {
        let inference = Inference {
            rule,
            end,
            premises: keep_all(alloc, premises)?,
        };
        let (key, draft) = self.draft(alloc, inference)?;
        self.add(rt, pass, key, draft)
    }

    /// The references of the trees whose last inferences these are, each over the trees of its premises, in their order: as `intern` gives
    /// them one after another, but in one short turn for all, or a second one. Keys, references and room are made before it, and what is
    /// left over is dropped after it. Where memory runs out, some may have been put in.
    pub fn intern_each<R: Wait>(
        &self,
        rt: &R,
        alloc: Global,
        pass: &mut GraphPass,
        inferences: Vec<Inference>,
    ) -> Result<Vec<ProofRef>, AllocError>
        requires pass_of { IsPassOf self.now pass.old }
        requires inferences { All (IsInferenceOf self.now) inferences.items }
        ensures trees { IfOk result (λ made. map (λ r. r.tree) made.items ≡ map tree_by inferences.items) }
        ensures of { IfOk result (λ made. All (IsOf self.now) made.items) }
        ensures keys { IfOk result (λ made. map key_of made.items ≡ map key_by inferences.items) }
        ensures stands { IfOk result (λ made. All (λ r. StandsAt (history pass.new) (key_of r) r.number) made.items) }
        ensures known { IfOk result (λ made. All (λ r. (n : ℕ) → StandsAt (history pass.old) (key_of r) n → r.number ≡ n) made.items) }
        ensures adds { IfOk result (λ made. AddsAtMostEach (history pass.old) made.items (history pass.new)) }
        ensures err { OnErr result (AddsFirst (history pass.old) (map key_by inferences.items) (history pass.new)) }
        ensures grown { IsPrefix (history pass.old) (history pass.new) }
        ensures pass_stays { IsPassOf self.now pass.new }
    {
        let count = inferences.len();
        let room = Vec::with_capacity(alloc, count)?;
        let made = Vec::with_capacity(alloc, count)?;
        let drafts = self.drafts(alloc, inferences)?;
        let entered = self.add_each(rt, alloc, pass, drafts, room)?;
        Ok(settle_each(&self.nodes, entered, made))
    }

    // The key of an inference, and the draft of its reference.
    fn draft(&self, alloc: Global, inference: Inference) -> Result<(Key, Draft), AllocError>
        requires { IsInferenceOf self.now inference }
        ensures draft { IfOk result (λ d. IsDraftOf self.now.nodes d.0 d.1) }
        ensures key { IfOk result (λ d. d.0 ≡ key_by inference) }
        ensures tree { IfOk result (λ d. drafted d.1 ≡ tree_by inference) }
    {
        let Inference {
            rule,
            end,
            premises,
        } = inference;
        let root = Node {
            rule,
            end,
            premises: numbers_of_all(alloc, &premises)?,
        };
        let key = Key::new(alloc, root)?;
        let draft = Draft::new(alloc, &self.nodes, &key, premises)?;
        Ok((key, draft))
    }

    // The keys and drafts of several inferences.
    fn drafts(
        &self,
        alloc: Global,
        inferences: Vec<Inference>,
    ) -> Result<Vec<(Key, Draft)>, AllocError>
        requires { All (IsInferenceOf self.now) inferences.items }
        ensures drafts { IfOk result (λ ds. AreDrafts self.now.nodes ds.items) }
        ensures keys { IfOk result (λ ds. keys_in ds.items ≡ map key_by inferences.items) }
        ensures trees { IfOk result (λ ds. trees_in ds.items ≡ map tree_by inferences.items) }
    {
        let mut drafts = Vec::with_capacity(alloc, inferences.len())?;
        for inference in inferences {
            drafts.push(self.draft(alloc, inference)?)?;
        }
        Ok(drafts)
    }

    // The reference of a key, which is added in a turn where no key has its fingerprint. Else the key that has it is compared after the
    // turn, and where it is another, a second turn looks for the key itself. What is left over is dropped after the turns.
    fn add<R: Wait>(
        &self,
        rt: &R,
        pass: &mut GraphPass,
        key: Key,
        draft: Draft,
    ) -> Result<ProofRef, AllocError>
        requires pass_of { IsPassOf self.now pass.old }
        requires draft { IsDraftOf self.now.nodes key draft }
        ensures of { IfOk result (IsOf self.now) }
        ensures key { IfOk result (λ r. key_of r ≡ key) }
        ensures tree { IfOk result (λ r. r.tree ≡ drafted draft) }
        ensures adds { IfOk result (λ r. AddsAtMost (history pass.old) key r (history pass.new)) }
        ensures grown { IsPrefix (history pass.old) (history pass.new) }
        ensures pass_stays { IsPassOf self.now pass.new }
    {
        let entered = self.enter(rt, pass, key, draft)?;
        if entered.is_right(&self.nodes) {
            return Ok(entered.settle(&self.nodes));
        }
        let entered = self.intern_left(rt, pass, entered)?;
        Ok(entered.settle(&self.nodes))
    }

    // What becomes of a draft in a turn in which no keys are compared.
    fn enter<R: Wait>(
        &self,
        rt: &R,
        pass: &mut GraphPass,
        key: Key,
        draft: Draft,
    ) -> Result<Entered, AllocError>
        requires pass_of { IsPassOf self.now pass.old }
        requires draft { IsDraftOf self.now.nodes key draft }
        ensures candidate { IfOk result (IsCandidate self.now.nodes) }
        ensures key { IfOk result (λ e. key_entered e ≡ key) }
        ensures tree { IfOk result (λ e. tree_entered e ≡ drafted draft) }
        ensures adds { IfOk result (λ e. AddsAtMost (history pass.old) (key_of e.made) e.made (history pass.new)) }
        ensures grown { IsPrefix (history pass.old) (history pass.new) }
        ensures pass_stays { IsPassOf self.now pass.new }
    {
        let mut turn = self.index.take(rt, &mut pass.pass);
        let entered = turn.value_mut().index.enter(rt, &self.nodes, key, draft);
        self.index.give(&mut pass.pass, turn);
        entered
    }

    // What becomes in a turn of a draft that was left over: its key is looked for, and added where it isn't there.
    fn intern_left<R: Wait>(
        &self,
        rt: &R,
        pass: &mut GraphPass,
        candidate: Entered,
    ) -> Result<Entered, AllocError>
        requires pass_of { IsPassOf self.now pass.old }
        requires candidate { IsCandidate self.now.nodes candidate }
        requires stands { StandsAt (history pass.old) (key_of candidate.made) candidate.made.number }
        ensures entered { IfOk result (IsEntered self.now.nodes) }
        ensures key { IfOk result (λ e. key_of e.made ≡ key_entered candidate) }
        ensures tree { IfOk result (λ e. tree_entered e ≡ tree_entered candidate) }
        ensures adds { IfOk result (λ e. AddsAtMost (history pass.old) (key_entered candidate) e.made (history pass.new)) }
        ensures grown { IsPrefix (history pass.old) (history pass.new) }
        ensures pass_stays { IsPassOf self.now pass.new }
    {
        let mut turn = self.index.take(rt, &mut pass.pass);
        let entered = turn
            .value_mut()
            .index
            .intern_left(rt, &self.nodes, candidate);
        self.index.give(&mut pass.pass, turn);
        entered
    }

    // What becomes of several drafts: in one turn, and where a candidate is another key, in a second one.
    fn add_each<R: Wait>(
        &self,
        rt: &R,
        alloc: Global,
        pass: &mut GraphPass,
        drafts: Vec<(Key, Draft)>,
        room: Vec<Entered>,
    ) -> Result<Vec<Entered>, AllocError>
        requires pass_of { IsPassOf self.now pass.old }
        requires drafts { AreDrafts self.now.nodes drafts.items }
        requires empty { room.items ≡ [] }
        requires room { length drafts.items ≤ vec_capacity room }
        ensures entered { IfOk result (λ es. All (IsEntered self.now.nodes) es.items) }
        ensures keys { IfOk result (λ es. map key_of (made_in es.items) ≡ keys_in drafts.items) }
        ensures trees { IfOk result (λ es. map tree_entered es.items ≡ trees_in drafts.items) }
        ensures adds { IfOk result (λ es. AddsAtMostEach (history pass.old) (made_in es.items) (history pass.new)) }
        ensures grown { IsPrefix (history pass.old) (history pass.new) }
        ensures pass_stays { IsPassOf self.now pass.new }
    {
        let entered = self.enter_each(rt, pass, drafts, room)?;
        if are_right(&self.nodes, &entered) {
            return Ok(entered);
        }
        let room = Vec::with_capacity(alloc, entered.len())?;
        self.intern_left_each(rt, pass, entered, room)
    }

    // What becomes of several drafts in one turn in which no keys are compared.
    fn enter_each<R: Wait>(
        &self,
        rt: &R,
        pass: &mut GraphPass,
        drafts: Vec<(Key, Draft)>,
        room: Vec<Entered>,
    ) -> Result<Vec<Entered>, AllocError>
        requires pass_of { IsPassOf self.now pass.old }
        requires drafts { AreDrafts self.now.nodes drafts.items }
        requires empty { room.items ≡ [] }
        requires room { length drafts.items ≤ vec_capacity room }
        ensures candidates { IfOk result (λ es. AreCandidates self.now.nodes es.items) }
        ensures keys { IfOk result (λ es. map key_entered es.items ≡ keys_in drafts.items) }
        ensures trees { IfOk result (λ es. map tree_entered es.items ≡ trees_in drafts.items) }
        ensures adds { IfOk result (λ es. AddsAtMostEach (history pass.old) (made_in es.items) (history pass.new)) }
        ensures grown { IsPrefix (history pass.old) (history pass.new) }
        ensures pass_stays { IsPassOf self.now pass.new }
    {
        let mut turn = self.index.take(rt, &mut pass.pass);
        let index = &mut turn.value_mut().index;
        let entered = index.enter_each(rt, &self.nodes, drafts, room);
        self.index.give(&mut pass.pass, turn);
        entered
    }

    // What becomes in one turn of several drafts that were left over.
    fn intern_left_each<R: Wait>(
        &self,
        rt: &R,
        pass: &mut GraphPass,
        candidates: Vec<Entered>,
        room: Vec<Entered>,
    ) -> Result<Vec<Entered>, AllocError>
        requires pass_of { IsPassOf self.now pass.old }
        requires candidates { AreCandidates self.now.nodes candidates.items }
        requires stand { StandEach (history pass.old) (made_in candidates.items) }
        requires empty { room.items ≡ [] }
        requires room { length candidates.items ≤ vec_capacity room }
        ensures entered { IfOk result (λ es. All (IsEntered self.now.nodes) es.items) }
        ensures keys { IfOk result (λ es. map key_of (made_in es.items) ≡ map key_entered candidates.items) }
        ensures trees { IfOk result (λ es. map tree_entered es.items ≡ map tree_entered candidates.items) }
        ensures adds { IfOk result (λ es. AddsAtMostEach (history pass.old) (made_in es.items) (history pass.new)) }
        ensures grown { IsPrefix (history pass.old) (history pass.new) }
        ensures pass_stays { IsPassOf self.now pass.new }
    {
        let mut turn = self.index.take(rt, &mut pass.pass);
        let index = &mut turn.value_mut().index;
        let entered = index.intern_left_each(rt, &self.nodes, candidates, room);
        self.index.give(&mut pass.pass, turn);
        entered
    }

    /// Another pass of the graph, as for another thread. Both have seen the same.
    pub fn split(&self, pass: &mut GraphPass) -> GraphPass
        requires { IsPassOf self.now pass.old }
        ensures of { IsPassOf self.now result }
        ensures seen { history result ≡ history pass.old }
        ensures same { history pass.new ≡ history pass.old }
        ensures pass_stays { IsPassOf self.now pass.new }
    {
        GraphPass {
            pass: self.index.split(&mut pass.pass),
        }
    }

    /// Takes another pass of the graph in. Of the two histories the one begins the other, and the pass has then seen the longer.
    pub fn join(&self, pass: &mut GraphPass, other: GraphPass)
        requires pass_of { IsPassOf self.now pass.old }
        requires other_of { IsPassOf self.now other }
        ensures longer { history pass.new ≡ longer (history pass.old) (history other) }
        ensures first { IsPrefix (history pass.old) (history pass.new) }
        ensures second { IsPrefix (history other) (history pass.new) }
        ensures pass_stays { IsPassOf self.now pass.new }
    {
        let GraphPass { pass: other } = other;
        self.index.join(&mut pass.pass, other);
    }

    /// Ends the graph, after a last turn on its index.
    pub fn close<R: Wait>(self, rt: &R, pass: GraphPass)
        requires { IsPassOf self pass }
    {
        let Graph {
            nodes,
            apart: _,
            index,
        } = self;
        let GraphPass { pass } = pass;
        drop(index.close(rt, pass));
        drop(nodes);
    }

    /// Ends the graph as `close` does, but gives no memory back: for a process that ends next, which the system takes all memory from. To give
    /// each node back takes a tenth of the time in which it was made.
    pub fn leave<R: Wait>(self, rt: &R, pass: GraphPass)
        requires { IsPassOf self pass }
    {
        let Graph {
            nodes,
            apart: _,
            index,
        } = self;
        let GraphPass { pass } = pass;
        forget(index.close(rt, pass));
        forget(nodes);
    }

    /// The root of the tree that the reference means, with the numbers of its premises.
    pub fn get(&self, proof: &ProofRef) -> &Node
        requires { IsOf self.now proof.now }
        ensures { result.now ≡ key_of proof.now }
    {
        self.key(proof).node()
    }

    /// The same as a key, which was made when the node was put in.
    pub fn key(&self, proof: &ProofRef) -> &Key
        requires { IsOf self.now proof.now }
        ensures { result.now ≡ key_of proof.now }
    {
        proof.key(&self.nodes)
    }

    /// The reference of the premise at that place, counted from 0.
    pub fn premise(&self, proof: &ProofRef, place: u64) -> Result<ProofRef, AllocError>
        requires of { IsOf self.now proof.now }
        requires within { place < length proof.now.premises }
        ensures of { IfOk result (IsOf self.now) }
        ensures number { IfOk result (λ r. r.number ≡ slice_index proof.now.premises place) }
        ensures tree { IfOk result (λ r. Some r.tree ≡ tree_at (below proof.now.tree) place) }
    {
        proof.premises()[place as usize].keep()
    }

    /// The same reference once more.
    pub fn keep(&self, proof: &ProofRef) -> Result<ProofRef, AllocError>
        ensures { IfOk result (λ kept. kept ≡ proof.now) }
    {
        proof.keep()
    }

    /// Whether the numbers are equal. References of a graph with one number are one reference, and so they mean one tree.
    pub fn same(&self, a: &ProofRef, b: &ProofRef) -> bool
        requires first { IsOf self.now a.now }
        requires second { IsOf self.now b.now }
        ensures number { IsTrue result ↔ (a.now.number ≡ b.now.number) }
        ensures same { IsTrue result → a.now ≡ b.now }
        ensures tree { IsTrue result → a.now.tree ≡ b.now.tree }
    {
        a.is_same(&self.nodes, b)
    }
}

// The numbers of references.
fn numbers_of_all(alloc: Global, proofs: &[ProofRef]) -> Result<Numbers, AllocError>
    ensures { IfOk result (λ numbers. numbers ≡ numbers_of proofs.now) }
{
    let numbers = proofs.iter().map(|proof| proof.number()).collect(alloc)?;
    Ok(Numbers::from_vec(numbers))
}
