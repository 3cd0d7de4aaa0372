//! The distinct subtrees of a tree in post-order.
ghost use Rattle.std.specs.Prelude.{◌≡◌, ◌<◌, ◌++◌, ◌∷◌, [], length, map, slice_get, slice_index, Some, None, IsNone, IsTrue, IfOk, IfSome, OnOk};
ghost use Rattle.std.specs.List.{All, position};
ghost use Rattle.proof_trees.specs.Trees.{Tree as Proof, below, rule_of, is_cut as is_cut_rule};
ghost use Rattle.proof_graph.specs.Graphs.{IsOf};
ghost use Rattle.step_laws.specs.Subtrees.{subtrees, appended_each};
ghost use Rattle.step_laws.specs.Places.{step_in, is_cut_step};
ghost use Rattle.proof_steps.specs.Listed.{IsIn, AllIn, ArePlaces, key_in};
ghost use Rattle.proof_steps.specs.Kept.{trees_in, numbers_in, entry_step};

use lk_rules::{Numbers, Rule, Step};
use number_hash::ByNumber;
use proof_graph::{Graph, Key, Node, ProofRef};
use std::alloc::{AllocError, Global};
use std::collections::HashMap;
use std::marker::Model;
use std::snapshot::Snapshot;

/// The reference that stands for a tree, with the places of its premises' trees.
#[derive(Drop)]
pub(crate) struct Entry {
    pub proof: ProofRef,
    pub premises: Numbers,
}

/// A list of distinct trees of a graph, in which the trees of their premises stand too. A tree is found by its key: its last inference, with
/// the numbers of the references that stand for its premises' trees. It is found sooner by the number of its own reference.
#[derive(Drop)]
pub(crate) struct Listing {
    graph: Snapshot<Graph>,
    entries: Vec<Entry>,
    keys: HashMap<Key, u64, ByNumber>,
    seen: HashMap<u64, u64, ByNumber>,
}

impl Model for Listing {
    ghost use Rattle.proof_steps.specs.Listed.{Listed, coded_listed};

    ghost Value = { Listed };

    ghost coded = { coded_listed };

    ghost use Rattle.proof_steps.specs.Kept.{listed_of, IsListing};

    ghost view = { listed_of };

    ghost invariant = { IsListing };
}

impl Listing {
    /// A listing of no tree.
    pub fn new(alloc: Global, graph: &Graph) -> Listing
        ensures home { result.home ≡ graph.now.nodes }
        ensures trees { result.trees ≡ [] }
    {
        Listing {
            graph: Snapshot::of(graph),
            entries: Vec::new(alloc),
            keys: HashMap::with_hasher(alloc, ByNumber),
            seen: HashMap::with_hasher(alloc, ByNumber),
        }
    }

    /// How many trees there are.
    pub fn len(&self) -> u64
        ensures { result ≡ length self.now.trees }
    {
        self.entries.len() as u64
    }

    /// The place of the tree, where its reference stands for it.
    pub fn seen_at(&self, graph: &Graph, proof: &ProofRef) -> Option<u64>
        requires home { self.now.home ≡ graph.now.nodes }
        requires of { IsOf graph.now proof.now }
        ensures place { IfSome result (λ place. slice_get self.now.trees place ≡ Some proof.now.tree) }
        ensures known { IfSome result (λ _. appended_each self.now.trees (subtrees proof.now.tree) ≡ self.now.trees) }
    {
        match self.seen.get(&proof.number()) {
            Some(place) if graph.same(&self.entries[*place as usize].proof, proof) => Some(*place),
            _ => None,
        }
    }

    /// The key of a tree whose premises' trees stand at these places. It is the reference's own where the references of its premises stand
    /// there, and else it is made.
    pub fn key(
        &self,
        graph: &Graph,
        alloc: Global,
        proof: &ProofRef,
        places: &[u64],
    ) -> Result<Key, AllocError>
        requires of { IsOf graph.now proof.now }
        requires places { ArePlaces self.now.trees places.now (below proof.now.tree) }
        ensures { IfOk result (λ key. key ≡ key_in self.now.trees self.now.numbers proof.now.tree) }
    {
        key_at(alloc, &self.entries, graph.key(proof), places)
    }

    /// The place of the tree whose key this is.
    pub fn find(&self, key: &Key) -> Option<u64>
        ensures place { IfSome result (λ place. (t : Proof) → key.now ≡ key_in self.now.trees self.now.numbers t → AllIn self.now.trees (below t) → slice_get self.now.trees place ≡ Some t) }
        ensures absent { IsNone result → (t : Proof) → key.now ≡ key_in self.now.trees self.now.numbers t → IsIn self.now.trees t → ⊥ }
    {
        match self.keys.get(key) {
            Some(place) => Some(*place),
            None => None,
        }
    }

    /// Appends a tree that doesn't stand there, where those of its premises do.
    pub fn push(
        &mut self,
        graph: &Graph,
        key: Key,
        proof: ProofRef,
        places: Vec<u64>,
    ) -> Result<(), AllocError>
        requires home { self.old.home ≡ graph.now.nodes }
        requires of { IsOf graph.now proof }
        requires key { key ≡ key_in self.old.trees self.old.numbers proof.tree }
        requires places { ArePlaces self.old.trees places.items (below proof.tree) }
        requires absent { IsIn self.old.trees proof.tree → ⊥ }
        ensures ok { OnOk result (self.new.trees ≡ self.old.trees ++ proof.tree ∷ []) }
        ensures home { self.new.home ≡ self.old.home }
    {
        self.entries.reserve(1)?;
        self.seen.reserve(1)?;
        let place = self.entries.len() as u64;
        self.keys.insert(key, place)?;
        let seen = self.seen.insert(proof.number(), place)?;
        see_new(graph, &self.entries, seen, &proof);
        let premises = Numbers::from_vec(places);
        self.entries.push_reserved(Entry { proof, premises });
        Ok(())
    }

    /// The trees as steps.
    pub fn to_steps(&self, graph: &Graph, alloc: Global) -> Result<Vec<Step>, AllocError>
        requires { self.now.home ≡ graph.now.nodes }
        ensures { IfOk result (λ steps. steps.items ≡ map (step_in self.now.trees) self.now.trees) }
    {
        steps_of_entries(alloc, graph, &self.entries)
    }

    /// The place of the first cut.
    pub fn first_cut(&self, graph: &Graph) -> Option<u64>
        requires { self.now.home ≡ graph.now.nodes }
        ensures { result ≡ position is_cut_step (map (step_in self.now.trees) self.now.trees) }
    {
        first_cut_entry(graph, &self.entries)
    }
}

// Whether these are the numbers of the references at the places.
fn are_at(entries: &[Entry], places: &[u64], numbers: &[u64]) -> bool
    requires { All (λ i. i < length entries.now) places.now }
    ensures { IsTrue result → numbers.now ≡ map (slice_index (numbers_in entries.now)) places.now }
{
    if numbers.len() != places.len() {
        return false;
    }
    for (i, place) in places.iter().enumerate() {
        if entries[*place as usize].proof.number() != numbers[i] {
            return false;
        }
    }
    true
}

// The numbers of the references at the places.
fn numbers_at(alloc: Global, entries: &[Entry], places: &[u64]) -> Result<Numbers, AllocError>
    requires { All (λ i. i < length entries.now) places.now }
    ensures { IfOk result (λ numbers. numbers ≡ map (slice_index (numbers_in entries.now)) places.now) }
{
    let mut numbers = Vec::with_capacity(alloc, places.len())?;
    for place in places {
        numbers.push(entries[*place as usize].proof.number())?;
    }
    Ok(Numbers::from_vec(numbers))
}

// The key of the same inference over the references at the places.
fn key_at(alloc: Global, entries: &[Entry], own: &Key, places: &[u64]) -> Result<Key, AllocError>
    requires { All (λ i. i < length entries.now) places.now }
    ensures { IfOk result (λ key. key ≡ record { rule = own.now.rule; end = own.now.end; premises = map (slice_index (numbers_in entries.now)) places.now }) }
{
    let root = own.node();
    if are_at(entries, places, root.premises.as_slice()) {
        return own.keep();
    }
    let rule = root.rule.copy()?;
    let end = root.end.copy()?;
    let premises = numbers_at(alloc, entries, places)?;
    Key::new(
        alloc,
        Node {
            rule,
            end,
            premises,
        },
    )
}

// A graph has each number once, so that a tree that isn't listed has another number than those that are.
fn see_new(graph: &Graph, entries: &[Entry], seen: Option<u64>, proof: &ProofRef)
    requires home { All (λ e. IsOf graph.now e.proof) entries.now }
    requires of { IsOf graph.now proof.now }
    requires seen { IfSome seen (λ place. slice_get (numbers_in entries.now) place ≡ Some proof.now.number) }
    requires absent { IsIn (trees_in entries.now) proof.now.tree → ⊥ }
    ensures { seen ≡ None }
{
    if let Some(place) = seen {
        let _same = graph.same(&entries[place as usize].proof, proof);
        unreachable!();
    }
}

// Entries as steps.
fn steps_of_entries(
    alloc: Global,
    graph: &Graph,
    entries: &[Entry],
) -> Result<Vec<Step>, AllocError>
    requires { All (λ e. IsOf graph.now e.proof) entries.now }
    ensures { IfOk result (λ steps. steps.items ≡ map entry_step entries.now) }
{
    let mut steps = Vec::with_capacity(alloc, entries.len())?;
    for entry in entries {
        let root = graph.get(&entry.proof);
        let rule = root.rule.copy()?;
        let premises = entry.premises.copy(alloc)?;
        let end = root.end.copy()?;
        steps.push(Step {
            rule,
            premises,
            end,
        })?;
    }
    Ok(steps)
}

// The place of the first cut among entries.
fn first_cut_entry(graph: &Graph, entries: &[Entry]) -> Option<u64>
    requires { All (λ e. IsOf graph.now e.proof) entries.now }
    ensures { result ≡ position (λ e. is_cut_rule (rule_of e.proof.tree)) entries.now }
{
    for (place, entry) in entries.iter().enumerate() {
        if is_cut(&graph.get(&entry.proof).rule) {
            return Some(place as u64);
        }
    }
    None
}

fn is_cut(rule: &Rule) -> bool
    ensures { result ≡ is_cut_rule rule.now }
{
    matches!(rule, Rule::Cut(_))
}
