//! The variables of a proof.
ghost use Rattle.std.specs.Prelude.{◌≡◌, ◌++◌, IsTrue, IfOk};
ghost use Rattle.std.specs.List.{All};
ghost use Rattle.finite.specs.Finite as set;
ghost use Rattle.lk_rules.specs.Sequents.{vars_sequent};
ghost use Rattle.proof_graph.specs.declared.graph.Graph.{Graph as ProofGraph};
ghost use Rattle.proof_graph.specs.References.{trees_of};
ghost use Rattle.proof_graph.specs.Graphs.{IsOf};
ghost use Rattle.extraction_laws.specs.Extraction.{vars_chosen, var_list_tree, var_list_trees, vars_tree};
ghost use Rattle.exp_extract.specs.Gathering.{HasVars, IsGathering};

use fol::Var;
use free_variables::{Vars, push_term_vars};
use lk_rules::Rule;
use proof_graph::{Graph, Node, ProofRef};
use std::alloc::{AllocError, Global};
use std::collections::HashMap;

/// The variables of the proofs that were gone through, and these proofs by the numbers of their references.
#[derive(Drop)]
pub(crate) struct Gathering {
    vars: Vars,
    seen: HashMap<u64, ProofRef>,
}

impl Gathering {
    // No variable of no proof.
    fn new(alloc: Global) -> Gathering
        ensures vars { result.vars ≡ set.empty }
        ensures gathering { (g : ProofGraph) → IsGathering g result }
    {
        Gathering {
            vars: Vars::new(alloc),
            seen: HashMap::new(alloc),
        }
    }

    // Whether the proof was gone through, so that its variables are there.
    fn has_seen(&self, graph: &Graph, proof: &ProofRef) -> bool
        requires gathering { IsGathering graph.now self.now }
        requires of { IsOf graph.now proof.now }
        ensures { IsTrue result → HasVars self.now.vars proof.now.tree }
    {
        match self.seen.get(&proof.number()) {
            Some(seen) => graph.same(seen, proof),
            None => false,
        }
    }

    // Adds variables.
    fn add(&mut self, graph: &Graph, vars: &[Var]) -> Result<(), AllocError>
        requires { IsGathering graph.now self.old }
        ensures vars { IfOk result (λ _. self.new.vars ≡ set.adds_each self.old.vars vars.now) }
        ensures gathering { IsGathering graph.now self.new }
    {
        let _graph = graph;
        add_each(&mut self.vars, vars)
    }

    // Enters a proof whose variables are there.
    fn note(&mut self, graph: &Graph, proof: &ProofRef) -> Result<(), AllocError>
        requires gathering { IsGathering graph.now self.old }
        requires of { IsOf graph.now proof.now }
        requires known { HasVars self.old.vars proof.now.tree }
        ensures vars { self.new.vars ≡ self.old.vars }
        ensures gathering { IsGathering graph.now self.new }
    {
        let _graph = graph;
        self.seen.insert(proof.number(), proof.keep()?)?;
        Ok(())
    }
}

// Adds variables to a set.
fn add_each(known: &mut Vars, vars: &[Var]) -> Result<(), AllocError>
    ensures all { IfOk result (λ _. known.new ≡ set.adds_each known.old vars.now) }
    ensures kept { set.IsSubset known.old known.new }
{
    for var in vars {
        known.add(var.copy()?)?;
    }
    Ok(())
}

// Appends the variables of a rule's term, or its eigenvariable.
fn push_chosen(list: &mut Vec<Var>, rule: &Rule) -> Result<(), AllocError>
    ensures { IfOk result (λ _. list.new.items ≡ list.old.items ++ vars_chosen rule.now) }
{
    match rule {
        Rule::AllL(_, term) | Rule::ExR(_, term) => push_term_vars(list, term),
        Rule::AllR(_, variable) | Rule::ExL(_, variable) => {
            list.push(variable.copy()?)?;
            Ok(())
        }
        _ => Ok(()),
    }
}

// The variables of an inference's conclusion and of its rule. Formulas without free variables are passed over at once.
fn node_vars(alloc: Global, root: &Node) -> Result<Vec<Var>, AllocError>
    ensures { IfOk result (λ vars. vars.items ≡ set.listing (vars_sequent root.now.end) ++ vars_chosen root.now.rule) }
{
    let mut vars = root.end.free_vars(alloc)?.into_vec();
    push_chosen(&mut vars, &root.rule)?;
    Ok(vars)
}

// Adds the variables of a proof.
#[cycle(gather)]
fn gather(
    gathering: &mut Gathering,
    alloc: Global,
    graph: &Graph,
    proof: &ProofRef,
) -> Result<(), AllocError>
    requires gathering { IsGathering graph.now gathering.old }
    requires of { IsOf graph.now proof.now }
    ensures vars { IfOk result (λ _. gathering.new.vars ≡ set.adds_each gathering.old.vars (var_list_tree proof.now.tree)) }
    ensures gathering { IsGathering graph.now gathering.new }
{
    if gathering.has_seen(graph, proof) {
        return Ok(());
    }
    let vars = node_vars(alloc, graph.get(proof))?;
    gathering.add(graph, &vars)?;
    gather_all(gathering, alloc, graph, proof.premises())?;
    gathering.note(graph, proof)
}

// Adds the variables of proofs.
#[cycle(gather)]
fn gather_all(
    gathering: &mut Gathering,
    alloc: Global,
    graph: &Graph,
    proofs: &[ProofRef],
) -> Result<(), AllocError>
    requires gathering { IsGathering graph.now gathering.old }
    requires of { All (IsOf graph.now) proofs.now }
    ensures vars { IfOk result (λ _. gathering.new.vars ≡ set.adds_each gathering.old.vars (var_list_trees (trees_of proofs.now))) }
    ensures gathering { IsGathering graph.now gathering.new }
{
    for proof in proofs {
        gather(gathering, alloc, graph, proof)?;
    }
    Ok(())
}

/// The variables of a proof's conclusions, terms and eigenvariables. Each distinct node is looked at once.
pub(crate) fn variables(alloc: Global, graph: &Graph, proof: &ProofRef) -> Result<Vars, AllocError>
    requires { IsOf graph.now proof.now }
    ensures { IfOk result (λ vars. vars ≡ vars_tree proof.now.tree) }
{
    let mut gathering = Gathering::new(alloc);
    gather(&mut gathering, alloc, graph, proof)?;
    let Gathering { vars, seen: _seen } = gathering;
    Ok(vars)
}
