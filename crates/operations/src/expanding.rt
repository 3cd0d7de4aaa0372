//! What the check of expansion trees comes to.
ghost use Rattle.std.specs.Prelude.{◌≡◌, ℕ, Err, IfOk};
ghost use Rattle.std.specs.List.{All};
ghost use Rattle.fol.specs.Formed.{IsFormedVar};
ghost use Rattle.proof_graph.specs.declared.graph.Graph.{Graph as GraphMeaning};
ghost use Rattle.expansion_laws.specs.Dependency.{Expansion, strongs_of};
ghost use Rattle.exp_tree.specs.Reads.{expansion_of, StandsRightly};
ghost use Rattle.exp_tree.specs.FlatReading.{reading};
ghost use Rattle.expansion_laws.specs.Checking.{checking};
ghost use Rattle.exp_check.specs.Checking.{Checks};
ghost use Rattle.operation_laws.specs.Running.{checked, reads};
ghost use Rattle.operations.specs.Means.{HasFormedVars, Comes};

use crate::answers::{Made, Ran};
use exp_check::{ExpFault, check_proof};
use exp_tree::{ExpSequent, FlatExp, NodesFault, laws, read_nodes};
use fol::Var;
use job_words::{FormedVar, FormedVars};
use operation_laws::Failure;
use std::alloc::{AllocError, Global};

// The strong quantifiers of trees have well-formed variables.
fn formed(exps: &ExpSequent)
    ensures { All IsFormedVar (strongs_of (expansion_of exps.now)) }
{
    let _left = exps.left.as_slice();
    let _right = exps.right.as_slice();
}

// The same variables.
fn copies(alloc: Global, vars: &[Var]) -> Result<FormedVars, AllocError>
    requires { All IsFormedVar vars.now }
    ensures { IfOk result (λ copies. copies ≡ vars.now) }
{
    let mut items = Vec::with_capacity(alloc, vars.len())?;
    for var in vars {
        items.push(var.copy()?)?;
    }
    Ok(FormedVars::from_vec(items))
}

// Why trees are no expansion proof.
#[tactic(auto, using(crate::proofs::Expanded::check_fails, crate::proofs::Expanded::check_lacks))]
fn unchecked(alloc: Global, fault: ExpFault) -> Ran
    requires { HasFormedVars fault }
    ensures { (g : GraphMeaning) (x : Expansion) (n : ℕ) → Checks (Err fault) (checking x n) → Comes g result (checked (checking x n)) }
{
    match fault {
        ExpFault::EigenTwice(var) => Ran::Failed(Failure::EigenTwice(FormedVar::new(var))),
        ExpFault::EigenFree(var) => Ran::Failed(Failure::EigenFree(FormedVar::new(var))),
        ExpFault::Cycle(vars) => match copies(alloc, vars.as_slice()) {
            Ok(vars) => Ran::Failed(Failure::Cycle(vars)),
            Err(_) => Ran::Lacking,
        },
        ExpFault::Falsified(atoms) => Ran::Failed(Failure::Falsified(atoms)),
        ExpFault::Budget => Ran::Failed(Failure::Budget),
        ExpFault::Memory => Ran::Lacking,
    }
}

// The check of trees.
#[tactic(auto, using(crate::proofs::Expanded::check_gives, crate::proofs::StrongVars::fault_formed))]
fn check_trees(alloc: Global, exps: ExpSequent, budget: u64) -> Ran
    requires { StandsRightly exps }
    ensures { (g : GraphMeaning) → Comes g result (checked (checking (expansion_of exps) budget)) }
{
    formed(&exps);
    match check_proof(alloc, exps, budget) {
        Ok(checked) => Ran::Done(Made::Expansion(checked)),
        Err(fault) => unchecked(alloc, fault),
    }
}

/// The check of the expansion trees that a flat list means, within a budget of their nodes and of the sequents that a search visits.
#[tactic(auto, using(crate::proofs::Expanded::read_gives, crate::proofs::Expanded::read_fails, crate::proofs::Expanded::read_lacks))]
pub fn check_expansion(alloc: Global, flat: &FlatExp, budget: u64) -> Ran
    ensures { (g : GraphMeaning) → Comes g result (reads (reading flat.now budget) budget) }
{
    laws::readings();
    match read_nodes(alloc, flat, budget) {
        Ok(exps) => check_trees(alloc, exps, budget),
        Err(NodesFault::Node { node, cause }) => Ran::Failed(Failure::Node { node, cause }),
        Err(NodesFault::Root { root, cause }) => Ran::Failed(Failure::Root { root, cause }),
        Err(NodesFault::Budget) => Ran::Failed(Failure::Budget),
        Err(NodesFault::Memory) => Ran::Lacking,
    }
}
