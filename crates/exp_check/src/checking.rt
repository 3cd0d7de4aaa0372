//! The check of expansion proofs.
ghost use Rattle.std.specs.Prelude.{◌≡◌, ◌<◌, ℕ, List, length, map, slice_index_or, true, Ok, Err, IfOk, IfErr};
ghost use Rattle.std.specs.List.{All, list_all};
ghost use Rattle.finite.specs.Finite as set;
ghost use Rattle.fol.specs.declared.symbols.Var.{Var as Variable};
ghost use Rattle.proof_trees.specs.Trees.{Tree as Proof};
ghost use Rattle.proof_trees.specs.FormulaSets.{is_atom};
ghost use Rattle.search_laws.specs.Search.{walk};
ghost use Rattle.search_laws.specs.Truth.{Assignment, falsifies};
ghost use Rattle.expansion_laws.specs.Dependency.{is_before};
ghost use Rattle.expansion_laws.specs.Proofs.{shallow_sequent as sequent_of, IsExpansionProof};
ghost use Rattle.expansion_laws.specs.Sequents.{deep_sequent as deep_sequent_of};
ghost use Rattle.search_laws.specs.Budgets.{found};
ghost use Rattle.exp_tree.specs.Reads.{expansion_of, StandsRightly};
ghost use Rattle.expansion_laws.specs.Checking.{searched, checking};
ghost use Rattle.exp_check.specs.Checking.{Checks, IsShort};
ghost use Rattle.expansion_laws.specs.Cycles.{is_cycle, cycle as cycle_of};

use crate::cycles::first_cycle;
use crate::dependency::edges;
use crate::eigenvariables::{eigen_free, eigen_twice};
use crate::links::links_of;
use exp_tree::{CheckedExp, ExpSequent, deep_sequent, shallow_sequent, strong_vars};
use expansion_laws::{ExpFault, laws};
use fol::Var;
use free_variables::Vars;
use prop_search::{SearchFault, decide};
use refutations::VarList;
use std::alloc::{AllocError, Global};

// The variables that have these numbers.
fn named(alloc: Global, vars: &[Var], numbers: &[usize]) -> Result<VarList, AllocError>
    requires { All (λ i. i < length vars.now) numbers.now }
    ensures { IfOk result (λ vs. (d : Variable) → vs ≡ map (λ i. slice_index_or vars.now i d) numbers.now) }
{
    let mut list = Vec::with_capacity(alloc, numbers.len())?;
    for number in numbers {
        list.push(vars[*number].copy()?)?;
    }
    Ok(VarList::from_vec(list))
}

// The cycle that begins at the least variable that lies on one, and goes on in fewest steps, to the least variable at each.
fn cycle(alloc: Global, exps: &ExpSequent) -> Result<Option<VarList>, AllocError>
    ensures { IfOk result (λ o. o ≡ cycle_of (expansion_of exps.now)) }
{
    let vars = Vars::from_vec(strong_vars(alloc, exps)?);
    let edges = edges(alloc, exps)?;
    let links = links_of(alloc, &vars, &edges)?;
    let vars = vars.as_slice();
    match first_cycle(alloc, vars.len(), &links)? {
        Some(numbers) => Ok(Some(named(alloc, vars, &numbers)?)),
        None => Ok(None),
    }
}

// The first fault of the variables.
fn check_vars(alloc: Global, exps: &ExpSequent) -> Result<(), ExpFault>
    ensures ok { IfOk result (λ _. (n : ℕ) → checking (expansion_of exps.now) n ≡ searched (expansion_of exps.now) (found n (walk (deep_sequent_of (expansion_of exps.now))))) }
    ensures err { IfErr result (λ fault. (n : ℕ) → Checks (Err fault) (checking (expansion_of exps.now) n)) }
{
    if let Some(var) = eigen_twice(alloc, exps)? {
        return Err(ExpFault::EigenTwice(var));
    }
    let sequent = shallow_sequent(alloc, exps)?;
    if let Some(var) = eigen_free(alloc, exps, &sequent)? {
        return Err(ExpFault::EigenFree(var));
    }
    match cycle(alloc, exps)? {
        Some(vars) => Err(ExpFault::Cycle(vars)),
        None => Ok(()),
    }
}

// The search for a proof of what the trees stand for.
fn check_deep(alloc: Global, exps: &ExpSequent, budget: u64) -> Result<(), ExpFault>
    ensures ok { IfOk result (λ _. (t : Proof) × (found budget (walk (deep_sequent_of (expansion_of exps.now))) ≡ Ok t)) }
    ensures err { IfErr result (λ fault. Checks (Err fault) (searched (expansion_of exps.now) (found budget (walk (deep_sequent_of (expansion_of exps.now)))))) }
{
    let deep = deep_sequent(alloc, exps)?;
    match decide(alloc, &deep, budget) {
        Ok(()) => Ok(()),
        Err(SearchFault::Falsified(atoms)) => Err(ExpFault::Falsified(atoms)),
        Err(SearchFault::Budget) => Err(ExpFault::Budget),
        Err(SearchFault::Memory) => Err(ExpFault::Memory),
    }
}

/// Checks whether trees are an expansion proof of the sequent of their formulas, after Miller (1987): the variables of strong quantifiers
/// differ, none is free in the sequent or leads to itself, and what the trees stand for is a tautology. The faults come in this order, and
/// the first is answered: `EigenTwice` and `EigenFree` with the least such variable; `Cycle` with a shortest cycle through the least
/// variable that lies on one, with the least variable at each step; `Falsified` with an assignment under which what the trees stand for is
/// false. The budget bounds the number of sequents that the search for a proof of that visits: `Budget` is answered where it has to visit
/// one more.
pub fn check_proof(alloc: Global, exps: ExpSequent, budget: u64) -> Result<CheckedExp, ExpFault>
    requires stand { StandsRightly exps }
    // It is what the conditions in their order come to, unless memory runs out.
    ensures exact { Checks result (checking (expansion_of exps) budget) }
    ensures trees { IfOk result (λ c. c ≡ exps) }
    ensures proof { IfOk result (λ c. IsExpansionProof (expansion_of c) (sequent_of (expansion_of c))) }
    // An expansion proof is refused only for want of budget or memory.
    ensures complete { IsExpansionProof (expansion_of exps) (sequent_of (expansion_of exps)) → IfErr result IsShort }
    ensures cycle { (vs : List Variable) → result ≡ Err (ExpFault.Cycle vs) → is_cycle (is_before (expansion_of exps)) vs ≡ true }
    ensures falsified { (a : Assignment) → result ≡ Err (ExpFault.Falsified a) → falsifies a (deep_sequent_of (expansion_of exps)) ≡ true }
    ensures atoms { (a : Assignment) → result ≡ Err (ExpFault.Falsified a) → list_all is_atom (set.listing a) ≡ true }
{
    laws::checks();
    exps.known();
    check_vars(alloc, &exps)?;
    check_deep(alloc, &exps, budget)?;
    Ok(CheckedExp::new(exps))
}
