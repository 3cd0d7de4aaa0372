//! Work on the two premises of an inference at once: on the left one in a thread of its own, with an arena of its own.
ghost use Rattle.std.specs.Prelude.{◌≡◌, ◌<◌, None, Some, IfOk, IfSome};
ghost use Rattle.proof_trees.specs.Trees.{IsValid};
ghost use Rattle.proof_graph.specs.Graphs.{IsOf};
ghost use Rattle.cut_laws.specs.Elimination.{elimination};
ghost use Rattle.cut_laws.specs.Budgets.{forked};
ghost use Rattle.arena_cells.specs.Standing.{Extends, tree_at, IsTreeAt};
ghost use Rattle.cut_elim.specs.Branches.{IsBranchOf, AreBoth};

use arena::Arena;
use arena_copy::copy_tree;
use arena_cuts::{ElimFault, Reduced, Steps, eliminate_in};
use arena_graph::{ProofNumbers, import_proof};
use number_hash::ByNumber;
use proof_graph::{Graph, ProofRef};
use std::alloc::{AllocError, Global};
use std::collections::HashMap;
use std::snapshot::Snapshot;
use std::sync::ledger::{Blank, Ledger};
use std::thread::{Builder, Promise, PromisedHandle, Threads};

// The bytes of stack of a thread that works on a premise, as many as the program asks for itself, since proofs may nest as deeply there. The
// system gives memory only to the part that is used.
const STACK_SIZE: usize = 4 << 30;

/// What a branch of the work comes to, in an arena of its own, with what it counted in a ledger of its own.
#[derive(Drop)]
pub(crate) struct Branch<M: Ledger> {
    pub arena: Arena,
    pub made: Result<Reduced, ElimFault>,
    pub steps: Steps<M>,
}

/// What a branch of the work promises: the elimination in the tree at a number of an arena, within a budget.
#[derive(Drop)]
pub(crate) struct Task {
    arena: Snapshot<Arena>,
    number: u32,
    budget: u64,
}

impl<M: Ledger> Promise<Branch<M>> for Task {
    ghost kept_by = { λ task b. IsBranchOf (tree_at task.arena.value task.number) task.budget b };
}

/// What becomes of two premises: the numbers of proofs without cuts in an arena, each with how many contractions led to it.
#[derive(Clone, Copy, Drop)]
pub(crate) struct Both {
    pub left: Reduced,
    pub right: Reduced,
}

// A branch of the work.
fn work_on<M: Ledger>(
    mut arena: Arena,
    alloc: Global,
    number: u32,
    budget: u64,
    ledger: Blank,
) -> Branch<M>
    requires there { IsTreeAt arena number }
    requires valid { IsValid (tree_at arena number) }
    requires name { ledger.name ≡ M.name }
    requires parts { ledger.parts ≡ M.parts }
    requires one_part { 0 < ledger.parts }
    ensures { IsBranchOf (tree_at arena number) budget result }
{
    let mut steps = Steps::<M>::new(ledger);
    let mut table = HashMap::with_hasher(alloc, ByNumber);
    let made = eliminate_in(&mut arena, alloc, &mut table, number, budget, &mut steps);
    Branch { arena, made, steps }
}

/// Starts a thread that works on a proof. Where none can be started there is none.
pub(crate) fn start<R: Threads, M: Ledger + Send + 'static>(
    rt: &R,
    alloc: Global,
    graph: &Graph,
    proof: &ProofRef,
    budget: u64,
    ledger: Blank,
) -> Result<Option<PromisedHandle<Branch<M>, Task>>, AllocError>
    requires of { IsOf graph.now proof.now }
    requires name { ledger.name ≡ M.name }
    requires parts { ledger.parts ≡ M.parts }
    requires one_part { 0 < ledger.parts }
    ensures tree { IfOk result (λ o. IfSome o (λ h. tree_at h.promise.arena.value h.promise.number ≡ proof.now.tree)) }
    ensures budget { IfOk result (λ o. IfSome o (λ h. h.promise.budget ≡ budget)) }
{
    proof.known();
    let mut arena = Arena::new(alloc);
    let mut numbers = ProofNumbers::new(alloc);
    let number = import_proof(alloc, graph, &mut arena, &mut numbers, proof)?;
    let task = Task {
        arena: Snapshot::of(&arena),
        number,
        budget,
    };
    let job = move || -> Branch<M>
        requires { IsTreeAt arena number × IsValid (tree_at arena number) × (ledger.name ≡ M.name) × (ledger.parts ≡ M.parts) × (0 < ledger.parts) }
        ensures { IsBranchOf (tree_at arena number) budget result }
    { work_on::<M>(arena, alloc, number, budget, ledger) };
    let started = Builder::new()
        .stack_size(STACK_SIZE)
        .spawn_with(rt, task, job);
    Ok(started.ok())
}

/// The results of both premises in one arena, into which that of the left one is taken over. `Budget` is answered where their numbers exceed
/// it together.
pub(crate) fn take_both(
    alloc: Global,
    arena: &mut Arena,
    from: &Arena,
    left: &ProofRef,
    right: &ProofRef,
    both: Both,
    budget: u64,
) -> Result<Both, ElimFault>
    requires left_there { IsTreeAt from.now both.left.proof }
    requires left { elimination left.now.tree budget ≡ Some (tree_at from.now both.left.proof, both.left.reductions) }
    requires right_there { IsTreeAt arena.old both.right.proof }
    requires right { elimination right.now.tree budget ≡ Some (tree_at arena.old both.right.proof, both.right.reductions) }
    ensures both { IfOk result (AreBoth arena.new left.now.tree right.now.tree budget) }
    ensures same { IfOk result (λ taken. (taken.left.reductions ≡ both.left.reductions) × (taken.right.reductions ≡ both.right.reductions)) }
    ensures budget { result ≡ Err ElimFault.Budget → forked budget (elimination left.now.tree budget) (elimination right.now.tree budget) ≡ None }
    ensures grown { Extends arena.old arena.new }
{
    let (_left, _right) = (left, right);
    if budget < both.left.reductions || budget - both.left.reductions < both.right.reductions {
        return Err(ElimFault::Budget);
    }
    match copy_tree(alloc, from, arena, both.left.proof) {
        Ok(proof) => Ok(Both {
            left: Reduced {
                proof,
                reductions: both.left.reductions,
            },
            right: both.right,
        }),
        Err(_) => Err(ElimFault::Memory),
    }
}
