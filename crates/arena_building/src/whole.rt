//! The proof of an expansion proof, in an arena.
ghost use Rattle.std.specs.Prelude.{◌≡◌, Some, Ok, Err, IfOk};
ghost use Rattle.proof_trees.specs.Trees.{Tree as Proof, concl, IsValid, IsCutFree};
ghost use Rattle.proof_trees.specs.Conclusions.{HasFormedEnd};
ghost use Rattle.expansion_laws.specs.Proofs.{shallow_sequent};
ghost use Rattle.exp_tree.specs.Reads.{expansion_of};
ghost use Rattle.arena_cells.specs.Standing.{tree_at, IsTreeAt};
ghost use Rattle.building_laws.specs.Lists.{start as start_list};
ghost use Rattle.building_laws.specs.Building.{build};
ghost use Rattle.building_laws.specs.Buildable.{IsFormedExpansion, IsBuildable};
ghost use Rattle.building_laws.specs.Budgets.{building};

use crate::building::build_list;
use crate::lists::{copy_list, start};
use crate::sides::conclusion;
use arena::Arena;
use building_laws::{BuildFault, laws};
use exp_tree::CheckedExp;
use std::alloc::Global;

// What is known of an expansion proof, and of the proof that is built for its list.
fn known(exps: &CheckedExp)
    ensures formed { IsFormedExpansion (expansion_of exps.now) (shallow_sequent (expansion_of exps.now)) }
    ensures buildable { IsBuildable (start_list (expansion_of exps.now)) }
    ensures valid { (t : Proof) → build (start_list (expansion_of exps.now)) ≡ Some t → IsValid t }
    ensures cut_free { (t : Proof) → build (start_list (expansion_of exps.now)) ≡ Some t → IsCutFree t }
    ensures end { (t : Proof) → build (start_list (expansion_of exps.now)) ≡ Some t → concl t ≡ shallow_sequent (expansion_of exps.now) }
    ensures formed_end { (t : Proof) → build (start_list (expansion_of exps.now)) ≡ Some t → HasFormedEnd t }
{
    laws::proofs();
    laws::lists();
    let trees = exps.tree();
    let _left = trees.left.as_slice();
    let _right = trees.right.as_slice();
}

/// Builds the proof without cuts of an expansion proof in an arena, from the conclusion upwards, after Miller (1987): its end sequent has the
/// formulas of the trees. The budget bounds the number of inferences, each counted as often as it stands in the tree. They are counted before
/// anything is built, and `Budget` is answered at the first one over it.
pub fn build_in(
    arena: &mut Arena,
    alloc: Global,
    exps: &CheckedExp,
    budget: u64,
) -> Result<u32, BuildFault>
    ensures ok { IfOk result (λ n. building (expansion_of exps.now) budget ≡ Ok (tree_at arena.new n)) }
    ensures budget { result ≡ Err BuildFault.Budget → building (expansion_of exps.now) budget ≡ Err BuildFault.Budget }
    ensures there { IfOk result (IsTreeAt arena.new) }
    ensures valid { IfOk result (λ n. IsValid (tree_at arena.new n)) }
    ensures cut_free { IfOk result (λ n. IsCutFree (tree_at arena.new n)) }
    ensures end { IfOk result (λ n. concl (tree_at arena.new n) ≡ shallow_sequent (expansion_of exps.now)) }
    ensures formed { IfOk result (λ n. HasFormedEnd (tree_at arena.new n)) }
{
    known(exps);
    let list = start(arena, alloc, exps.tree())?;
    // Nothing is built for a proof that has more inferences than the budget allows.
    let mut left = budget;
    build_list(arena, alloc, copy_list(alloc, &list)?, None, &mut left)?;
    let end = conclusion(arena, alloc, &list)?;
    let mut left = budget;
    let Some(proof) = build_list(arena, alloc, list, Some(end), &mut left)? else {
        unreachable!()
    };
    Ok(proof)
}
