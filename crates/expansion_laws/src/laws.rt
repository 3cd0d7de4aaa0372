//! The laws of expansion trees. Each function does nothing: its contract is the law.
ghost use Rattle.std.specs.Prelude.{◌≡◌, ◌↔◌, ◌<◌, ◌||◌, ℕ, true, false, ◌⊎◌, List, Some, None, Ok, Err};
ghost use Rattle.std.specs.List.{All, list_any, list_all};
ghost use Rattle.fol.specs.declared.symbols.Var.{Var as Variable};
ghost use Rattle.lk_rules.specs.declared.sequent.Side.{Side as Place};
ghost use Rattle.lk_rules.specs.declared.sequent.Side.TheVariants.{Left, Right};
ghost use Rattle.search_laws.specs.Truth.{Assignment, has_quantifier, IsPropositional, IsTautology, falsifies};
ghost use Rattle.expansion_laws.specs.Expansions.{Exp, deep};
ghost use Rattle.expansion_laws.specs.Building.{is_built};
ghost use Rattle.expansion_laws.specs.Dependency.{Expansion, is_before, IsAcyclic};
ghost use Rattle.expansion_laws.specs.Helping.{helps, helped};
ghost use Rattle.expansion_laws.specs.Sequents.{deep_sequent};
ghost use Rattle.finite.specs.Finite as set;
ghost use Rattle.proof_trees.specs.FormulaSets.{is_atom};
ghost use Rattle.expansion_laws.specs.Proofs.{stands, shallow_sequent, IsExpansionProof};
ghost use Rattle.expansion_laws.specs.Checking.{checking};
ghost use Rattle.expansion_laws.specs.Cycles.{is_cycle, cycle};

use crate::fault::ExpFault;

/// What a tree stands for makes a sequent true just where the tree does by its parts, and what trees stand for is a tautology just where
/// under each assignment one of the trees does.
pub fn truth()
    ensures tree { (a : Assignment) (s : Place) (e : Exp) → helps a s (deep s e) ≡ helped a s e }
    ensures trees { (x : Expansion) → IsTautology (deep_sequent x) ↔ ((a : Assignment) → (list_any (helped a Left) x.left || list_any (helped a Right) x.right) ≡ true) }
{}

/// What a tree that is rightly built stands for has no quantifier.
pub fn deep_formulas()
    ensures tree { (s : Place) (e : Exp) → is_built e ≡ true → has_quantifier (deep s e) ≡ false }
    ensures trees { (x : Expansion) → All (λ e. is_built e ≡ true) x.left → All (λ e. is_built e ≡ true) x.right → IsPropositional (deep_sequent x) }
{}

/// No variable leads to itself just where the variables have ranks that rise from each to those that it comes before.
pub fn ranks()
    ensures { (x : Expansion) → IsAcyclic x ↔ ((rank : Variable → ℕ) × ((y z : Variable) → is_before x y z ≡ true → rank y < rank z)) }
{}

/// Trees that pass the check are an expansion proof of the sequent of their formulas, and such a proof passes within a budget that suffices
/// for the search. Trees that are refused for a cycle have that cycle, and what trees stand for that are refused as false is so under that
/// assignment. A cycle is shown just where a variable leads to itself, and what is shown is a cycle.
pub fn checks()
    ensures proof { (x y : Expansion) (n : ℕ) → All (λ e. is_built e ≡ true) x.left → All (λ e. is_built e ≡ true) x.right → All (λ e. stands Left e ≡ true) x.left → All (λ e. stands Right e ≡ true) x.right → checking x n ≡ Ok y → (y ≡ x) × IsExpansionProof x (shallow_sequent x) }
    ensures complete { (x : Expansion) (n : ℕ) → IsExpansionProof x (shallow_sequent x) → (checking x n ≡ Ok x) ⊎ (checking x n ≡ Err ExpFault.Budget) }
    ensures cyclic { (x : Expansion) (n : ℕ) (vs : List Variable) → checking x n ≡ Err (ExpFault.Cycle vs) → is_cycle (is_before x) vs ≡ true }
    ensures falsified { (x : Expansion) (n : ℕ) (a : Assignment) → All (λ e. is_built e ≡ true) x.left → All (λ e. is_built e ≡ true) x.right → checking x n ≡ Err (ExpFault.Falsified a) → (falsifies a (deep_sequent x) ≡ true) × (list_all is_atom (set.listing a) ≡ true) }
    ensures acyclic { (x : Expansion) → (cycle x ≡ None) ↔ IsAcyclic x }
    ensures shown { (x : Expansion) (vs : List Variable) → cycle x ≡ Some vs → is_cycle (is_before x) vs ≡ true }
{
    search_laws::laws::searches();
    deep_formulas();
}
