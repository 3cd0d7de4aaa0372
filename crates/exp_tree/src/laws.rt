//! The laws of flat lists and of merged trees. Each function does nothing: its contract is the laws.
ghost use Rattle.std.specs.Prelude.{◌≡◌, ℕ, true, Result, Ok};
ghost use Rattle.lk_rules.specs.declared.sequent.Side.{Side as Place};
ghost use Rattle.expansion_laws.specs.Expansions.{Exp as Tree, shallow};
ghost use Rattle.expansion_laws.specs.Proofs.{stands};
ghost use Rattle.expansion_laws.specs.Dependency.{Expansion};
ghost use Rattle.expansion_laws.specs.Formed.{IsProper};
ghost use Rattle.exp_tree.specs.Merging.{merged, CanMerge};
ghost use Rattle.exp_tree.specs.FlatReading.{reading, IsReading, AreRight};
ghost use Rattle.exp_tree.specs.Reads.{Reads};
ghost use Rattle.exp_tree.specs.Roots.{expansion_over};
ghost use Rattle.exp_tree.specs.declared.flat.FlatExp.{FlatExp as Flat};
ghost use Rattle.exp_tree.specs.declared.flat.NodesFault.{NodesFault as Fault};
ghost use Rattle.exp_tree.specs.declared.sequents.ExpSequent.{ExpSequent as Trees};

/// What is read of a flat list is a function of it and of the budget. The trees that are read are those of the roots, rightly built, each
/// on its side.
pub fn readings()
    ensures exact { (result : Result Trees Fault) (flat : Flat) (n : ℕ) → Reads result flat n → IsReading result (reading flat n) }
    ensures roots { (flat : Flat) (n : ℕ) (x : Expansion) → reading flat n ≡ Ok x → x ≡ expansion_over flat }
    ensures right { (flat : Flat) (n : ℕ) (x : Expansion) → reading flat n ≡ Ok x → AreRight x }
{}

/// The tree that has the marks of two trees is of the same formula, and can stand on each side on which both can. It is rightly built where
/// both are.
pub fn merges()
    ensures formula { (d e : Tree) → CanMerge d e → shallow (merged d e) ≡ shallow d }
    ensures stands { (s : Place) (d e : Tree) → CanMerge d e → stands s d ≡ true → stands s e ≡ true → stands s (merged d e) ≡ true }
    ensures proper { (d e : Tree) → CanMerge d e → IsProper d → IsProper e → IsProper (merged d e) }
{}
