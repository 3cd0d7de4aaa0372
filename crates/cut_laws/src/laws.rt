//! The laws of contraction and of elimination. Each function does nothing: its contract is the law.
ghost use Rattle.std.specs.Prelude.{◌≡◌, ◌↔◌, ◌≤◌, ◌<◌, ◌-◌, ◌+◌, ℕ, suc, true, false, Some, None, Option, if◌then◌else◌, nat_lt};
ghost use Rattle.fol.specs.Syntax.{Formula};
ghost use Rattle.free_variables.specs.Grade.{grade_of};
ghost use Rattle.lk_rules.specs.declared.sequent.Sequent.{Sequent as Conclusion};
ghost use Rattle.lk_rules.specs.declared.rule.Rule.{Rule as Inference};
ghost use Rattle.proof_trees.specs.Trees.{Tree as Proof, Trees, node, none, more, concl, IsValid, IsCutFree, is_cut, cut_free};
ghost use Rattle.cut_laws.specs.declared.case.Case.TheVariants.{Reduce};
ghost use Rattle.cut_laws.specs.Contraction.{cut, case_of, con};
ghost use Rattle.cut_laws.specs.LowerCuts.{HasCutsBelow};
ghost use Rattle.cut_laws.specs.Elimination.{elimination, Reaches};
ghost use Rattle.cut_laws.specs.Budgets.{given, counted, within, contracted, elimination_all, forked, rooted, work, work_all};

/// The contraction of a valid cut is a valid tree with the same conclusion.
pub fn contraction()
    ensures valid { (s : Conclusion) (a : Formula) (l r : Proof) → IsValid (cut s a l r) → IsValid (con s a l r) }
    ensures end { (s : Conclusion) (a : Formula) (l r : Proof) → concl (con s a l r) ≡ s }
{}

/// In the case `Reduce` of a valid cut, each cut of the contraction is on a formula of lower grade than the cut formula, if each cut of
/// the premises is: so it is where they have no cut.
pub fn reductions()
    ensures lower_grades { (s : Conclusion) (a : Formula) (l r : Proof) → IsValid (cut s a l r) → case_of s a l r ≡ Reduce → HasCutsBelow (grade_of a) l → HasCutsBelow (grade_of a) r → HasCutsBelow (grade_of a) (con s a l r) }
    ensures cut_free_premises { (s : Conclusion) (a : Formula) (l r : Proof) → IsValid (cut s a l r) → case_of s a l r ≡ Reduce → IsCutFree l → IsCutFree r → HasCutsBelow (grade_of a) (con s a l r) }
{}

/// Replacements in the left premise of a cut come first, then those in the right one, and then those that begin at the root.
pub fn big_steps()
    ensures cut { (s : Conclusion) (a : Formula) (l r : Proof) (n : ℕ) → elimination (cut s a l r) n ≡ given (elimination l n) (λ u i. counted i (given (elimination r (n - i)) (λ v j. counted j (contracted s a u v (n - i - j))))) }
    ensures other { (q : Inference) (s : Conclusion) (ts : Trees) (n : ℕ) → is_cut q ≡ false → elimination (node q s ts) n ≡ rooted q s (elimination_all ts n) }
{}

/// Two trees may be worked on apart, each with the whole budget. After the replacements in the premises of an inference it goes on from the
/// inference over what they have become.
pub fn forks()
    ensures both { (l r : Proof) (n : ℕ) → elimination_all (more l (more r none)) n ≡ forked n (elimination l n) (elimination r n) }
    ensures premises_first { (q : Inference) (s : Conclusion) (ts : Trees) (n : ℕ) → elimination (node q s ts) n ≡ given (elimination_all ts n) (λ us k. counted k (elimination (node q s us) (n - k))) }
{}

/// A smaller budget gives the same where it suffices. What is known within one budget is known within each.
pub fn budgets()
    ensures less { (t : Proof) (m n : ℕ) → m ≤ n → elimination t m ≡ within m (elimination t n) }
    ensures known { (t u : Proof) (k n : ℕ) → elimination t k ≡ Some (u, k) → elimination t n ≡ within n (Some (u, k)) }
    ensures exact { (t u : Proof) (k n : ℕ) → elimination t n ≡ Some (u, k) → elimination t k ≡ Some (u, k) }
    ensures within { (t u : Proof) (k n : ℕ) → elimination t n ≡ Some (u, k) → k ≤ n }
{}

/// Within a budget the elimination gives just the tree without cuts that is reached and the least number of replacements that reach it.
pub fn least()
    ensures { (t : Proof) (n : ℕ) (u : Proof) (k : ℕ) → (elimination t n ≡ Some (u, k)) ↔ (Reaches t k u × (k ≤ n)) }
{}

/// What is reached has no cut, the same conclusion, and is valid where the tree is.
pub fn results()
    ensures cut_free { (t u : Proof) (k n : ℕ) → elimination t n ≡ Some (u, k) → cut_free u ≡ true }
    ensures end { (t u : Proof) (k n : ℕ) → elimination t n ≡ Some (u, k) → concl u ≡ concl t }
    ensures valid { (t u : Proof) (k n : ℕ) → IsValid t → elimination t n ≡ Some (u, k) → IsValid u }
{}

/// The work that a tree makes within a budget falls at each part of it, so that a program may go from a tree to its parts.
pub fn falling_work()
    ensures left { (s : Conclusion) (a : Formula) (l r : Proof) (n : ℕ) → work n l < work n (cut s a l r) }
    ensures right { (s : Conclusion) (a : Formula) (l r u : Proof) (k n : ℕ) → elimination l n ≡ Some (u, k) → work (n - k) r < work n (cut s a l r) }
    ensures root { (s : Conclusion) (a : Formula) (l r u v : Proof) (i j k n : ℕ) → elimination l n ≡ Some (u, i) → elimination r (n - i) ≡ Some (v, j) → n - i - j ≡ suc k → work k (con s a u v) < work n (cut s a l r) }
    ensures other { (q : Inference) (s : Conclusion) (ts : Trees) (n : ℕ) → is_cut q ≡ false → work_all n ts < work n (node q s ts) }
    ensures first { (t : Proof) (ts : Trees) (n : ℕ) → work n t ≤ work_all n (more t ts) }
    ensures rest { (t u : Proof) (ts : Trees) (k n : ℕ) → elimination t n ≡ Some (u, k) → work_all (n - k) ts < work_all n (more t ts) }
{}

/// Each valid tree has after some number of replacements, and not before, become a valid tree without cuts and with the same conclusion
/// (Gentzen's Hauptsatz, 1935).
pub fn hauptsatz()
    ensures { (t : Proof) → IsValid t → (k : ℕ) × (u : Proof) × Reaches t k u × IsValid u × (concl u ≡ concl t) }
{}
