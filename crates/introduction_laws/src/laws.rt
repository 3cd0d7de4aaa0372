//! The laws of Herbrand instances of proofs and of the introduction of a cut. Each function does nothing: its contract is the law.
ghost use Rattle.std.specs.Prelude.{◌≡◌, true, List, ◌≤◌, ◌<◌, ℕ, Ok};
ghost use Rattle.search_laws.specs.Truth.{IsPropositional, IsTautology};
ghost use Rattle.herbrand_laws.specs.Herbrand.{Item, herbrand_sequent, items_of, IsPrenex};
ghost use Rattle.introduction_laws.specs.Instancing.{instancing};
ghost use Rattle.proof_trees.specs.Trees.{Tree as Proof, concl, size, quants, IsValid, IsCutFree};
ghost use Rattle.extraction_laws.specs.Extraction.{extracted};
ghost use Rattle.herbrand_laws.specs.Introduction.{IsProofWithCut};
ghost use Rattle.introduction_laws.specs.Introducing.{shorter, introducing, has_formed_instances, IsByBest};

/// What isn't refused is the instances of the trees that are extracted from a proof without cuts, each formula of whose end sequent is weak
/// quantifiers over a matrix, and whose tree is within the budget. If the proof is valid, their Herbrand sequent is a tautology without
/// quantifiers.
pub fn instancings()
    ensures instances { (t : Proof) (n : ℕ) (items : List Item) → instancing t n ≡ Ok items → items ≡ items_of (extracted t) }
    ensures cut_free { (t : Proof) (n : ℕ) (items : List Item) → instancing t n ≡ Ok items → IsCutFree t }
    ensures prenex { (t : Proof) (n : ℕ) (items : List Item) → instancing t n ≡ Ok items → IsPrenex (concl t) }
    ensures budget { (t : Proof) (n : ℕ) (items : List Item) → instancing t n ≡ Ok items → size t ≤ n }
    ensures tautology { (t : Proof) (n : ℕ) (items : List Item) → IsValid t → instancing t n ≡ Ok items → IsTautology (herbrand_sequent items) }
    ensures propositional { (t : Proof) (n : ℕ) (items : List Item) → IsValid t → instancing t n ≡ Ok items → IsPropositional (herbrand_sequent items) }
{}

/// A shorter proof that takes the place of a valid one is valid too, of the same end sequent, with one cut and fewer quantifier inferences.
pub fn introductions()
    ensures { (width : ℕ) (t u : Proof) (n : ℕ) → IsValid t → has_formed_instances t ≡ true → introducing width t n ≡ Ok (shorter u)
        → (k : ℕ) × IsProofWithCut (concl t) k u × (k < quants t) }
{}

/// A shorter proof of a valid one has as many quantifier inferences as the best candidate of the given one's instances costs.
pub fn costs()
    ensures { (width : ℕ) (t u : Proof) (n : ℕ) → IsValid t → has_formed_instances t ≡ true → introducing width t n ≡ Ok (shorter u) → IsByBest width t u }
{}
