//! Formulas that their fingerprints tell apart.
ghost use Rattle.std.specs.Prelude.{◌≡◌, ◌<◌, length, IsTrue};
ghost use Rattle.std.specs.List.{All};
ghost use Rattle.std.specs.Ordering.{eq_by_cmp};
ghost use Rattle.fol.specs.Facts.{formula_fingerprint};
ghost use Rattle.fol.specs.Order.{formula_cmp};
ghost use Rattle.finite.specs.Finite as set;
ghost use Rattle.lk_rules.specs.declared.sequent.Side.{Side};
ghost use Rattle.lk_rules.specs.Sequents.{side_of};
ghost use Rattle.exp_extract.specs.Fingerprints.{IsToldApart, IsNewAt, HasDistinctFingerprints, HasDistinctSides, AreAmong};

use fol::Formula;
use lk_rules::Sequent;
use std::alloc::Global;
use std::collections::HashSet;

/// Whether two formulas are equal. Where `told_apart` holds, their fingerprints tell.
pub(crate) fn are_equal(first: &Formula, second: &Formula, told_apart: bool) -> bool
    requires { IsTrue told_apart → formula_fingerprint first.now ≡ formula_fingerprint second.now → first.now ≡ second.now }
    ensures { result ≡ eq_by_cmp formula_cmp first.now second.now }
{
    if told_apart {
        first.fingerprint() == second.fingerprint()
    } else {
        first == second
    }
}

// Whether no fingerprint stands twice. Without memory for the test none is known to.
fn are_distinct(alloc: Global, formulas: &[Formula]) -> bool
    ensures { IsTrue result → HasDistinctFingerprints formulas.now }
{
    let Ok(mut fingerprints) = HashSet::with_capacity(alloc, formulas.len()) else {
        return false;
    };
    for formula in formulas {
        if !fingerprints.insert(formula.fingerprint()).unwrap_or(false) {
            return false;
        }
    }
    true
}

/// Whether on each side of a sequent no fingerprint stands twice.
pub(crate) fn has_distinct_sides(alloc: Global, sequent: &Sequent) -> bool
    ensures { IsTrue result → HasDistinctSides sequent.now }
{
    are_distinct(alloc, sequent.left()) && are_distinct(alloc, sequent.right())
}

// Whether the fingerprint at a place is none of those before it.
fn is_new(formulas: &[Formula], at: usize) -> bool
    requires { at < length formulas.now }
    ensures { IsTrue result → IsNewAt formulas.now at }
{
    let fingerprint = formulas[at].fingerprint();
    for before in 0..at {
        if formulas[before].fingerprint() == fingerprint {
            return false;
        }
    }
    true
}

// Whether no fingerprint of a few formulas stands twice: each is compared with those before it, which takes no memory.
fn are_few_distinct(formulas: &[Formula]) -> bool
    ensures { IsTrue result → HasDistinctFingerprints formulas.now }
{
    for at in 0..formulas.len() {
        if !is_new(formulas, at) {
            return false;
        }
    }
    true
}

// Whether two formulas are equal or have unequal fingerprints.
fn are_told(first: &Formula, second: &Formula) -> bool
    ensures { IsTrue result → formula_fingerprint first.now ≡ formula_fingerprint second.now → first.now ≡ second.now }
{
    first.fingerprint() != second.fingerprint() || first == second
}

// Whether a formula is equal to each of a list that has its fingerprint.
fn is_told_apart(formula: &Formula, formulas: &[Formula]) -> bool
    ensures { IsTrue result → IsToldApart formulas.now formula.now }
{
    for other in formulas {
        if !are_told(formula, other) {
            return false;
        }
    }
    true
}

// The same of each formula of a list.
fn are_told_apart(added: &[Formula], formulas: &[Formula]) -> bool
    ensures { IsTrue result → All (IsToldApart formulas.now) added.now }
{
    for formula in added {
        if !is_told_apart(formula, formulas) {
            return false;
        }
    }
    true
}

// Whether fingerprints tell the formulas of a premise's side apart, from one another and from those of the conclusion's side, where they tell
// those apart, and `added` has the few auxiliary formulas. Only these are compared with others.
fn tell_side_apart(conclusion: &[Formula], added: &[Formula], premise: &[Formula]) -> bool
    requires distinct { HasDistinctFingerprints conclusion.now }
    requires rises { set.IsRising formula_cmp premise.now }
    requires among { AreAmong conclusion.now added.now premise.now }
    ensures told { IsTrue result → All (IsToldApart conclusion.now) premise.now }
    ensures distinct { IsTrue result → HasDistinctFingerprints premise.now }
{
    let _premise = premise;
    are_few_distinct(added) && are_told_apart(added, conclusion)
}

/// Whether fingerprints tell the formulas of a premise apart, from one another and from those of the conclusion, where `distinct` says so of
/// the conclusion's, and `added` has the auxiliary formulas. Comparing equal formulas goes through them, and comparing fingerprints is one
/// look.
pub(crate) fn tell_apart(
    distinct: bool,
    conclusion: &Sequent,
    added: &Sequent,
    premise: &Sequent,
) -> bool
    requires distinct { IsTrue distinct → HasDistinctSides conclusion.now }
    requires among { (side : Side) → AreAmong (set.listing (side_of conclusion.now side)) (set.listing (side_of added.now side)) (set.listing (side_of premise.now side)) }
    ensures told { IsTrue result → (side : Side) → All (IsToldApart (set.listing (side_of conclusion.now side))) (set.listing (side_of premise.now side)) }
    ensures distinct { IsTrue result → HasDistinctSides premise.now }
{
    if !distinct {
        return false;
    }
    tell_side_apart(conclusion.left(), added.left(), premise.left())
        && tell_side_apart(conclusion.right(), added.right(), premise.right())
}
