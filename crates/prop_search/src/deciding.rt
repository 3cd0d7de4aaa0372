//! Whether a sequent is a tautology, by the search for its proof.
ghost use Rattle.std.specs.Prelude.{◌≡◌, ◌+◌, ◌<◌, true, length, Err, IfOk, IfErr, OnOk};
ghost use Rattle.std.specs.List.{list_all};
ghost use Rattle.finite.specs.Finite as set;
ghost use Rattle.proof_trees.specs.FormulaSets.{is_atom};
ghost use Rattle.search_laws.specs.Truth.{Assignment, IsPropositional, IsTautology, falsifies};
ghost use Rattle.search_laws.specs.Search.{walk};
ghost use Rattle.search_laws.specs.Budgets.{found};
ghost use Rattle.prop_search.specs.Deciding.{Decides, WalksTo, IsInferred};
ghost use Rattle.prop_search.specs.Formulas.{sequent_of, IsFit};
ghost use Rattle.prop_search.specs.Premises.{AreWithin, premises_of};
ghost use Rattle.prop_search.specs.Seen.{AreSeen};

use crate::choices::{Choice, choose};
use crate::connective::{Parts, Signed};
use crate::numbered::Numbered;
use crate::numbering::Numbering;
use crate::seen::Seen;
use crate::sides::{left_atoms, numbered};
use lk_rules::Sequent;
use search_laws::{SearchFault, laws};
use std::alloc::Global;

// Takes so many visits from those that are left.
fn spend(left: &mut u64, visits: u64) -> Result<(), SearchFault>
    ensures enough { OnOk result (left.old ≡ left.new + visits) }
    ensures budget { IfErr result (λ e. (e ≡ SearchFault.Budget) × (left.old < visits)) }
{
    if *left < visits {
        return Err(SearchFault::Budget);
    }
    *left -= visits;
    Ok(())
}

// The search from a sequent, where so many sequents may be visited.
#[cycle(decide)]
fn decide_at(
    alloc: Global,
    numbering: &Numbering,
    seen: &mut Seen,
    sequent: Numbered,
    left: &mut u64,
) -> Result<(), SearchFault>
    requires fit { IsFit numbering.now sequent }
    requires seen { AreSeen numbering.now seen.old }
    ensures walk { WalksTo result left.old left.new (walk (sequent_of numbering.now sequent)) }
    ensures seen { AreSeen numbering.now seen.new }
{
    laws::steps();
    if *left == 0 {
        return Err(SearchFault::Budget);
    }
    match choose(numbering, &sequent) {
        Some(Choice::Close(_)) => {
            *left -= 1;
            seen.recycle(sequent);
            Ok(())
        }
        Some(Choice::Main(main)) => {
            let parts = numbering.root(main.number).parts(main.side);
            decide_main(alloc, numbering, seen, sequent, main, parts, left)
        }
        None => Err(SearchFault::Falsified(left_atoms(alloc, numbering, sequent)?)),
    }
}

// The search from a sequent by the rule of a formula's connective, with these parts in the premises.
#[cycle(decide)]
fn decide_main(
    alloc: Global,
    numbering: &Numbering,
    seen: &mut Seen,
    sequent: Numbered,
    main: Signed,
    parts: Parts,
    left: &mut u64,
) -> Result<(), SearchFault>
    requires some { 0 < left.old }
    requires fit { IsFit numbering.now sequent }
    requires number { main.number < length numbering.now }
    requires within { AreWithin numbering.now parts }
    requires taken { IsInferred (sequent_of numbering.now sequent) (premises_of numbering.now (sequent_of numbering.now sequent) main parts) }
    requires seen { AreSeen numbering.now seen.old }
    ensures walk { WalksTo result left.old left.new (walk (sequent_of numbering.now sequent)) }
    ensures seen { AreSeen numbering.now seen.new }
{
    let mut premise = sequent;
    match parts {
        Parts::One(part) => numbering.put(&mut premise, main, part),
        Parts::Both(part, other) => {
            numbering.put(&mut premise, main, part);
            numbering.add(&mut premise, other);
        }
        Parts::Either(part, other) => {
            return decide_either(alloc, numbering, seen, premise, main, (part, other), left);
        }
    }
    *left -= 1;
    decide_at(alloc, numbering, seen, premise, left)
}

// The search from a sequent by the rule of a formula's connective, with one of these parts in each premise.
#[cycle(decide)]
fn decide_either(
    alloc: Global,
    numbering: &Numbering,
    seen: &mut Seen,
    sequent: Numbered,
    main: Signed,
    parts: (Signed, Signed),
    left: &mut u64,
) -> Result<(), SearchFault>
    requires some { 0 < left.old }
    requires fit { IsFit numbering.now sequent }
    requires number { main.number < length numbering.now }
    requires within { AreWithin numbering.now (Parts.Either parts.0 parts.1) }
    requires taken { IsInferred (sequent_of numbering.now sequent) (premises_of numbering.now (sequent_of numbering.now sequent) main (Parts.Either parts.0 parts.1)) }
    requires seen { AreSeen numbering.now seen.old }
    ensures walk { WalksTo result left.old left.new (walk (sequent_of numbering.now sequent)) }
    ensures seen { AreSeen numbering.now seen.new }
{
    if let Some(visits) = seen.visits(numbering, &sequent) {
        seen.recycle(sequent);
        return spend(left, visits);
    }
    let before = *left;
    *left -= 1;
    let mut premise = seen.copy(alloc, &sequent)?;
    numbering.put(&mut premise, main, parts.0);
    decide_at(alloc, numbering, seen, premise, left)?;
    let mut premise = seen.copy(alloc, &sequent)?;
    numbering.put(&mut premise, main, parts.1);
    decide_at(alloc, numbering, seen, premise, left)?;
    seen.note(alloc, numbering, sequent, before - *left)?;
    Ok(())
}

/// `decide` of a sequent that is there by number as well.
pub(crate) fn decide_numbered(
    alloc: Global,
    numbering: &Numbering,
    sequent: &Sequent,
    start: Numbered,
    budget: u64,
) -> Result<(), SearchFault>
    requires propositional { IsPropositional sequent.now }
    requires fit { IsFit numbering.now start }
    requires start { sequent_of numbering.now start ≡ sequent.now }
    ensures exact { Decides result (found budget (walk sequent.now)) }
    ensures tautology { IfOk result (λ _. IsTautology sequent.now) }
    ensures falsified { (a : Assignment) → result ≡ Err (SearchFault.Falsified a) → falsifies a sequent.now ≡ true }
    ensures atoms { (a : Assignment) → result ≡ Err (SearchFault.Falsified a) → list_all is_atom (set.listing a) ≡ true }
{
    laws::searches();
    let _sequent = sequent;
    let mut seen = Seen::new(alloc);
    let mut left = budget;
    decide_at(alloc, numbering, &mut seen, start, &mut left)
}

/// Decides whether a sequent without quantifiers is true under every assignment, by a search for a proof in Gentzen's manner: from the
/// root to the leaves, each sequent from the premises of the one rule that is taken there. `Falsified` gives an assignment under which
/// the sequent is false. The budget bounds the number of sequents that are visited, the sequent itself included: `Budget` is answered
/// where the search has to visit one more.
/// The memory that it takes doesn't grow with that number: it has the sequents on one way to the leaves, and a table of fixed size with
/// sequents whose searches found proofs, so that these aren't done again.
pub fn decide(alloc: Global, sequent: &Sequent, budget: u64) -> Result<(), SearchFault>
    requires propositional { IsPropositional sequent.now }
    // It is the verdict of the whole walk, or that the walk visits more sequents than the budget allows, unless memory runs out.
    ensures exact { Decides result (found budget (walk sequent.now)) }
    ensures tautology { IfOk result (λ _. IsTautology sequent.now) }
    ensures falsified { (a : Assignment) → result ≡ Err (SearchFault.Falsified a) → falsifies a sequent.now ≡ true }
    ensures atoms { (a : Assignment) → result ≡ Err (SearchFault.Falsified a) → list_all is_atom (set.listing a) ≡ true }
{
    let numbering = Numbering::new(alloc, sequent)?;
    let start = numbered(alloc, &numbering, sequent)?;
    decide_numbered(alloc, &numbering, sequent, start, budget)
}
