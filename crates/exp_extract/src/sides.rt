//! The addresses of the formulas of sequents, by number.
ghost use Rattle.std.specs.Prelude.{◌≡◌, ◌≤◌, length, map, Some, IfOk, IfSome, IsNone, IsTrue};
ghost use Rattle.std.specs.List.{All};
ghost use Rattle.std.specs.Result.{result_ok};
ghost use Rattle.fol.specs.Order.{formula_cmp};
ghost use Rattle.finite.specs.Finite as set;
ghost use Rattle.finite.specs.Place.{place};
ghost use Rattle.lk_rules.specs.declared.sequent.Side.{Side as SequentSide};
ghost use Rattle.lk_rules.specs.Sequents.{side_of};
ghost use Rattle.exp_extract.specs.Fingerprints.{IsToldApart, AreAmong};
ghost use Rattle.exp_extract.specs.Sides.{IsPlaceOf, HasNotBetween, number_in, HasCounts, IsKnownDistinct, auxiliary_place, inner_number, AreInner};

use crate::fingerprints::{are_equal, tell_apart};
use fol::Formula;
use lk_rules::{Sequent, Side};
use std::alloc::{AllocError, Global};

/// The numbers of the addresses of a sequent's formulas, in the order of its sides.
#[derive(Drop)]
pub(crate) struct Sides {
    pub left: Vec<u32>,
    pub right: Vec<u32>,
    /// Whether on each side the formulas are known to have unequal fingerprints.
    pub distinct: bool,
}

/// The numbers of the addresses of a rule's auxiliary formulas.
pub(crate) enum Auxiliary {
    /// There is none.
    Absent,
    /// One for all of them.
    Only(u32),
    /// One for the first premise, and one for the second.
    ByPremise(u32, u32),
    /// One for the left side, and one for the right.
    BySide(u32, u32),
    /// One for this formula, and one for others.
    ByFormula(Formula, u32, u32),
}

impl Drop for Auxiliary {
    fn drop(self) {
        match self {
            Auxiliary::Absent
            | Auxiliary::Only(_)
            | Auxiliary::ByPremise(_, _)
            | Auxiliary::BySide(_, _) => {}
            Auxiliary::ByFormula(formula, _, _) => drop(formula),
        }
    }
}

impl Auxiliary {
    // The number of the address of an auxiliary formula of a premise.
    fn place(&self, premise: u64, side: Side, formula: &Formula) -> Option<u32>
        ensures { result ≡ auxiliary_place self.now premise side formula.now }
    {
        match self {
            Auxiliary::Absent => None,
            Auxiliary::Only(place) => Some(*place),
            Auxiliary::ByPremise(first, second) => Some(if premise == 0 {
                *first
            } else {
                *second
            }),
            Auxiliary::BySide(left, right) => Some(match side {
                Side::Left => *left,
                Side::Right => *right,
            }),
            Auxiliary::ByFormula(first_formula, first, second) => {
                if formula == first_formula {
                    Some(*first)
                } else {
                    Some(*second)
                }
            }
        }
    }
}

// The place of a formula in a list, from one place on and before another. Fingerprints are compared first, so other formulas cost one look
// each.
fn place_between(
    formulas: &[Formula],
    from: usize,
    to: usize,
    formula: &Formula,
    told_apart: bool,
) -> Option<usize>
    requires to { to ≤ length formulas.now }
    requires told { IsTrue told_apart → IsToldApart formulas.now formula.now }
    ensures some { IfSome result (λ at. IsPlaceOf formulas.now formula.now at) }
    ensures none { IsNone result → HasNotBetween formulas.now from to formula.now }
{
    for at in from..to {
        if are_equal(formula, &formulas[at], told_apart) {
            return Some(at);
        }
    }
    None
}

// The place of a formula in a rising list, looked for from one place on and then before that.
fn place_near(
    formulas: &[Formula],
    near: usize,
    formula: &Formula,
    told_apart: bool,
) -> Option<usize>
    requires rises { set.IsRising formula_cmp formulas.now }
    requires near { near ≤ length formulas.now }
    requires told { IsTrue told_apart → IsToldApart formulas.now formula.now }
    ensures { result ≡ result_ok (place formula_cmp formula.now formulas.now) }
{
    match place_between(formulas, near, formulas.len(), formula, told_apart) {
        Some(at) => Some(at),
        None => place_between(formulas, 0, near, formula, told_apart),
    }
}

/// The number of a formula, where the formulas of a rising list have these numbers.
pub(crate) fn number_of(formulas: &[Formula], numbers: &[u32], formula: &Formula) -> Option<u32>
    requires rises { set.IsRising formula_cmp formulas.now }
    requires count { length numbers.now ≡ length formulas.now }
    ensures { result ≡ number_in formulas.now numbers.now formula.now }
{
    match place_near(formulas, 0, formula, false) {
        Some(at) => Some(numbers[at]),
        None => None,
    }
}

// The numbers of the formulas on a side of a premise: those in the conclusion, where they stand there, and else those of auxiliary
// formulas. In a right inference each formula has one. A premise's side is mostly the conclusion's but for a formula or two, so each
// formula is looked for right after the one before it.
fn inner_side(
    alloc: Global,
    conclusion: &[Formula],
    numbers: &[u32],
    auxiliary: &Auxiliary,
    premise: u64,
    side: Side,
    formulas: &[Formula],
    told_apart: bool,
) -> Result<Vec<u32>, AllocError>
    requires rises { set.IsRising formula_cmp conclusion.now }
    requires count { length numbers.now ≡ length conclusion.now }
    requires told { IsTrue told_apart → All (IsToldApart conclusion.now) formulas.now }
    ensures { IfOk result (λ list. map Some list.items ≡ map (inner_number conclusion.now numbers.now auxiliary.now premise side) formulas.now) }
{
    let mut list = Vec::with_capacity(alloc, formulas.len())?;
    let mut near = 0;
    for formula in formulas {
        if let Some(at) = place_near(conclusion, near, formula, told_apart) {
            list.push_reserved(numbers[at]);
            near = at + 1;
            continue;
        }
        let number = auxiliary.place(premise, side, formula).ok_or(AllocError)?;
        list.push_reserved(number);
    }
    Ok(list)
}

impl Sides {
    /// The numbers of the formulas of a premise, where these are the numbers of those of the conclusion, and `added` has the auxiliary
    /// formulas.
    pub fn inner(
        &self,
        alloc: Global,
        conclusion: &Sequent,
        auxiliary: &Auxiliary,
        premise: u64,
        added: &Sequent,
        end: &Sequent,
    ) -> Result<Sides, AllocError>
        requires counts { HasCounts conclusion.now self.now }
        requires distinct { IsKnownDistinct conclusion.now self.now }
        requires among { (side : SequentSide) → AreAmong (set.listing (side_of conclusion.now side)) (set.listing (side_of added.now side)) (set.listing (side_of end.now side)) }
        ensures inner { IfOk result (AreInner conclusion.now self.now auxiliary.now premise end.now) }
        ensures distinct { IfOk result (IsKnownDistinct end.now) }
    {
        let distinct = tell_apart(self.distinct, conclusion, added, end);
        let left = inner_side(
            alloc,
            conclusion.left(),
            &self.left,
            auxiliary,
            premise,
            Side::Left,
            end.left(),
            distinct,
        )?;
        let right = inner_side(
            alloc,
            conclusion.right(),
            &self.right,
            auxiliary,
            premise,
            Side::Right,
            end.right(),
            distinct,
        )?;
        Ok(Sides {
            left,
            right,
            distinct,
        })
    }
}
