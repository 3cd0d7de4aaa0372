//! The parts of the proof with a cut, for a candidate.
ghost use Rattle.std.specs.Prelude.{◌≡◌, ℕ, IfOk};
ghost use Rattle.fol.specs.Formed.{IsFormed};
ghost use Rattle.lk_rules.specs.Sequents.{adds_to};
ghost use Rattle.herbrand_laws.specs.Introduction.{end_after, plain_part};
ghost use Rattle.cut_intro.specs.Branches.{inferences, AreUsable};
ghost use Rattle.cut_intro.specs.Cuttings.{HasCandidate, IsCandidateFor, IsCuttingFor};
ghost use Rattle.cut_intro.specs.Instancing.{AreInstancesFor};

use crate::branch::Branch;
use crate::cut_formula::cut_formula;
use crate::instances::{instances_at, instances_of};
use crate::performing::Cutting;
use crate::rules::{left_rules, right_rules};
use crate::variables::cut_variable;
use delta_table::{Candidate, Instances};
use fol::{Formula, Term};
use lk_rules::{Rule, Sequent, Side};
use std::alloc::{AllocError, Global};

// The inferences of a premise of the cut, in which the cut formula stands on the side too.
fn premise(
    alloc: Global,
    end: &Sequent,
    side: Side,
    formula: &Formula,
    rules: Vec<Rule>,
) -> Result<Branch, AllocError>
    requires formed { IsFormed formula.now }
    requires usable { AreUsable rules.items (adds_to end.now side formula.now) }
    ensures inferences { IfOk result (λ branch. branch.inferences.items ≡ inferences rules.items (adds_to end.now side formula.now)) }
    ensures searched { IfOk result (λ branch. branch.searched ≡ plain_part (end_after rules.items (adds_to end.now side formula.now))) }
{
    let mut premise = end.copy()?;
    premise.add(side, formula.copy()?)?;
    let branch = Branch::new(alloc, &rules, premise)?;
    Ok(branch)
}

/// The cut formula and the inferences of both premises, for a candidate.
pub(crate) fn plan(
    alloc: Global,
    end: &Sequent,
    instances: &Instances,
    candidate: &Candidate,
) -> Result<Cutting, AllocError>
    requires instances { AreInstancesFor end.now instances.now }
    requires candidate { HasCandidate instances.now candidate.now }
    ensures { (width : ℕ) → IsCandidateFor width instances.now candidate.now → IfOk result (IsCuttingFor width end.now instances.now candidate.now.values) }
{
    let variable = cut_variable(alloc, end, instances)?;
    let term = Term::free(alloc, variable.copy()?)?;
    let items = instances.items();
    let patterns = candidate.patterns.as_slice();
    let patterned = instances_at(alloc, items, patterns, &term)?;
    let claims = patterned.as_slice();
    let formula = cut_formula(alloc, &variable, claims)?;
    let first = left_rules(alloc, &formula, &variable, claims)?;
    let left = premise(alloc, end, Side::Right, &formula, first)?;
    let rest = candidate.rest.items();
    let uncovered = instances_of(alloc, rest)?;
    let others = uncovered.as_slice();
    let values = candidate.values.as_slice();
    let second = right_rules(alloc, &formula, values, others)?;
    let right = premise(alloc, end, Side::Left, &formula, second)?;
    Ok(Cutting {
        formula,
        left,
        right,
    })
}
