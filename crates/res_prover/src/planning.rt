//! The plan of a refutation: of the clauses that a search has noted, those that the empty clause needs. Nothing is claimed of it.

use crate::normal::variables;
use crate::notes::{Note, Notes, Source};
use crate::renaming::new_name;
use fol::{Formula, Term, TermNode};
use lk_rules::Sequent;
use refutations::ResStep;
use std::alloc::{AllocError, Global};
use substitution::{Subst, apply_term};

// The steps so far, and which of them derive the clauses that were noted.
#[derive(Drop)]
struct Plan {
    steps: Vec<ResStep>,
    known: Vec<Option<u64>>,
}

fn mark(is_needed: &mut [bool], number: usize) {
    if let Some(flag) = is_needed.get_mut(number) {
        *flag = true;
    }
}

// Which clauses that one needs: each is from earlier ones.
fn needed(alloc: Global, notes: &[Note], last: usize) -> Result<Vec<bool>, AllocError> {
    let mut is_needed = vec![in alloc; false; notes.len()]?;
    mark(is_needed.as_mut_slice(), last);
    for number in (0..notes.len()).rev() {
        if let (Some(true), Some(note)) = (is_needed.get(number), notes.get(number))
            && let Source::Resolvent {
                positive,
                negative,
                ..
            } = &note.source
        {
            mark(is_needed.as_mut_slice(), *positive);
            mark(is_needed.as_mut_slice(), *negative);
        }
    }
    Ok(is_needed)
}

// Whether the map sends each of its variables to itself.
fn is_identity(map: &Subst) -> bool {
    map.as_slice().iter().all(|(var, term)| match term.node() {
        TermNode::Free(other) => var == other,
        TermNode::Bound(_) | TermNode::App(..) => false,
    })
}

// The map that renames the variables of a clause apart and then is the unifier.
fn renamed_unifier(
    alloc: Global,
    clause: &Sequent,
    is_second: bool,
    unifier: &Subst,
) -> Result<Subst, AllocError> {
    let mut map = Subst::new(alloc);
    let vars = variables(alloc, clause)?;
    for var in &vars {
        let name = Term::free(alloc, new_name(var, is_second)?)?;
        map.set(var.copy()?, apply_term(alloc, unifier, &name)?)?;
    }
    Ok(map)
}

impl Plan {
    fn new(alloc: Global, notes: usize) -> Result<Plan, AllocError> {
        Ok(Plan {
            steps: Vec::new(alloc),
            known: vec![in alloc; None; notes]?,
        })
    }

    fn into_steps(self) -> Vec<ResStep> {
        let Plan { steps, known: _ } = self;
        steps
    }

    fn push(&mut self, step: ResStep) -> Result<u64, AllocError> {
        let number = self.steps.len() as u64;
        self.steps.push(step)?;
        Ok(number)
    }

    // The image of what a step derives: no step where the map changes nothing.
    fn push_image(&mut self, of: u64, map: Subst) -> Result<u64, AllocError> {
        if is_identity(&map) {
            return Ok(of);
        }
        self.push(ResStep::Subst(of, map))
    }

    // The image under the unifier of a clause that was noted.
    fn unified(
        &mut self,
        alloc: Global,
        notes: &[Note],
        number: usize,
        is_second: bool,
        unifier: &Subst,
    ) -> Result<u64, AllocError> {
        let (Some(Some(step)), Some(note)) = (self.known.get(number), notes.get(number)) else {
            return Err(AllocError);
        };
        let step = *step;
        let map = renamed_unifier(alloc, &note.clause, is_second, unifier)?;
        self.push_image(step, map)
    }

    // The resolvent of two clauses that were noted.
    fn resolved(
        &mut self,
        alloc: Global,
        notes: &[Note],
        positive: usize,
        negative: usize,
        unifier: &Subst,
        atom: &Formula,
    ) -> Result<u64, AllocError> {
        let positive = self.unified(alloc, notes, positive, false, unifier)?;
        let negative = self.unified(alloc, notes, negative, true, unifier)?;
        let atom = atom.copy()?;
        self.push(ResStep::Resolve {
            positive,
            negative,
            atom,
        })
    }

    // The steps of a clause that was noted.
    fn derive(&mut self, alloc: Global, notes: &[Note], number: usize) -> Result<(), AllocError> {
        let Some(note) = notes.get(number) else {
            return Err(AllocError);
        };
        let whole = match &note.source {
            Source::Input(number) => self.push(ResStep::Input(*number as u64))?,
            Source::Resolvent {
                positive,
                negative,
                unifier,
                atom,
            } => self.resolved(alloc, notes, *positive, *negative, unifier, atom)?,
        };
        let step = self.push_image(whole, note.numbering.copy(alloc)?)?;
        if let Some(known) = self.known.get_mut(number) {
            *known = Some(step);
        }
        Ok(())
    }
}

/// The steps that lead to the empty clause, which is one of those that were noted.
pub(crate) fn plan_of(alloc: Global, notes: &Notes) -> Result<Vec<ResStep>, AllocError> {
    let notes = notes.all();
    let none = Sequent::empty(alloc);
    let Some(last) = notes.iter().position(|note| note.clause == none) else {
        return Err(AllocError);
    };
    let is_needed = needed(alloc, notes, last)?;
    let mut plan = Plan::new(alloc, notes.len())?;
    for number in 0..notes.len() {
        if let Some(true) = is_needed.get(number) {
            plan.derive(alloc, notes, number)?;
        }
    }
    Ok(plan.into_steps())
}
