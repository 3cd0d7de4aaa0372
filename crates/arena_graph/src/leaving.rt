//! The trees of a proof that haven't gone out, and the formulas in sides that haven't.
ghost use Rattle.std.specs.Prelude.{◌≡◌, IfOk};
ghost use Rattle.std.specs.List.{All};
ghost use Rattle.proof_trees.specs.Trees.{AllValid};
ghost use Rattle.proof_trees.specs.Conclusions.{HaveFormedEnds};
ghost use Rattle.arena_cells.specs.Standing.{IsFormulaAt, IsSideAt, IsSequentAt};
ghost use Rattle.arena_cells.specs.Meaning.{trees_at, HasPremises, ArePartsBelow};
ghost use Rattle.arena_graph.specs.Leaving.{IsLeaving, HasMet};

use crate::hints::Hints;
use crate::proof_numbers::ProofNumbers;
use crate::runs::same_run;
use arena::{Arena, Parts};
use arena_proofs::{end, premises};
use lk_rules::Side;
use std::alloc::{AllocError, Global};
use std::mem;

/// A tree that leaves. Its height is one where all its premises' trees went out before, and else one more than the greatest of theirs.
#[derive(Clone, Copy)]
pub(crate) struct Leaving {
    pub number: u32,
    pub height: u32,
}

/// The trees that were met in a walk, premises before conclusions, and the formulas. The numbers are those of formulas and of sides. All
/// have hints where they stand. Of the sides that were met last the formulas are kept: the next one mostly has nearly the same.
#[derive(Drop)]
pub(crate) struct Met<'a> {
    pub hints: Hints,
    pub formulas: Vec<u32>,
    pub trees: Vec<Leaving>,
    numbers: Vec<u32>,
    left: &'a [u32],
    right: &'a [u32],
}

impl<'a> Met<'a> {
    // Whether the number, which may stand at the place, is met for the first time.
    fn is_new(&mut self, place: usize, number: u32) -> Result<bool, AllocError>
        ensures formulas { self.new.formulas ≡ self.old.formulas }
        ensures trees { self.new.trees ≡ self.old.trees }
    {
        match self.numbers.get(place) {
            Some(met) if *met == number => return Ok(false),
            _ => {}
        }
        self.hints.note(number, self.numbers.len());
        self.numbers.push(number)?;
        Ok(true)
    }

    // A formula is met.
    fn meet_formula(&mut self, arena: &Arena, formula: u32) -> Result<(), AllocError>
        requires formula { IsFormulaAt arena.now formula }
        requires met { HasMet arena.now self.old }
        ensures { HasMet arena.now self.new }
    {
        let _arena = arena;
        let place = self.hints.get(formula);
        if self.is_new(place, formula)? {
            self.formulas.push(formula)?;
        }
        Ok(())
    }

    // The formulas of a list are met but for those of the last one, by one walk over both.
    fn meet_others(
        &mut self,
        arena: &Arena,
        last: &[u32],
        formulas: &[u32],
    ) -> Result<(), AllocError>
        requires formulas { All (IsFormulaAt arena.now) formulas.now }
        requires met { HasMet arena.now self.old }
        ensures { HasMet arena.now self.new }
    {
        let mut i = same_run(last, formulas);
        let mut j = i;
        while j < formulas.len() {
            if i < last.len() && last[i] < formulas[j] {
                i += 1;
            } else if i < last.len() && last[i] == formulas[j] {
                let run = 1 + same_run(&last[i + 1..], &formulas[j + 1..]);
                i += run;
                j += run;
            } else {
                self.meet_formula(arena, formulas[j])?;
                j += 1;
            }
        }
        Ok(())
    }

    // The formulas of a side are met, but for a side that went out.
    fn meet_side(
        &mut self,
        arena: &'a Arena,
        numbers: &ProofNumbers,
        at: Side,
        side: u32,
    ) -> Result<(), AllocError>
        requires side { IsSideAt arena.now side }
        requires met { HasMet arena.now self.old }
        ensures { HasMet arena.now self.new }
    {
        let place = self.hints.get(side);
        if numbers.has_side(place, side) || !self.is_new(place, side)? {
            return Ok(());
        }
        let formulas = arena.side_numbers(side);
        let last = match at {
            Side::Left => mem::replace(&mut self.left, formulas),
            Side::Right => mem::replace(&mut self.right, formulas),
        };
        self.meet_others(arena, last, formulas)
    }

    // The formulas of a sequent are met, but for those of sides that went out.
    #[tactic(auto, using(arena_cells::proofs::Facts::sequents))]
    fn meet_sequent(
        &mut self,
        arena: &'a Arena,
        numbers: &ProofNumbers,
        sequent: u32,
    ) -> Result<(), AllocError>
        requires sequent { IsSequentAt arena.now sequent }
        requires met { HasMet arena.now self.old }
        ensures { HasMet arena.now self.new }
    {
        let (left, right) = arena.sides(sequent);
        self.meet_side(arena, numbers, Side::Left, left)?;
        self.meet_side(arena, numbers, Side::Right, right)
    }

    // The height of a tree, which may stand at the place, where it was met.
    fn height(&self, place: usize, proof: u32) -> Option<u32> {
        match self.trees.get(place) {
            Some(tree) if tree.number == proof => Some(tree.height),
            _ => None,
        }
    }

    // A tree leaves.
    fn leave(&mut self, arena: &Arena, number: u32, height: u32) -> Result<(), AllocError>
        requires leaving { IsLeaving arena.now number }
        requires met { HasMet arena.now self.old }
        ensures { HasMet arena.now self.new }
    {
        let _arena = arena;
        self.hints.note(number, self.trees.len());
        self.trees.push(Leaving { number, height })?;
        Ok(())
    }

    // A tree that hasn't gone out leaves, after those of its premises, and the formulas of its sequent are met. Else the height is 0.
    #[cycle(meet)]
    #[tactic(auto, using(arena_cells::proofs::Facts::trees, proof_trees::proofs::FormedConclusions::formed_premises))]
    fn meet_tree(
        &mut self,
        arena: &'a Arena,
        numbers: &ProofNumbers,
        proof: u32,
    ) -> Result<u32, AllocError>
        requires leaving { IsLeaving arena.now proof }
        requires met { HasMet arena.now self.old }
        ensures { HasMet arena.now self.new }
    {
        let place = self.hints.get(proof);
        if numbers.has_proof(place, proof) {
            return Ok(0);
        }
        if let Some(height) = self.height(place, proof) {
            return Ok(height);
        }
        self.meet_sequent(arena, numbers, end(arena, proof))?;
        let below = self.meet_below(arena, numbers, proof, premises(arena, proof))?;
        let height = below.saturating_add(1);
        self.leave(arena, proof, height)?;
        Ok(height)
    }

    // The same of the premises' trees, whose numbers are below the number `above`. The height is the greatest of theirs.
    #[cycle(meet)]
    fn meet_below(
        &mut self,
        arena: &'a Arena,
        numbers: &ProofNumbers,
        above: u32,
        premises: Parts,
    ) -> Result<u32, AllocError>
        requires there { HasPremises arena.now premises }
        requires smaller { ArePartsBelow above premises }
        requires valid { AllValid (trees_at arena.now premises) }
        requires formed { HaveFormedEnds (trees_at arena.now premises) }
        requires met { HasMet arena.now self.old }
        ensures { HasMet arena.now self.new }
    {
        let _above = above;
        match premises {
            Parts::Zero => Ok(0),
            Parts::One(only) => self.meet_tree(arena, numbers, only),
            Parts::Two(first, second) => {
                let first = self.meet_tree(arena, numbers, first)?;
                let second = self.meet_tree(arena, numbers, second)?;
                Ok(first.max(second))
            }
        }
    }
}

/// What is met in a walk over a tree: trees that haven't gone out, and formulas in sides that haven't. Each distinct node is met once.
pub(crate) fn meet<'a>(
    alloc: Global,
    arena: &'a Arena,
    numbers: &ProofNumbers,
    hints: Hints,
    proof: u32,
) -> Result<Met<'a>, AllocError>
    requires { IsLeaving arena.now proof }
    ensures { IfOk result (HasMet arena.now) }
{
    let mut hints = hints;
    hints.reserve(arena.len())?;
    let mut met = Met {
        hints,
        formulas: Vec::new(alloc),
        trees: Vec::new(alloc),
        numbers: Vec::new(alloc),
        left: &[],
        right: &[],
    };
    met.meet_tree(arena, numbers, proof)?;
    Ok(met)
}
