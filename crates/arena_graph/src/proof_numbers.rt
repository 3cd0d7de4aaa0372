//! Which proofs of a graph stand at which numbers of an arena.
ghost use Rattle.std.specs.Prelude.{◌≡◌, true, List, IfOk, IfSome};
ghost use Rattle.std.specs.List.{All, list_all};
ghost use Rattle.fol.specs.Formed.{is_formed};
ghost use Rattle.finite.specs.Finite as set;
ghost use Rattle.proof_graph.specs.declared.graph.Graph.{Graph as ProofGraph};
ghost use Rattle.proof_graph.specs.Graphs.{IsOf};
ghost use Rattle.arena_cells.specs.Items.{Item};
ghost use Rattle.arena_cells.specs.Standing.{HasSide, HasTree, side_at, IsFormulaAt, IsSideAt};
ghost use Rattle.proof_trees.specs.Conclusions.{HasFormedEnd};
ghost use Rattle.arena_graph.specs.ProofNumbers.{IsProofAt, AreNumbersOf};

use crate::hints::Hints;
use crate::last_side::LastSide;
use crate::ranks::{Ranks, ranked};
use arena::Arena;
use lk_rules::{Formulas, Side};
use number_hash::ByNumber;
use proof_graph::{Graph, ProofRef};
use std::alloc::{AllocError, Global};
use std::collections::HashMap;

/// A proof of a graph, with the number at which its tree stands in an arena.
#[derive(Drop)]
pub(crate) struct Numbered {
    pub proof: ProofRef,
    pub number: u32,
}

/// A side of sequents that went out, with the number at which it stands in an arena.
#[derive(Drop)]
pub(crate) struct NumberedSide {
    pub formulas: Formulas,
    pub number: u32,
}

/// Which proofs of a graph stand at which numbers of an arena: those that came in and those that went out. The sides of sequents that went
/// out are kept as well, and the order of the formulas that went out last, with the last side on the left and the last one on the right.
pub struct ProofNumbers {
    proofs: Vec<Numbered>,
    // The places of the proofs by their numbers in the graph. Whoever takes one looks whether the proof stands there.
    places: HashMap<u64, usize, ByNumber>,
    // The sides that went out, so that equal ones share a list.
    sides: Vec<NumberedSide>,
    // What stands at a number of the arena is of one sort, so the hints of the order serve for the proofs and the sides too.
    ranks: Ranks,
    left: LastSide,
    right: LastSide,
}

impl Drop for ProofNumbers {
    fn drop(self) {
        let ProofNumbers {
            proofs,
            places,
            sides,
            ranks,
            left,
            right,
        } = self;
        drop(proofs);
        drop(places);
        drop(sides);
        drop(ranks);
        drop(left);
        drop(right);
    }
}

impl ProofNumbers {
    /// Tables with no proof.
    pub fn new(alloc: Global) -> ProofNumbers
        ensures { (g : ProofGraph) (a : List Item) → AreNumbersOf g a result }
    {
        ProofNumbers {
            proofs: Vec::new(alloc),
            places: HashMap::with_hasher(alloc, ByNumber),
            sides: Vec::new(alloc),
            ranks: Ranks::new(alloc),
            left: LastSide::new(alloc),
            right: LastSide::new(alloc),
        }
    }

    // Whether the proof at the place is the one whose tree stands at the number.
    pub(crate) fn has_proof(&self, place: usize, number: u32) -> bool {
        matches!(self.proofs.get(place), Some(entry) if entry.number == number)
    }

    // Whether the side at the place, which went out, is the one at the number.
    pub(crate) fn has_side(&self, place: usize, number: u32) -> bool {
        matches!(self.sides.get(place), Some(entry) if entry.number == number)
    }

    // The hints, whose room the next order of formulas uses again.
    pub(crate) fn take_hints(&mut self, alloc: Global, graph: &Graph, arena: &Arena) -> Hints
        requires { AreNumbersOf graph.now arena.now self.old }
        ensures { AreNumbersOf graph.now arena.now self.new }
    {
        let (_graph, _arena) = (graph, arena);
        self.ranks.take_hints(alloc)
    }

    // Finds the order of the formulas at the numbers, so that their sides go out without a comparison.
    pub(crate) fn rank(
        &mut self,
        alloc: Global,
        graph: &Graph,
        arena: &Arena,
        hints: Hints,
        formulas: &[u32],
    ) -> Result<(), AllocError>
        requires numbers { AreNumbersOf graph.now arena.now self.old }
        requires formulas { All (IsFormulaAt arena.now) formulas.now }
        ensures { AreNumbersOf graph.now arena.now self.new }
    {
        let _graph = graph;
        self.left.forget();
        self.right.forget();
        self.ranks = ranked(alloc, arena, hints, formulas)?;
        Ok(())
    }

    // The number of a proof's tree, where it is known.
    pub(crate) fn number(&self, graph: &Graph, arena: &Arena, proof: &ProofRef) -> Option<u32>
        requires numbers { AreNumbersOf graph.now arena.now self.now }
        requires of { IsOf graph.now proof.now }
        ensures tree { IfSome result (λ n. HasTree arena.now n proof.now.tree) }
        ensures formed { IfSome result (λ _. HasFormedEnd proof.now.tree) }
    {
        let _arena = arena;
        let place = self.places.get(&proof.number())?;
        match self.proofs.get(*place) {
            Some(entry) if graph.same(&entry.proof, proof) => Some(entry.number),
            _ => None,
        }
    }

    // The proof whose tree stands at the number, where it is known.
    pub(crate) fn proof(&self, graph: &Graph, arena: &Arena, number: u32) -> Option<&ProofRef>
        requires numbers { AreNumbersOf graph.now arena.now self.now }
        ensures { IfSome result (λ r. IsProofAt graph.now arena.now number r.now) }
    {
        let _graph = graph;
        let _arena = arena;
        match self.proofs.get(self.ranks.hint(number)) {
            Some(entry) if entry.number == number => Some(&entry.proof),
            _ => None,
        }
    }

    // The side at the number, where it went out.
    fn known_side(&self, graph: &Graph, arena: &Arena, number: u32) -> Option<&Formulas>
        requires numbers { AreNumbersOf graph.now arena.now self.now }
        ensures { IfSome result (λ s. HasSide arena.now number s.now) }
    {
        let (_graph, _arena) = (graph, arena);
        match self.sides.get(self.ranks.hint(number)) {
            Some(entry) if entry.number == number => Some(&entry.formulas),
            _ => None,
        }
    }

    // A side that isn't known.
    fn export_side(
        &mut self,
        alloc: Global,
        graph: &Graph,
        arena: &Arena,
        at: Side,
        side: u32,
    ) -> Result<Formulas, AllocError>
        requires numbers { AreNumbersOf graph.now arena.now self.old }
        requires there { IsSideAt arena.now side }
        requires formed { list_all is_formed (set.listing (side_at arena.now side)) ≡ true }
        ensures side { IfOk result (λ s. s ≡ side_at arena.now side) }
        ensures numbers_stay { AreNumbersOf graph.now arena.now self.new }
    {
        let _graph = graph;
        match at {
            Side::Left => self.left.export(alloc, arena, &self.ranks, side),
            Side::Right => self.right.export(alloc, arena, &self.ranks, side),
        }
    }

    // Enters a side with its number.
    fn note_side(
        &mut self,
        graph: &Graph,
        arena: &Arena,
        formulas: &Formulas,
        number: u32,
    ) -> Result<(), AllocError>
        requires numbers { AreNumbersOf graph.now arena.now self.old }
        requires stands { HasSide arena.now number formulas.now }
        ensures { AreNumbersOf graph.now arena.now self.new }
    {
        let (_graph, _arena) = (graph, arena);
        let entry = NumberedSide {
            formulas: formulas.copy()?,
            number,
        };
        self.ranks.note(number, self.sides.len());
        self.sides.push(entry)?;
        Ok(())
    }

    // A set of well-formed formulas. Equal ones share a list.
    pub(crate) fn side(
        &mut self,
        alloc: Global,
        graph: &Graph,
        arena: &Arena,
        at: Side,
        side: u32,
    ) -> Result<Formulas, AllocError>
        requires numbers { AreNumbersOf graph.now arena.now self.old }
        requires there { IsSideAt arena.now side }
        requires formed { list_all is_formed (set.listing (side_at arena.now side)) ≡ true }
        ensures side { IfOk result (λ s. s ≡ side_at arena.now side) }
        ensures numbers_stay { AreNumbersOf graph.now arena.now self.new }
    {
        if let Some(known) = self.known_side(graph, arena, side) {
            return known.copy();
        }
        let made = self.export_side(alloc, graph, arena, at, side)?;
        self.note_side(graph, arena, &made, side)?;
        Ok(made)
    }

    // Enters a proof with its number.
    pub(crate) fn note(
        &mut self,
        graph: &Graph,
        arena: &Arena,
        proof: &ProofRef,
        number: u32,
    ) -> Result<(), AllocError>
        requires numbers { AreNumbersOf graph.now arena.now self.old }
        requires stands { IsProofAt graph.now arena.now number proof.now }
        ensures { AreNumbersOf graph.now arena.now self.new }
    {
        let _graph = graph;
        let place = self.proofs.len();
        let entry = Numbered {
            proof: proof.keep()?,
            number,
        };
        self.ranks.reserve(arena.len())?;
        self.ranks.note(number, place);
        self.proofs.push(entry)?;
        self.places.insert(proof.number(), place)?;
        Ok(())
    }
}
