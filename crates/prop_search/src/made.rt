//! What was made of sequents by number: their proofs, and their sides as sets of formulas.
ghost use Rattle.std.specs.Prelude.{◌≡◌, ◌*◌, ◌≤◌, List, length, IfOk, IfSome};
ghost use Rattle.fol.specs.Syntax.{Formula as Meaning};
ghost use Rattle.proof_graph.specs.declared.graph.Graph.{Graph as ProofGraph};
ghost use Rattle.prop_search.specs.Bits.{has_number};
ghost use Rattle.prop_search.specs.Formulas.{sequent_of, side_of, IsFit};
ghost use Rattle.prop_search.specs.Made.{AreMade, IsProofOf};

use crate::bits;
use crate::numbered::Numbered;
use crate::numbering::Numbering;
use crate::sides::side;
use lk_rules::{Formulas, Sequent};
use number_hash::ByNumber;
use proof_graph::{Graph, ProofRef};
use std::alloc::{AllocError, Global};
use std::collections::HashMap;

/// A sequent with its proof.
pub(crate) struct MadeProof {
    sequent: Numbered,
    proof: ProofRef,
}

impl Drop for MadeProof {
    fn drop(self) {
        let MadeProof { sequent, proof } = self;
        drop(sequent);
        drop(proof);
    }
}

/// The numbers of a side with its formulas.
#[derive(Drop)]
pub(crate) struct MadeSide {
    words: Vec<u64>,
    formulas: Formulas,
}

/// The proofs and the sides that were made, by their fingerprints. Of two with one fingerprint the later is kept.
pub(crate) struct Made {
    proofs: HashMap<u64, MadeProof, ByNumber>,
    sides: HashMap<u64, MadeSide, ByNumber>,
}

impl Drop for Made {
    fn drop(self) {
        let Made { proofs, sides } = self;
        drop(proofs);
        drop(sides);
    }
}

impl Made {
    /// Tables with nothing.
    pub fn new(alloc: Global) -> Made
        ensures { (g : ProofGraph) (fs : List Meaning) → AreMade g fs result }
    {
        Made {
            proofs: HashMap::with_hasher(alloc, ByNumber),
            sides: HashMap::with_hasher(alloc, ByNumber),
        }
    }

    /// The proof of a sequent, where it was made.
    pub fn proof(
        &self,
        graph: &Graph,
        numbering: &Numbering,
        sequent: &Numbered,
    ) -> Option<&ProofRef>
        requires { AreMade graph.now numbering.now self.now }
        ensures { IfSome result (λ r. IsProofOf graph.now numbering.now sequent.now r.now) }
    {
        let _graph = graph;
        let _numbering = numbering;
        let made = self.proofs.get(&bits::fingerprint(sequent.words()))?;
        if made.sequent.is_same(sequent) {
            Some(&made.proof)
        } else {
            None
        }
    }

    /// Keeps the proof of a sequent.
    pub fn note(
        &mut self,
        graph: &Graph,
        numbering: &Numbering,
        sequent: Numbered,
        proof: &ProofRef,
    ) -> Result<(), AllocError>
        requires made { AreMade graph.now numbering.now self.old }
        requires proof { IsProofOf graph.now numbering.now sequent proof.now }
        ensures { AreMade graph.now numbering.now self.new }
    {
        let _graph = graph;
        let _numbering = numbering;
        let fingerprint = bits::fingerprint(sequent.words());
        let proof = proof.keep()?;
        self.proofs
            .insert(fingerprint, MadeProof { sequent, proof })?;
        Ok(())
    }

    // The set of the formulas whose numbers are in a set, by the table where it is there.
    fn side(
        &mut self,
        alloc: Global,
        graph: &Graph,
        numbering: &Numbering,
        words: &[u64],
    ) -> Result<Formulas, AllocError>
        requires made { AreMade graph.now numbering.now self.old }
        requires room { length numbering.now ≤ 64 * length words.now }
        ensures side { IfOk result (λ side. side ≡ side_of numbering.now (has_number words.now)) }
        ensures made { AreMade graph.now numbering.now self.new }
    {
        let _graph = graph;
        let fingerprint = bits::fingerprint(words);
        match self.sides.get(&fingerprint) {
            Some(made) if made.words.as_slice() == words => return made.formulas.copy(),
            _ => {}
        }
        let formulas = side(alloc, numbering, words)?;
        let copy = formulas.copy()?;
        let words = Vec::from_slice(alloc, words)?;
        self.sides.insert(
            fingerprint,
            MadeSide {
                words,
                formulas: copy,
            },
        )?;
        Ok(formulas)
    }

    /// The sequent of a set of numbers.
    pub fn sequent(
        &mut self,
        alloc: Global,
        graph: &Graph,
        numbering: &Numbering,
        sequent: &Numbered,
    ) -> Result<Sequent, AllocError>
        requires made { AreMade graph.now numbering.now self.old }
        requires fit { IsFit numbering.now sequent.now }
        ensures sequent { IfOk result (λ s. s ≡ sequent_of numbering.now sequent.now) }
        ensures made { AreMade graph.now numbering.now self.new }
    {
        numbering.known();
        let width = numbering.width();
        let (left, right) = sequent.words().split_at(width);
        let left = self.side(alloc, graph, numbering, left)?;
        let right = self.side(alloc, graph, numbering, right)?;
        Ok(Sequent { left, right })
    }
}
