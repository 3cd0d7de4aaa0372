//! The proofs that were gone through.
ghost use Rattle.std.specs.Prelude.{List, IsTrue};
ghost use Rattle.proof_graph.specs.declared.graph.Graph.{Graph as ProofGraph};
ghost use Rattle.proof_graph.specs.Graphs.{IsOf};
ghost use Rattle.substitution.specs.Maps.{Map};
ghost use Rattle.exp_extract.specs.Marked.{Marked};
ghost use Rattle.exp_extract.specs.Visits.{IsVisit, AreVisits, IsDone};

use crate::maps::Maps;
use crate::marks::Marks;
use crate::sides::Sides;
use fol::mix;
use proof_graph::{Graph, ProofRef};
use std::alloc::{AllocError, Global};
use std::collections::HashMap;

/// A proof that was gone through, with the number of the map and those of the addresses of its conclusion's formulas.
pub(crate) struct Visit {
    pub proof: ProofRef,
    pub map: u32,
    pub sides: Sides,
}

impl Drop for Visit {
    fn drop(self) {
        let Visit {
            proof,
            map: _,
            sides,
        } = self;
        drop(proof);
        drop(sides);
    }
}

/// Proofs that were gone through. Of two with one fingerprint the later is kept.
#[derive(Drop)]
pub(crate) struct Visits {
    pub visits: HashMap<u64, Visit>,
}

// The fingerprint with the numbers of a list in it.
fn with_numbers(fingerprint: u64, numbers: &[u32]) -> u64 {
    let mut mixed = fingerprint;
    for number in numbers {
        mixed = mix(mixed, u64::from(*number));
    }
    mixed
}

/// A number in which unequal visits mostly differ.
pub(crate) fn fingerprint(proof: &ProofRef, map: u32, sides: &Sides) -> u64 {
    let start = mix(proof.number(), u64::from(map));
    with_numbers(with_numbers(start, &sides.left), &sides.right)
}

impl Visits {
    /// With no proof.
    pub fn new(alloc: Global) -> Visits
        ensures { (g : ProofGraph) (ms : List Map) (m : Marked) → AreVisits g ms m result }
    {
        Visits {
            visits: HashMap::new(alloc),
        }
    }

    /// Whether the proof was gone through with the same map and the same addresses, as far as the table tells at this fingerprint. Then it
    /// has no new mark.
    pub fn is_done(
        &self,
        graph: &Graph,
        marks: &Marks,
        maps: &Maps,
        fingerprint: u64,
        proof: &ProofRef,
        map: u32,
        sides: &Sides,
    ) -> bool
        requires visits { AreVisits graph.now maps.now marks.now self.now }
        requires of { IsOf graph.now proof.now }
        ensures { IsTrue result → IsDone maps.now marks.now proof.now.tree map sides.now }
    {
        let (_marks, _maps) = (marks, maps);
        match self.visits.get(&fingerprint) {
            Some(visit)
                if graph.same(&visit.proof, proof)
                    && visit.map == map
                    && visit.sides.left.as_slice() == sides.left.as_slice()
                    && visit.sides.right.as_slice() == sides.right.as_slice() => { true }
            _ => false,
        }
    }

    /// Enters a proof that was gone through, by its fingerprint.
    pub fn note(
        &mut self,
        graph: &Graph,
        marks: &Marks,
        maps: &Maps,
        fingerprint: u64,
        visit: Visit,
    ) -> Result<(), AllocError>
        requires visits { AreVisits graph.now maps.now marks.now self.old }
        requires visit { IsVisit graph.now maps.now marks.now visit }
        ensures { AreVisits graph.now maps.now marks.now self.new }
    {
        let (_graph, _marks, _maps) = (graph, marks, maps);
        self.visits.insert(fingerprint, visit)?;
        Ok(())
    }
}
