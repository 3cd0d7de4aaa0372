//! The marks of a whole proof.
ghost use Rattle.std.specs.Prelude.{◌≡◌, false, map, IfOk};
ghost use Rattle.std.specs.List.{All};
ghost use Rattle.finite.specs.Finite as set;
ghost use Rattle.lk_rules.specs.declared.sequent.Side.TheVariants.{Left, Right};
ghost use Rattle.proof_trees.specs.Trees.{concl, IsCutFree};
ghost use Rattle.proof_trees.specs.Occurrence.{has_body_in_sequent};
ghost use Rattle.proof_graph.specs.Graphs.{IsOf};
ghost use Rattle.extraction_laws.specs.Addresses.{root};
ghost use Rattle.extraction_laws.specs.Extraction.{vars_in, marks_of};
ghost use Rattle.exp_extract.specs.Marked.{address_at, IsPlace};

use crate::fingerprints::has_distinct_sides;
use crate::maps::Maps;
use crate::marks::Marks;
use crate::roots::enter_roots;
use crate::sides::Sides;
use crate::visits::Visits;
use crate::walking::{Walk, visit_new};
use free_variables::Vars;
use lk_rules::Side;
use proof_graph::{Graph, ProofRef};
use proof_trees::laws;
use std::alloc::{AllocError, Global};

/// What a proof uses, with the numbers of the addresses of its conclusion's formulas, in the order of each side.
pub(crate) struct MarkedProof {
    pub marks: Marks,
    pub left: Vec<u32>,
    pub right: Vec<u32>,
}

impl Drop for MarkedProof {
    fn drop(self) {
        let MarkedProof { marks, left, right } = self;
        drop(marks);
        drop(left);
        drop(right);
    }
}

/// Marks what a proof without cuts and unfoldings uses. The variables of `outside` are those of the proof. A proof that is met again with
/// the same map and the same addresses costs one look-up.
pub(crate) fn mark_proof(
    alloc: Global,
    graph: &Graph,
    proof: &ProofRef,
    outside: Vars,
) -> Result<MarkedProof, AllocError>
    requires of { IsOf graph.now proof.now }
    requires cut_free { IsCutFree proof.now.tree }
    requires bodies { has_body_in_sequent (concl proof.now.tree) ≡ false }
    requires outside { set.listing outside ≡ vars_in proof.now.tree }
    ensures state { IfOk result (λ m. m.marks.state ≡ marks_of proof.now.tree) }
    ensures outside { IfOk result (λ m. m.marks.outside ≡ vars_in proof.now.tree) }
    ensures left { IfOk result (λ m. map (address_at m.marks) m.left.items ≡ map (root Left) (set.listing (concl proof.now.tree).left)) }
    ensures right { IfOk result (λ m. map (address_at m.marks) m.right.items ≡ map (root Right) (set.listing (concl proof.now.tree).right)) }
    ensures left_places { IfOk result (λ m. All (IsPlace m.marks) m.left.items) }
    ensures right_places { IfOk result (λ m. All (IsPlace m.marks) m.right.items) }
{
    proof.known();
    laws::conclusions_in_trees();
    let end = &graph.get(proof).end;
    let mut marks = Marks::new(alloc, outside)?;
    let left = enter_roots(&mut marks, alloc, Side::Left, end.left())?;
    let right = enter_roots(&mut marks, alloc, Side::Right, end.right())?;
    let sides = Sides {
        left,
        right,
        distinct: has_distinct_sides(alloc, end),
    };
    let mut walk = Walk {
        marks,
        maps: Maps::new(alloc)?,
        visits: Visits::new(alloc),
    };
    visit_new(&mut walk, graph, alloc, proof, 0, &sides)?;
    let Walk {
        marks,
        maps: _,
        visits: _,
    } = walk;
    let Sides {
        left,
        right,
        distinct: _,
    } = sides;
    Ok(MarkedProof { marks, left, right })
}
