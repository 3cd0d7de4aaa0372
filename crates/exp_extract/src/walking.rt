//! The walk over a proof that marks what it uses.
ghost use Rattle.std.specs.Prelude.{◌≡◌, ◌<◌, false, length, map, OnOk, IfOk};
ghost use Rattle.fol.specs.declared.symbols.Var.{Var as Variable};
ghost use Rattle.proof_trees.specs.Trees.{concl, IsCutFree};
ghost use Rattle.proof_trees.specs.Occurrence.{has_body_in_sequent};
ghost use Rattle.proof_graph.specs.Graphs.{IsOf};
ghost use Rattle.extraction_laws.specs.Extraction.{Context, inner_map, inner_context};
ghost use Rattle.exp_extract.specs.MapList.{map_in};
ghost use Rattle.exp_extract.specs.Sides.{context_in};
ghost use Rattle.exp_extract.specs.Visits.{AreVisits};
ghost use Rattle.exp_extract.specs.Walking.{IsReady, IsRight, IsPremise, IsInner, HasInner, IsAfter};

use crate::inferences::{Inner, mark_inference};
use crate::maps::Maps;
use crate::marks::Marks;
use crate::sides::Sides;
use crate::visits::{Visit, Visits, fingerprint};
use lk_rules::{Rule, Sequent, aux};
use proof_graph::{Graph, ProofRef};
use std::alloc::{AllocError, Global};

/// A walk over a proof: the marks, the maps and the proofs that were gone through.
#[derive(Drop)]
pub(crate) struct Walk {
    pub marks: Marks,
    pub maps: Maps,
    pub visits: Visits,
}

// A premise of an inference.
#[cycle(walk)]
fn visit_premise(
    walk: &mut Walk,
    graph: &Graph,
    alloc: Global,
    rule: &Rule,
    end: &Sequent,
    sides: &Sides,
    map: u32,
    inner: &Inner,
    place: u64,
    premise: &ProofRef,
) -> Result<(), AllocError>
    requires visits { AreVisits graph.now walk.old.maps walk.old.marks walk.old.visits }
    requires of { IsOf graph.now premise.now }
    requires right { IsRight rule.now end.now }
    requires premise { IsPremise rule.now end.now place premise.now.tree }
    requires inner { HasInner walk.old.maps walk.old.marks rule.now end.now sides.now map inner.now }
    ensures visits { OnOk result (AreVisits graph.now walk.new.maps walk.new.marks walk.new.visits) }
    ensures after { (c : Context) (v : Variable) → IsInner walk.old.maps walk.old.marks rule.now end.now sides.now map inner.now c v → OnOk result (IsAfter walk.old.maps walk.new.maps walk.old.marks walk.new.marks premise.now.tree (inner_map rule.now (map_in walk.old.maps map) v) (inner_context rule.now end.now (map_in walk.old.maps map) c v place)) }
{
    let _map = map;
    let root = graph.get(premise);
    let added = aux(alloc, rule, place)?;
    let inner_sides = sides.inner(alloc, end, &inner.auxiliary, place, &added, &root.end)?;
    visit(walk, graph, alloc, premise, inner.map, inner_sides)
}

/// Goes through a proof from its conclusion, the left premise first.
#[cycle(walk)]
pub(crate) fn visit_new(
    walk: &mut Walk,
    graph: &Graph,
    alloc: Global,
    proof: &ProofRef,
    map: u32,
    sides: &Sides,
) -> Result<(), AllocError>
    requires visits { AreVisits graph.now walk.old.maps walk.old.marks walk.old.visits }
    requires of { IsOf graph.now proof.now }
    requires ready { IsReady walk.old.maps walk.old.marks proof.now.tree map sides.now }
    ensures visits { OnOk result (AreVisits graph.now walk.new.maps walk.new.marks walk.new.visits) }
    ensures after { OnOk result (IsAfter walk.old.maps walk.new.maps walk.old.marks walk.new.marks proof.now.tree (map_in walk.old.maps map) (context_in walk.old.marks.addresses (concl proof.now.tree) sides.now)) }
{
    proof.known();
    let root = graph.get(proof);
    let (rule, end) = (&root.rule, &root.end);
    let _map = walk.maps.get(map);
    let inner = mark_inference(
        &mut walk.marks,
        &mut walk.maps,
        alloc,
        rule,
        end,
        sides,
        map,
    )?;
    match proof.premises() {
        [] => Ok(()),
        [only] => visit_premise(walk, graph, alloc, rule, end, sides, map, &inner, 0, only),
        [first, second] => {
            visit_premise(walk, graph, alloc, rule, end, sides, map, &inner, 0, first)?;
            visit_premise(walk, graph, alloc, rule, end, sides, map, &inner, 1, second)
        }
        _ => Err(AllocError),
    }
}

// Goes through a proof, unless that is done.
#[cycle(walk)]
fn visit(
    walk: &mut Walk,
    graph: &Graph,
    alloc: Global,
    proof: &ProofRef,
    map: u32,
    sides: Sides,
) -> Result<(), AllocError>
    requires visits { AreVisits graph.now walk.old.maps walk.old.marks walk.old.visits }
    requires of { IsOf graph.now proof.now }
    requires ready { IsReady walk.old.maps walk.old.marks proof.now.tree map sides }
    ensures visits { OnOk result (AreVisits graph.now walk.new.maps walk.new.marks walk.new.visits) }
    ensures after { OnOk result (IsAfter walk.old.maps walk.new.maps walk.old.marks walk.new.marks proof.now.tree (map_in walk.old.maps map) (context_in walk.old.marks.addresses (concl proof.now.tree) sides)) }
{
    let key = fingerprint(proof, map, &sides);
    let done = walk
        .visits
        .is_done(graph, &walk.marks, &walk.maps, key, proof, map, &sides);
    if done {
        return Ok(());
    }
    visit_new(walk, graph, alloc, proof, map, &sides)?;
    let proof = proof.keep()?;
    let visit = Visit { proof, map, sides };
    walk.visits.note(graph, &walk.marks, &walk.maps, key, visit)
}
