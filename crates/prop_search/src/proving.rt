//! Search for the proof of a sequent.
ghost use Rattle.std.specs.Prelude.{◌≡◌, ◌≢◌, ◌<◌, true, length, Some, Err, IfOk, IfErr};
ghost use Rattle.std.specs.List.{All, list_all};
ghost use Rattle.fol.specs.Formed.{IsFormed};
ghost use Rattle.finite.specs.Finite as set;
ghost use Rattle.lk_rules.specs.Rules.{needs};
ghost use Rattle.proof_trees.specs.Trees.{concl, IsValid, IsCutFree};
ghost use Rattle.proof_graph.specs.References.{trees_of};
ghost use Rattle.proof_graph.specs.Graphs.{IsOf, IsPassOf, history, Extends};
ghost use Rattle.proof_trees.specs.FormulaSets.{is_atom};
ghost use Rattle.search_laws.specs.Truth.{Assignment, IsPropositional, falsifies};
ghost use Rattle.search_laws.specs.Search.{premises_from, rule_at, proved, all_proved, walk_each, walk};
ghost use Rattle.search_laws.specs.Budgets.{found};
ghost use Rattle.prop_search.specs.Deciding.{Finds, IsProved, AreProved};
ghost use Rattle.prop_search.specs.Formulas.{sequent_of, IsFit};
ghost use Rattle.prop_search.specs.Made.{AreMade, IsProofOf};
ghost use Rattle.prop_search.specs.Premises.{AreWithin, premises_of};

use crate::choices::{Choice, choose};
use crate::connective::{Parts, Signed};
use crate::deciding::decide_numbered;
use crate::made::Made;
use crate::numbered::Numbered;
use crate::numbering::Numbering;
use crate::sides::numbered;
use lk_rules::{Rule, Sequent};
use proof_graph::{Graph, GraphPass, ProofRef};
use search_laws::{SearchFault, laws};
use std::alloc::{AllocError, Global};
use std::sync::Wait;

// The formulas of a sequent are well formed.
fn formed(sequent: &Sequent)
    ensures left { All IsFormed (set.listing sequent.now.left) }
    ensures right { All IsFormed (set.listing sequent.now.right) }
{
    let _left = sequent.left();
    let _right = sequent.right();
}

// The proof of a sequent by the rule that is taken there, from those of the premises.
fn conclude<R: Wait>(
    rt: &R,
    alloc: Global,
    graph: &Graph,
    pass: &mut GraphPass,
    rule: Rule,
    sequent: Sequent,
    premises: &[ProofRef],
) -> Result<ProofRef, AllocError>
    requires pass_of { IsPassOf graph.now pass.old }
    requires taken { rule_at sequent ≡ Some rule }
    requires premises_of { All (IsOf graph.now) premises.now }
    requires trees { walk_each walk (premises_from rule sequent 0 (needs rule)) ≡ all_proved (trees_of premises.now) }
    ensures tree { IfOk result (λ r. walk sequent ≡ proved r.tree) }
    ensures of { IfOk result (IsOf graph.now) }
    ensures extends { Extends graph.now pass.old pass.new }
{
    laws::steps();
    laws::proofs();
    formed(&sequent);
    graph.intern(rt, alloc, pass, rule, sequent, premises)
}

// The proof of a sequent at which the search finds one.
#[cycle(prove)]
fn prove_at<R: Wait>(
    rt: &R,
    alloc: Global,
    graph: &Graph,
    pass: &mut GraphPass,
    numbering: &Numbering,
    made: &mut Made,
    sequent: Numbered,
) -> Result<ProofRef, AllocError>
    requires pass_of { IsPassOf graph.now pass.old }
    requires fit { IsFit numbering.now sequent }
    requires made { AreMade graph.now numbering.now made.old }
    requires proved { IsProved (walk (sequent_of numbering.now sequent)) }
    ensures proof { IfOk result (IsProofOf graph.now numbering.now sequent) }
    ensures made { AreMade graph.now numbering.now made.new }
    ensures extends { Extends graph.now pass.old pass.new }
{
    if let Some(proof) = made.proof(graph, numbering, &sequent) {
        return proof.keep();
    }
    let proof = prove_new(rt, alloc, graph, pass, numbering, made, &sequent)?;
    made.note(graph, numbering, sequent, &proof)?;
    Ok(proof)
}

// The proof of a sequent that isn't in the table.
#[cycle(prove)]
fn prove_new<R: Wait>(
    rt: &R,
    alloc: Global,
    graph: &Graph,
    pass: &mut GraphPass,
    numbering: &Numbering,
    made: &mut Made,
    sequent: &Numbered,
) -> Result<ProofRef, AllocError>
    requires pass_of { IsPassOf graph.now pass.old }
    requires fit { IsFit numbering.now sequent.now }
    requires made { AreMade graph.now numbering.now made.old }
    requires proved { IsProved (walk (sequent_of numbering.now sequent.now)) }
    ensures proof { IfOk result (IsProofOf graph.now numbering.now sequent.now) }
    ensures made { AreMade graph.now numbering.now made.new }
    ensures extends { Extends graph.now pass.old pass.new }
{
    laws::steps();
    let end = made.sequent(alloc, graph, numbering, sequent)?;
    match choose(numbering, sequent) {
        Some(Choice::Close(closing)) => {
            let rule = closing.rule(numbering)?;
            conclude(rt, alloc, graph, pass, rule, end, &[])
        }
        Some(Choice::Main(main)) => {
            let (rule, parts) = numbering.rule(main)?;
            let premises = prove_premises(
                rt, alloc, graph, pass, numbering, made, sequent, main, parts,
            )?;
            conclude(rt, alloc, graph, pass, rule, end, &premises)
        }
        None => unreachable!(),
    }
}

// The proofs of the premises of a rule, with these parts in the place of the main formula.
#[cycle(prove)]
fn prove_premises<R: Wait>(
    rt: &R,
    alloc: Global,
    graph: &Graph,
    pass: &mut GraphPass,
    numbering: &Numbering,
    made: &mut Made,
    sequent: &Numbered,
    main: Signed,
    parts: Parts,
) -> Result<Vec<ProofRef>, AllocError>
    requires pass_of { IsPassOf graph.now pass.old }
    requires fit { IsFit numbering.now sequent.now }
    requires number { main.number < length numbering.now }
    requires within { AreWithin numbering.now parts }
    requires made { AreMade graph.now numbering.now made.old }
    requires proved { AreProved (walk_each walk (premises_of numbering.now (sequent_of numbering.now sequent.now) main parts)) }
    ensures trees { IfOk result (λ proofs. walk_each walk (premises_of numbering.now (sequent_of numbering.now sequent.now) main parts) ≡ all_proved (trees_of proofs.items)) }
    ensures of { IfOk result (λ proofs. All (IsOf graph.now) proofs.items) }
    ensures made { AreMade graph.now numbering.now made.new }
    ensures extends { Extends graph.now pass.old pass.new }
{
    let mut premise = sequent.copy(alloc)?;
    match parts {
        Parts::One(part) => {
            numbering.put(&mut premise, main, part);
            let proof = prove_at(rt, alloc, graph, pass, numbering, made, premise)?;
            Ok(vec![in alloc; proof]?)
        }
        Parts::Both(part, other) => {
            numbering.put(&mut premise, main, part);
            numbering.add(&mut premise, other);
            let proof = prove_at(rt, alloc, graph, pass, numbering, made, premise)?;
            Ok(vec![in alloc; proof]?)
        }
        Parts::Either(part, other) => {
            let mut second = sequent.copy(alloc)?;
            numbering.put(&mut premise, main, part);
            let first = prove_at(rt, alloc, graph, pass, numbering, made, premise)?;
            numbering.put(&mut second, main, other);
            let second = prove_at(rt, alloc, graph, pass, numbering, made, second)?;
            Ok(vec![in alloc; first, second]?)
        }
    }
}

/// Searches for a proof without cuts of a sequent without quantifiers, as `decide` does, and within its budget. The proof goes into the
/// graph once the sequent is decided, so of all refusals only `Memory` may leave new nodes there.
pub fn search<R: Wait>(
    rt: &R,
    alloc: Global,
    graph: &Graph,
    pass: &mut GraphPass,
    sequent: &Sequent,
    budget: u64,
) -> Result<ProofRef, SearchFault>
    requires pass_of { IsPassOf graph.now pass.old }
    requires propositional { IsPropositional sequent.now }
    // It is the proof that the whole walk finds, or the reason why there is none, unless memory runs out.
    ensures exact { Finds result (found budget (walk sequent.now)) }
    ensures valid { IfOk result (λ r. IsValid r.tree) }
    ensures cut_free { IfOk result (λ r. IsCutFree r.tree) }
    ensures end { IfOk result (λ r. concl r.tree ≡ sequent.now) }
    ensures falsified { (a : Assignment) → result ≡ Err (SearchFault.Falsified a) → falsifies a sequent.now ≡ true }
    ensures atoms { (a : Assignment) → result ≡ Err (SearchFault.Falsified a) → list_all is_atom (set.listing a) ≡ true }
    ensures unchanged { IfErr result (λ e. e ≢ SearchFault.Memory → history pass.new ≡ history pass.old) }
    ensures of { IfOk result (IsOf graph.now) }
    ensures extends { Extends graph.now pass.old pass.new }
{
    laws::proofs();
    let numbering = Numbering::new(alloc, sequent)?;
    let start = numbered(alloc, &numbering, sequent)?;
    let copy = start.copy(alloc)?;
    if let Err(fault) = decide_numbered(alloc, &numbering, sequent, copy, budget) {
        return Err(fault);
    }
    let mut made = Made::new(alloc);
    let proof = prove_at(rt, alloc, graph, pass, &numbering, &mut made, start)?;
    proof.known();
    Ok(proof)
}
