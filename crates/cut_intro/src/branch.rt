//! The premises of a cut: inferences of one premise each, from the root up to a sequent that is searched.
ghost use Rattle.std.specs.Prelude.{◌≡◌, ◌<◌, true, not as negated, IfOk};
ghost use Rattle.std.specs.List.{filter};
ghost use Rattle.finite.specs.Finite as set;
ghost use Rattle.lk_rules.specs.Rules.{IsFormedRule, has_shape, needs, aux as auxiliary_formulas};
ghost use Rattle.lk_rules.specs.Sequents.{extended};
ghost use Rattle.proof_graph.specs.Graphs.{IsOf, IsPassOf, Makes, Extends};
ghost use Rattle.search_laws.specs.Truth.{has_quantifier as is_quantified};
ghost use Rattle.herbrand_laws.specs.Introduction.{end_after, plain_formulas, plain_part as plain_part_of};
ghost use Rattle.cut_intro.specs.Branches.{inferences, over_each, AreInferences, AreUsable};

use fol::Formula;
use lk_rules::{Formulas, Rule, Sequent, aux};
use proof_graph::{Graph, GraphPass, ProofRef};
use prop_search::has_quantifier;
use std::alloc::{AllocError, Global};
use std::sync::Wait;

/// An inference of one premise: its rule and its end sequent.
#[derive(Drop)]
pub(crate) struct Inference {
    pub rule: Rule,
    pub end: Sequent,
}

/// Inferences of one premise each, from the root up, and the sequent that is searched above them.
#[derive(Drop)]
pub(crate) struct Branch {
    pub inferences: Vec<Inference>,
    pub searched: Sequent,
}

// The end sequent of the premise: the conclusion with the auxiliary formulas of the rule.
#[tactic(auto, using(crate::proofs::Ends::union_extended))]
fn premise_end(alloc: Global, end: &Sequent, rule: &Rule) -> Result<Sequent, AllocError>
    requires formed { IsFormedRule rule.now }
    requires shape { has_shape rule.now ≡ true }
    requires premise { 0 < needs rule.now }
    ensures { IfOk result (λ premise. premise ≡ extended end.now (auxiliary_formulas rule.now 0)) }
{
    let added = aux(alloc, rule, 0)?;
    end.union(alloc, &added)
}

// The formulas without quantifiers.
fn plain(alloc: Global, formulas: &[Formula]) -> Result<Vec<Formula>, AllocError>
    ensures { IfOk result (λ fs. fs.items ≡ filter (λ f. negated (is_quantified f)) formulas.now) }
{
    let mut list = Vec::new(alloc);
    for formula in formulas {
        if !has_quantifier(formula) {
            list.push(formula.copy()?)?;
        }
    }
    Ok(list)
}

// The set of the formulas without quantifiers.
fn plain_set(alloc: Global, formulas: &Formulas) -> Result<Formulas, AllocError>
    ensures { IfOk result (λ fs. fs ≡ plain_formulas formulas.now) }
{
    let list = plain(alloc, formulas.as_slice())?;
    Formulas::from_vec(alloc, list)
}

// The sequent of the formulas without quantifiers.
fn plain_part(alloc: Global, sequent: &Sequent) -> Result<Sequent, AllocError>
    ensures { IfOk result (λ s. s ≡ plain_part_of sequent.now) }
{
    let left = plain_set(alloc, &sequent.left)?;
    let right = plain_set(alloc, &sequent.right)?;
    Ok(Sequent { left, right })
}

impl Branch {
    /// The inferences by these rules, from the end sequent up.
    pub fn new(alloc: Global, rules: &[Rule], end: Sequent) -> Result<Branch, AllocError>
        requires { AreUsable rules.now end }
        ensures inferences { IfOk result (λ branch. branch.inferences.items ≡ inferences rules.now end) }
        ensures searched { IfOk result (λ branch. branch.searched ≡ plain_part_of (end_after rules.now end)) }
    {
        let mut list = Vec::with_capacity(alloc, rules.len())?;
        let mut top = end;
        for rule in rules {
            let next = premise_end(alloc, &top, rule)?;
            let rule = rule.copy()?;
            list.push(Inference { rule, end: top })?;
            top = next;
        }
        let searched = plain_part(alloc, &top)?;
        Ok(Branch {
            inferences: list,
            searched,
        })
    }
}

/// The proof by the inferences over a proof of what is above them. They are made from the top down to the root.
pub(crate) fn over<R: Wait>(
    rt: &R,
    alloc: Global,
    graph: &Graph,
    pass: &mut GraphPass,
    list: Vec<Inference>,
    proof: ProofRef,
) -> Result<ProofRef, AllocError>
    requires pass_of { IsPassOf graph.now pass.old }
    requires of { IsOf graph.now proof }
    requires right { AreInferences list.items proof.tree }
    ensures made { IfOk result (Makes graph.now (over_each list.items proof.tree)) }
    ensures extends { Extends graph.now pass.old pass.new }
{
    let mut list = list;
    let mut proof = proof;
    while let Some(Inference { rule, end }) = list.pop() {
        let next = graph.intern(rt, alloc, pass, rule, end, &[proof])?;
        proof = next;
    }
    Ok(proof)
}
