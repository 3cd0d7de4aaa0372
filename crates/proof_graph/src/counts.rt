//! How many nodes a tree has.
ghost use Rattle.std.specs.Prelude.{◌≡◌, if◌then◌else◌};
ghost use Rattle.lk_rules.specs.declared.sequent.Sequent.{Sequent};
ghost use Rattle.proof_trees.specs.Trees.{node, is_cut as is_cut_rule, is_quantifier_rule as is_for_quantifiers};
ghost use Rattle.proof_graph.specs.References.{trees_of};
ghost use Rattle.proof_graph.specs.Counts.{AreCountsOf, AreCountsOfAll};

use crate::reference::ProofRef;
use lk_rules::Rule;

/// How many nodes a tree has, and how many of them are by cut and by a quantifier rule, each at most 2^64 - 1.
#[derive(Clone, Copy, PartialEq, Eq, Debug)]
pub struct Counts {
    pub nodes: u64,
    pub cuts: u64,
    pub quantifiers: u64,
}

fn is_cut(rule: &Rule) -> bool
    ensures { result ≡ is_cut_rule rule.now }
{
    matches!(rule, Rule::Cut(_))
}

fn is_quantifier_rule(rule: &Rule) -> bool
    ensures { result ≡ is_for_quantifiers rule.now }
{
    matches!(
        rule,
        Rule::AllL(..) | Rule::AllR(..) | Rule::ExL(..) | Rule::ExR(..)
    )
}

fn one_if(counts: bool) -> u64
    ensures { result ≡ (if counts then 1 else 0) }
{
    if counts { 1 } else { 0 }
}

// The counts of the premises' trees together.
fn counts_below(premises: &[ProofRef]) -> Counts
    ensures { AreCountsOfAll result (trees_of premises.now) }
{
    let mut nodes = 0u64;
    let mut cuts = 0u64;
    let mut quantifiers = 0u64;
    for premise in premises {
        let counts = premise.counts();
        nodes = nodes.saturating_add(counts.nodes);
        cuts = cuts.saturating_add(counts.cuts);
        quantifiers = quantifiers.saturating_add(counts.quantifiers);
    }
    Counts {
        nodes,
        cuts,
        quantifiers,
    }
}

/// The counts of a tree by this rule over the trees of the premises.
pub(crate) fn counts_over(rule: &Rule, premises: &[ProofRef]) -> Counts
    ensures { (end : Sequent) → AreCountsOf result (node rule.now end (trees_of premises.now)) }
{
    let below = counts_below(premises);
    let cuts = one_if(is_cut(rule));
    let quantifiers = one_if(is_quantifier_rule(rule));
    Counts {
        nodes: below.nodes.saturating_add(1),
        cuts: below.cuts.saturating_add(cuts),
        quantifiers: below.quantifiers.saturating_add(quantifiers),
    }
}
