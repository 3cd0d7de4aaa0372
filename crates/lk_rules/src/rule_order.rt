//! What a rule names, and the order of rules. It is total, only equal rules tie, and `==` is equality.
ghost use Rattle.std.specs.Prelude.{◌≡◌, ◌↔◌, IsTrue, option_copied, refl};
ghost use Rattle.std.specs.Ordering.{eq_by_cmp, as_partial_cmp};
ghost use Rattle.std.specs.Cmp.{partial_equiv_from_equiv, partial_order_from_total};
ghost use Rattle.std.proofs.lemmas.Cmp.{eq_by_cmp_equiv};
ghost use Rattle.lk_rules.specs.RuleOrder.{rule_kind, formula_of, term_of, variable_of, rule_cmp, rule_total};
ghost use Rattle.lk_rules.specs.Fingerprints.{fingerprint_with as with_formula, rule_fingerprint};

use crate::rule::Rule;
use fol::{Formula, Term, Var, mix};
use std::cmp::Ordering;

impl Rule {
    /// The formula that the rule names: its main formula, or of a cut the cut formula.
    pub fn formula(&self) -> Option<&Formula>
        ensures { option_copied result ≡ formula_of self.now }
    {
        match self {
            Rule::Ax(main)
            | Rule::NegL(main)
            | Rule::NegR(main)
            | Rule::AndL(main)
            | Rule::AndR(main)
            | Rule::OrL(main)
            | Rule::OrR(main)
            | Rule::ImpL(main)
            | Rule::ImpR(main)
            | Rule::AllL(main, _)
            | Rule::AllR(main, _)
            | Rule::ExL(main, _)
            | Rule::ExR(main, _)
            | Rule::DefL(main)
            | Rule::DefR(main)
            | Rule::Cut(main) => Some(main),
            Rule::TopR | Rule::BotL | Rule::Weak => None,
        }
    }

    /// The term by which the rule instantiates a quantifier.
    pub fn term(&self) -> Option<&Term>
        ensures { option_copied result ≡ term_of self.now }
    {
        match self {
            Rule::AllL(_, term) | Rule::ExR(_, term) => Some(term),
            _ => None,
        }
    }

    /// The eigenvariable.
    pub fn eigenvariable(&self) -> Option<&Var>
        ensures { option_copied result ≡ variable_of self.now }
    {
        match self {
            Rule::AllR(_, variable) | Rule::ExL(_, variable) => Some(variable),
            _ => None,
        }
    }

    /// A number in which unequal rules mostly differ, by the kind and the formula alone.
    pub fn fingerprint(&self) -> u64
        ensures { result ≡ rule_fingerprint self.now }
    {
        fingerprint_with(u64::from(self.kind()), self.formula())
    }

    // The place of the rule's kind among the kinds.
    fn kind(&self) -> u8
        ensures { result ≡ rule_kind self.now }
    {
        match self {
            Rule::Ax(_) => 0,
            Rule::TopR => 1,
            Rule::BotL => 2,
            Rule::NegL(_) => 3,
            Rule::NegR(_) => 4,
            Rule::AndL(_) => 5,
            Rule::AndR(_) => 6,
            Rule::OrL(_) => 7,
            Rule::OrR(_) => 8,
            Rule::ImpL(_) => 9,
            Rule::ImpR(_) => 10,
            Rule::AllL(..) => 11,
            Rule::AllR(..) => 12,
            Rule::ExL(..) => 13,
            Rule::ExR(..) => 14,
            Rule::DefL(_) => 15,
            Rule::DefR(_) => 16,
            Rule::Cut(_) => 17,
            Rule::Weak => 18,
        }
    }
}

#[tactic(auto, unfolding(crate::specs::Fingerprints::fingerprint_with))]
fn fingerprint_with(kind: u64, formula: Option<&Formula>) -> u64
    ensures { result ≡ with_formula kind (option_copied formula.entry) }
{
    match formula {
        Some(formula) => mix(kind, formula.fingerprint()),
        None => mix(kind, 0),
    }
}

impl PartialEq for Rule {
    ghost eq = { eq_by_cmp rule_cmp };

    ghost laws = { partial_equiv_from_equiv (eq_by_cmp_equiv rule_total) };

    #[tactic(auto, using(crate::proofs::RuleTies::rule_equality_same))]
    fn eq(&self, other: &Rule) -> bool
        ensures value { result ≡ eq_by_cmp rule_cmp self.now other.now }
        ensures same { IsTrue result ↔ (self.now ≡ other.now) }
    {
        self.cmp(other).is_eq()
    }
}

impl Eq for Rule {
    ghost laws = { eq_by_cmp_equiv rule_total };
}

impl PartialOrd for Rule {
    ghost partial_cmp = { as_partial_cmp rule_cmp };

    ghost laws = { partial_order_from_total rule_total };

    fn partial_cmp(&self, other: &Rule) -> Option<Ordering> {
        Some(self.cmp(other))
    }
}

/// Rules are ordered by kind, in the order in which `Rule` lists them, then by the formula, then by the term or the eigenvariable.
impl Ord for Rule {
    ghost cmp = { rule_cmp };

    ghost total = { rule_total };

    ghost matches_partial_cmp = { λ x y. refl };

    ghost matches_eq = { λ x y. refl };

    #[tactic(auto, using(crate::proofs::RuleTies::rule_order_same))]
    fn cmp(&self, other: &Rule) -> Ordering
        ensures value { result ≡ rule_cmp self.now other.now }
        ensures ties { (result ≡ Ordering.Equal) ↔ (self.now ≡ other.now) }
    {
        self.kind()
            .cmp(&other.kind())
            .then_with(|| self.formula().cmp(&other.formula()))
            .then_with(|| self.term().cmp(&other.term()))
            .then_with(|| self.eigenvariable().cmp(&other.eigenvariable()))
    }
}
