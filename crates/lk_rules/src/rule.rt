//! Rules, and the steps of a proof.
ghost use Rattle.std.specs.Prelude.{◌≡◌, Some, None, IfOk};
ghost use Rattle.lk_rules.specs.Rules.{is_formed_rule};
ghost use Rattle.lk_rules.specs.RuleOrder.{formula_of, term_of, variable_of};

use crate::numbers::Numbers;
use crate::sequent::Sequent;
use fol::{Formula, Term, Var, well_formed, well_formed_term, well_formed_var};
use std::alloc::AllocError;

/// A rule with what it names: its main formula (of a cut the cut formula) and, where it instantiates a quantifier, a term or an
/// eigenvariable.
pub enum Rule {
    /// The axiom: the formula stands on both sides of the conclusion. No premise.
    Ax(Formula),
    /// Truth on the right. No premise.
    TopR,
    /// Falsity on the left. No premise.
    BotL,
    /// A negation on the left.
    NegL(Formula),
    /// A negation on the right.
    NegR(Formula),
    /// A conjunction on the left.
    AndL(Formula),
    /// A conjunction on the right, with a premise for each conjunct.
    AndR(Formula),
    /// A disjunction on the left, with a premise for each disjunct.
    OrL(Formula),
    /// A disjunction on the right.
    OrR(Formula),
    /// An implication on the left: its first formula on the right of the first premise, its second on the left of the second premise.
    ImpL(Formula),
    /// An implication on the right.
    ImpR(Formula),
    /// A universal formula on the left, with its instance by the term in the premise.
    AllL(Formula, Term),
    /// A universal formula on the right, with its instance by the eigenvariable in the premise.
    AllR(Formula, Var),
    /// An existential formula on the left, with its instance by the eigenvariable in the premise.
    ExL(Formula, Var),
    /// An existential formula on the right, with its instance by the term in the premise.
    ExR(Formula, Term),
    /// An atom on the left whose predicate symbol has a body, with its unfolding in the premise.
    DefL(Formula),
    /// An atom on the right whose predicate symbol has a body, with its unfolding in the premise.
    DefR(Formula),
    /// The cut: the formula stands on the right of the first premise and on the left of the second.
    Cut(Formula),
    /// Weakening: the one premise is a subsequent of the conclusion.
    Weak,
}

impl Drop for Rule {
    fn drop(self) {
        match self {
            Rule::Ax(main)
            | Rule::NegL(main)
            | Rule::NegR(main)
            | Rule::AndL(main)
            | Rule::AndR(main)
            | Rule::OrL(main)
            | Rule::OrR(main)
            | Rule::ImpL(main)
            | Rule::ImpR(main)
            | Rule::DefL(main)
            | Rule::DefR(main)
            | Rule::Cut(main) => drop(main),
            Rule::AllL(main, term) | Rule::ExR(main, term) => {
                drop(main);
                drop(term);
            }
            Rule::AllR(main, variable) | Rule::ExL(main, variable) => {
                drop(main);
                drop(variable);
            }
            Rule::TopR | Rule::BotL | Rule::Weak => {}
        }
    }
}

impl Rule {
    /// Whether what the rule names is well formed: its formula, and a term or an eigenvariable. So a term has no bound variable of its own.
    pub fn well_formed(&self) -> bool
        ensures { result ≡ is_formed_rule self.now }
    {
        match self {
            Rule::Ax(main)
            | Rule::NegL(main)
            | Rule::NegR(main)
            | Rule::AndL(main)
            | Rule::AndR(main)
            | Rule::OrL(main)
            | Rule::OrR(main)
            | Rule::ImpL(main)
            | Rule::ImpR(main)
            | Rule::DefL(main)
            | Rule::DefR(main)
            | Rule::Cut(main) => well_formed(main),
            Rule::AllL(main, term) | Rule::ExR(main, term) => {
                well_formed(main) && well_formed_term(term)
            }
            Rule::AllR(main, variable) | Rule::ExL(main, variable) => {
                well_formed(main) && well_formed_var(variable)
            }
            Rule::TopR | Rule::BotL | Rule::Weak => true,
        }
    }

    /// The same rule, whose parts are shared.
    pub fn copy(&self) -> Result<Rule, AllocError>
        ensures { IfOk result (λ copy. copy ≡ self.now) }
    {
        match self {
            Rule::TopR => Ok(Rule::TopR),
            Rule::BotL => Ok(Rule::BotL),
            Rule::Weak => Ok(Rule::Weak),
            Rule::AllL(main, term) | Rule::ExR(main, term) => {
                Ok(self.with_term(main.copy()?, term.copy()?))
            }
            Rule::AllR(main, variable) | Rule::ExL(main, variable) => {
                Ok(self.with_variable(main.copy()?, variable.copy()?))
            }
            Rule::Ax(main)
            | Rule::NegL(main)
            | Rule::NegR(main)
            | Rule::AndL(main)
            | Rule::AndR(main)
            | Rule::OrL(main)
            | Rule::OrR(main)
            | Rule::ImpL(main)
            | Rule::ImpR(main)
            | Rule::DefL(main)
            | Rule::DefR(main)
            | Rule::Cut(main) => Ok(self.with_main(main.copy()?)),
        }
    }

    // The rule that is made of a copy of its formula. It names nothing else.
    fn with_main(&self, main: Formula) -> Rule
        requires main { formula_of self.now ≡ Some main }
        requires no_term { term_of self.now ≡ None }
        requires no_variable { variable_of self.now ≡ None }
        ensures { result ≡ self.now }
    {
        match self {
            Rule::Ax(_) => Rule::Ax(main),
            Rule::NegL(_) => Rule::NegL(main),
            Rule::NegR(_) => Rule::NegR(main),
            Rule::AndL(_) => Rule::AndL(main),
            Rule::AndR(_) => Rule::AndR(main),
            Rule::OrL(_) => Rule::OrL(main),
            Rule::OrR(_) => Rule::OrR(main),
            Rule::ImpL(_) => Rule::ImpL(main),
            Rule::ImpR(_) => Rule::ImpR(main),
            Rule::DefL(_) => Rule::DefL(main),
            Rule::DefR(_) => Rule::DefR(main),
            Rule::Cut(_) => Rule::Cut(main),
            _ => unreachable!(),
        }
    }

    // The rule that is made of copies of its formula and its term.
    fn with_term(&self, main: Formula, term: Term) -> Rule
        requires main { formula_of self.now ≡ Some main }
        requires term { term_of self.now ≡ Some term }
        ensures { result ≡ self.now }
    {
        match self {
            Rule::AllL(..) => Rule::AllL(main, term),
            Rule::ExR(..) => Rule::ExR(main, term),
            _ => unreachable!(),
        }
    }

    // The rule that is made of copies of its formula and its eigenvariable.
    fn with_variable(&self, main: Formula, variable: Var) -> Rule
        requires main { formula_of self.now ≡ Some main }
        requires variable { variable_of self.now ≡ Some variable }
        ensures { result ≡ self.now }
    {
        match self {
            Rule::AllR(..) => Rule::AllR(main, variable),
            Rule::ExL(..) => Rule::ExL(main, variable),
            _ => unreachable!(),
        }
    }
}

/// A step of a proof that is written as a list: the rule, the numbers of the steps that are its premises, and its conclusion.
pub struct Step {
    pub rule: Rule,
    pub premises: Numbers,
    pub end: Sequent,
}

impl Drop for Step {
    fn drop(self) {
        let Step {
            rule,
            premises,
            end,
        } = self;
        drop(rule);
        drop(premises);
        drop(end);
    }
}
