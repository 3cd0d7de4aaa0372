//! The quantifier rules of the two premises of a cut, from the root up.
ghost use Rattle.std.specs.Prelude.{◌≡◌, ◌∷◌, ◌++◌, true, map, IfOk};
ghost use Rattle.std.specs.List.{All};
ghost use Rattle.fol.specs.Formed.{are_formed_terms_at, IsFormed};
ghost use Rattle.lk_rules.specs.declared.rule.Rule.TheVariants.{AllL as ByTerm, AllR as ByVariable};
ghost use Rattle.herbrand_laws.specs.Introduction.{rule_for as weak_rule_for, rules_by, rules_for as rules_of};
ghost use Rattle.cut_intro.specs.Instances.{meant, IsFormedInstance};

use crate::instance::Instance;
use crate::matrices::instance_of;
use fol::{Formula, Term, Terms, TermsLink, Var};
use lk_rules::{Rule, Side};
use std::alloc::{AllocError, Global};

// The rule for a weak quantifier on the side.
fn rule_for(side: Side, main: Formula, term: Term) -> Rule
    ensures { result ≡ weak_rule_for side main term }
{
    match side {
        Side::Left => Rule::AllL(main, term),
        Side::Right => Rule::ExR(main, term),
    }
}

// Appends the rules for the instance of a formula by a tuple. After an error some of them may stand there.
fn push_rules_by(
    alloc: Global,
    rules: &mut Vec<Rule>,
    side: Side,
    formula: &Formula,
    tuple: &Terms,
) -> Result<(), AllocError>
    requires formula { IsFormed formula.now }
    requires tuple { are_formed_terms_at 0 tuple.now ≡ true }
    ensures { IfOk result (λ _. rules.new.items ≡ rules.old.items ++ rules_by side formula.now tuple.now) }
{
    match tuple.link() {
        TermsLink::Nil => Ok(()),
        TermsLink::Cons(term, rest) => {
            let next = instance_of(alloc, formula, term)?;
            rules.push(rule_for(side, formula.copy()?, term.copy()?))?;
            push_rules_by(alloc, rules, side, &next, rest)
        }
    }
}

// Appends the rules for instances. After an error some of them may stand there.
fn push_rules_for(
    alloc: Global,
    rules: &mut Vec<Rule>,
    instances: &[Instance],
) -> Result<(), AllocError>
    requires { All IsFormedInstance instances.now }
    ensures { IfOk result (λ _. rules.new.items ≡ rules.old.items ++ rules_of (map meant instances.now)) }
{
    for instance in instances {
        push_rules_by(
            alloc,
            rules,
            instance.side,
            &instance.formula,
            &instance.tuple,
        )?;
    }
    Ok(())
}

/// The rules of the left premise: the eigenvariable of the cut formula, and the instances by the patterns with it.
pub(crate) fn left_rules(
    alloc: Global,
    cut: &Formula,
    variable: &Var,
    instances: &[Instance],
) -> Result<Vec<Rule>, AllocError>
    requires { All IsFormedInstance instances.now }
    ensures { IfOk result (λ rules. rules.items ≡ ByVariable cut.now variable.now ∷ rules_of (map meant instances.now)) }
{
    let mut rules = Vec::new(alloc);
    rules.push(Rule::AllR(cut.copy()?, variable.copy()?))?;
    push_rules_for(alloc, &mut rules, instances)?;
    Ok(rules)
}

// The rules for the instances of the cut formula by the values in order.
fn value_rules(alloc: Global, cut: &Formula, values: &[Term]) -> Result<Vec<Rule>, AllocError>
    ensures { IfOk result (λ rules. rules.items ≡ map (ByTerm cut.now) values.now) }
{
    let mut rules = Vec::with_capacity(alloc, values.len())?;
    for value in values {
        rules.push(Rule::AllL(cut.copy()?, value.copy()?))?;
    }
    Ok(rules)
}

/// The rules of the right premise: the instances of the cut formula by the values in order, and those by the tuples of the rest.
pub(crate) fn right_rules(
    alloc: Global,
    cut: &Formula,
    values: &[Term],
    instances: &[Instance],
) -> Result<Vec<Rule>, AllocError>
    requires { All IsFormedInstance instances.now }
    ensures { IfOk result (λ rules. rules.items ≡ map (ByTerm cut.now) values.now ++ rules_of (map meant instances.now)) }
{
    let mut rules = value_rules(alloc, cut, values)?;
    push_rules_for(alloc, &mut rules, instances)?;
    Ok(rules)
}
