//! Matching: the map under which patterns become given terms.
ghost use Rattle.std.specs.Prelude.{◌≡◌, length, IfOk, option_copied};
ghost use Rattle.std.specs.FinMap as fin;
ghost use Rattle.unify_laws.specs.Matching.{with_variable, match_term as match_of, match_terms as matches_of, match_each as each_of, match_onto as map_onto};
ghost use Rattle.fol_unify.specs.Matches.{map_if};

use fol::{Term, TermNode, Terms, TermsLink, Var};
use std::alloc::{AllocError, Global};
use substitution::Subst;

// Whether the variable may become the target: it has no term yet, or this one.
fn match_variable(map: &mut Subst, variable: &Var, target: &Term) -> Result<bool, AllocError>
    ensures { IfOk result (λ found. map_if found map.new ≡ with_variable variable.now target.now map.old (fin.get map.old variable.now)) }
{
    if let Some(term) = map.get(variable) {
        return Ok(term == target);
    }
    map.set(variable.copy()?, target.copy()?)?;
    Ok(true)
}

// Whether the map has terms for further variables of the pattern, under which this becomes the target.
#[cycle(match_term)]
fn match_term(map: &mut Subst, pattern: &Term, target: &Term) -> Result<bool, AllocError>
    ensures { IfOk result (λ found. map_if found map.new ≡ match_of pattern.now target.now map.old) }
{
    match pattern.node() {
        TermNode::Free(variable) => match_variable(map, variable, target),
        TermNode::Bound(index) => match target.node() {
            TermNode::Bound(other) => Ok(index == other),
            TermNode::Free(_) | TermNode::App(_, _) => Ok(false),
        },
        TermNode::App(symbol, terms) => match target.node() {
            TermNode::App(other, targets) if symbol == other => match_terms(map, terms, targets),
            TermNode::Free(_) | TermNode::Bound(_) | TermNode::App(_, _) => Ok(false),
        },
    }
}

/// Whether the map has terms for further variables of the patterns, under which each becomes the target at its place. After `false` or an
/// error it may have some of them.
#[cycle(match_term)]
pub fn match_terms(map: &mut Subst, patterns: &Terms, targets: &Terms) -> Result<bool, AllocError>
    ensures { IfOk result (λ found. map_if found map.new ≡ matches_of patterns.now targets.now map.old) }
{
    match (patterns.link(), targets.link()) {
        (TermsLink::Nil, TermsLink::Nil) => Ok(true),
        (TermsLink::Cons(first, rest), TermsLink::Cons(target, others)) => {
            if !match_term(map, first, target)? {
                return Ok(false);
            }
            match_terms(map, rest, others)
        }
        (TermsLink::Nil, TermsLink::Cons(_, _)) | (TermsLink::Cons(_, _), TermsLink::Nil) => {
            Ok(false)
        }
    }
}

/// The map with terms for the variables of the patterns alone under which each pattern becomes the target at its place. Only the variables of
/// patterns are replaced, so patterns and targets may share some.
#[tactic(auto, unfolding(unify_laws::specs::Matching::match_onto))]
pub fn match_onto(
    alloc: Global,
    pattern: &[Term],
    target: &[Term],
) -> Result<Option<Subst>, AllocError>
    requires { length pattern.now ≡ length target.now }
    ensures value { IfOk result (λ found. found ≡ map_onto pattern.now target.now) }
{
    let mut map = Subst::new(alloc);
    for place in 0..pattern.len() {
        if !match_term(&mut map, &pattern[place], &target[place])? {
            return Ok(None);
        }
    }
    Ok(Some(map))
}
