//! Instances of weak quantifiers that may be taken.
ghost use Rattle.std.specs.Prelude.{◌≡◌, List, not, Some, IfOk, IsSome, position};
ghost use Rattle.arena_cells.specs.Items.{Item};
ghost use Rattle.arena_cells.specs.Standing.{Extends, formula_at, term_at, IsFormulaAt, IsTermAt};
ghost use Rattle.arena_cells.specs.Meaning.{rule_at, HasRuleParts};
ghost use Rattle.building_laws.specs.Building.{weak_rule};
ghost use Rattle.arena_building.specs.Choosing.{has_some, have_some};
ghost use Rattle.arena_building.specs.Dividing.{chosen_step};
ghost use Rattle.arena_building.specs.Numbered.{IsNumbered};
ghost use Rattle.arena_building.specs.Instances.{taken_as, StandsFor};

use crate::placed::{PlacedExp, place_tree};
use arena::{Arena, RuleKey};
use exp_tree::Inst;
use fol::{Term, TermNode, Terms, TermsLink};
use free_variables::Vars;
use lk_rules::Side;
use std::alloc::{AllocError, Global};

// Whether a variable of the set stands in the term.
#[cycle(meets)]
fn meets(vars: &Vars, term: &Term) -> bool
    ensures { result ≡ has_some vars.now term.now }
{
    if !term.has_free() {
        return false;
    }
    match term.node() {
        TermNode::Free(var) => vars.has(var),
        TermNode::Bound(_) => false,
        TermNode::App(_, terms) => meets_each(vars, terms),
    }
}

// Whether one stands in a term of the list.
#[cycle(meets)]
fn meets_each(vars: &Vars, terms: &Terms) -> bool
    ensures { result ≡ have_some vars.now terms.now }
{
    match terms.link() {
        TermsLink::Nil => false,
        TermsLink::Cons(term, rest) => meets(vars, term) || meets_each(vars, rest),
    }
}

/// The place of the first instance whose term has no variable of the set.
pub(crate) fn first_ready(vars: &Vars, instances: &[&Inst]) -> Option<usize>
    ensures { result ≡ position (λ i. not (has_some vars.now i.now.term)) instances.now }
{
    instances
        .iter()
        .position(|instance| !meets(vars, &instance.term))
}

/// An instance that is taken: the rule, the tree of the other instances, and the instance's own tree.
#[derive(Drop)]
pub(crate) struct Instance<'e> {
    pub rule: RuleKey,
    pub others: PlacedExp<'e>,
    pub child: PlacedExp<'e>,
}

// The rule of a weak quantifier for an instance.
fn weak(side: Side, main: u32, term: u32) -> RuleKey
    ensures rule { (a : List Item) → rule_at a result ≡ weak_rule side (formula_at a main) (term_at a term) }
    ensures parts { (a : List Item) → IsFormulaAt a main → IsTermAt a term → HasRuleParts a result }
{
    match side {
        Side::Left => RuleKey::AllL(main, term),
        Side::Right => RuleKey::ExR(main, term),
    }
}

/// The rule for the instance at a place, the tree without the instance, and the instance's tree.
pub(crate) fn instantiate<'e>(
    arena: &mut Arena,
    alloc: Global,
    placed: PlacedExp<'e>,
    place: usize,
) -> Result<Instance<'e>, AllocError>
    requires number { IsNumbered arena.old placed }
    requires place { IsSome (chosen_step placed.placed place) }
    ensures step { IfOk result (λ i. chosen_step placed.entry.placed place ≡ Some (taken_as arena.new i)) }
    ensures rule { IfOk result (λ i. HasRuleParts arena.new i.rule) }
    // The tree of the others stands in for the whole: it has the same formula on the same side, and is no leaf.
    ensures others { IfOk result (λ i. StandsFor placed.entry i.others) }
    ensures child { IfOk result (λ i. IsNumbered arena.new i.child) }
    ensures grown { Extends arena.old arena.new }
{
    let side = placed.side();
    let main = placed.formula();
    let (formula, mut instances) = placed.into_weak();
    let Inst { term, child } = instances.remove(place);
    let term = arena.import_term(alloc, term)?;
    let child = place_tree(arena, alloc, side, child)?;
    Ok(Instance {
        rule: weak(side, main, term),
        others: PlacedExp::weak(side, main, formula, instances),
        child,
    })
}
