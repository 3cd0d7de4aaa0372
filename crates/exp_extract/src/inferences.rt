//! The marks of an inference.
ghost use Rattle.std.specs.Prelude.{◌≡◌, ◌<◌, ℕ, true, false, if◌then◌else◌, length, Some, IfOk, IfSome, OnOk};
ghost use Rattle.std.specs.FinMap as fin;
ghost use Rattle.std.specs.Ordering.{eq_by_cmp};
ghost use Rattle.fol.specs.Syntax.{Formula as Meaning, free};
ghost use Rattle.fol.specs.Order.{formula_cmp};
ghost use Rattle.fol.specs.Formed.{IsFormedTerm, IsFormedVar};
ghost use Rattle.finite.specs.Finite as set;
ghost use Rattle.substitution.specs.Image.{image_term, IsFormedMap};
ghost use Rattle.lk_rules.specs.declared.sequent.Side.{Side as Place};
ghost use Rattle.lk_rules.specs.declared.sequent.Side.TheVariants.{Left, Right};
ghost use Rattle.lk_rules.specs.Sequents.{side_of};
ghost use Rattle.lk_rules.specs.Rules.{has_shape, main_stands, IsFormedRule};
ghost use Rattle.extraction_laws.specs.Addresses.{part, via, part_formula};
ghost use Rattle.extraction_laws.specs.States.{opened, instantiated, named, variable_at};
ghost use Rattle.extraction_laws.specs.Extraction.{paired};
ghost use Rattle.extraction_laws.specs.Images.{HasImage, HaveImages};
ghost use Rattle.exp_extract.specs.Marked.{address_at, IsPlace};
ghost use Rattle.exp_extract.specs.Entries.{IsChild};
ghost use Rattle.exp_extract.specs.Quantifiers.{is_weak, is_strong, IsWeakAt, IsStrongAt, Grows};
ghost use Rattle.exp_extract.specs.MapList.{map_in, KeepsMaps};
ghost use Rattle.exp_extract.specs.Sides.{number_in, numbers_of, context_in, HasCounts, AreSides, auxiliary_place};
ghost use Rattle.exp_extract.specs.Inferences.{connective_of, auxiliary_by, weak_rule, strong_rule, IsMet};

use crate::maps::Maps;
use crate::marks::Marks;
use crate::pairing::pair;
use crate::places::formula_part;
use crate::sides::{Auxiliary, Sides, number_of};
use fol::{Formula, Term, Var};
use lk_rules::{Rule, Sequent, Side};
use std::alloc::{AllocError, Global};
use substitution::{Subst, apply_term};

/// What the premises of an inference get: the number of their map, and the numbers of the addresses of its auxiliary formulas.
#[derive(Drop)]
pub(crate) struct Inner {
    pub map: u32,
    pub auxiliary: Auxiliary,
}

/// How the addresses of auxiliary formulas are numbered: by the premise, by the side or by the formula.
#[derive(Clone, Copy)]
pub(crate) enum Numbering {
    Only,
    ByPremise,
    BySide,
    ByFormula,
}

/// The main formula of a rule for a connective, and its side.
#[derive(Drop)]
pub(crate) struct Connective {
    pub side: Side,
    pub main: Formula,
    pub numbering: Numbering,
}

// The number of a main formula's address. In a right inference it stands in the conclusion.
fn main_place(end: &Sequent, sides: &Sides, side: Side, main: &Formula) -> Result<u32, AllocError>
    requires { HasCounts end.now sides.now }
    ensures { IfOk result (λ n. number_in (set.listing (side_of end.now side)) (numbers_of sides.now side) main.now ≡ Some n) }
{
    let place = match side {
        Side::Left => number_of(end.left(), &sides.left, main),
        Side::Right => number_of(end.right(), &sides.right, main),
    };
    match place {
        Some(place) => Ok(place),
        None => Err(AllocError),
    }
}

// An axiom.
fn mark_axiom(
    marks: &mut Marks,
    alloc: Global,
    end: &Sequent,
    sides: &Sides,
    map: &Subst,
    main: &Formula,
) -> Result<(), AllocError>
    requires sides { AreSides marks.old.addresses end.now sides.now }
    requires left { HasImage map.now (context_in marks.old.addresses end.now sides.now Left main.now) Left main.now }
    requires right { HasImage map.now (context_in marks.old.addresses end.now sides.now Right main.now) Right main.now }
    ensures grown { OnOk result (Grows marks.old.addresses marks.new.addresses) }
    ensures outside { OnOk result (marks.new.outside ≡ marks.old.outside) }
    ensures state { OnOk result (marks.new.state ≡ paired marks.old.outside (context_in marks.old.addresses end.now sides.now Left main.now) (context_in marks.old.addresses end.now sides.now Right main.now) marks.old.state) }
{
    let _map = map;
    let left = main_place(end, sides, Side::Left, main)?;
    let right = main_place(end, sides, Side::Right, main)?;
    pair(marks, alloc, left, right)
}

// The main formula is used. The number is that of its address.
fn open_main(
    marks: &mut Marks,
    end: &Sequent,
    sides: &Sides,
    side: Side,
    main: &Formula,
) -> Result<u32, AllocError>
    requires { AreSides marks.old.addresses end.now sides.now }
    ensures place { IfOk result (IsChild marks.new.addresses (context_in marks.old.addresses end.now sides.now side main.now)) }
    ensures addresses { marks.new.addresses ≡ marks.old.addresses }
    ensures outside { marks.new.outside ≡ marks.old.outside }
    ensures state { OnOk result (marks.new.state ≡ opened (context_in marks.old.addresses end.now sides.now side main.now) marks.old.state) }
{
    let place = main_place(end, sides, side, main)?;
    marks.open(place)?;
    Ok(place)
}

// The main formula of a rule for a connective is used. The numbers are those of its parts.
fn open_parts(
    marks: &mut Marks,
    alloc: Global,
    end: &Sequent,
    sides: &Sides,
    side: Side,
    main: &Formula,
) -> Result<(u32, u32), AllocError>
    requires { AreSides marks.old.addresses end.now sides.now }
    ensures first { IfOk result (λ p. IsChild marks.new.addresses (part (context_in marks.old.addresses end.now sides.now side main.now) 0) p.0) }
    ensures second { IfOk result (λ p. IsChild marks.new.addresses (part (context_in marks.old.addresses end.now sides.now side main.now) 1) p.1) }
    ensures grown { OnOk result (Grows marks.old.addresses marks.new.addresses) }
    ensures outside { OnOk result (marks.new.outside ≡ marks.old.outside) }
    ensures state { OnOk result (marks.new.state ≡ opened (context_in marks.old.addresses end.now sides.now side main.now) marks.old.state) }
{
    let place = open_main(marks, end, sides, side, main)?;
    let first = marks.make_part(alloc, place, 0)?;
    let second = marks.make_part(alloc, place, 1)?;
    Ok((first, second))
}

// The main formula of a rule for a weak quantifier is used, and its instance by the image of the term. The number is that of the instance.
fn open_instance(
    marks: &mut Marks,
    alloc: Global,
    end: &Sequent,
    sides: &Sides,
    map: &Subst,
    side: Side,
    main: &Formula,
    term: &Term,
) -> Result<u32, AllocError>
    requires sides { AreSides marks.old.addresses end.now sides.now }
    requires weak { IsWeakAt (context_in marks.old.addresses end.now sides.now side main.now) }
    requires map { IsFormedMap (fin.get map.now) }
    requires term { IsFormedTerm term.now }
    ensures instance { IfOk result (IsChild marks.new.addresses (via (context_in marks.old.addresses end.now sides.now side main.now) (image_term (fin.get map.now) term.now))) }
    ensures grown { OnOk result (Grows marks.old.addresses marks.new.addresses) }
    ensures outside { OnOk result (marks.new.outside ≡ marks.old.outside) }
    ensures state { OnOk result (marks.new.state ≡ instantiated (context_in marks.old.addresses end.now sides.now side main.now) (image_term (fin.get map.now) term.now) (opened (context_in marks.old.addresses end.now sides.now side main.now) marks.old.state)) }
{
    let term = apply_term(alloc, map, term)?;
    let place = open_main(marks, end, sides, side, main)?;
    marks.make_via(alloc, place, &term)
}

// The main formula of a rule for a strong quantifier is used, and gets its variable. The number is that of the instance by that, and the
// term is the variable.
fn open_witness(
    marks: &mut Marks,
    alloc: Global,
    end: &Sequent,
    sides: &Sides,
    side: Side,
    main: &Formula,
) -> Result<(u32, Term), AllocError>
    requires sides { AreSides marks.old.addresses end.now sides.now }
    requires strong { IsStrongAt (context_in marks.old.addresses end.now sides.now side main.now) }
    ensures witness { IfOk result (λ p. IsChild marks.new.addresses (via (context_in marks.old.addresses end.now sides.now side main.now) p.1) p.0) }
    ensures variable { IfOk result (λ p. p.1 ≡ free (variable_at marks.old.outside marks.new.state (context_in marks.old.addresses end.now sides.now side main.now))) }
    ensures formed { IfOk result (λ p. IsFormedTerm p.1) }
    ensures grown { OnOk result (Grows marks.old.addresses marks.new.addresses) }
    ensures outside { OnOk result (marks.new.outside ≡ marks.old.outside) }
    ensures state { OnOk result (marks.new.state ≡ named (context_in marks.old.addresses end.now sides.now side main.now) (opened (context_in marks.old.addresses end.now sides.now side main.now) marks.old.state)) }
{
    let place = open_main(marks, end, sides, side, main)?;
    marks.name(alloc, place)?;
    let term = marks.variable_term(place).copy()?;
    let witness = marks.make_via(alloc, place, &term)?;
    Ok((witness, term))
}

// The inference of a rule for a connective, if the rule is one.
fn find_connective(rule: &Rule) -> Result<Option<Connective>, AllocError>
    ensures { IfOk result (λ found. found ≡ connective_of rule.now) }
{
    let (side, main, numbering) = match rule {
        Rule::NegL(main) => (Side::Left, main, Numbering::Only),
        Rule::NegR(main) => (Side::Right, main, Numbering::Only),
        Rule::AndL(main) => (Side::Left, main, Numbering::ByFormula),
        Rule::AndR(main) => (Side::Right, main, Numbering::ByPremise),
        Rule::OrL(main) => (Side::Left, main, Numbering::ByPremise),
        Rule::OrR(main) => (Side::Right, main, Numbering::ByFormula),
        Rule::ImpL(main) => (Side::Left, main, Numbering::ByPremise),
        Rule::ImpR(main) => (Side::Right, main, Numbering::BySide),
        _ => return Ok(None),
    };
    let main = main.copy()?;
    Ok(Some(Connective {
        side,
        main,
        numbering,
    }))
}

// The numbers of the addresses of the auxiliary formulas, where these are the numbers of the parts.
fn numbered_auxiliary(
    numbering: Numbering,
    main: &Formula,
    first: u32,
    second: u32,
) -> Result<Auxiliary, AllocError>
    ensures { IfOk result (λ x. x ≡ auxiliary_by numbering main.now first second) }
{
    match numbering {
        Numbering::Only => Ok(Auxiliary::Only(first)),
        Numbering::ByPremise => Ok(Auxiliary::ByPremise(first, second)),
        Numbering::BySide => Ok(Auxiliary::BySide(first, second)),
        Numbering::ByFormula => {
            let formula = formula_part(main, 0).copy()?;
            Ok(Auxiliary::ByFormula(formula, first, second))
        }
    }
}

// An inference of a rule for a connective.
fn mark_connective(
    marks: &mut Marks,
    maps: &Maps,
    alloc: Global,
    rule: &Rule,
    end: &Sequent,
    sides: &Sides,
    map: u32,
    connective: Connective,
) -> Result<Inner, AllocError>
    requires sides { AreSides marks.old.addresses end.now sides.now }
    requires map { map < length maps.now }
    requires shape { has_shape rule.now ≡ true }
    requires connective { connective_of rule.now ≡ Some connective }
    ensures { IfOk result (IsMet marks.old marks.new maps.now maps.now rule.now end.now sides.now map) }
{
    let (_maps, _rule) = (maps, rule);
    let main = &connective.main;
    let (first, second) = open_parts(marks, alloc, end, sides, connective.side, main)?;
    let auxiliary = numbered_auxiliary(connective.numbering, main, first, second)?;
    Ok(Inner { map, auxiliary })
}

// An inference of a rule for a weak quantifier.
fn mark_weak(
    marks: &mut Marks,
    maps: &Maps,
    alloc: Global,
    end: &Sequent,
    sides: &Sides,
    map: u32,
    side: Side,
    main: &Formula,
    term: &Term,
) -> Result<Inner, AllocError>
    requires sides { AreSides marks.old.addresses end.now sides.now }
    requires map { map < length maps.now }
    requires weak { is_weak main.now side ≡ true }
    requires image { HasImage (map_in maps.now map) (context_in marks.old.addresses end.now sides.now side main.now) side main.now }
    requires term { IsFormedTerm term.now }
    ensures { IfOk result (IsMet marks.old marks.new maps.now maps.now (weak_rule side main.now term.now) end.now sides.now map) }
{
    let place = open_instance(marks, alloc, end, sides, maps.get(map), side, main, term)?;
    Ok(Inner {
        map,
        auxiliary: Auxiliary::Only(place),
    })
}

// An inference of a rule for a strong quantifier. The eigenvariable is sent to the variable of the address.
fn mark_strong(
    marks: &mut Marks,
    maps: &mut Maps,
    alloc: Global,
    end: &Sequent,
    sides: &Sides,
    map: u32,
    side: Side,
    main: &Formula,
    eigenvariable: &Var,
) -> Result<Inner, AllocError>
    requires sides { AreSides marks.old.addresses end.now sides.now }
    requires map { map < length maps.old }
    requires strong { is_strong main.now side ≡ true }
    requires image { HasImage (map_in maps.old map) (context_in marks.old.addresses end.now sides.now side main.now) side main.now }
    ensures { IfOk result (IsMet marks.old marks.new maps.old maps.new (strong_rule side main.now eigenvariable.now) end.now sides.now map) }
{
    let (place, variable) = open_witness(marks, alloc, end, sides, side, main)?;
    let map = maps.extend(alloc, map, eigenvariable, &variable)?;
    Ok(Inner {
        map,
        auxiliary: Auxiliary::Only(place),
    })
}

// The premises, if any, get the same map, and no auxiliary formula has an address.
fn plain(map: u32) -> Inner
    ensures { result ≡ record { map = map; auxiliary = Auxiliary.Absent } }
{
    Inner {
        map,
        auxiliary: Auxiliary::Absent,
    }
}

/// The marks of an inference, and what its premises get. The conclusion's formulas have addresses with their images under the map of that
/// number.
pub(crate) fn mark_inference(
    marks: &mut Marks,
    maps: &mut Maps,
    alloc: Global,
    rule: &Rule,
    end: &Sequent,
    sides: &Sides,
    map: u32,
) -> Result<Inner, AllocError>
    requires sides { AreSides marks.old.addresses end.now sides.now }
    requires map { map < length maps.old }
    requires images { HaveImages (map_in maps.old map) (context_in marks.old.addresses end.now sides.now) end.now }
    requires stands { main_stands rule.now end.now ≡ true }
    requires shape { has_shape rule.now ≡ true }
    requires formed { IsFormedRule rule.now }
    ensures { IfOk result (IsMet marks.old marks.new maps.old maps.new rule.now end.now sides.now map) }
{
    if let Some(connective) = find_connective(rule)? {
        return mark_connective(marks, maps, alloc, rule, end, sides, map, connective);
    }
    match rule {
        Rule::Ax(main) => {
            mark_axiom(marks, alloc, end, sides, maps.get(map), main)?;
            Ok(plain(map))
        }
        Rule::TopR => {
            open_main(marks, end, sides, Side::Right, &Formula::top(alloc)?)?;
            Ok(plain(map))
        }
        Rule::BotL => {
            open_main(marks, end, sides, Side::Left, &Formula::bot(alloc)?)?;
            Ok(plain(map))
        }
        Rule::AllL(main, term) => {
            mark_weak(marks, maps, alloc, end, sides, map, Side::Left, main, term)
        }
        Rule::ExR(main, term) => {
            mark_weak(marks, maps, alloc, end, sides, map, Side::Right, main, term)
        }
        Rule::AllR(main, variable) => {
            mark_strong(
                marks,
                maps,
                alloc,
                end,
                sides,
                map,
                Side::Right,
                main,
                variable,
            )
        }
        Rule::ExL(main, variable) => {
            mark_strong(
                marks,
                maps,
                alloc,
                end,
                sides,
                map,
                Side::Left,
                main,
                variable,
            )
        }
        Rule::Weak => Ok(plain(map)),
        _ => Err(AllocError),
    }
}
