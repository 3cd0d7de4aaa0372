//! The proofs of input clauses, by numbers.
ghost use Rattle.std.specs.Prelude.{◌≡◌, map as each, IfOk};
ghost use Rattle.std.specs.FinMap as fin;
ghost use Rattle.fol.specs.declared.symbols.Var.{Var as Variable};
ghost use Rattle.fol.specs.Syntax.{free, not};
ghost use Rattle.substitution.specs.Image.{image_term};
ghost use Rattle.lk_rules.specs.declared.sequent.Side.TheVariants.{Left};
ghost use Rattle.lk_rules.specs.Sequents.{adds_to};
ghost use Rattle.arena_cells.specs.Standing.{Extends, HasFormula, HasTree, sequent_at, formula_at, map_at, IsSequentAt, IsFormulaAt, IsMapAt};
ghost use Rattle.refutations.specs.Refutations.{body_of as body_formula, over_literals as literals_tree};
ghost use Rattle.image_laws.specs.Terms.{over_terms};

use arena::{Arena, Key, Parts, RuleKey};
use arena_proofs::inference;
use fol::Var;
use lk_rules::Side;
use std::alloc::{AllocError, Global};

// The proof of a sequent that has a negated atom on the left, and the atom too.
fn over_negation(
    arena: &mut Arena,
    alloc: Global,
    end: u32,
    negation: u32,
    atom: u32,
) -> Result<u32, AllocError>
    requires end { IsSequentAt arena.old end }
    requires negation { IsFormulaAt arena.old negation }
    requires atom { IsFormulaAt arena.old atom }
    requires is { formula_at arena.old negation ≡ not (formula_at arena.old atom) }
    ensures tree { IfOk result (λ n. HasTree arena.new n (literals_tree (sequent_at arena.old end) (formula_at arena.old negation))) }
    ensures grown { Extends arena.old arena.new }
{
    let above = arena.sequent_with(alloc, end, Side::Right, atom)?;
    let axiom = inference(arena, alloc, RuleKey::Ax(atom), above, Parts::Zero)?;
    let rule = RuleKey::NegL(negation);
    inference(arena, alloc, rule, end, Parts::One(axiom))
}

// The proof of a sequent that has a disjunction of literals on the left, and its literals on their sides: down to the leaves.
#[cycle(over_literals)]
fn over_literals(arena: &mut Arena, alloc: Global, end: u32, matrix: u32) -> Result<u32, AllocError>
    requires end { IsSequentAt arena.old end }
    requires matrix { IsFormulaAt arena.old matrix }
    ensures tree { IfOk result (λ n. HasTree arena.new n (literals_tree (sequent_at arena.old end) (formula_at arena.old matrix))) }
    ensures grown { Extends arena.old arena.new }
{
    let key = arena.key(matrix).copy()?;
    match &key {
        Key::Or(first, second) => {
            let left = over_part(arena, alloc, end, *first)?;
            let right = over_part(arena, alloc, end, *second)?;
            let rule = RuleKey::OrL(matrix);
            inference(arena, alloc, rule, end, Parts::Two(left, right))
        }
        Key::Not(atom) => over_negation(arena, alloc, end, matrix, *atom),
        Key::Bot => inference(arena, alloc, RuleKey::BotL, end, Parts::Zero),
        _ => inference(arena, alloc, RuleKey::Ax(matrix), end, Parts::Zero),
    }
}

// The same, where a part of the disjunction is put on the left.
#[cycle(over_literals)]
fn over_part(arena: &mut Arena, alloc: Global, end: u32, part: u32) -> Result<u32, AllocError>
    requires end { IsSequentAt arena.old end }
    requires part { IsFormulaAt arena.old part }
    ensures tree { IfOk result (λ n. HasTree arena.new n (literals_tree (adds_to (sequent_at arena.old end) Left (formula_at arena.old part)) (formula_at arena.old part))) }
    ensures grown { Extends arena.old arena.new }
{
    let above = arena.sequent_with(alloc, end, Side::Left, part)?;
    over_literals(arena, alloc, above, part)
}

// The body of a universal formula, or else the formula.
fn body_of(arena: &Arena, formula: u32) -> u32
    requires { IsFormulaAt arena.now formula }
    ensures { HasFormula arena.now result (body_formula (formula_at arena.now formula)) }
{
    match arena.key(formula) {
        Key::All(body) => *body,
        _ => formula,
    }
}

/// The proof of a sequent that has a universal closure on the left, and the literals of an instance of its matrix on their sides: for each
/// variable the term that the map has for it, the outermost first.
pub(crate) fn over_images(
    arena: &mut Arena,
    alloc: Global,
    end: u32,
    vars: &[Var],
    formula: u32,
    map: u32,
) -> Result<u32, AllocError>
    requires end { IsSequentAt arena.old end }
    requires formula { IsFormulaAt arena.old formula }
    requires map { IsMapAt arena.old map }
    ensures tree { IfOk result (λ n. HasTree arena.new n (over_terms (sequent_at arena.old end) (each (λ (x : Variable). image_term (fin.get (map_at arena.old map)) (free x)) vars.now) (formula_at arena.old formula))) }
    ensures grown { Extends arena.old arena.new }
{
    let Some((var, rest)) = vars.split_first() else {
        return over_literals(arena, alloc, end, formula);
    };
    let var = arena.import_variable(alloc, var)?;
    let term = arena.image_of_term(alloc, map, var)?;
    let next = arena.instance(alloc, body_of(arena, formula), term)?;
    let above = arena.sequent_with(alloc, end, Side::Left, next)?;
    let premise = over_images(arena, alloc, above, rest, next, map)?;
    let rule = RuleKey::AllL(formula, term);
    inference(arena, alloc, rule, end, Parts::One(premise))
}
