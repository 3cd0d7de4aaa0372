//! The trees read off from what is marked.
ghost use Rattle.std.specs.Prelude.{◌≡◌, ◌<◌, true, map, IfOk};
ghost use Rattle.std.specs.List.{All};
ghost use Rattle.fol.specs.Syntax.{free};
ghost use Rattle.fol.specs.Formed.{IsFormed};
ghost use Rattle.fol.specs.Order.{formula_cmp};
ghost use Rattle.finite.specs.Finite as set;
ghost use Rattle.substitution.specs.Instance.{IsOpenBody};
ghost use Rattle.extraction_laws.specs.Addresses.{part, body_of, formula_at};
ghost use Rattle.extraction_laws.specs.States.{variable_at, terms_at, instances_by, weak_at, strong_at};
ghost use Rattle.exp_tree.specs.Shown.{insts_of};
ghost use Rattle.expansion_laws.specs.Formed.{are_formed_insts};
ghost use Rattle.exp_extract.specs.Marked.{address_at, IsPlace};
ghost use Rattle.exp_extract.specs.Quantifiers.{IsWeakAt};
ghost use Rattle.exp_extract.specs.Reading.{tree_of, instance_tree};

use crate::marks::Marks;
use exp_tree::{Exp, Exps, Inst};
use extraction_laws::laws;
use fol::{Formula, FormulaNode, Term};
use lk_rules::Side;
use std::alloc::{AllocError, Global};
use substitution::instance;

/// The tree at an address.
#[cycle(read)]
pub(crate) fn read_tree(alloc: Global, marks: &Marks, place: u32) -> Result<Exp, AllocError>
    requires { IsPlace marks.now place }
    ensures { IfOk result (λ e. e ≡ tree_of marks.now (address_at marks.now place)) }
{
    laws::trees();
    let formula = marks.places.formula(place);
    if !marks.is_used(place) {
        return Exp::wk(alloc, formula.copy()?);
    }
    match formula.node() {
        FormulaNode::Atom(_, _) | FormulaNode::Top | FormulaNode::Bot => {
            Exp::leaf(alloc, formula.copy()?)
        }
        FormulaNode::Not(body) => Exp::not(alloc, read_part(alloc, marks, place, 0, body)?),
        FormulaNode::And(first, second) => {
            let first = read_part(alloc, marks, place, 0, first)?;
            let second = read_part(alloc, marks, place, 1, second)?;
            Exp::and(alloc, first, second)
        }
        FormulaNode::Or(first, second) => {
            let first = read_part(alloc, marks, place, 0, first)?;
            let second = read_part(alloc, marks, place, 1, second)?;
            Exp::or(alloc, first, second)
        }
        FormulaNode::Imp(first, second) => {
            let first = read_part(alloc, marks, place, 0, first)?;
            let second = read_part(alloc, marks, place, 1, second)?;
            Exp::imp(alloc, first, second)
        }
        FormulaNode::All(body) => match marks.places.side(place) {
            Side::Left => read_weak(alloc, marks, place),
            Side::Right => read_strong(alloc, marks, place, body),
        },
        FormulaNode::Ex(body) => match marks.places.side(place) {
            Side::Left => read_strong(alloc, marks, place, body),
            Side::Right => read_weak(alloc, marks, place),
        },
    }
}

// The tree of a part. A part that has no number isn't used.
#[cycle(read)]
fn read_part(
    alloc: Global,
    marks: &Marks,
    place: u32,
    number: u64,
    formula: &Formula,
) -> Result<Exp, AllocError>
    requires place { IsPlace marks.now place }
    requires number { number < 2 }
    requires formula { formula.now ≡ formula_at (part (address_at marks.now place) number) }
    requires formed { IsFormed formula.now }
    ensures { IfOk result (λ e. e ≡ tree_of marks.now (part (address_at marks.now place) number)) }
{
    laws::trees();
    match marks.places.part(place, number) {
        Some(there) => read_tree(alloc, marks, there),
        None => Exp::wk(alloc, formula.copy()?),
    }
}

// The tree of a quantifier that may have several instances.
#[cycle(read)]
fn read_weak(alloc: Global, marks: &Marks, place: u32) -> Result<Exp, AllocError>
    requires place { IsPlace marks.now place }
    requires weak { IsWeakAt (address_at marks.now place) }
    requires tree { tree_of marks.now (address_at marks.now place) ≡ weak_at marks.now.state (address_at marks.now place) (instance_tree marks.now (address_at marks.now place)) }
    ensures { IfOk result (λ e. e ≡ tree_of marks.now (address_at marks.now place)) }
{
    let instances = read_instances(alloc, marks, place)?;
    Exp::weak(alloc, marks.places.formula(place).copy()?, instances)
}

// The instances at a quantifier that may have several, with their trees.
#[cycle(read)]
fn read_instances(alloc: Global, marks: &Marks, place: u32) -> Result<Vec<Inst>, AllocError>
    requires place { IsPlace marks.now place }
    requires weak { IsWeakAt (address_at marks.now place) }
    ensures instances { IfOk result (λ is. insts_of is.items ≡ instances_by (instance_tree marks.now (address_at marks.now place)) (terms_at marks.now.state (address_at marks.now place))) }
    ensures formed { IfOk result (λ is. are_formed_insts (insts_of is.items) ≡ true) }
{
    let mut instances = Vec::new(alloc);
    for (term, instance) in marks.places.vias(place) {
        let child = read_tree(alloc, marks, *instance)?;
        child.known();
        let term = term.copy()?;
        instances.push(Inst { term, child })?;
    }
    Ok(instances)
}

// The tree of the instance by the variable of a strong quantifier. An instance that has no number isn't used.
#[cycle(read)]
fn read_witness(alloc: Global, marks: &Marks, place: u32, body: &Formula) -> Result<Exp, AllocError>
    requires place { IsPlace marks.now place }
    requires body { body.now ≡ body_of (formula_at (address_at marks.now place)) }
    requires open { IsOpenBody body.now }
    ensures { IfOk result (λ e. e ≡ instance_tree marks.now (address_at marks.now place) (free (variable_at marks.now.outside marks.now.state (address_at marks.now place)))) }
{
    laws::trees();
    let variable = marks.variable_term(place);
    match marks.places.via(place, variable) {
        Some(there) => read_tree(alloc, marks, there),
        None => Exp::wk(alloc, instance(alloc, body, variable)?),
    }
}

// The tree of a quantifier with an instance by its variable.
#[cycle(read)]
fn read_strong(alloc: Global, marks: &Marks, place: u32, body: &Formula) -> Result<Exp, AllocError>
    requires place { IsPlace marks.now place }
    requires strong { tree_of marks.now (address_at marks.now place) ≡ strong_at marks.now.outside marks.now.state (address_at marks.now place) (instance_tree marks.now (address_at marks.now place)) }
    requires body { body.now ≡ body_of (formula_at (address_at marks.now place)) }
    requires open { IsOpenBody body.now }
    ensures { IfOk result (λ e. e ≡ tree_of marks.now (address_at marks.now place)) }
{
    let variable = marks.variable(place)?;
    let child = read_witness(alloc, marks, place, body)?;
    Exp::strong(alloc, marks.places.formula(place).copy()?, variable, child)
}

/// The trees at addresses whose formulas rise.
pub(crate) fn read_side(alloc: Global, marks: &Marks, places: &[u32]) -> Result<Exps, AllocError>
    requires places { All (IsPlace marks.now) places.now }
    requires rises { set.IsRising formula_cmp (map (λ n. formula_at (address_at marks.now n)) places.now) }
    ensures { IfOk result (λ es. es ≡ map (λ n. tree_of marks.now (address_at marks.now n)) places.now) }
{
    let mut trees = Vec::with_capacity(alloc, places.len())?;
    for place in places {
        let tree = read_tree(alloc, marks, *place)?;
        tree.known();
        trees.push(tree)?;
    }
    Ok(Exps::from_vec(trees))
}
