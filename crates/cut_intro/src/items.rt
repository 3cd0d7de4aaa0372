//! The Herbrand instances of expansion trees, and their sequent.
ghost use Rattle.std.specs.Prelude.{◌≡◌, ◌++◌, true, map, IfOk};
ghost use Rattle.std.specs.List.{All, flat_map};
ghost use Rattle.fol.specs.Formed.{IsFormed};
ghost use Rattle.finite.specs.Finite as set;
ghost use Rattle.expansion_laws.specs.Expansions.{shallow};
ghost use Rattle.exp_tree.specs.Reads.{expansion_of};
ghost use Rattle.herbrand_laws.specs.Herbrand.{is_prenex, matrix_instance as matrix_by, item_of as item_on, items_of as items_of_trees, on_side, matrix_instances, herbrand_sequent as herbrand_sequent_of};
ghost use Rattle.cut_intro.specs.Instances.{AreFormedTuples};
ghost use Rattle.cut_intro.specs.Instancing.{ArePrenex};

use crate::matrices::matrix_instance;
use crate::tuples::tuples;
use delta_table::{Instances, Item, Items, Tuples, prefix};
use exp_tree::{Exp, ExpSequent};
use fol::{Formula, Terms};
use herbrand_laws::laws;
use lk_rules::{Formulas, Sequent, Side};
use std::alloc::{AllocError, Global};

// The item of a tree on a side.
fn item_of(alloc: Global, side: Side, tree: &Exp) -> Result<Item, AllocError>
    requires { is_prenex side (shallow tree.now) ≡ true }
    ensures { IfOk result (λ item. item ≡ item_on side tree.now) }
{
    laws::tuples_of_trees();
    tree.known();
    let formula = tree.shallow()?;
    let tuples = tuples(alloc, prefix(side, &formula), tree)?;
    let tuples = Tuples::from_rising(tuples);
    Ok(Item::new(side, formula, tuples))
}

// Appends the items of trees on a side.
fn push_items(
    alloc: Global,
    items: &mut Vec<Item>,
    side: Side,
    trees: &[Exp],
) -> Result<(), AllocError>
    requires { All (λ e. is_prenex side (shallow e) ≡ true) trees.now }
    ensures { IfOk result (λ _. items.new.items ≡ items.old.items ++ map (item_on side) trees.now) }
{
    for tree in trees {
        items.push(item_of(alloc, side, tree)?)?;
    }
    Ok(())
}

/// The instances of the trees' formulas, which are weak quantifiers over formulas without quantifiers.
pub(crate) fn items_of(alloc: Global, exps: &ExpSequent) -> Result<Instances, AllocError>
    requires { ArePrenex (expansion_of exps.now) }
    ensures { IfOk result (λ instances. instances ≡ items_of_trees (expansion_of exps.now)) }
{
    let mut items = Vec::new(alloc);
    push_items(alloc, &mut items, Side::Left, exps.left.as_slice())?;
    push_items(alloc, &mut items, Side::Right, exps.right.as_slice())?;
    Ok(Instances::new(Items::from_vec(items)))
}

// Appends the matrix instances of a formula by tuples.
fn push_matrices(
    alloc: Global,
    list: &mut Vec<Formula>,
    formula: &Formula,
    tuples: &[Terms],
) -> Result<(), AllocError>
    requires formula { IsFormed formula.now }
    requires tuples { AreFormedTuples tuples.now }
    requires list { All IsFormed list.old.items }
    ensures items { IfOk result (λ _. list.new.items ≡ list.old.items ++ map (λ us. matrix_by us formula.now) tuples.now) }
    ensures formed { All IsFormed list.new.items }
{
    for tuple in tuples {
        list.push(matrix_instance(alloc, formula, tuple)?)?;
    }
    Ok(())
}

// Appends the matrix instances of the item, if it is on the side.
fn push_on_side(
    alloc: Global,
    list: &mut Vec<Formula>,
    side: Side,
    item: &Item,
) -> Result<(), AllocError>
    requires { All IsFormed list.old.items }
    ensures items { IfOk result (λ _. list.new.items ≡ list.old.items ++ on_side side item.now.side (map (λ us. matrix_by us item.now.formula) item.now.tuples)) }
    ensures formed { All IsFormed list.new.items }
{
    let tuples = item.tuples().as_slice();
    match (side, item.side()) {
        (Side::Left, Side::Left) | (Side::Right, Side::Right) => {
            push_matrices(alloc, list, item.formula(), tuples)
        }
        (Side::Left, Side::Right) | (Side::Right, Side::Left) => Ok(()),
    }
}

// The matrix instances on a side.
fn matrices_on(alloc: Global, side: Side, items: &[Item]) -> Result<Formulas, AllocError>
    ensures { IfOk result (λ formulas. formulas ≡ set.of_list (matrix_instances side items.now)) }
{
    let mut list = Vec::new(alloc);
    for item in items {
        push_on_side(alloc, &mut list, side, item)?;
    }
    Formulas::from_vec(alloc, list)
}

/// The Herbrand sequent, after Herbrand (1930): for each formula the instances of its matrix by its tuples. It has no quantifier. Where the
/// instances are those of a proof, as `herbrand` answers, it is a tautology.
pub fn herbrand_sequent(alloc: Global, instances: &Instances) -> Result<Sequent, AllocError>
    ensures { IfOk result (λ sequent. sequent ≡ herbrand_sequent_of instances.now) }
{
    let left = matrices_on(alloc, Side::Left, instances.items())?;
    let right = matrices_on(alloc, Side::Right, instances.items())?;
    Ok(Sequent { left, right })
}
