//! Expansion trees on sides, out of which instances may be taken.
ghost use Rattle.std.specs.Prelude.{◌≡◌, ◌++◌, map, IfOk, IsSome, is_some};
ghost use Rattle.expansion_laws.specs.Expansions.{weak};
ghost use Rattle.expansion_laws.specs.Dependency.{strongs, strongs_in};
ghost use Rattle.exp_tree.specs.Shown.{insts_of};
ghost use Rattle.arena_cells.specs.Standing.{Extends};
ghost use Rattle.building_laws.specs.Lists.{on};
ghost use Rattle.building_laws.specs.Building.{parts};
ghost use Rattle.arena_building.specs.Choosing.{instances_in, ready_in, first_closed};
ghost use Rattle.arena_building.specs.Leaves.{is_truth_leaf, is_falsity_leaf, leaf_number};
ghost use Rattle.arena_building.specs.Numbered.{numbered, IsNumbered};
ghost use Rattle.arena_building.specs.Shown.{tree_of};

use crate::instances::first_ready;
use arena::Arena;
use exp_tree::{Exp, ExpRoot, Inst, push_strongs};
use fol::{Formula, FormulaNode, Var};
use free_variables::Vars;
use lk_rules::Side;
use std::alloc::{AllocError, Global};
use std::marker::Model;

/// What stands at the root of an expansion tree, lent by the tree. Of a weak quantifier's instances those are there that weren't taken yet.
#[derive(Drop)]
pub(crate) enum Root<'e> {
    Wk(&'e Formula),
    Leaf(&'e Formula),
    Not(&'e Exp),
    And(&'e Exp, &'e Exp),
    Or(&'e Exp, &'e Exp),
    Imp(&'e Exp, &'e Exp),
    Weak(&'e Formula, Vec<&'e Inst>),
    Strong(&'e Formula, &'e Var, &'e Exp),
}

/// An expansion tree on a side, with the number of its formula. Of a weak quantifier's tree instances may have been taken away.
#[derive(Drop)]
pub(crate) struct PlacedExp<'e> {
    side: Side,
    formula: u32,
    root: Root<'e>,
}

impl<'e> Model for PlacedExp<'e> {
    ghost use Rattle.building_laws.specs.Lists.{on};
    ghost use Rattle.arena_building.specs.Numbered.{Numbered, coded_numbered};

    ghost Value = { Numbered };

    ghost coded = { coded_numbered };

    ghost use Rattle.arena_building.specs.Shown.{tree_of};

    ghost view = { λ p. record { placed = on p.side (tree_of p.root); formula = p.formula } };
}

// The instances, lent.
fn lent(alloc: Global, instances: &[Inst]) -> Result<Vec<&Inst>, AllocError>
    ensures { IfOk result (λ list. map (λ i. i.now) list.items ≡ instances.now) }
{
    let mut list = Vec::with_capacity(alloc, instances.len())?;
    for instance in instances {
        list.push(instance)?;
    }
    Ok(list)
}

// What stands at the root of a tree.
fn root_of(alloc: Global, tree: &Exp) -> Result<Root<'_>, AllocError>
    ensures { IfOk result (λ root. tree_of root ≡ tree.now) }
{
    Ok(match tree.root() {
        ExpRoot::Wk(formula) => Root::Wk(formula),
        ExpRoot::Leaf(formula) => Root::Leaf(formula),
        ExpRoot::Not(body) => Root::Not(body),
        ExpRoot::And(first, second) => Root::And(first, second),
        ExpRoot::Or(first, second) => Root::Or(first, second),
        ExpRoot::Imp(first, second) => Root::Imp(first, second),
        ExpRoot::Weak(formula, instances) => Root::Weak(formula, lent(alloc, instances)?),
        ExpRoot::Strong(formula, var, child) => Root::Strong(formula, var, child),
    })
}

impl<'e> Root<'e> {
    // The same root.
    fn copy(&self, alloc: Global) -> Result<Root<'e>, AllocError>
        ensures { IfOk result (λ copy. tree_of copy ≡ tree_of self.now) }
    {
        Ok(match self {
            Root::Wk(formula) => Root::Wk(*formula),
            Root::Leaf(formula) => Root::Leaf(*formula),
            Root::Not(body) => Root::Not(*body),
            Root::And(first, second) => Root::And(*first, *second),
            Root::Or(first, second) => Root::Or(*first, *second),
            Root::Imp(first, second) => Root::Imp(*first, *second),
            Root::Weak(formula, instances) => {
                Root::Weak(*formula, Vec::from_slice(alloc, instances)?)
            }
            Root::Strong(formula, var, child) => Root::Strong(*formula, *var, *child),
        })
    }
}

impl<'e> PlacedExp<'e> {
    /// A tree on a side, with the number of its formula.
    pub fn new(
        alloc: Global,
        side: Side,
        formula: u32,
        tree: &'e Exp,
    ) -> Result<PlacedExp<'e>, AllocError>
        ensures { IfOk result (λ p. p ≡ numbered side tree.now formula) }
    {
        let root = root_of(alloc, tree)?;
        Ok(PlacedExp {
            side,
            formula,
            root,
        })
    }

    /// The tree of a weak quantifier with these instances.
    pub fn weak(
        side: Side,
        number: u32,
        formula: &'e Formula,
        instances: Vec<&'e Inst>,
    ) -> PlacedExp<'e>
        ensures { result ≡ numbered side (weak formula.now (insts_of (map (λ i. i.now) instances.entry.items))) number }
    {
        PlacedExp {
            side,
            formula: number,
            root: Root::Weak(formula, instances),
        }
    }

    /// The same tree.
    pub fn copy(&self, alloc: Global) -> Result<PlacedExp<'e>, AllocError>
        ensures { IfOk result (λ copy. copy ≡ self.now) }
    {
        let root = self.root.copy(alloc)?;
        Ok(PlacedExp {
            side: self.side,
            formula: self.formula,
            root,
        })
    }

    /// The side.
    pub fn side(&self) -> Side
        ensures { result ≡ self.now.placed.side }
    {
        self.side
    }

    /// The number of the tree's formula.
    pub fn formula(&self) -> u32
        ensures { result ≡ self.now.formula }
    {
        self.formula
    }

    /// What stands at the root.
    pub fn into_root(self) -> Root<'e>
        ensures { tree_of result ≡ self.entry.placed.tree }
    {
        let PlacedExp { root, .. } = self;
        root
    }

    /// Whether a connective or a strong quantifier stands at the root.
    pub fn is_compound(&self) -> bool
        ensures { result ≡ is_some (parts self.now.placed) }
    {
        match self.root {
            Root::Not(_) | Root::And(..) | Root::Or(..) | Root::Imp(..) | Root::Strong(..) => true,
            Root::Wk(_) | Root::Leaf(_) | Root::Weak(..) => false,
        }
    }

    /// The number of the tree's formula, where the tree is a leaf on the side.
    pub fn leaf_on(&self, side: Side) -> Option<u32>
        ensures { result ≡ leaf_number side self.now }
    {
        match self.root {
            Root::Leaf(_) if self.side == side => Some(self.formula),
            _ => None,
        }
    }

    /// Whether the tree is a leaf of truth on the right.
    pub fn is_truth(&self) -> bool
        ensures { result ≡ is_truth_leaf self.now }
    {
        match (self.side, &self.root) {
            (Side::Right, Root::Leaf(formula)) => matches!(formula.node(), FormulaNode::Top),
            _ => false,
        }
    }

    /// Whether the tree is a leaf of falsity on the left.
    pub fn is_falsity(&self) -> bool
        ensures { result ≡ is_falsity_leaf self.now }
    {
        match (self.side, &self.root) {
            (Side::Left, Root::Leaf(formula)) => matches!(formula.node(), FormulaNode::Bot),
            _ => false,
        }
    }

    /// The place of the first instance whose term has no variable of the set, where a weak quantifier stands at the root.
    pub fn ready(&self, vars: &Vars) -> Option<usize>
        ensures { result ≡ ready_in vars.now self.now.placed.tree }
    {
        match &self.root {
            Root::Weak(_, instances) => first_ready(vars, instances),
            _ => None,
        }
    }

    /// Whether the term of the first instance has no free variable, where a weak quantifier with one stands at the root.
    pub fn first_closed(&self) -> Option<bool>
        ensures { result ≡ first_closed self.now.placed.tree }
    {
        match &self.root {
            Root::Weak(_, instances) if !instances.is_empty() => {
                Some(!instances[0].term.has_free())
            }
            _ => None,
        }
    }

    /// A weak quantifier's formula and its instances.
    pub fn into_weak(self) -> (&'e Formula, Vec<&'e Inst>)
        requires { IsSome (instances_in self.placed.tree) }
        ensures { self.entry.placed.tree ≡ weak result.0.now (insts_of (map (λ i. i.now) result.1.items)) }
    {
        match self.into_root() {
            Root::Weak(formula, instances) => (formula, instances),
            _ => unreachable!(),
        }
    }

    /// Appends the variables of the strong quantifiers of the tree. After an error some of them may stand there.
    pub fn push_vars(&self, vars: &mut Vec<Var>) -> Result<(), AllocError>
        ensures { IfOk result (λ _. vars.new.items ≡ vars.old.items ++ strongs self.now.placed.tree) }
    {
        match &self.root {
            Root::Wk(_) | Root::Leaf(_) => Ok(()),
            Root::Not(body) => push_strongs(vars, body),
            Root::And(first, second) | Root::Or(first, second) | Root::Imp(first, second) => {
                push_strongs(vars, first)?;
                push_strongs(vars, second)
            }
            Root::Weak(_, instances) => push_vars_in(vars, instances),
            Root::Strong(_, var, child) => {
                vars.push(var.copy()?)?;
                push_strongs(vars, child)
            }
        }
    }
}

// Appends those of the trees of instances.
fn push_vars_in(vars: &mut Vec<Var>, instances: &[&Inst]) -> Result<(), AllocError>
    ensures { IfOk result (λ _. vars.new.items ≡ vars.old.items ++ strongs_in (insts_of (map (λ i. i.now) instances.now))) }
{
    for instance in instances {
        push_strongs(vars, &instance.child)?;
    }
    Ok(())
}

/// A tree on a side, whose formula comes into the arena.
#[tactic(auto, using(arena_cells::proofs::Facts::places))]
pub(crate) fn place_tree<'e>(
    arena: &mut Arena,
    alloc: Global,
    side: Side,
    tree: &'e Exp,
) -> Result<PlacedExp<'e>, AllocError>
    ensures placed { IfOk result (λ p. p.placed ≡ on side tree.now) }
    ensures number { IfOk result (IsNumbered arena.new) }
    ensures grown { Extends arena.old arena.new }
{
    let formula = arena.import_formula(alloc, &tree.shallow()?)?;
    PlacedExp::new(alloc, side, formula, tree)
}
