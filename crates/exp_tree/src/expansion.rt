//! Expansion trees with shared nodes.
ghost use Rattle.std.specs.Prelude.{◌≡◌, true, false, IfOk};
ghost use Rattle.fol.specs.Formed.{IsFormed};
ghost use Rattle.lk_rules.specs.declared.sequent.Side.TheVariants.{Left, Right};
ghost use Rattle.expansion_laws.specs.Expansions.{shallow as formula_of};
ghost use Rattle.expansion_laws.specs.Proofs.{stands as can_stand, is_weak_on, is_strong_on};
ghost use Rattle.exp_tree.specs.Sizes.{exp_nodes, capped};
ghost use Rattle.expansion_laws.specs.Formed.{IsProper};
ghost use Rattle.exp_tree.specs.Shown.{exp_of, insts_of, AreFacts, AreInstsFacts};

use crate::facts::Facts;
use fol::{Formula, FormulaNode, Term, Var};
use lk_rules::Side;
use std::alloc::{AllocError, Global};
use std::marker::Model;
use std::sync::Arc;

/// An expansion tree: for a formula, which instances of its quantifiers a proof uses. It is rightly built of well-formed formulas.
#[cycle(exp)]
pub struct Exp {
    cell: Arc<ExpCell>,
}

// The root of a tree, with what is kept of the whole. The formula is not kept where it would be too large.
#[cycle(exp)]
#[derive(Drop)]
pub(crate) struct ExpCell {
    facts: Facts,
    shallow: Option<Formula>,
    root: ExpRoot,
}

/// What stands at the root of an expansion tree.
#[cycle(exp)]
#[derive(Drop)]
pub enum ExpRoot {
    /// A formula that is never used.
    Wk(Formula),
    /// An atom, truth or falsity that is used.
    Leaf(Formula),
    Not(Exp),
    And(Exp, Exp),
    Or(Exp, Exp),
    Imp(Exp, Exp),
    /// A weak quantifier's formula, with the instances that are used. Their terms rise without repeats.
    Weak(Formula, Vec<Inst>),
    /// A strong quantifier's formula, its variable, and the instance by that.
    Strong(Formula, Var, Exp),
}

/// An instance at a weak quantifier: the term, and the tree of the instance by it.
#[cycle(exp)]
#[derive(Drop)]
pub struct Inst {
    pub term: Term,
    pub child: Exp,
}

impl Model for Exp {
    ghost use Rattle.expansion_laws.specs.Expansions.{Exp as Tree};
    ghost use Rattle.exp_tree.specs.Codes.{coded_exp};

    ghost Value = { Tree };

    ghost coded = { coded_exp };

    ghost use Rattle.exp_tree.specs.Sizes.{exp_nodes};
    ghost use Rattle.exp_tree.specs.Shown.{exp_of, IsCell};

    ghost view = { λ e. exp_of e.cell.value.root };

    ghost invariant = { λ e. IsCell e.cell.value };

    ghost size = { exp_nodes };

    ghost use Rattle.std.proofs.Common.{arith};
    ghost use Rattle.exp_tree.specs.Falling.{falls};

    ghost size_decreases = { λ a h. omega (arith, falls a.cell.value.root) };
}

impl Drop for Exp {
    #[cycle(exp_drop)]
    fn drop(self) {
        let Exp { cell } = self;
        drop(cell);
    }
}

impl Exp {
    /// The tree at whose root the node stands.
    pub(crate) fn of(alloc: Global, root: ExpRoot) -> Result<Exp, AllocError>
        requires { IsProper (exp_of root) }
        ensures { IfOk result (λ e. e ≡ exp_of root) }
    {
        let facts = facts_of(&root);
        let shallow = formula_at(alloc, &root).ok();
        let cell = ExpCell {
            facts,
            shallow,
            root,
        };
        let cell = Arc::new(alloc, cell)?;
        Ok(Exp { cell })
    }

    /// The node at the root.
    pub fn root(&self) -> &ExpRoot
        ensures { exp_of result.now ≡ self.now }
    {
        &self.cell.root
    }

    /// The formula of the tree. It is kept with the root, unless it is too large to be made.
    #[tactic(auto, using(expansion_laws::proofs::FormedFormulas::formula_formed))]
    pub fn shallow(&self) -> Result<Formula, AllocError>
        ensures value { IfOk result (λ f. f ≡ formula_of self.now) }
        ensures formed { IfOk result IsFormed }
    {
        match &self.cell.shallow {
            Some(formula) => formula.copy(),
            None => Err(AllocError),
        }
    }

    /// The number of nodes of the tree, where a part that stands at several places counts at each, cut off at 2^64 - 1.
    pub fn nodes(&self) -> u64
        ensures { result ≡ capped (exp_nodes self.now) }
    {
        self.cell.facts.nodes
    }

    /// Whether the tree can stand on the side: its quantifiers are weak and strong as they are there.
    pub fn stands(&self, side: Side) -> bool
        ensures { result ≡ can_stand side self.now }
    {
        match side {
            Side::Left => self.cell.facts.left,
            Side::Right => self.cell.facts.right,
        }
    }

    /// A tree is rightly built, of well-formed formulas, terms and variables.
    pub fn known(&self)
        ensures { IsProper self.now }
    {
        let _cell = &self.cell;
    }

    fn facts(&self) -> Facts
        ensures { AreFacts result self.now }
    {
        self.cell.facts
    }

    /// Another owner of the same nodes.
    pub fn copy(&self) -> Result<Exp, AllocError>
        ensures { IfOk result (λ e. e ≡ self.now) }
    {
        let cell = Arc::try_clone(&self.cell)?;
        Ok(Exp { cell })
    }
}

// The formula of the tree at whose root the node stands.
fn formula_at(alloc: Global, root: &ExpRoot) -> Result<Formula, AllocError>
    ensures { IfOk result (λ f. f ≡ formula_of (exp_of root.now)) }
{
    match root {
        ExpRoot::Wk(formula)
        | ExpRoot::Leaf(formula)
        | ExpRoot::Weak(formula, _)
        | ExpRoot::Strong(formula, _, _) => formula.copy(),
        ExpRoot::Not(body) => Formula::not(alloc, body.shallow()?),
        ExpRoot::And(first, second) => {
            let (first, second) = formulas_of(first, second)?;
            Formula::and(alloc, first, second)
        }
        ExpRoot::Or(first, second) => {
            let (first, second) = formulas_of(first, second)?;
            Formula::or(alloc, first, second)
        }
        ExpRoot::Imp(first, second) => {
            let (first, second) = formulas_of(first, second)?;
            Formula::imp(alloc, first, second)
        }
    }
}

// The formulas of two trees.
fn formulas_of(first: &Exp, second: &Exp) -> Result<(Formula, Formula), AllocError>
    ensures { IfOk result (λ p. (p.0 ≡ formula_of first.now) × (p.1 ≡ formula_of second.now)) }
{
    let first = first.shallow()?;
    let second = second.shallow()?;
    Ok((first, second))
}

fn is_universal(formula: &Formula) -> bool
    ensures left { result ≡ is_weak_on Left formula.now }
    ensures right { result ≡ is_strong_on Right formula.now }
{
    matches!(formula.node(), FormulaNode::All(_))
}

fn is_existential(formula: &Formula) -> bool
    ensures left { result ≡ is_strong_on Left formula.now }
    ensures right { result ≡ is_weak_on Right formula.now }
{
    matches!(formula.node(), FormulaNode::Ex(_))
}

// What is to be kept of the tree at whose root the node stands.
fn facts_of(root: &ExpRoot) -> Facts
    ensures { AreFacts result (exp_of root.now) }
{
    match root {
        ExpRoot::Wk(_) | ExpRoot::Leaf(_) => Facts::leaf(),
        ExpRoot::Not(body) => body.facts().turned().on_top(true, true),
        ExpRoot::And(first, second) | ExpRoot::Or(first, second) => {
            first.facts().joined(second.facts()).on_top(true, true)
        }
        ExpRoot::Imp(first, second) => first
            .facts()
            .turned()
            .joined(second.facts())
            .on_top(true, true),
        ExpRoot::Weak(formula, instances) => {
            facts_of_instances(instances).on_top(is_universal(formula), is_existential(formula))
        }
        ExpRoot::Strong(formula, _, child) => child
            .facts()
            .on_top(is_existential(formula), is_universal(formula)),
    }
}

// The number of nodes of the trees of instances together, and the sides on which all of them can stand.
fn facts_of_instances(instances: &[Inst]) -> Facts
    ensures { AreInstsFacts result (insts_of instances.now) }
{
    let mut facts = Facts::nothing();
    for instance in instances {
        facts = facts.joined(instance.child.facts());
    }
    facts
}
