//! Trees by their roots.
ghost use Rattle.std.specs.Prelude.{◌≡◌, true, IfOk};
ghost use Rattle.fol.specs.Formed.{IsFormed, IsFormedVar};
ghost use Rattle.fol.specs.Syntax.{free};
ghost use Rattle.expansion_laws.specs.Expansions.{wk, leaf, neg, conj, disj, impl, weak, strong, shallow as formula_of};
ghost use Rattle.expansion_laws.specs.Building.{is_flat, is_instance};
ghost use Rattle.expansion_laws.specs.Formed.{IsProper};
ghost use Rattle.exp_tree.specs.Shown.{insts_of};

use crate::expansion::{Exp, ExpRoot, Inst};
use fol::{Formula, Var};
use std::alloc::{AllocError, Global};

#[tactic(auto, using(crate::proofs::Proper::both_proper, crate::proofs::Proper::strong_proper))]
impl Exp {
    /// The tree of a formula that is never used.
    pub fn wk(alloc: Global, formula: Formula) -> Result<Exp, AllocError>
        requires { IsFormed formula }
        ensures { IfOk result (λ e. e ≡ wk formula) }
    {
        Exp::of(alloc, ExpRoot::Wk(formula))
    }

    /// The tree of an atom, truth or falsity that is used.
    pub fn leaf(alloc: Global, formula: Formula) -> Result<Exp, AllocError>
        requires formed { IsFormed formula }
        requires flat { is_flat formula ≡ true }
        ensures { IfOk result (λ e. e ≡ leaf formula) }
    {
        Exp::of(alloc, ExpRoot::Leaf(formula))
    }

    /// The tree of a negation.
    pub fn not(alloc: Global, body: Exp) -> Result<Exp, AllocError>
        ensures { IfOk result (λ e. e ≡ neg body) }
    {
        body.known();
        Exp::of(alloc, ExpRoot::Not(body))
    }

    /// The tree of a conjunction.
    pub fn and(alloc: Global, first: Exp, second: Exp) -> Result<Exp, AllocError>
        ensures { IfOk result (λ e. e ≡ conj first second) }
    {
        first.known();
        second.known();
        Exp::of(alloc, ExpRoot::And(first, second))
    }

    /// The tree of a disjunction.
    pub fn or(alloc: Global, first: Exp, second: Exp) -> Result<Exp, AllocError>
        ensures { IfOk result (λ e. e ≡ disj first second) }
    {
        first.known();
        second.known();
        Exp::of(alloc, ExpRoot::Or(first, second))
    }

    /// The tree of an implication.
    pub fn imp(alloc: Global, first: Exp, second: Exp) -> Result<Exp, AllocError>
        ensures { IfOk result (λ e. e ≡ impl first second) }
    {
        first.known();
        second.known();
        Exp::of(alloc, ExpRoot::Imp(first, second))
    }

    /// The tree of a weak quantifier with the instances that are used.
    pub fn weak(alloc: Global, formula: Formula, instances: Vec<Inst>) -> Result<Exp, AllocError>
        requires { IsProper (weak formula (insts_of instances.items)) }
        ensures { IfOk result (λ e. e ≡ weak formula (insts_of instances.items)) }
    {
        Exp::of(alloc, ExpRoot::Weak(formula, instances))
    }

    /// The tree of a strong quantifier with its variable and the instance by that.
    pub fn strong(alloc: Global, formula: Formula, var: Var, child: Exp) -> Result<Exp, AllocError>
        requires formed { IsFormed formula }
        requires variable { IsFormedVar var }
        requires instance { is_instance formula (free var) (formula_of child) ≡ true }
        ensures { IfOk result (λ e. e ≡ strong formula var child) }
    {
        child.known();
        Exp::of(alloc, ExpRoot::Strong(formula, var, child))
    }
}
