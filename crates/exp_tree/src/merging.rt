//! Merging of two trees of one formula.
ghost use Rattle.std.specs.Prelude.{◌≡◌, ◌<◌, ◌≤◌, ◌+◌, [], ◌∷◌, ◌++◌, length, drop, IfOk};
ghost use Rattle.expansion_laws.specs.Expansions.{neg, conj, disj, impl, weak, strong};
ghost use Rattle.exp_tree.specs.Shown.{insts_of};
ghost use Rattle.exp_tree.specs.Merging.{merged, merged_in, followed, CanMerge, CanMergeInsts};

use crate::expansion::{Exp, ExpRoot, Inst};
use fol::{Formula, Term, Var};
use std::alloc::{AllocError, Global};
use std::cmp::Ordering;

/// The tree that has the marks of two trees of one formula, after Miller (1987). What one tree never uses is as in the other, and at a weak
/// quantifier stand the instances of either tree. What is in one tree alone is shared, and it takes O(n) steps for n nodes that are in both.
#[cycle(merge)]
pub fn merge(alloc: Global, first: &Exp, second: &Exp) -> Result<Exp, AllocError>
    requires { CanMerge first.now second.now }
    ensures { IfOk result (λ e. e ≡ merged first.now second.now) }
{
    match first.root() {
        ExpRoot::Wk(_) => second.copy(),
        ExpRoot::Leaf(_) => first.copy(),
        ExpRoot::Not(body) => merge_not(alloc, first, body, second),
        ExpRoot::And(one, other) => merge_and(alloc, first, one, other, second),
        ExpRoot::Or(one, other) => merge_or(alloc, first, one, other, second),
        ExpRoot::Imp(one, other) => merge_imp(alloc, first, one, other, second),
        ExpRoot::Weak(formula, instances) => {
            merge_weak(alloc, first, formula, instances, second)
        }
        ExpRoot::Strong(formula, var, child) => {
            merge_strong(alloc, first, formula, var, child, second)
        }
    }
}

// A negation and another tree.
#[cycle(merge)]
fn merge_not(alloc: Global, first: &Exp, body: &Exp, second: &Exp) -> Result<Exp, AllocError>
    requires can { CanMerge first.now second.now }
    requires root { first.now ≡ neg body.now }
    ensures { IfOk result (λ e. e ≡ merged first.now second.now) }
{
    match second.root() {
        ExpRoot::Not(other) => {
            let body = merge(alloc, body, other)?;
            Exp::not(alloc, body)
        }
        _ => first.copy(),
    }
}

// A conjunction and another tree.
#[cycle(merge)]
fn merge_and(
    alloc: Global,
    first: &Exp,
    one: &Exp,
    other: &Exp,
    second: &Exp,
) -> Result<Exp, AllocError>
    requires can { CanMerge first.now second.now }
    requires root { first.now ≡ conj one.now other.now }
    ensures { IfOk result (λ e. e ≡ merged first.now second.now) }
{
    match second.root() {
        ExpRoot::And(third, fourth) => {
            let one = merge(alloc, one, third)?;
            let other = merge(alloc, other, fourth)?;
            Exp::and(alloc, one, other)
        }
        _ => first.copy(),
    }
}

// A disjunction and another tree.
#[cycle(merge)]
fn merge_or(
    alloc: Global,
    first: &Exp,
    one: &Exp,
    other: &Exp,
    second: &Exp,
) -> Result<Exp, AllocError>
    requires can { CanMerge first.now second.now }
    requires root { first.now ≡ disj one.now other.now }
    ensures { IfOk result (λ e. e ≡ merged first.now second.now) }
{
    match second.root() {
        ExpRoot::Or(third, fourth) => {
            let one = merge(alloc, one, third)?;
            let other = merge(alloc, other, fourth)?;
            Exp::or(alloc, one, other)
        }
        _ => first.copy(),
    }
}

// An implication and another tree.
#[cycle(merge)]
fn merge_imp(
    alloc: Global,
    first: &Exp,
    one: &Exp,
    other: &Exp,
    second: &Exp,
) -> Result<Exp, AllocError>
    requires can { CanMerge first.now second.now }
    requires root { first.now ≡ impl one.now other.now }
    ensures { IfOk result (λ e. e ≡ merged first.now second.now) }
{
    match second.root() {
        ExpRoot::Imp(third, fourth) => {
            let one = merge(alloc, one, third)?;
            let other = merge(alloc, other, fourth)?;
            Exp::imp(alloc, one, other)
        }
        _ => first.copy(),
    }
}

// A weak quantifier and another tree.
#[cycle(merge)]
fn merge_weak(
    alloc: Global,
    first: &Exp,
    formula: &Formula,
    instances: &[Inst],
    second: &Exp,
) -> Result<Exp, AllocError>
    requires can { CanMerge first.now second.now }
    requires root { first.now ≡ weak formula.now (insts_of instances.now) }
    ensures { IfOk result (λ e. e ≡ merged first.now second.now) }
{
    match second.root() {
        ExpRoot::Weak(_, others) => {
            first.known();
            second.known();
            let instances = merge_instances(alloc, instances, others)?;
            Exp::weak(alloc, formula.copy()?, instances)
        }
        _ => first.copy(),
    }
}

// A strong quantifier and another tree.
#[cycle(merge)]
fn merge_strong(
    alloc: Global,
    first: &Exp,
    formula: &Formula,
    var: &Var,
    child: &Exp,
    second: &Exp,
) -> Result<Exp, AllocError>
    requires can { CanMerge first.now second.now }
    requires root { first.now ≡ strong formula.now var.now child.now }
    ensures { IfOk result (λ e. e ≡ merged first.now second.now) }
{
    match second.root() {
        ExpRoot::Strong(_, _, other) => {
            first.known();
            second.known();
            let child = merge(alloc, child, other)?;
            Exp::strong(alloc, formula.copy()?, var.copy()?, child)
        }
        _ => first.copy(),
    }
}

// The instances of two lists by rising term, by one walk over both.
#[cycle(merge)]
fn merge_instances(alloc: Global, some: &[Inst], others: &[Inst]) -> Result<Vec<Inst>, AllocError>
    requires { CanMergeInsts (insts_of some.now) (insts_of others.now) }
    ensures { IfOk result (λ is. insts_of is.items ≡ merged_in (insts_of some.now) (insts_of others.now)) }
{
    let mut list = Vec::new(alloc);
    let mut i = 0;
    let mut j = 0;
    while i < some.len() && j < others.len() {
        let next = push_next(alloc, &mut list, some, i, others, j)?;
        i = next.0;
        j = next.1;
    }
    push_instances(&mut list, &some[i..])?;
    push_instances(&mut list, &others[j..])?;
    Ok(list)
}

// Appends the first of the instances from the places i and j on, or both merged where they have one term, and answers the places after that.
#[cycle(merge)]
fn push_next(
    alloc: Global,
    list: &mut Vec<Inst>,
    some: &[Inst],
    i: usize,
    others: &[Inst],
    j: usize,
) -> Result<(usize, usize), AllocError>
    requires can { CanMergeInsts (insts_of some.now) (insts_of others.now) }
    requires first { i < length some.now }
    requires second { j < length others.now }
    ensures within { IfOk result (λ p. (p.0 ≤ length some.now) × (p.1 ≤ length others.now)) }
    ensures further { IfOk result (λ p. (i ≤ p.0) × (j ≤ p.1) × (i + j < p.0 + p.1)) }
    ensures next { IfOk result (λ p. followed list.new.items (merged_in (insts_of (drop p.0 some.now)) (insts_of (drop p.1 others.now))) ≡ followed list.old.items (merged_in (insts_of (drop i some.now)) (insts_of (drop j others.now)))) }
{
    let first = &some[i];
    let second = &others[j];
    match first.term.cmp(&second.term) {
        Ordering::Less => {
            push_instance(list, first)?;
            Ok((i + 1, j))
        }
        Ordering::Equal => {
            let child = merge(alloc, &first.child, &second.child)?;
            push_child(list, &first.term, child)?;
            Ok((i + 1, j + 1))
        }
        Ordering::Greater => {
            push_instance(list, second)?;
            Ok((i, j + 1))
        }
    }
}

// Appends the instance by a term, with its tree.
fn push_child(list: &mut Vec<Inst>, term: &Term, child: Exp) -> Result<(), AllocError>
    ensures { IfOk result (λ _. list.new.items ≡ list.old.items ++ record { term = term.now; child = child } ∷ []) }
{
    let term = term.copy()?;
    list.push(Inst { term, child })?;
    Ok(())
}

// Appends an instance, whose tree is shared.
fn push_instance(list: &mut Vec<Inst>, instance: &Inst) -> Result<(), AllocError>
    ensures { IfOk result (λ _. list.new.items ≡ list.old.items ++ instance.now ∷ []) }
{
    push_child(list, &instance.term, instance.child.copy()?)
}

// Appends instances, whose trees are shared.
fn push_instances(list: &mut Vec<Inst>, instances: &[Inst]) -> Result<(), AllocError>
    ensures { IfOk result (λ _. list.new.items ≡ list.old.items ++ instances.now) }
{
    for instance in instances {
        push_instance(list, instance)?;
    }
    Ok(())
}
