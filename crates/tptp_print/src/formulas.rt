//! Texts of formulas. `names` has the number of the variable that is printed for each quantifier that can stand around, the outermost first.
ghost use Rattle.std.specs.Prelude.{◌≡◌, ◌++◌, ◌+◌, ◌≤◌, ◌^◌, ◌-◌, true, OnOk, length, slice_index, min};
ghost use Rattle.fol.specs.Formed.{is_formed_at};
ghost use Rattle.tptp_print.specs.Canonical.{formula_text, unit_of, left_of_and, left_of_or, negated, head_text, is_binary as is_binary_formula, is_and as is_conjunction, is_or as is_disjunction, quantifier_depth as depth_of};

use crate::names::push_numbered;
use crate::terms::{is_equality, push_atom};
use fol::{Formula, FormulaNode};
use std::alloc::{AllocError, Global};

/// How many quantifiers are nested in a formula at most; it stops at the largest `usize`.
pub fn quantifier_depth(formula: &Formula) -> usize
    ensures { result ≡ min (depth_of formula.now) (2 ^ 64 - 1) }
{
    match formula.node() {
        FormulaNode::Atom(_, _) | FormulaNode::Top | FormulaNode::Bot => 0,
        FormulaNode::Not(body) => quantifier_depth(body),
        FormulaNode::And(first, second)
        | FormulaNode::Or(first, second)
        | FormulaNode::Imp(first, second) => {
            quantifier_depth(first).max(quantifier_depth(second))
        }
        FormulaNode::All(body) | FormulaNode::Ex(body) => quantifier_depth(body).saturating_add(1),
    }
}

fn is_binary(formula: &Formula) -> bool
    ensures { result ≡ is_binary_formula formula.now }
{
    matches!(
        formula.node(),
        FormulaNode::And(_, _) | FormulaNode::Or(_, _) | FormulaNode::Imp(_, _)
    )
}

fn is_and(formula: &Formula) -> bool
    ensures { result ≡ is_conjunction formula.now }
{
    matches!(formula.node(), FormulaNode::And(_, _))
}

fn is_or(formula: &Formula) -> bool
    ensures { result ≡ is_disjunction formula.now }
{
    matches!(formula.node(), FormulaNode::Or(_, _))
}

#[cycle(formula)]
pub fn push_formula(
    out: &mut Vec<u8>,
    alloc: Global,
    names: &[u64],
    depth: usize,
    formula: &Formula,
) -> Result<(), AllocError>
    requires formed { is_formed_at depth formula.now ≡ true }
    requires named { depth + depth_of formula.now ≤ length names.now }
    ensures { OnOk result (out.new.items ≡ out.old.items ++ formula_text (slice_index names.now) depth formula.now) }
{
    match formula.node() {
        FormulaNode::Atom(predicate, terms) => {
            push_atom(out, alloc, names, depth, b" = ", &predicate.symbol, terms)
        }
        FormulaNode::Top => out.extend_from_slice(b"$true"),
        FormulaNode::Bot => out.extend_from_slice(b"$false"),
        FormulaNode::Not(body) => push_negated(out, alloc, names, depth, body),
        FormulaNode::And(first, second) => {
            push_left_of_and(out, alloc, names, depth, first)?;
            out.extend_from_slice(b" & ")?;
            push_unit(out, alloc, names, depth, second)
        }
        FormulaNode::Or(first, second) => {
            push_left_of_or(out, alloc, names, depth, first)?;
            out.extend_from_slice(b" | ")?;
            push_unit(out, alloc, names, depth, second)
        }
        FormulaNode::Imp(first, second) => {
            push_unit(out, alloc, names, depth, first)?;
            out.extend_from_slice(b" => ")?;
            push_unit(out, alloc, names, depth, second)
        }
        FormulaNode::All(body) => {
            push_head(out, alloc, b'!', names[depth])?;
            push_unit(out, alloc, names, depth + 1, body)
        }
        FormulaNode::Ex(body) => {
            push_head(out, alloc, b'?', names[depth])?;
            push_unit(out, alloc, names, depth + 1, body)
        }
    }
}

/// The head of a quantified formula with its variable.
fn push_head(out: &mut Vec<u8>, alloc: Global, mark: u8, number: u64) -> Result<(), AllocError>
    ensures { OnOk result (out.new.items ≡ out.old.items ++ head_text mark number) }
{
    out.push(mark)?;
    out.push(b'[')?;
    push_numbered(out, alloc, number)?;
    out.extend_from_slice(b"]: ")
}

/// A formula where a unit has to stand: in parentheses where it is a conjunction, a disjunction or an implication.
#[cycle(formula)]
fn push_unit(
    out: &mut Vec<u8>,
    alloc: Global,
    names: &[u64],
    depth: usize,
    formula: &Formula,
) -> Result<(), AllocError>
    requires formed { is_formed_at depth formula.now ≡ true }
    requires named { depth + depth_of formula.now ≤ length names.now }
    ensures { OnOk result (out.new.items ≡ out.old.items
        ++ unit_of formula.now (formula_text (slice_index names.now) depth formula.now)) }
{
    if is_binary(formula) {
        out.push(b'(')?;
        push_formula(out, alloc, names, depth, formula)?;
        out.push(b')')?;
        Ok(())
    } else {
        push_formula(out, alloc, names, depth, formula)
    }
}

#[cycle(formula)]
fn push_left_of_and(
    out: &mut Vec<u8>,
    alloc: Global,
    names: &[u64],
    depth: usize,
    formula: &Formula,
) -> Result<(), AllocError>
    requires formed { is_formed_at depth formula.now ≡ true }
    requires named { depth + depth_of formula.now ≤ length names.now }
    ensures { OnOk result (out.new.items ≡ out.old.items
        ++ left_of_and formula.now (formula_text (slice_index names.now) depth formula.now)) }
{
    if is_and(formula) {
        push_formula(out, alloc, names, depth, formula)
    } else {
        push_unit(out, alloc, names, depth, formula)
    }
}

#[cycle(formula)]
fn push_left_of_or(
    out: &mut Vec<u8>,
    alloc: Global,
    names: &[u64],
    depth: usize,
    formula: &Formula,
) -> Result<(), AllocError>
    requires formed { is_formed_at depth formula.now ≡ true }
    requires named { depth + depth_of formula.now ≤ length names.now }
    ensures { OnOk result (out.new.items ≡ out.old.items
        ++ left_of_or formula.now (formula_text (slice_index names.now) depth formula.now)) }
{
    if is_or(formula) {
        push_formula(out, alloc, names, depth, formula)
    } else {
        push_unit(out, alloc, names, depth, formula)
    }
}

/// The negation of a formula; that of an equality is written with `!=`.
#[cycle(formula)]
fn push_negated(
    out: &mut Vec<u8>,
    alloc: Global,
    names: &[u64],
    depth: usize,
    body: &Formula,
) -> Result<(), AllocError>
    requires formed { is_formed_at depth body.now ≡ true }
    requires named { depth + depth_of body.now ≤ length names.now }
    ensures { OnOk result (out.new.items ≡ out.old.items
        ++ negated (slice_index names.now) depth body.now (formula_text (slice_index names.now) depth body.now)) }
{
    if let FormulaNode::Atom(predicate, terms) = body.node() {
        let symbol = &predicate.symbol;
        if is_equality(symbol, terms) {
            return push_atom(out, alloc, names, depth, b" != ", symbol, terms);
        }
    }
    out.push(b'~')?;
    push_unit(out, alloc, names, depth, body)
}
