//! The tests of well-formedness.
ghost use Rattle.std.specs.Prelude.{◌≡◌, ◌==◌, nat_le};
ghost use Rattle.std.specs.List.{list_all};
ghost use Rattle.fol.specs.Formed.{is_printable as is_in_name, is_name as is_one_name, is_word_byte as is_in_word, is_word as is_one_word, is_formed_var, is_formed_sym, count_terms, is_formed_term_at, are_formed_terms_at, leading_all, is_formed_pred, is_formed_at, is_formed_term, is_formed};

use crate::numerals::numbered;
use crate::symbols::{Sym, Var};
use crate::syntax::{Formula, FormulaNode, Predicate, Term, TermNode, Terms, TermsLink};

/// Whether the formula is well formed: each bound index is below the number of quantifiers around it, each symbol has as many terms as
/// its arity says and a name of one or more printable ASCII bytes, and each word variable is a capital letter followed by letters, digits
/// and `_`, and isn't the text of a numbered variable. The body of a predicate symbol is well formed, no variable is free in it, and it
/// begins with at least as many universal quantifiers as the symbol has arguments.
pub fn well_formed(formula: &Formula) -> bool
    ensures { result ≡ is_formed formula.now }
{
    is_formula_formed(formula, 0)
}

/// Whether the term is well formed outside quantifiers: as `well_formed` says of a formula, and so with no bound index.
pub fn well_formed_term(term: &Term) -> bool
    ensures { result ≡ is_formed_term term.now }
{
    is_term_formed(term, 0)
}

/// Whether the variable is well formed: it is a numbered one, or its word is as `well_formed` says.
pub fn well_formed_var(var: &Var) -> bool
    ensures { result ≡ is_formed_var var.now }
{
    match var {
        Var::Word(text) => is_word(text.as_bytes()),
        Var::Num(_) => true,
    }
}

/// Whether the symbol's name is one or more printable ASCII bytes.
pub fn well_formed_sym(symbol: &Sym) -> bool
    ensures { result ≡ is_formed_sym symbol.now }
{
    is_name(symbol.name.as_bytes())
}

fn is_printable(byte: u8) -> bool
    ensures { result ≡ is_in_name byte }
{
    matches!(byte, b' '..=b'~')
}

fn is_name(text: &[u8]) -> bool
    ensures { result ≡ is_one_name text.now }
{
    !text.is_empty() && are_printable(text)
}

fn are_printable(text: &[u8]) -> bool
    ensures { result ≡ list_all is_in_name text.now }
{
    text.iter().all(|byte| is_printable(*byte))
}

fn is_word_byte(byte: u8) -> bool
    ensures { result ≡ is_in_word byte }
{
    byte.is_ascii_alphanumeric() || byte == b'_'
}

fn are_word_bytes(text: &[u8]) -> bool
    ensures { result ≡ list_all is_in_word text.now }
{
    text.iter().all(|byte| is_word_byte(*byte))
}

fn is_word(text: &[u8]) -> bool
    ensures { result ≡ is_one_word text.now }
{
    match text {
        [] => false,
        [first, rest @ ..] => {
            first.is_ascii_uppercase() && are_word_bytes(rest) && numbered(text).is_none()
        }
    }
}

// Whether the list has this many terms.
fn has_count(terms: &Terms, count: u32) -> bool
    ensures { result ≡ (count_terms terms.now == count) }
{
    match terms.link() {
        TermsLink::Nil => count == 0,
        TermsLink::Cons(_, rest) => count > 0 && has_count(rest, count - 1),
    }
}

// `depth` is the number of quantifiers around the term.
#[cycle(term_formed)]
fn is_term_formed(term: &Term, depth: u64) -> bool
    ensures { result ≡ is_formed_term_at depth term.now }
{
    match term.node() {
        TermNode::Free(var) => well_formed_var(var),
        TermNode::Bound(index) => u64::from(*index) < depth,
        TermNode::App(symbol, terms) => {
            well_formed_sym(symbol)
                && has_count(terms, symbol.arity)
                && are_terms_formed(terms, depth)
        }
    }
}

#[cycle(term_formed)]
fn are_terms_formed(terms: &Terms, depth: u64) -> bool
    ensures { result ≡ are_formed_terms_at depth terms.now }
{
    match terms.link() {
        TermsLink::Nil => true,
        TermsLink::Cons(term, rest) => is_term_formed(term, depth) && are_terms_formed(rest, depth),
    }
}

// `depth` is the number of quantifiers around the formula. It stops at the largest `u64`, which is above every index.
#[cycle(formula_formed)]
#[tactic(auto, using(crate::proofs::FormedDepth::next_formed))]
fn is_formula_formed(formula: &Formula, depth: u64) -> bool
    ensures { result ≡ is_formed_at depth formula.now }
{
    match formula.node() {
        FormulaNode::Atom(predicate, terms) => {
            is_predicate_formed(predicate)
                && has_count(terms, predicate.symbol.arity)
                && are_terms_formed(terms, depth)
        }
        FormulaNode::Top | FormulaNode::Bot => true,
        FormulaNode::Not(body) => is_formula_formed(body, depth),
        FormulaNode::And(first, second)
        | FormulaNode::Or(first, second)
        | FormulaNode::Imp(first, second) => {
            is_formula_formed(first, depth) && is_formula_formed(second, depth)
        }
        FormulaNode::All(body) | FormulaNode::Ex(body) => {
            is_formula_formed(body, depth.saturating_add(1))
        }
    }
}

#[cycle(formula_formed)]
fn is_predicate_formed(predicate: &Predicate) -> bool
    ensures { result ≡ is_formed_pred predicate.now }
{
    let is_body_formed = match &predicate.body {
        None => true,
        Some(body) => {
            is_formula_formed(body, 0)
                && !body.has_free()
                && has_leading(body, predicate.symbol.arity)
        }
    };
    is_body_formed && well_formed_sym(&predicate.symbol)
}

// Whether the formula begins with at least this many universal quantifiers.
fn has_leading(formula: &Formula, count: u32) -> bool
    ensures { result ≡ nat_le count (leading_all formula.now) }
{
    match formula.node() {
        FormulaNode::All(body) => count == 0 || has_leading(body, count - 1),
        _ => count == 0,
    }
}
