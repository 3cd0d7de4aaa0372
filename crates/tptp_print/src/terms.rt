//! Texts of terms and atoms. `names` has the number of the variable that is printed for each quantifier around, the outermost first.
ghost use Rattle.std.specs.Prelude.{◌≡◌, ◌++◌, ◌≤◌, true, OnOk, length, slice_index};
ghost use Rattle.fol.specs.Formed.{is_formed_term_at, are_formed_terms_at};
ghost use Rattle.tptp_print.specs.Canonical.{term_text, args_text, more_text, is_equals as is_equals_name, is_equality as is_equality_atom, atom_text};

use crate::names::{push_name, push_numbered, push_variable};
use fol::{Sym, Term, TermNode, Terms, TermsLink};
use std::alloc::{AllocError, Global};

#[cycle(term)]
pub fn push_term(
    out: &mut Vec<u8>,
    alloc: Global,
    names: &[u64],
    depth: usize,
    term: &Term,
) -> Result<(), AllocError>
    requires formed { is_formed_term_at depth term.now ≡ true }
    requires named { depth ≤ length names.now }
    ensures { OnOk result (out.new.items ≡ out.old.items ++ term_text (slice_index names.now) depth term.now) }
{
    match term.node() {
        TermNode::Free(var) => push_variable(out, alloc, var),
        TermNode::Bound(index) => push_numbered(out, alloc, names[depth - (*index as usize + 1)]),
        TermNode::App(symbol, terms) => {
            push_name(out, symbol.name.as_bytes())?;
            push_args(out, alloc, names, depth, terms)
        }
    }
}

#[cycle(term)]
pub fn push_args(
    out: &mut Vec<u8>,
    alloc: Global,
    names: &[u64],
    depth: usize,
    terms: &Terms,
) -> Result<(), AllocError>
    requires formed { are_formed_terms_at depth terms.now ≡ true }
    requires named { depth ≤ length names.now }
    ensures { OnOk result (out.new.items ≡ out.old.items ++ args_text (slice_index names.now) depth terms.now) }
{
    match terms.link() {
        TermsLink::Nil => Ok(()),
        TermsLink::Cons(term, rest) => {
            out.push(b'(')?;
            push_term(out, alloc, names, depth, term)?;
            push_more(out, alloc, names, depth, rest)
        }
    }
}

#[cycle(term)]
fn push_more(
    out: &mut Vec<u8>,
    alloc: Global,
    names: &[u64],
    depth: usize,
    terms: &Terms,
) -> Result<(), AllocError>
    requires formed { are_formed_terms_at depth terms.now ≡ true }
    requires named { depth ≤ length names.now }
    ensures { OnOk result (out.new.items ≡ out.old.items ++ more_text (slice_index names.now) depth terms.now) }
{
    match terms.link() {
        TermsLink::Nil => {
            out.push(b')')?;
            Ok(())
        }
        TermsLink::Cons(term, rest) => {
            out.push(b',')?;
            push_term(out, alloc, names, depth, term)?;
            push_more(out, alloc, names, depth, rest)
        }
    }
}

fn is_equals(name: &[u8]) -> bool
    ensures { result ≡ is_equals_name name.now }
{
    match name {
        [byte] => *byte == b'=',
        _ => false,
    }
}

/// An atom: an equality as its two sides with `between` between them, and any other atom as its symbol with its arguments.
pub fn push_atom(
    out: &mut Vec<u8>,
    alloc: Global,
    names: &[u64],
    depth: usize,
    between: &[u8],
    symbol: &Sym,
    terms: &Terms,
) -> Result<(), AllocError>
    requires formed { are_formed_terms_at depth terms.now ≡ true }
    requires named { depth ≤ length names.now }
    ensures { OnOk result (out.new.items
        ≡ out.old.items ++ atom_text (slice_index names.now) depth between.now symbol.now terms.now) }
{
    if is_equals(symbol.name.as_bytes()) {
        if let TermsLink::Cons(first, rest) = terms.link() {
            if let TermsLink::Cons(second, end) = rest.link() {
                if let TermsLink::Nil = end.link() {
                    push_term(out, alloc, names, depth, first)?;
                    out.extend_from_slice(between)?;
                    return push_term(out, alloc, names, depth, second);
                }
            }
        }
    }
    push_name(out, symbol.name.as_bytes())?;
    push_args(out, alloc, names, depth, terms)
}

/// Whether the symbol with these arguments is an equality.
pub fn is_equality(symbol: &Sym, terms: &Terms) -> bool
    ensures { result ≡ is_equality_atom symbol.now terms.now }
{
    match terms.link() {
        TermsLink::Nil => false,
        TermsLink::Cons(_, rest) => match rest.link() {
            TermsLink::Nil => false,
            TermsLink::Cons(_, end) => {
                matches!(end.link(), TermsLink::Nil) && is_equals(symbol.name.as_bytes())
            }
        },
    }
}
