//! Atoms that have no unifier, as a walk over both shows. Symbols are told apart by their fingerprints alone: mostly that tells all that differ.
ghost use Rattle.std.specs.Prelude.{◌≡◌, ◌++◌, true};
ghost use Rattle.res_prover.specs.Clashes.{clashes as do_clash, any_clash as some_clash, symbols_clash as have_clash, atoms_clash as are_apart};
ghost use Rattle.res_prover.specs.Choosing.{IsUnified};

use fol::{Formula, FormulaNode, Term, TermNode, Terms, TermsLink};

// Whether function symbols with different fingerprints stand at one place of the terms.
#[cycle(clash)]
fn clash(first: &Term, other: &Term) -> bool
    ensures { result ≡ do_clash first.now other.now }
{
    let TermNode::App(symbol, terms) = first.node() else {
        return false;
    };
    let TermNode::App(same, others) = other.node() else {
        return false;
    };
    symbol.fingerprint() != same.fingerprint() || any_clash(terms, others)
}

#[cycle(clash)]
fn any_clash(terms: &Terms, others: &Terms) -> bool
    ensures { result ≡ some_clash terms.now others.now }
{
    let TermsLink::Cons(first, rest) = terms.link() else {
        return false;
    };
    let TermsLink::Cons(other, further) = others.link() else {
        return false;
    };
    clash(first, other) || any_clash(rest, further)
}

// The same of atoms, whose predicate symbols may differ as well.
fn symbols_clash(first: &Formula, other: &Formula) -> bool
    ensures { result ≡ have_clash first.now other.now }
{
    let FormulaNode::Atom(predicate, terms) = first.node() else {
        return false;
    };
    let FormulaNode::Atom(same, others) = other.node() else {
        return false;
    };
    predicate.fingerprint() != same.fingerprint() || any_clash(terms, others)
}

// The same, where atoms without variables are looked at as wholes.
fn atoms_clash(first: &Formula, other: &Formula) -> bool
    ensures { result ≡ are_apart first.now other.now }
{
    if !first.has_free() && !other.has_free() {
        return first.fingerprint() != other.fingerprint();
    }
    symbols_clash(first, other)
}

/// Whether the first atoms of the two lists show that no map makes all atoms one.
pub(crate) fn first_clash(atoms: &[Formula], others: &[Formula]) -> bool
    ensures { result ≡ true → IsUnified (atoms.now ++ others.now) → ⊥ }
{
    let [first, ..] = atoms else {
        return false;
    };
    let [other, ..] = others else {
        return false;
    };
    atoms_clash(first, other)
}
