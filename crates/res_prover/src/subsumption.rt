//! Whether a clause subsumes another one.
ghost use Rattle.std.specs.Prelude.{◌≡◌, true, false, Ok, IfOk};
ghost use Rattle.std.specs.List.{list_any};
ghost use Rattle.std.specs.Ordering.{eq_by_cmp};
ghost use Rattle.fol.specs.Order.{formula_cmp};
ghost use Rattle.clause_laws.specs.Subsumption.{IsClause};
ghost use Rattle.clause_laws.specs.Searching.{match_atom as match_of, goes_on, subsumes as does_subsume, is_tautology as is_valid};
ghost use Rattle.res_prover.specs.Bindings.{map_of, IsFront};
ghost use Rattle.res_prover.specs.Sending.{sends_literals};

use crate::bindings::{Binding, match_atom};
use crate::literals::{Literal, ordered_literals};
use crate::marked::MarkedClause;
use crate::marks::MarkedAtom;
use fol::Formula;
use lk_rules::Sequent;
use std::alloc::{AllocError, Global};

// Whether a map that has these bindings sends each literal to an atom on its side of the other clause. Where none does, the bindings stay.
#[cycle(sends)]
fn sends_all<'a>(
    literals: &[Literal<'a>],
    other: &'a MarkedClause,
    bindings: &mut Vec<Binding<'a>>,
) -> Result<bool, AllocError>
    ensures sent { IfOk result (λ sent. sent ≡ sends_literals literals.now other.now (map_of bindings.old.items)) }
    ensures back { result ≡ Ok false → bindings.new.items ≡ bindings.old.items }
{
    let [first, rest @ ..] = literals else {
        return Ok(true);
    };
    let others = other.side(first.is_left);
    for place in 0..others.len() {
        if sends_first(first, &others[place], rest, other, bindings)? {
            return Ok(true);
        }
    }
    Ok(false)
}

// Whether such a map sends one literal to an atom, and each further one to some.
#[cycle(sends)]
fn sends_first<'a>(
    first: &Literal<'a>,
    target: &'a MarkedAtom,
    rest: &[Literal<'a>],
    other: &'a MarkedClause,
    bindings: &mut Vec<Binding<'a>>,
) -> Result<bool, AllocError>
    ensures sent { IfOk result (λ sent. sent ≡ goes_on (sends_literals rest.now other.now) (match_of first.now.atom.now target.now (map_of bindings.old.items))) }
    ensures back { result ≡ Ok false → bindings.new.items ≡ bindings.old.items }
{
    if !first.atom.is_within(target) {
        return Ok(false);
    }
    let count = bindings.len();
    if goes_further(first.atom.atom(), target.atom(), rest, other, bindings)? {
        return Ok(true);
    }
    bindings.truncate(count);
    Ok(false)
}

// The same for an atom and its target. Where there is no such map, further bindings may be left.
#[cycle(sends)]
fn goes_further<'a>(
    atom: &'a Formula,
    target: &'a Formula,
    rest: &[Literal<'a>],
    other: &'a MarkedClause,
    bindings: &mut Vec<Binding<'a>>,
) -> Result<bool, AllocError>
    ensures sent { IfOk result (λ sent. sent ≡ goes_on (sends_literals rest.now other.now) (match_of atom.now target.now (map_of bindings.old.items))) }
    ensures front { result ≡ Ok false → IsFront bindings.old.items bindings.new.items }
{
    if !match_atom(bindings, atom, target)? {
        return Ok(false);
    }
    let sent = sends_all(rest, other, bindings)?;
    Ok(sent)
}

// A search for the map that sends each atom of the first clause to one of the second.
fn finds_map(alloc: Global, one: &MarkedClause, other: &MarkedClause) -> Result<bool, AllocError>
    ensures { IfOk result (λ found. IsClause one.now → found ≡ does_subsume one.now other.now) }
{
    if !one.has_atoms_within(other) {
        return Ok(false);
    }
    let all = ordered_literals(alloc, one, other)?;
    let mut bindings = Vec::new(alloc);
    let sent = sends_all(all.as_slice(), other, &mut bindings)?;
    Ok(sent)
}

/// Whether the first clause subsumes the second. Mostly a mark or a link tells soon that it doesn't.
pub(crate) fn subsumes(
    alloc: Global,
    one: &MarkedClause,
    other: &MarkedClause,
) -> Result<bool, AllocError>
    ensures { IfOk result (λ found. IsClause one.now → found ≡ does_subsume one.now other.now) }
{
    if !one.has_marks_within(other) {
        return Ok(false);
    }
    finds_map(alloc, one, other)
}

// Whether the atom is one of these. Unequal atoms mostly have unlike fingerprints, so each costs a look.
fn is_among(atom: &Formula, others: &[Formula]) -> bool
    ensures { result ≡ list_any (eq_by_cmp formula_cmp atom.now) others.now }
{
    others.iter().any(|other| atom == other)
}

fn is_some_among(atoms: &[Formula], others: &[Formula]) -> bool
    ensures { result ≡ list_any (λ f. list_any (eq_by_cmp formula_cmp f) others.now) atoms.now }
{
    atoms.iter().any(|atom| is_among(atom, others))
}

/// Whether an atom stands on both sides.
pub(crate) fn is_tautology(clause: &Sequent) -> bool
    ensures { result ≡ is_valid clause.now }
{
    is_some_among(clause.left(), clause.right())
}
