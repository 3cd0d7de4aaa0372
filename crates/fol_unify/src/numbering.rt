//! The numbers of the sides of equations.
ghost use Rattle.std.specs.Prelude.{◌≡◌, IfOk};
ghost use Rattle.arena_cells.specs.Standing.{Extends, HasTerm, HasTerms};
ghost use Rattle.fol_unify.specs.Joining.{ArePairs};

use arena_cells::{Cells, Key};
use fol::{Term, TermNode, Terms, TermsLink};
use std::alloc::{AllocError, Global};

// The number of a term.
#[cycle(number_term)]
#[tactic(auto, using(arena_cells::proofs::Facts::places))]
fn number_term(cells: &mut Cells, alloc: Global, term: &Term) -> Result<u32, AllocError>
    ensures term { IfOk result (λ n. HasTerm cells.new n term.now) }
    ensures grown { Extends cells.old cells.new }
{
    match term.node() {
        TermNode::Free(variable) => cells.put(alloc, Key::Free(variable.copy()?)),
        TermNode::Bound(index) => cells.put(alloc, Key::Bound(*index)),
        TermNode::App(symbol, terms) => {
            let symbol = cells.put(alloc, Key::Symbol(symbol.copy()?))?;
            let terms = number_terms(cells, alloc, terms)?;
            cells.put(alloc, Key::App(symbol, terms))
        }
    }
}

// The number of a list of terms.
#[cycle(number_term)]
#[tactic(auto, using(arena_cells::proofs::Facts::places))]
fn number_terms(cells: &mut Cells, alloc: Global, terms: &Terms) -> Result<u32, AllocError>
    ensures terms { IfOk result (λ n. HasTerms cells.new n terms.now) }
    ensures grown { Extends cells.old cells.new }
{
    match terms.link() {
        TermsLink::Nil => cells.put(alloc, Key::Nil),
        TermsLink::Cons(term, rest) => {
            let term = number_term(cells, alloc, term)?;
            let rest = number_terms(cells, alloc, rest)?;
            cells.put(alloc, Key::Cons(term, rest))
        }
    }
}

/// The numbers of the sides of the equations, in their order.
pub(crate) fn number_pairs(
    cells: &mut Cells,
    alloc: Global,
    equations: &[(Term, Term)],
) -> Result<Vec<(u32, u32)>, AllocError>
    ensures pairs { IfOk result (λ v. ArePairs cells.new v.items equations.now) }
    ensures grown { Extends cells.old cells.new }
{
    let mut pairs = Vec::with_capacity(alloc, equations.len())?;
    for place in 0..equations.len() {
        let (one, other) = &equations[place];
        let one = number_term(cells, alloc, one)?;
        let other = number_term(cells, alloc, other)?;
        pairs.push((one, other))?;
    }
    Ok(pairs)
}
