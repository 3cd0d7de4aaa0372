//! The numbers of terms and of tuples of terms.
ghost use Rattle.std.specs.Prelude.{◌≡◌, [], ◌∷◌, IfOk};
ghost use Rattle.std.specs.List.{All};
ghost use Rattle.fol.specs.Syntax.{app};
ghost use Rattle.arena_cells.specs.Standing.{Extends, HasSymbol, HasTerm, HasTerms, symbol_at, IsSymbolAt};
ghost use Rattle.numbered_terms.specs.Numbered.{IsTuple, AreTuples};

use arena_cells::{Cells, Key};
use fol::{Sym, Term, TermNode, Terms, TermsLink, Text};
use std::alloc::{AllocError, Global};

// The number of a term.
#[cycle(number_term)]
#[tactic(auto, using(arena_cells::proofs::Facts::places))]
fn number_term(cells: &mut Cells, alloc: Global, term: &Term) -> Result<u32, AllocError>
    ensures term { IfOk result (λ n. HasTerm cells.new n term.now) }
    ensures grown { Extends cells.old cells.new }
{
    match term.node() {
        TermNode::Free(variable) => cells.put(alloc, Key::Free(variable.copy()?)),
        TermNode::Bound(index) => cells.put(alloc, Key::Bound(*index)),
        TermNode::App(symbol, terms) => {
            let symbol = cells.put(alloc, Key::Symbol(symbol.copy()?))?;
            let terms = number_terms(cells, alloc, terms)?;
            cells.put(alloc, Key::App(symbol, terms))
        }
    }
}

// The number of a list of terms.
#[cycle(number_term)]
#[tactic(auto, using(arena_cells::proofs::Facts::places))]
fn number_terms(cells: &mut Cells, alloc: Global, terms: &Terms) -> Result<u32, AllocError>
    ensures terms { IfOk result (λ n. HasTerms cells.new n terms.now) }
    ensures grown { Extends cells.old cells.new }
{
    match terms.link() {
        TermsLink::Nil => cells.put(alloc, Key::Nil),
        TermsLink::Cons(term, rest) => {
            let term = number_term(cells, alloc, term)?;
            let rest = number_terms(cells, alloc, rest)?;
            cells.put(alloc, Key::Cons(term, rest))
        }
    }
}

// The number of the symbol that makes a term of a tuple.
fn tuple_symbol(cells: &mut Cells, alloc: Global) -> Result<u32, AllocError>
    ensures symbol { IfOk result (λ n. IsSymbolAt cells.new n) }
    ensures grown { Extends cells.old cells.new }
{
    let name = Text::from_vec(alloc, Vec::new(alloc))?;
    cells.put(alloc, Key::Symbol(Sym { name, arity: 0 }))
}

// The number of a tuple, which is that of the symbol with the tuple as its arguments.
#[tactic(auto, using(arena_cells::proofs::Facts::places))]
fn number_tuple(
    cells: &mut Cells,
    alloc: Global,
    symbol: u32,
    tuple: &Terms,
) -> Result<u32, AllocError>
    requires { IsSymbolAt cells.old symbol }
    ensures tuple { IfOk result (λ n. IsTuple cells.new n tuple.now) }
    ensures grown { Extends cells.old cells.new }
{
    let terms = number_terms(cells, alloc, tuple)?;
    cells.put(alloc, Key::App(symbol, terms))
}

/// The numbers of tuples, in their order.
pub fn number_tuples(
    cells: &mut Cells,
    alloc: Global,
    tuples: &[Terms],
) -> Result<Vec<u32>, AllocError>
    ensures tuples { IfOk result (λ v. AreTuples cells.new v.items tuples.now) }
    ensures grown { Extends cells.old cells.new }
{
    let symbol = tuple_symbol(cells, alloc)?;
    let mut numbers = Vec::with_capacity(alloc, tuples.len())?;
    for tuple in tuples {
        numbers.push(number_tuple(cells, alloc, symbol, tuple)?)?;
    }
    Ok(numbers)
}
