//! Nodes: the symbol of a term and the numbers of its arguments.
ghost use Rattle.std.specs.Prelude.{◌≡◌, ◌<◌, length, map, IfOk};
ghost use Rattle.std.specs.List.{All};
ghost use Rattle.arena_cells.specs.Standing.{terms_at, term_at, IsTermAt, IsTermsAt};
ghost use Rattle.numbered_terms.specs.Nodes.{listed, IsNode, AreNodes};

use arena_cells::{Cells, Key};
use std::alloc::{AllocError, Global};

/// The number of a term's symbol and those of its arguments. A variable has neither.
#[derive(Drop)]
pub(crate) struct Node {
    pub symbol: Option<u32>,
    pub arguments: Vec<u32>,
}

// The numbers of the terms of a list.
fn listed_numbers(alloc: Global, cells: &Cells, list: u32) -> Result<Vec<u32>, AllocError>
    requires { IsTermsAt cells.now list }
    ensures terms { IfOk result (λ v. All (IsTermAt cells.now) v.items) }
    ensures below { IfOk result (λ v. All (λ n. n < list) v.items) }
    ensures listed { IfOk result (λ v. listed (map (term_at cells.now) v.items) ≡ terms_at cells.now list) }
{
    let mut numbers = Vec::new(alloc);
    let mut rest = list;
    while let Key::Cons(term, others) = cells.key(rest) {
        numbers.push(*term)?;
        rest = *others;
    }
    Ok(numbers)
}

// The node of a term. Of another thing it says nothing.
fn node_of(alloc: Global, cells: &Cells, number: u32) -> Result<Node, AllocError>
    requires { number < length cells.now }
    ensures { IfOk result (λ d. IsTermAt cells.now number → IsNode cells.now number d) }
{
    match cells.key(number) {
        Key::App(symbol, terms) => {
            let arguments = listed_numbers(alloc, cells, *terms)?;
            Ok(Node {
                symbol: Some(*symbol),
                arguments,
            })
        }
        _ => Ok(Node {
            symbol: None,
            arguments: Vec::new(alloc),
        }),
    }
}

/// The nodes of all terms, each at the place of its number.
pub(crate) fn nodes(alloc: Global, cells: &Cells) -> Result<Vec<Node>, AllocError>
    ensures { IfOk result (λ v. AreNodes cells.now v.items) }
{
    let Ok(count) = u32::try_from(cells.len()) else {
        return Err(AllocError);
    };
    let mut nodes = Vec::with_capacity(alloc, cells.len())?;
    for number in 0..count {
        nodes.push(node_of(alloc, cells, number)?)?;
    }
    Ok(nodes)
}
