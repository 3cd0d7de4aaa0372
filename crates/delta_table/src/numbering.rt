//! The numbers of the tuples of items.
ghost use Rattle.std.specs.Prelude.{◌≡◌, IfOk};
ghost use Rattle.arena_cells.specs.Standing.{Extends};
ghost use Rattle.delta_table.specs.Numbering.{AreItemNumbers};

use crate::item::Item;
use arena_cells::{Cells, Numbers};
use numbered_terms::{NumberedTerms, number_tuples};
use std::alloc::{AllocError, Global};

// The numbers of the tuples of each item.
fn number_items(
    cells: &mut Cells,
    alloc: Global,
    items: &[Item],
) -> Result<Vec<Numbers>, AllocError>
    ensures { IfOk result (λ v. AreItemNumbers cells.new v.items items.now) }
{
    let mut lists = Vec::with_capacity(alloc, items.len())?;
    for item in items {
        let numbers = number_tuples(cells, alloc, item.tuples().as_slice())?;
        lists.push(Numbers::from_vec(alloc, numbers)?)?;
    }
    Ok(lists)
}

/// Items by numbers: what stands at the numbers, the nodes of the terms, and the numbers of the tuples of each item.
#[derive(Drop)]
pub(crate) struct NumberedItems {
    pub cells: Cells,
    pub terms: NumberedTerms,
    pub tuples: Vec<Numbers>,
}

/// The items by numbers.
pub(crate) fn numbered(alloc: Global, items: &[Item]) -> Result<NumberedItems, AllocError>
    ensures tuples { IfOk result (λ n. AreItemNumbers n.cells n.tuples.items items.now) }
    ensures terms { IfOk result (λ n. n.terms ≡ n.cells) }
{
    let mut cells = Cells::new(alloc);
    let tuples = number_items(&mut cells, alloc, items)?;
    let terms = NumberedTerms::new(alloc, &cells)?;
    Ok(NumberedItems {
        cells,
        terms,
        tuples,
    })
}
