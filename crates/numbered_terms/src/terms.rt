//! Numbered terms.
ghost use Rattle.std.specs.Prelude.{◌≡◌, IfOk};
ghost use Rattle.arena_cells.specs.Standing.{IsDistinct, IsTermAt};
ghost use Rattle.numbered_terms.specs.Nodes.{IsNode};

use crate::nodes::{Node, nodes};
use arena_cells::Cells;
use std::alloc::{AllocError, Global};
use std::marker::Model;
use std::snapshot::Snapshot;

/// The nodes of the terms of cells. Threads may share them: what stands at the numbers is there for contracts alone.
#[derive(Drop)]
pub struct NumberedTerms {
    nodes: Vec<Node>,
    cells: Snapshot<Cells>,
}

impl Model for NumberedTerms {
    ghost use Rattle.std.specs.Prelude.{List};
    ghost use Rattle.std.specs.Coded.{coded_list};
    ghost use Rattle.arena_cells.specs.Items.{Item, coded_item};

    ghost Value = { List Item };

    ghost coded = { coded_list coded_item };

    ghost use Rattle.arena_cells.specs.Standing.{IsDistinct};
    ghost use Rattle.numbered_terms.specs.Nodes.{AreNodes};

    ghost view = { λ a. a.cells.value };

    ghost invariant = { λ a. AreNodes a.cells.value a.nodes.items × IsDistinct a.cells.value };
}

impl NumberedTerms {
    /// The terms of the cells.
    pub fn new(alloc: Global, cells: &Cells) -> Result<NumberedTerms, AllocError>
        ensures { IfOk result (λ terms. terms ≡ cells.now) }
    {
        cells.known();
        let nodes = nodes(alloc, cells)?;
        let cells = Snapshot::of(cells);
        Ok(NumberedTerms { nodes, cells })
    }

    /// No term has two numbers.
    pub fn known(&self)
        ensures { IsDistinct self.now }
    {
        let _nodes = &self.nodes;
    }

    /// The node at the number.
    pub(crate) fn node(&self, number: u32) -> &Node
        requires { IsTermAt self.now number }
        ensures { IsNode self.now number result.now }
    {
        &self.nodes[number as usize]
    }
}
