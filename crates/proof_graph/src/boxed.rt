//! The index behind a pointer.
ghost use Rattle.std.specs.Prelude.{◌≡◌, [], IfOk};

use crate::index::Index;
use crate::reference::ProofRef;
use crate::tree::Nodes;
use std::alloc::{AllocError, Global};
use turn_log::Grows;

/// An index behind a pointer: a turn takes it out of the log and puts it back, which then moves a pointer.
#[derive(Drop)]
pub(crate) struct BoxedIndex {
    pub index: Box<Index>,
}

impl Grows for BoxedIndex {
    ghost use Rattle.boxcar.specs.Table.{Shelves};

    type Entry = ProofRef;

    ghost Home = { Shelves };

    ghost entries = { λ i. i.index.value.history };

    ghost home = { λ i. i.index.value.home };

    fn count(&self) -> u64 {
        self.index.count()
    }
}

impl BoxedIndex {
    /// An index with no entry.
    pub fn new(alloc: Global, nodes: &Nodes) -> Result<BoxedIndex, AllocError>
        ensures home { IfOk result (λ made. made.index.value.home ≡ nodes.now) }
        ensures history { IfOk result (λ made. made.index.value.history ≡ []) }
    {
        let index = Box::new(alloc, Index::new(alloc, nodes))?;
        Ok(BoxedIndex { index })
    }
}
