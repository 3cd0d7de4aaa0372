//! Both tables of a session.
use crate::canonical::CanonicalTexts;
use crate::formulas::FormulaTexts;
use std::alloc::Global;

/// The formulas that were read from their texts, and the canonical texts that were printed.
#[derive(Drop)]
pub struct TextTables {
    pub formulas: FormulaTexts,
    pub canonical: CanonicalTexts,
}

impl TextTables {
    /// Nothing has been read or printed.
    pub fn new(alloc: Global) -> TextTables {
        TextTables {
            formulas: FormulaTexts::new(alloc),
            canonical: CanonicalTexts::new(alloc),
        }
    }
}
