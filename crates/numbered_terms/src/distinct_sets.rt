//! Lists of distinct sets of numbers.
ghost use Rattle.std.specs.Prelude.{◌≡◌, [], position, OnOk};
ghost use Rattle.std.specs.List.{IsDistinct};
ghost use Rattle.indexmap.specs.IndexSet.{insert_key};
ghost use Rattle.numbered_terms.specs.NumberSets.{same_numbers};

use crate::number_sets::NumberSet;
use indexmap::IndexSet;
use std::alloc::{AllocError, Global};
use std::marker::Model;

/// Distinct sets of numbers, in the order in which they came. A set is found by its hash.
#[derive(Drop)]
pub struct NumberSets {
    sets: IndexSet<NumberSet>,
}

impl Model for NumberSets {
    ghost use Rattle.std.specs.Prelude.{ℕ, List};
    ghost use Rattle.std.specs.List.{IsDistinct};
    ghost use Rattle.std.specs.Coded.{coded_list};
    ghost use Rattle.numbered_terms.specs.NumberSets.{coded_numbers, same_numbers};

    ghost Value = { List (List ℕ) };

    ghost coded = { coded_list coded_numbers };

    ghost view = { λ a. a.sets.keys };

    ghost invariant = { λ a. IsDistinct same_numbers a.sets.keys };
}

impl NumberSets {
    /// No set.
    pub fn new(alloc: Global) -> NumberSets
        ensures { result ≡ [] }
    {
        NumberSets {
            sets: IndexSet::new(alloc),
        }
    }

    /// Puts a set last, unless it is there.
    pub fn put(&mut self, set: NumberSet) -> Result<(), AllocError>
        ensures { OnOk result (self.new ≡ insert_key same_numbers self.old set) }
    {
        self.sets.insert(set)?;
        Ok(())
    }

    /// The place of a set, if it is there.
    pub fn place(&self, set: &NumberSet) -> Option<usize>
        ensures { result ≡ position (same_numbers set.now) self.now }
    {
        self.sets.get_index_of(set)
    }

    /// The sets, each once.
    pub fn as_slice(&self) -> &[NumberSet]
        ensures sets { result.now ≡ self.now }
        ensures distinct { IsDistinct same_numbers self.now }
    {
        self.sets.as_slice()
    }
}
