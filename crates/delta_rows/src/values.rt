//! Finite sets of terms.
ghost use Rattle.std.specs.Prelude.{◌≡◌, IfOk};
ghost use Rattle.finite.specs.Finite as set;
ghost use Rattle.delta_rows.specs.ValueOrder.{terms_print, values_fingerprint};

use fol::{Term, mix};
use free_variables::rising;
use std::alloc::{AllocError, Global};
use std::marker::Model;

/// A finite set of terms, kept in rising order.
#[derive(Drop)]
pub struct Values {
    // A number in which unequal sets mostly differ.
    fingerprint: u64,
    items: Vec<Term>,
}

impl Model for Values {
    ghost use Rattle.finite.specs.Finite as set;
    ghost use Rattle.fol.specs.Order.{term_cmp as order};
    ghost use Rattle.fol.specs.Codes.{coded_term};

    ghost Value = { set.Finite order };

    ghost coded = { set.code coded_term };

    ghost view = { λ a. set.of_rising a.items.items };

    ghost use Rattle.delta_rows.specs.ValueOrder.{IsPrinted};

    ghost invariant = { λ a. IsPrinted a.fingerprint a.items.items };
}

#[tactic(auto, unfolding(crate::specs::ValueOrder::terms_print))]
fn print_of(terms: &[Term]) -> u64
    ensures { result ≡ terms_print terms.now }
{
    terms
        .iter()
        .fold(23, |print, term| mix(print, term.fingerprint()))
}

impl Values {
    /// The set of the terms of a list, in O(n log n) comparisons and without memory.
    pub fn from_vec(items: Vec<Term>) -> Values
        ensures { result ≡ set.of_list items.items }
    {
        let mut items = items;
        rising::sort_distinct(&mut items);
        let fingerprint = print_of(&items);
        Values { fingerprint, items }
    }

    /// The terms in rising order.
    pub fn as_slice(&self) -> &[Term]
        ensures { result.now ≡ set.listing self.now }
    {
        self.items.as_slice()
    }

    /// A number in which unequal sets mostly differ.
    pub fn fingerprint(&self) -> u64
        ensures { result ≡ values_fingerprint self.now }
    {
        self.fingerprint
    }

    /// The same set, whose terms are shared.
    pub fn copy(&self, alloc: Global) -> Result<Values, AllocError>
        ensures { IfOk result (λ copy. copy ≡ self.now) }
    {
        let mut items = Vec::with_capacity(alloc, self.items.len())?;
        for term in &self.items {
            items.push(term.copy()?)?;
        }
        let fingerprint = self.fingerprint;
        Ok(Values { fingerprint, items })
    }
}
