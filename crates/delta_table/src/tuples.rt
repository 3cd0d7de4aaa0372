//! Lists of tuples of terms.
ghost use Rattle.std.specs.Prelude.{◌≡◌, IfOk};
ghost use Rattle.fol.specs.Order.{terms_cmp};
ghost use Rattle.finite.specs.Finite as set;

use fol::Terms;
use free_variables::rising;
use std::alloc::{AllocError, Global};
use std::marker::Model;

/// Tuples of terms, or patterns of them, in rising order and without repeats.
#[derive(Drop)]
pub struct Tuples {
    items: Vec<Terms>,
}

impl Model for Tuples {
    ghost use Rattle.std.specs.Prelude.{List};
    ghost use Rattle.std.specs.Coded.{coded_list};
    ghost use Rattle.fol.specs.Syntax.{Terms as Tuple};
    ghost use Rattle.fol.specs.Codes.{coded_terms};
    ghost use Rattle.fol.specs.Order.{terms_cmp as order};
    ghost use Rattle.finite.specs.Finite as set;

    ghost Value = { List Tuple };

    ghost coded = { coded_list coded_terms };

    ghost view = { λ a. a.items.items };

    ghost invariant = { λ a. set.IsRising order a.items.items };
}

impl Tuples {
    /// The tuples of a rising list.
    pub fn from_rising(items: Vec<Terms>) -> Tuples
        requires { set.IsRising terms_cmp items.items }
        ensures { result ≡ items.items }
    {
        Tuples { items }
    }

    /// The tuples of a list, each once, in O(n log n) comparisons and without memory.
    pub fn from_vec(items: Vec<Terms>) -> Tuples
        ensures { result ≡ set.listing (set.adds_each (set.empty {R = terms_cmp}) items.items) }
    {
        let mut items = items;
        rising::sort_distinct(&mut items);
        Tuples { items }
    }

    /// The tuples in rising order.
    pub fn as_slice(&self) -> &[Terms]
        ensures tuples { result.now ≡ self.now }
        ensures rises { set.IsRising terms_cmp self.now }
    {
        self.items.as_slice()
    }

    /// The same tuples, which are shared.
    pub fn copy(&self, alloc: Global) -> Result<Tuples, AllocError>
        ensures { IfOk result (λ copy. copy ≡ self.now) }
    {
        let mut items = Vec::with_capacity(alloc, self.items.len())?;
        for tuple in &self.items {
            items.push(tuple.copy()?)?;
        }
        Ok(Tuples { items })
    }
}
