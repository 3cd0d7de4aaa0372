//! The patterns of each item.
ghost use Rattle.std.specs.Prelude.{◌≡◌};

use crate::tuples::Tuples;
use std::marker::Model;

/// A list of patterns for each item. In a pattern the variable is `Bound(0)`.
#[derive(Drop)]
pub struct Patterns {
    items: Vec<Tuples>,
}

impl Model for Patterns {
    ghost use Rattle.std.specs.Prelude.{List};
    ghost use Rattle.std.specs.Coded.{coded_list};
    ghost use Rattle.fol.specs.Syntax.{Terms as Tuple};
    ghost use Rattle.fol.specs.Codes.{coded_terms};

    ghost Value = { List (List Tuple) };

    ghost coded = { coded_list (coded_list coded_terms) };

    ghost view = { λ a. a.items.items };
}

impl Patterns {
    /// The lists of patterns, in the order of the items.
    pub fn from_vec(items: Vec<Tuples>) -> Patterns
        ensures { result ≡ items.items }
    {
        Patterns { items }
    }

    /// The lists of patterns, in the order of the items.
    pub fn as_slice(&self) -> &[Tuples]
        ensures { result.now ≡ self.now }
    {
        self.items.as_slice()
    }
}
