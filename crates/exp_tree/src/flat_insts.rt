//! The instances that a node of a flat list names.
ghost use Rattle.std.specs.Prelude.{◌≡◌};

use fol::Term;
use std::marker::Model;

/// The terms of instances with the places of their nodes.
#[derive(Drop)]
pub struct FlatInsts {
    items: Vec<(Term, u64)>,
}

impl Model for FlatInsts {
    ghost use Rattle.std.specs.Prelude.{ℕ, List};
    ghost use base.Stored.{coded×, coded_list, coded_ℕ};
    ghost use Rattle.fol.specs.Syntax.{Term as Meaning};
    ghost use Rattle.fol.specs.Codes.{coded_term};

    ghost Value = { List (Meaning × ℕ) };

    ghost coded = { coded_list (coded× coded_term coded_ℕ) };

    ghost view = { λ a. a.items.items };
}

impl FlatInsts {
    /// The instances of a list, in its order.
    pub fn from_vec(items: Vec<(Term, u64)>) -> FlatInsts
        ensures { result ≡ items.items }
    {
        FlatInsts { items }
    }

    /// The instances, in order.
    pub fn as_slice(&self) -> &[(Term, u64)]
        ensures { result.now ≡ self.now }
    {
        self.items.as_slice()
    }
}
