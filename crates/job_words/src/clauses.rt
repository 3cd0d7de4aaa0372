//! Lists of clauses.
ghost use Rattle.std.specs.Prelude.{◌≡◌};

use lk_rules::Sequent;
use std::marker::Model;

/// Clauses, each as a sequent: the atoms of its negative literals stand on the left, those of its positive ones on the right.
#[derive(Drop)]
pub struct ClauseList {
    items: Vec<Sequent>,
}

impl Model for ClauseList {
    ghost use Rattle.std.specs.Prelude.{List};
    ghost use Rattle.lk_rules.specs.declared.sequent.Sequent.{Sequent};

    ghost Value = { List Sequent };

    ghost use Rattle.std.specs.Coded.{codes};
    ghost use Rattle.lk_rules.specs.contracts.sequent.Sequent as sequent;

    ghost coded = { Prim.hlevel (codes, sequent.the_row.coded) };

    ghost view = { λ s. s.items.items };
}

impl ClauseList {
    /// The list of these clauses.
    pub fn from_vec(items: Vec<Sequent>) -> ClauseList
        ensures { result ≡ items.items }
    {
        ClauseList { items }
    }

    /// The clauses, in order.
    pub fn as_slice(&self) -> &[Sequent]
        ensures { result.now ≡ self.now }
    {
        self.items.as_slice()
    }
}
