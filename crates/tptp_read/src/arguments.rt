//! The arguments of a symbol, as they are read.
ghost use Rattle.std.specs.Prelude.{◌≡◌, reverse, IfOk, OnOk};
ghost use Rattle.fol.specs.Syntax.{nil, cons};
ghost use Rattle.tptp_read.specs.Arguments.{terms_of};
ghost use Rattle.tptp_read.specs.Machine.{turned_onto};

use fol::{Term, Terms};
use std::alloc::{AllocError, Global};
use std::marker::Model;

/// The arguments of a symbol that have been read, the last one first. They are kept in the order of the text.
#[derive(Drop)]
pub struct Arguments {
    items: Vec<Term>,
}

impl Model for Arguments {
    ghost use Rattle.fol.specs.Syntax.{Terms as Meaning};
    ghost use Rattle.fol.specs.Codes.{coded_terms};

    ghost Value = { Meaning };

    ghost coded = { coded_terms };

    ghost use Rattle.std.specs.Prelude.{reverse};
    ghost use Rattle.tptp_read.specs.Arguments.{terms_of};

    ghost view = { λ a. terms_of (reverse a.items.items) };
}

impl Arguments {
    /// No arguments.
    pub fn none(alloc: Global) -> Arguments
        ensures { result ≡ nil }
    {
        Arguments {
            items: Vec::new(alloc),
        }
    }

    /// Puts one more in front.
    pub fn push(&mut self, term: Term) -> Result<(), AllocError>
        ensures { OnOk result (self.new ≡ cons term self.old) }
    {
        self.items.push(term)?;
        Ok(())
    }

    /// The arguments as they stand in the text, in front of the last ones.
    pub fn in_order(self, alloc: Global, last: Terms) -> Result<Terms, AllocError>
        ensures { IfOk result (λ ts. ts ≡ turned_onto self last) }
    {
        let Arguments { items } = self;
        turned(alloc, items, last)
    }
}

// The terms in front of the others, turned round.
#[tactic(auto, using(crate::proofs::Turned::last_turned, crate::proofs::Turned::none_turned))]
fn turned(alloc: Global, terms: Vec<Term>, others: Terms) -> Result<Terms, AllocError>
    ensures { IfOk result (λ ts. ts ≡ turned_onto (terms_of (reverse terms.items)) others) }
{
    let mut terms = terms;
    let mut all = others;
    while let Some(term) = terms.pop() {
        all = Terms::cons(alloc, term, all)?;
    }
    Ok(all)
}
