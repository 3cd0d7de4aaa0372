//! A count of contractions.
ghost use Rattle.std.specs.Prelude.{◌≡◌, ◌+◌, ◌-◌, ◌<◌, ◌^◌, min};

use std::marker::Model;
use std::sync::ledger::{Blank, Book, Ledger, Share};

/// How many contractions were made. Contracts see the number. Only `tick` counts one, and `add` takes in what a branch of the work has
/// counted in a ledger of its own.
#[derive(Drop)]
pub struct Steps<L: Ledger> {
    book: Book<L>,
    share: Share<L>,
    // The number as far as a word goes. A book of another ledger can take it in.
    made: u64,
}

impl<L: Ledger> Model for Steps<L> {
    ghost use Rattle.std.specs.Prelude.{ℕ, ◌≡◌, ◌<◌, ◌^◌, ◌-◌, min};

    ghost Value = { ℕ };

    ghost view = { λ s. s.book.total };

    ghost invariant = { λ s. (0 < s.share.parts) × (s.made ≡ min s.book.total (2 ^ 64 - 1)) };
}

impl<L: Ledger> Steps<L> {
    /// No contraction so far, counted in a ledger that has a part.
    pub fn new(ledger: Blank) -> Steps<L>
        requires name { ledger.name ≡ L.name }
        requires parts { ledger.parts ≡ L.parts }
        requires one_part { 0 < ledger.parts }
        ensures { result ≡ 0 }
    {
        let (book, share) = ledger.open::<L>();
        Steps {
            book,
            share,
            made: 0,
        }
    }

    /// Counts one contraction.
    pub fn tick(&mut self)
        ensures { self.new ≡ self.old + 1 }
    {
        self.raise(1);
    }

    /// The number, at most 2^64 - 1.
    pub fn count(&self) -> u64
        ensures { result ≡ min self.now (2 ^ 64 - 1) }
    {
        self.made
    }

    /// Takes in what a branch of the work has counted.
    pub fn add<M: Ledger>(&mut self, branch: Steps<M>)
        requires { branch < 2 ^ 64 }
        ensures { self.new ≡ self.old + branch }
    {
        let Steps { book, share, made } = branch;
        drop(book);
        drop(share);
        self.raise(made);
    }

    // Counts so many contractions.
    fn raise(&mut self, contractions: u64)
        ensures { self.new ≡ self.old + contractions }
    {
        self.book.add(&mut self.share, contractions);
        self.made = self.made.saturating_add(contractions);
    }

    /// Ends the count.
    pub fn end(self) {
        let Steps {
            book,
            share,
            made: _made,
        } = self;
        drop(book);
        drop(share);
    }
}
