//! Sequents by the numbers of their formulas.
ghost use Rattle.std.specs.Prelude.{◌≡◌, ◌*◌, ◌<◌, ℕ, false, not, ◌&&◌, ◌||◌, ◌==◌, length, IfOk, OnOk, IsTrue};
ghost use Rattle.prop_search.specs.Bits.{has_number};

use crate::bits;
use std::alloc::{AllocError, Global};
use std::marker::Model;

/// A sequent by the numbers of its formulas: a set of numbers whose first half is for the left side, and whose second half, by numbers
/// from 64 times its words on, is for the right side.
#[derive(Drop)]
pub(crate) struct Numbered {
    words: Vec<u64>,
}

impl Model for Numbered {
    ghost use Rattle.std.specs.Prelude.{ℕ, List};
    ghost use Rattle.std.specs.Coded.{coded_list};
    ghost use base.Stored.{coded_ℕ};

    ghost Value = { List ℕ };

    ghost coded = { coded_list coded_ℕ };

    ghost view = { λ n. n.words.items };
}

impl Numbered {
    /// The sequent with no formula, of that many words.
    pub fn new(alloc: Global, words: usize) -> Result<Numbered, AllocError>
        ensures empty { IfOk result (λ made. (n : ℕ) → has_number made n ≡ false) }
        ensures room { IfOk result (λ made. length made ≡ words) }
    {
        let words = vec![in alloc; 0u64; words]?;
        Ok(Numbered { words })
    }

    /// The words.
    pub fn words(&self) -> &[u64]
        ensures { result.now ≡ self.now }
    {
        self.words.as_slice()
    }

    /// Adds a number.
    pub fn insert(&mut self, number: usize)
        requires { number < 64 * length self.old }
        ensures numbers { (n : ℕ) → has_number self.new n ≡ (n == number || has_number self.old n) }
        ensures room { length self.new ≡ length self.old }
    {
        bits::insert(&mut self.words, number);
    }

    /// Takes a number out.
    pub fn remove(&mut self, number: usize)
        requires { number < 64 * length self.old }
        ensures numbers { (n : ℕ) → has_number self.new n ≡ (not (n == number) && has_number self.old n) }
        ensures room { length self.new ≡ length self.old }
    {
        bits::remove(&mut self.words, number);
    }

    /// The same sequent once more.
    pub fn copy(&self, alloc: Global) -> Result<Numbered, AllocError>
        ensures { IfOk result (λ copy. copy ≡ self.now) }
    {
        let words = Vec::from_slice(alloc, self.words.as_slice())?;
        Ok(Numbered { words })
    }

    /// Becomes the other sequent, in the same memory where that suffices.
    pub fn assign(&mut self, other: &Numbered) -> Result<(), AllocError>
        ensures { OnOk result (self.new ≡ other.now) }
    {
        self.words.clear();
        self.words.extend_from_slice(other.words())
    }

    /// Whether the sequents have the same numbers.
    pub fn is_same(&self, other: &Numbered) -> bool
        ensures { IsTrue result → self.now ≡ other.now }
    {
        self.words == other.words
    }
}
