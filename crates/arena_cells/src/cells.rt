//! Cells: what stands at the numbers, in a table in which a key is found by its hash.
ghost use Rattle.std.specs.Prelude.{◌≡◌, ◌<◌, ℕ, List, [], length, IsTrue, IfOk, IfSome, IsNone};
ghost use Rattle.arena_cells.specs.Items.{Item};
ghost use Rattle.arena_cells.specs.Standing.{Stands, Extends, IsDistinct, item_at, symbol_at, term_at, terms_at, formula_at, IsSymbolAt, IsTermAt, IsTermsAt, IsFormulaAt, IsThere};
ghost use Rattle.arena_cells.specs.ItemFacts.{is_open_item, item_dangling};
ghost use Rattle.arena_cells.specs.Meaning.{meaning, HasParts, IsKeyAt};
ghost use Rattle.arena_cells.specs.Cells.{stored_of};

use crate::key::Key;
use crate::values::stored_for;
use fol::{Formula, Sym, Term, Terms};
use indexmap::IndexMap;
use number_hash::ByNumber;
use std::alloc::{AllocError, Global};
use std::marker::Model;

/// The value of a cell that is a symbol, a term, a list of terms or a formula. Of other cells only the key is kept.
pub(crate) enum Stored {
    Symbol(Sym),
    Term(Term),
    Terms(Terms),
    Formula(Formula),
    Nothing,
}

impl Drop for Stored {
    fn drop(self) {
        match self {
            Stored::Symbol(symbol) => drop(symbol),
            Stored::Term(term) => drop(term),
            Stored::Terms(terms) => drop(terms),
            Stored::Formula(formula) => drop(formula),
            Stored::Nothing => {}
        }
    }
}

// Whether nothing is stored of the key's item.
fn is_plain(key: &Key) -> bool
    ensures { IsTrue result → (a : List Item) → stored_of (meaning a key.now) ≡ Stored.Nothing }
{
    matches!(
        key,
        Key::Variables(_) | Key::Map(..) | Key::Side(_) | Key::Sequent(..) | Key::Tree(..)
    )
}

/// What stands at the numbers, each thing once.
#[derive(Drop)]
pub struct Cells {
    // The number of a key is its place.
    cells: IndexMap<Key, Stored, ByNumber>,
}

impl Model for Cells {
    ghost use Rattle.std.specs.Prelude.{List};
    ghost use Rattle.std.specs.Coded.{coded_list};
    ghost use Rattle.arena_cells.specs.Items.{Item, coded_item};

    ghost Value = { List Item };

    ghost coded = { coded_list coded_item };

    ghost use Rattle.arena_cells.specs.Cells.{items_of, IsIndexed};

    ghost view = { items_of };

    ghost invariant = { IsIndexed };
}

impl Cells {
    /// Cells with nothing in them.
    pub fn new(alloc: Global) -> Cells
        ensures { result ≡ [] }
    {
        Cells {
            cells: IndexMap::with_hasher(alloc, ByNumber),
        }
    }

    /// No thing stands twice.
    pub fn known(&self)
        ensures { IsDistinct self.now }
    {
        let _cells = &self.cells;
    }

    /// How many things there are.
    pub fn len(&self) -> usize
        ensures { result ≡ length self.now }
    {
        self.cells.len()
    }

    /// The key of what stands at the number.
    pub fn key(&self, number: u32) -> &Key
        requires { number < length self.now }
        ensures { IsKeyAt self.now number result.now }
    {
        let Some((key, _)) = self.cells.get_index(number as usize) else {
            unreachable!()
        };
        key
    }

    // What is stored of what stands at the number.
    fn stored(&self, number: u32) -> &Stored
        requires { number < length self.now }
        ensures { result.now ≡ stored_of (item_at self.now number) }
    {
        let Some((_, stored)) = self.cells.get_index(number as usize) else {
            unreachable!()
        };
        stored
    }

    /// The symbol at the number.
    #[tactic(auto, using(crate::proofs::Staying::within, crate::proofs::Stored::symbol_stored))]
    pub fn symbol(&self, number: u32) -> &Sym
        requires { IsSymbolAt self.now number }
        ensures { result.now ≡ symbol_at self.now number }
    {
        match self.stored(number) {
            Stored::Symbol(symbol) => symbol,
            _ => unreachable!(),
        }
    }

    /// The term at the number.
    #[tactic(auto, using(crate::proofs::Staying::within, crate::proofs::Stored::term_stored))]
    pub fn term(&self, number: u32) -> &Term
        requires { IsTermAt self.now number }
        ensures { result.now ≡ term_at self.now number }
    {
        match self.stored(number) {
            Stored::Term(term) => term,
            _ => unreachable!(),
        }
    }

    /// The list of terms at the number.
    #[tactic(auto, using(crate::proofs::Staying::within, crate::proofs::Stored::terms_stored))]
    pub fn terms(&self, number: u32) -> &Terms
        requires { IsTermsAt self.now number }
        ensures { result.now ≡ terms_at self.now number }
    {
        match self.stored(number) {
            Stored::Terms(terms) => terms,
            _ => unreachable!(),
        }
    }

    /// The formula at the number.
    #[tactic(auto, using(crate::proofs::Staying::within, crate::proofs::Stored::formula_stored))]
    pub fn formula(&self, number: u32) -> &Formula
        requires { IsFormulaAt self.now number }
        ensures { result.now ≡ formula_at self.now number }
    {
        match self.stored(number) {
            Stored::Formula(formula) => formula,
            _ => unreachable!(),
        }
    }

    /// Whether a variable is free in the term, the list of terms or the formula at the number.
    #[tactic(auto, using(crate::proofs::Staying::within, crate::proofs::StoredFacts::open_stored))]
    pub fn has_free(&self, number: u32) -> bool
        requires { IsThere self.now number }
        ensures { result ≡ is_open_item (item_at self.now number) }
    {
        match self.stored(number) {
            Stored::Term(term) => term.has_free(),
            Stored::Terms(terms) => terms.has_free(),
            Stored::Formula(formula) => formula.has_free(),
            Stored::Symbol(_) | Stored::Nothing => false,
        }
    }

    /// The least number that is above each index of a quantifier around what stands at the number.
    #[tactic(auto, using(crate::proofs::Staying::within, crate::proofs::StoredFacts::dangling_stored))]
    pub fn dangling(&self, number: u32) -> u64
        requires { IsThere self.now number }
        ensures { result ≡ item_dangling (item_at self.now number) }
    {
        match self.stored(number) {
            Stored::Term(term) => term.dangling(),
            Stored::Terms(terms) => terms.dangling(),
            Stored::Formula(formula) => formula.dangling(),
            Stored::Symbol(_) | Stored::Nothing => 0,
        }
    }

    /// The number at which the key's item stands.
    pub fn find(&self, key: &Key) -> Option<u32>
        requires { HasParts self.now key.now }
        ensures found { IfSome result (λ n. Stands self.now n (meaning self.now key.now)) }
        ensures absent { IsNone result → (n : ℕ) → ¬ Stands self.now n (meaning self.now key.now) }
    {
        let number = self.cells.get_index_of(key)?;
        Some(number as u32)
    }

    // Adds a key that isn't there, with what is stored of its item. More than 2^32 things are refused as want of memory.
    fn add(&mut self, key: Key, stored: Stored) -> Result<u32, AllocError>
        requires parts { HasParts self.old key }
        requires stored { stored ≡ stored_of (meaning self.old key) }
        requires absent { (n : ℕ) → ¬ Stands self.old n (meaning self.old key) }
        ensures stands { IfOk result (λ n. Stands self.new n (meaning self.old key)) }
        ensures grown { Extends self.old self.new }
    {
        let Ok(number) = u32::try_from(self.cells.len()) else {
            return Err(AllocError);
        };
        self.cells.insert(key, stored)?;
        Ok(number)
    }

    /// The number of the key's item, which is added unless it is there.
    pub fn put(&mut self, alloc: Global, key: Key) -> Result<u32, AllocError>
        requires { HasParts self.old key }
        ensures stands { IfOk result (λ n. Stands self.new n (meaning self.old key)) }
        ensures grown { Extends self.old self.new }
    {
        if is_plain(&key) {
            return self.put_plain(key);
        }
        if let Some(number) = self.find(&key) {
            return Ok(number);
        }
        let stored = stored_for(self, alloc, &key)?;
        self.add(key, stored)
    }

    // The number of a key of whose item nothing is stored: one look finds it, or the place for it.
    fn put_plain(&mut self, key: Key) -> Result<u32, AllocError>
        requires parts { HasParts self.old key }
        requires plain { (a : List Item) → stored_of (meaning a key) ≡ Stored.Nothing }
        ensures stands { IfOk result (λ n. Stands self.new n (meaning self.old key)) }
        ensures grown { Extends self.old self.new }
    {
        let Ok(_) = u32::try_from(self.cells.len()) else {
            return Err(AllocError);
        };
        let (number, _) = self.cells.insert_full(key, Stored::Nothing)?;
        Ok(number as u32)
    }
}
