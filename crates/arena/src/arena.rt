//! Arenas.
ghost use Rattle.std.specs.Prelude.{◌≡◌, ◌↔◌, ◌<◌, ℕ, [], length, IsTrue, IfOk, IfSome, IsNone};
ghost use Rattle.finite.specs.Finite as set;
ghost use Rattle.arena_cells.specs.Standing.{Stands, Extends, IsDistinct, HasFormula, HasVariables, item_at, symbol_at, term_at, terms_at, formula_at, IsSymbolAt, IsTermAt, IsTermsAt, IsFormulaAt, IsThere};
ghost use Rattle.arena_cells.specs.ItemFacts.{is_open_item, item_dangling};
ghost use Rattle.arena_cells.specs.Meaning.{meaning, HasParts, IsKeyAt};
ghost use Rattle.arena.specs.Tasks.{result_of, HasTask, vars_any};

use crate::places::{entry, set_entry};
use crate::task::Task;
use arena_cells::{Cells, Key};
use fol::{Formula, Sym, Term, Terms};
use number_hash::ByNumber;
use std::alloc::{AllocError, Global};
use std::collections::HashMap;
use std::marker::Model;

/// A formula that was imported, with its number.
#[derive(Drop)]
pub(crate) struct Imported {
    pub formula: Formula,
    pub number: u32,
}

/// An arena: what stands at the numbers of one call, each thing once, and the results of what has been asked of it.
pub struct Arena {
    cells: Cells,
    results: HashMap<Task, u32, ByNumber>,
    // By the number of what they are free in.
    variables: Vec<Option<u32>>,
    // The number of the set of no variable, once that was asked for.
    no_variables: Option<u32>,
    // By fingerprint. Of two formulas with one fingerprint the later one is kept.
    imported: HashMap<u64, Imported, ByNumber>,
}

impl Drop for Arena {
    fn drop(self) {
        let Arena {
            cells,
            results,
            variables,
            no_variables: _,
            imported,
        } = self;
        drop(cells);
        drop(results);
        drop(variables);
        drop(imported);
    }
}

impl Model for Arena {
    ghost use Rattle.std.specs.Prelude.{List};
    ghost use Rattle.std.specs.Coded.{coded_list};
    ghost use Rattle.arena_cells.specs.Items.{Item, coded_item};

    ghost Value = { List Item };

    ghost coded = { coded_list coded_item };

    ghost use Rattle.arena.specs.Tasks.{IsArena};

    ghost view = { λ a. a.cells };

    ghost invariant = { IsArena };
}

impl Arena {
    /// An arena with nothing in it.
    pub fn new(alloc: Global) -> Arena
        ensures { result ≡ [] }
    {
        Arena {
            cells: Cells::new(alloc),
            results: HashMap::with_hasher(alloc, ByNumber),
            variables: Vec::new(alloc),
            no_variables: None,
            imported: HashMap::with_hasher(alloc, ByNumber),
        }
    }

    /// No thing stands twice: things are equal exactly where their numbers are.
    pub fn known(&self)
        ensures { IsDistinct self.now }
    {
        self.cells.known();
    }

    /// How many things there are.
    pub fn len(&self) -> usize
        ensures { result ≡ length self.now }
    {
        self.cells.len()
    }

    /// The key of what stands at the number.
    pub fn key(&self, number: u32) -> &Key
        requires { number < length self.now }
        ensures { IsKeyAt self.now number result.now }
    {
        self.cells.key(number)
    }

    /// The symbol at the number.
    pub fn symbol(&self, number: u32) -> &Sym
        requires { IsSymbolAt self.now number }
        ensures { result.now ≡ symbol_at self.now number }
    {
        self.cells.symbol(number)
    }

    /// The term at the number.
    pub fn term(&self, number: u32) -> &Term
        requires { IsTermAt self.now number }
        ensures { result.now ≡ term_at self.now number }
    {
        self.cells.term(number)
    }

    /// The list of terms at the number.
    pub fn terms(&self, number: u32) -> &Terms
        requires { IsTermsAt self.now number }
        ensures { result.now ≡ terms_at self.now number }
    {
        self.cells.terms(number)
    }

    /// The formula at the number.
    pub fn formula(&self, number: u32) -> &Formula
        requires { IsFormulaAt self.now number }
        ensures { result.now ≡ formula_at self.now number }
    {
        self.cells.formula(number)
    }

    /// Whether the same thing stands at both numbers.
    pub fn same(&self, first: u32, second: u32) -> bool
        requires first { IsThere self.now first }
        requires second { IsThere self.now second }
        ensures { IsTrue result ↔ (item_at self.now first ≡ item_at self.now second) }
    {
        self.known();
        first == second
    }

    /// Whether a variable is free in the term, the list of terms or the formula at the number.
    pub fn has_free(&self, number: u32) -> bool
        requires { IsThere self.now number }
        ensures { result ≡ is_open_item (item_at self.now number) }
    {
        self.cells.has_free(number)
    }

    /// The least number that is above each index of a quantifier around what stands at the number.
    pub fn dangling(&self, number: u32) -> u64
        requires { IsThere self.now number }
        ensures { result ≡ item_dangling (item_at self.now number) }
    {
        self.cells.dangling(number)
    }

    /// The number of the key's item, if that is there. It takes one look-up by the key's hash.
    pub fn find(&self, key: &Key) -> Option<u32>
        requires { HasParts self.now key.now }
        ensures found { IfSome result (λ n. Stands self.now n (meaning self.now key.now)) }
        ensures absent { IsNone result → (n : ℕ) → ¬ Stands self.now n (meaning self.now key.now) }
    {
        self.cells.find(key)
    }

    /// The number of the key's item, which is added unless it is there. It takes a look-up by the key's hash. More than 2^32 things are
    /// refused as want of memory.
    pub fn put(&mut self, alloc: Global, key: Key) -> Result<u32, AllocError>
        requires { HasParts self.old key }
        ensures stands { IfOk result (λ n. Stands self.new n (meaning self.old key)) }
        ensures grown { Extends self.old self.new }
    {
        self.cells.put(alloc, key)
    }

    /// The number of a task's result, if that is kept. It takes one look-up by the task's hash.
    pub fn look_up(&self, task: Task) -> Option<u32>
        ensures { IfSome result (λ n. Stands self.now n (result_of self.now task)) }
    {
        self.results.get(&task).copied()
    }

    /// Keeps the result of a task.
    pub fn note(&mut self, task: Task, number: u32) -> Result<(), AllocError>
        requires task { HasTask self.old task }
        requires result { Stands self.old number (result_of self.old task) }
        ensures { self.new ≡ self.old }
    {
        self.results.insert(task, number)?;
        Ok(())
    }

    /// The number of the set of the free variables of what stands at a number, if that is kept. It takes one look.
    pub fn known_vars(&self, number: u32) -> Option<u32>
        ensures { IfSome result (λ n. HasVariables self.now n (vars_any (item_at self.now number))) }
    {
        entry(&self.variables, number)
    }

    /// Keeps the set of the free variables of what stands at a number.
    pub fn note_vars(&mut self, number: u32, variables: u32) -> Result<(), AllocError>
        requires there { IsThere self.old number }
        requires variables { HasVariables self.old variables (vars_any (item_at self.old number)) }
        ensures { self.new ≡ self.old }
    {
        set_entry(&mut self.variables, number, variables)
    }

    // The number of the set of no variable, if that is kept.
    pub(crate) fn known_no_variable(&self) -> Option<u32>
        ensures { IfSome result (λ n. HasVariables self.now n set.empty) }
    {
        self.no_variables
    }

    // Keeps the number of the set of no variable.
    pub(crate) fn note_no_variable(&mut self, number: u32)
        requires { HasVariables self.old number set.empty }
        ensures { self.new ≡ self.old }
    {
        self.no_variables = Some(number);
    }

    // The number of a formula, where it was imported and is still kept.
    pub(crate) fn look_up_formula(&self, formula: &Formula) -> Option<u32>
        ensures { IfSome result (λ n. HasFormula self.now n formula.now) }
    {
        let imported = self.imported.get(&formula.fingerprint())?;
        if imported.formula == *formula {
            Some(imported.number)
        } else {
            None
        }
    }

    // Keeps the number of a formula.
    pub(crate) fn note_formula(&mut self, formula: Formula, number: u32) -> Result<(), AllocError>
        requires { HasFormula self.old number formula }
        ensures { self.new ≡ self.old }
    {
        let fingerprint = formula.fingerprint();
        self.imported
            .insert(fingerprint, Imported { formula, number })?;
        Ok(())
    }
}
