//! Free variables, as sets of numbers.
ghost use Rattle.std.specs.Prelude.{◌≡◌, not, ◌&&◌, ◌++◌, map, IsTrue, IfOk, IfSome};
ghost use Rattle.std.specs.Ordering.{eq_by_cmp};
ghost use Rattle.fol.specs.declared.symbols.Var.{Var as Variable};
ghost use Rattle.fol.specs.Order.{var_cmp};
ghost use Rattle.finite.specs.Finite as set;
ghost use Rattle.free_variables.specs.Union.{union_of};
ghost use Rattle.free_variables.specs.Fresh.{least_outside};
ghost use Rattle.free_variables.specs.Occurrence.{vars_term, vars_formula, is_free_in, is_free_in_term};
ghost use Rattle.arena_cells.specs.Standing.{Stands, Extends, HasVariable, HasVariables, item_at, term_at, variable_at, formula_at, variables_at, IsTermAt, IsVariableAt, IsFormulaAt, AreVariablesAt, IsThere};
ghost use Rattle.arena_cells.specs.Meaning.{meaning, vars_of, AreRisingVariables, IsKeyAt};
ghost use Rattle.arena_cells.specs.Items.{variables as variable_set};
ghost use Rattle.arena.specs.Changes.{IsNoVariable};
ghost use Rattle.arena.specs.Tasks.{vars_item};

use crate::arena::Arena;
use crate::changes::walked_parts;
use crate::lists::{joined, without};
use arena_cells::{Key, Numbers, Parts};
use fol::Var;
use free_variables::{Vars, fresh};
use std::alloc::{AllocError, Global};

impl Arena {
    /// The variable at the number.
    pub fn variable(&self, number: u32) -> &Var
        requires { IsVariableAt self.now number }
        ensures { result.now ≡ variable_at self.now number }
    {
        match self.key(number) {
            Key::Free(variable) => variable,
            _ => unreachable!(),
        }
    }

    /// The rising numbers of a set's variables.
    pub fn variable_numbers(&self, number: u32) -> &[u32]
        requires { AreVariablesAt self.now number }
        ensures rising { AreRisingVariables self.now result.now }
        ensures shown { variables_at self.now number ≡ vars_of self.now result.now }
    {
        match self.key(number) {
            Key::Variables(numbers) => numbers.as_slice(),
            _ => unreachable!(),
        }
    }

    /// Whether the variable is in the set.
    pub fn has_variable(&self, number: u32, variable: u32) -> bool
        requires set { AreVariablesAt self.now number }
        requires variable { IsVariableAt self.now variable }
        ensures { result ≡ set.has (variables_at self.now number) (variable_at self.now variable) }
    {
        self.known();
        finite::search(self.variable_numbers(number), &variable).is_ok()
    }

    // Whether each variable of the first set is in the second.
    fn are_variables_within(&self, first: u32, second: u32) -> bool
        requires first { AreVariablesAt self.now first }
        requires second { AreVariablesAt self.now second }
        ensures { result ≡ set.subset (variables_at self.now first) (variables_at self.now second) }
    {
        self.known();
        finite::is_within(self.variable_numbers(first), self.variable_numbers(second))
    }

    // That of two sets which has the variables of both, if one does.
    #[tactic(auto, using(crate::proofs::Unions::kept_both, crate::proofs::Unions::kept_first, crate::proofs::Unions::kept_second))]
    fn larger_variables(&self, first: u32, second: u32) -> Option<u32>
        requires first { AreVariablesAt self.now first }
        requires second { AreVariablesAt self.now second }
        ensures { IfSome result (λ n. HasVariables self.now n (union_of (variables_at self.now first) (variables_at self.now second))) }
    {
        if first == second {
            return Some(first);
        }
        if self.are_variables_within(second, first) {
            return Some(first);
        }
        if self.are_variables_within(first, second) {
            return Some(second);
        }
        None
    }

    /// The variables of both sets. Where one set has all of them, nothing is put; where both are one set, it takes no walk.
    pub fn union_variables(
        &mut self,
        alloc: Global,
        first: u32,
        second: u32,
    ) -> Result<u32, AllocError>
        requires first { AreVariablesAt self.old first }
        requires second { AreVariablesAt self.old second }
        ensures union { IfOk result (λ n. HasVariables self.new n (union_of (variables_at self.old first) (variables_at self.old second))) }
        ensures grown { Extends self.old self.new }
    {
        if let Some(larger) = self.larger_variables(first, second) {
            return Ok(larger);
        }
        let numbers = joined(
            alloc,
            self.variable_numbers(first),
            self.variable_numbers(second),
        )?;
        self.put(alloc, Key::Variables(numbers))
    }

    /// The set of no variable. After the first time it takes one look.
    pub fn no_variable(&mut self, alloc: Global) -> Result<u32, AllocError>
        ensures set { IfOk result (λ n. HasVariables self.new n set.empty) }
        ensures grown { Extends self.old self.new }
    {
        if let Some(number) = self.known_no_variable() {
            return Ok(number);
        }
        let numbers = Numbers::from_vec(alloc, Vec::new(alloc))?;
        let number = self.put(alloc, Key::Variables(numbers))?;
        self.note_no_variable(number);
        Ok(number)
    }

    // Whether it is the set of no variable, where that is known.
    pub(crate) fn is_no_variable(&self, number: u32) -> bool
        ensures { IsTrue result → HasVariables self.now number set.empty }
    {
        match self.known_no_variable() {
            Some(none) => none == number,
            None => false,
        }
    }

    // The set of one variable.
    fn one_variable(&mut self, alloc: Global, variable: u32) -> Result<u32, AllocError>
        requires { IsVariableAt self.old variable }
        ensures set { IfOk result (λ n. Stands self.new n (variable_set (vars_item (item_at self.old variable)))) }
        ensures grown { Extends self.old self.new }
    {
        let numbers = Numbers::from_vec(alloc, vec![in alloc; variable]?)?;
        self.put(alloc, Key::Variables(numbers))
    }

    // The variables of the term, the list of terms or the formula at the number. Each part is looked at once.
    #[cycle(vars)]
    pub(crate) fn vars(&mut self, alloc: Global, of: u32) -> Result<u32, AllocError>
        requires { IsThere self.old of }
        ensures set { IfOk result (λ n. Stands self.new n (variable_set (vars_item (item_at self.old of)))) }
        ensures grown { Extends self.old self.new }
    {
        if !self.has_free(of) {
            return self.no_variable(alloc);
        }
        if let Some(number) = self.known_vars(of) {
            return Ok(number);
        }
        let number = self.vars_at(alloc, of)?;
        self.note_vars(of, number)?;
        Ok(number)
    }

    // The same, by the key.
    #[cycle(vars)]
    fn vars_at(&mut self, alloc: Global, of: u32) -> Result<u32, AllocError>
        requires { IsThere self.old of }
        ensures set { IfOk result (λ n. Stands self.new n (variable_set (vars_item (item_at self.old of)))) }
        ensures grown { Extends self.old self.new }
    {
        let key = self.key(of).copy()?;
        if let Key::Free(_) = &key {
            return self.one_variable(alloc, of);
        }
        self.vars_below(alloc, of, &key)
    }

    // The variables of a key's parts.
    #[cycle(vars)]
    fn vars_below(&mut self, alloc: Global, of: u32, key: &Key) -> Result<u32, AllocError>
        requires key { IsKeyAt self.old of key.now }
        requires walked { IsNoVariable key.now }
        ensures set { IfOk result (λ n. Stands self.new n (variable_set (vars_item (meaning self.old key.now)))) }
        ensures grown { Extends self.old self.new }
    {
        match walked_parts(key) {
            Parts::Zero => self.no_variable(alloc),
            Parts::One(part) => self.vars(alloc, part),
            Parts::Two(first, second) => {
                let first = self.vars(alloc, first)?;
                let second = self.vars(alloc, second)?;
                self.union_variables(alloc, first, second)
            }
        }
    }

    /// The free variables of a formula. Each part is looked at once, and where they are kept it takes one look.
    #[tactic(auto, using(arena_cells::proofs::Facts::items, crate::proofs::VariableLaws::formula_known, crate::proofs::VariableLaws::formula_noted))]
    pub fn free_vars(&mut self, alloc: Global, formula: u32) -> Result<u32, AllocError>
        requires { IsFormulaAt self.old formula }
        ensures set { IfOk result (λ n. HasVariables self.new n (vars_formula (formula_at self.old formula) set.empty)) }
        ensures grown { Extends self.old self.new }
    {
        if let Some(number) = self.known_vars(formula) {
            return Ok(number);
        }
        let number = self.vars(alloc, formula)?;
        self.note_vars(formula, number)?;
        Ok(number)
    }

    /// Whether the variable is free in the formula.
    #[tactic(auto, using(free_variables::proofs::OccurrenceLaws::free_var_members, crate::proofs::VariableLaws::places))]
    pub fn occurs_free(
        &mut self,
        alloc: Global,
        variable: u32,
        formula: u32,
    ) -> Result<bool, AllocError>
        requires variable { IsVariableAt self.old variable }
        requires formula { IsFormulaAt self.old formula }
        ensures free { IfOk result (λ free. free ≡ is_free_in (variable_at self.old variable) (formula_at self.old formula)) }
        ensures grown { Extends self.old self.new }
    {
        let vars = self.free_vars(alloc, formula)?;
        Ok(self.has_variable(vars, variable))
    }

    /// The variables of a term.
    #[tactic(auto, using(arena_cells::proofs::Facts::items))]
    pub fn term_vars(&mut self, alloc: Global, term: u32) -> Result<u32, AllocError>
        requires { IsTermAt self.old term }
        ensures set { IfOk result (λ n. HasVariables self.new n (vars_term (term_at self.old term) set.empty)) }
        ensures grown { Extends self.old self.new }
    {
        self.vars(alloc, term)
    }

    /// The set without the variable.
    pub fn without_variable(
        &mut self,
        alloc: Global,
        number: u32,
        variable: u32,
    ) -> Result<u32, AllocError>
        requires set { AreVariablesAt self.old number }
        requires variable { IsVariableAt self.old variable }
        ensures set { IfOk result (AreVariablesAt self.new) }
        ensures members { (v : Variable) → IfOk result (λ n. set.has (variables_at self.new n) v ≡ (not (eq_by_cmp var_cmp v (variable_at self.old variable)) && set.has (variables_at self.old number) v)) }
        ensures grown { Extends self.old self.new }
    {
        self.known();
        let numbers = without(alloc, self.variable_numbers(number), variable)?;
        self.put(alloc, Key::Variables(numbers))
    }

    /// The numbered variable of least number outside the set.
    pub fn fresh_outside(&mut self, alloc: Global, number: u32) -> Result<u32, AllocError>
        requires { AreVariablesAt self.old number }
        ensures variable { IfOk result (λ n. HasVariable self.new n (least_outside (set.listing (variables_at self.old number)))) }
        ensures grown { Extends self.old self.new }
    {
        let vars = self.export_variables(alloc, number)?;
        self.import_variable(alloc, &fresh(vars.as_slice()))
    }

    /// The variables of a set.
    pub fn export_variables(&self, alloc: Global, number: u32) -> Result<Vars, AllocError>
        requires { AreVariablesAt self.now number }
        ensures { IfOk result (λ vars. vars ≡ variables_at self.now number) }
    {
        let list = self.copy_variables(alloc, self.variable_numbers(number))?;
        Ok(Vars::from_vec(list))
    }

    // Other owners of the variables at the numbers.
    fn copy_variables(&self, alloc: Global, numbers: &[u32]) -> Result<Vec<Var>, AllocError>
        requires { AreRisingVariables self.now numbers.now }
        ensures { IfOk result (λ list. list.items ≡ map (variable_at self.now) numbers.now) }
    {
        let mut list = Vec::with_capacity(alloc, numbers.len())?;
        for number in numbers {
            list.push(self.variable(*number).copy()?)?;
        }
        Ok(list)
    }
}
