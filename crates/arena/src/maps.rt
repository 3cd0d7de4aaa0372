//! Maps from variables to terms.
ghost use Rattle.std.specs.Prelude.{◌≡◌, ◌↔◌, IsTrue, IfOk};
ghost use Rattle.std.specs.FinMap as fin;
ghost use Rattle.substitution.specs.Maps.{only as one_binding};
ghost use Rattle.substitution.specs.Restriction.{restricted};
ghost use Rattle.arena_cells.specs.Standing.{Extends, HasMap, variable_at, term_at, variables_at, map_at, IsVariableAt, IsTermAt, AreVariablesAt, IsMapAt};

use crate::arena::Arena;
use crate::lists::{count_needed, needed_pairs, with_pair};
use arena_cells::{Key, Numbers};
use fol::{Term, Var};
use std::alloc::{AllocError, Global};
use substitution::Subst;

impl Arena {
    /// The map with no binding.
    pub fn no_binding(&mut self, alloc: Global) -> Result<u32, AllocError>
        ensures map { IfOk result (λ n. HasMap self.new n fin.empty) }
        ensures grown { Extends self.old self.new }
    {
        let variables = Numbers::from_vec(alloc, Vec::new(alloc))?;
        let terms = Numbers::from_vec(alloc, Vec::new(alloc))?;
        self.put(alloc, Key::Map(variables, terms))
    }

    /// The map in which the variable has the term, in place of one that it had.
    pub fn with_binding(
        &mut self,
        alloc: Global,
        map: u32,
        variable: u32,
        term: u32,
    ) -> Result<u32, AllocError>
        requires map { IsMapAt self.old map }
        requires variable { IsVariableAt self.old variable }
        requires term { IsTermAt self.old term }
        ensures map { IfOk result (λ n. HasMap self.new n (fin.insert (map_at self.old map) (variable_at self.old variable) (term_at self.old term))) }
        ensures grown { Extends self.old self.new }
    {
        self.known();
        let Key::Map(variables, terms) = self.key(map) else {
            unreachable!()
        };
        let (variables, terms) = with_pair(
            alloc,
            variables.as_slice(),
            terms.as_slice(),
            variable,
            term,
        )?;
        self.put(alloc, Key::Map(variables, terms))
    }

    /// The map with one binding.
    pub fn only_binding(
        &mut self,
        alloc: Global,
        variable: u32,
        term: u32,
    ) -> Result<u32, AllocError>
        requires variable { IsVariableAt self.old variable }
        requires term { IsTermAt self.old term }
        ensures map { IfOk result (λ n. HasMap self.new n (one_binding (variable_at self.old variable) (term_at self.old term))) }
        ensures grown { Extends self.old self.new }
    {
        let map = self.no_binding(alloc)?;
        self.with_binding(alloc, map, variable, term)
    }

    // How many of the map's bindings change a variable of the set, and how many bindings there are.
    fn count_changes(&self, map: u32, set: u32) -> (usize, usize)
        requires map { IsMapAt self.now map }
        requires set { AreVariablesAt self.now set }
        ensures none { (result.0 ≡ 0) ↔ (restricted (map_at self.now map) (variables_at self.now set) ≡ fin.empty) }
        ensures all { result.0 ≡ result.1 → restricted (map_at self.now map) (variables_at self.now set) ≡ map_at self.now map }
    {
        self.known();
        let Key::Map(variables, terms) = self.key(map) else {
            unreachable!()
        };
        let (keys, values) = (variables.as_slice(), terms.as_slice());
        let changes = count_needed(keys, values, self.variable_numbers(set));
        (changes, keys.len())
    }

    /// Whether the map changes no variable of the set. Then it changes nothing whose free variables are in the set.
    pub fn fixes_all(&self, map: u32, set: u32) -> bool
        requires map { IsMapAt self.now map }
        requires set { AreVariablesAt self.now set }
        ensures { IsTrue result ↔ (restricted (map_at self.now map) (variables_at self.now set) ≡ fin.empty) }
    {
        let (changes, _) = self.count_changes(map, set);
        changes == 0
    }

    /// The map's bindings of the variables of a set, but for those that send a variable to itself. It does the same to all formulas whose
    /// free variables are in the set. A map all of whose bindings are such keeps its number, and no list is made.
    pub fn restrict(&mut self, alloc: Global, map: u32, set: u32) -> Result<u32, AllocError>
        requires map { IsMapAt self.old map }
        requires set { AreVariablesAt self.old set }
        ensures map { IfOk result (λ n. HasMap self.new n (restricted (map_at self.old map) (variables_at self.old set))) }
        ensures grown { Extends self.old self.new }
    {
        let (changes, bindings) = self.count_changes(map, set);
        if changes == bindings {
            return Ok(map);
        }
        self.known();
        let Key::Map(variables, terms) = self.key(map) else {
            unreachable!()
        };
        let (variables, terms) = needed_pairs(
            alloc,
            variables.as_slice(),
            terms.as_slice(),
            self.variable_numbers(set),
        )?;
        self.put(alloc, Key::Map(variables, terms))
    }

    // The map of bindings of which an earlier one counts where two are of one variable.
    fn import_bindings(
        &mut self,
        alloc: Global,
        bindings: &[(Var, Term)],
    ) -> Result<u32, AllocError>
        ensures map { IfOk result (λ n. HasMap self.new n (fin.from_entries bindings.now)) }
        ensures grown { Extends self.old self.new }
    {
        match bindings {
            [] => self.no_binding(alloc),
            [(variable, term), rest @ ..] => {
                let map = self.import_bindings(alloc, rest)?;
                let variable = self.import_variable(alloc, variable)?;
                let term = self.import_term(alloc, term)?;
                self.with_binding(alloc, map, variable, term)
            }
        }
    }

    /// The number of a map.
    #[tactic(auto, using(crate::proofs::BindingLaws::entries_map))]
    pub fn import_map(&mut self, alloc: Global, map: &Subst) -> Result<u32, AllocError>
        ensures map { IfOk result (λ n. HasMap self.new n map.now) }
        ensures grown { Extends self.old self.new }
    {
        self.import_bindings(alloc, map.as_slice())
    }
}
