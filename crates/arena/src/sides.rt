//! Sets of formulas.
ghost use Rattle.std.specs.Prelude.{◌≡◌, ◌≤◌, ◌<◌, ◌++◌, not, ◌&&◌, length, take, get_or, map as each, true, IfOk};
ghost use Rattle.std.specs.FinMap as fin;
ghost use Rattle.std.specs.List.{All, filter, list_all, slice_range};
ghost use Rattle.std.specs.Ordering.{eq_by_cmp};
ghost use Rattle.fol.specs.Syntax.{Formula as Sentence};
ghost use Rattle.fol.specs.Order.{formula_cmp};
ghost use Rattle.fol.specs.Formed.{is_formed, IsFormed};
ghost use Rattle.finite.specs.Finite as set;
ghost use Rattle.free_variables.specs.Union.{union_of};
ghost use Rattle.free_variables.specs.Occurrence.{vars_formula};
ghost use Rattle.substitution.specs.Image.{image as image_of};
ghost use Rattle.lk_rules.specs.Formulas.{image_set, var_lists};
ghost use Rattle.arena_cells.specs.Standing.{Stands, Extends, HasSide, HasVariables, formula_at, side_at, map_at, variables_at, IsFormulaAt, IsSideAt, IsMapAt, AreVariablesAt};
ghost use Rattle.arena_cells.specs.Meaning.{formulas_of, AreRisingFormulas};
ghost use Rattle.arena.specs.Tasks.{vars_side};
ghost use Rattle.arena.specs.Lists.{is_closed_at, is_open_at};

use crate::arena::Arena;
use crate::lists::{distinct, joined, joined_with, with, without};
use crate::task::Task;
use arena_cells::{Key, Numbers};
use fol::Formula;
use lk_rules::Formulas;
use std::alloc::{AllocError, Global};

impl Arena {
    /// The rising numbers of a set's formulas.
    pub fn side_numbers(&self, side: u32) -> &[u32]
        requires { IsSideAt self.now side }
        ensures rising { AreRisingFormulas self.now result.now }
        ensures shown { side_at self.now side ≡ formulas_of self.now result.now }
    {
        match self.key(side) {
            Key::Side(numbers) => numbers.as_slice(),
            _ => unreachable!(),
        }
    }

    /// The set of the formulas at the numbers, which may stand in any order and more than once.
    pub fn put_side(&mut self, alloc: Global, formulas: Vec<u32>) -> Result<u32, AllocError>
        requires { All (IsFormulaAt self.old) formulas.items }
        ensures side { IfOk result (λ n. HasSide self.new n (formulas_of self.old formulas.items)) }
        ensures grown { Extends self.old self.new }
    {
        let numbers = distinct(alloc, formulas)?;
        self.put(alloc, Key::Side(numbers))
    }

    /// Whether the formula is in the set.
    pub fn side_has(&self, side: u32, formula: u32) -> bool
        requires side { IsSideAt self.now side }
        requires formula { IsFormulaAt self.now formula }
        ensures { result ≡ set.has (side_at self.now side) (formula_at self.now formula) }
    {
        self.known();
        finite::search(self.side_numbers(side), &formula).is_ok()
    }

    /// Whether each formula of the first set is in the second. Where both are one set, it takes no walk.
    pub fn is_side_within(&self, first: u32, second: u32) -> bool
        requires first { IsSideAt self.now first }
        requires second { IsSideAt self.now second }
        ensures { result ≡ set.subset (side_at self.now first) (side_at self.now second) }
    {
        self.known();
        first == second || finite::is_within(self.side_numbers(first), self.side_numbers(second))
    }

    /// The formulas of both sets.
    pub fn union_sides(&mut self, alloc: Global, first: u32, second: u32) -> Result<u32, AllocError>
        requires first { IsSideAt self.old first }
        requires second { IsSideAt self.old second }
        ensures union { IfOk result (λ n. HasSide self.new n (union_of (side_at self.old first) (side_at self.old second))) }
        ensures grown { Extends self.old self.new }
    {
        let numbers = joined(alloc, self.side_numbers(first), self.side_numbers(second))?;
        self.put(alloc, Key::Side(numbers))
    }

    /// The set with the formula.
    pub fn side_with(&mut self, alloc: Global, side: u32, formula: u32) -> Result<u32, AllocError>
        requires side { IsSideAt self.old side }
        requires formula { IsFormulaAt self.old formula }
        ensures side { IfOk result (λ n. HasSide self.new n (set.adds (side_at self.old side) (formula_at self.old formula))) }
        ensures grown { Extends self.old self.new }
    {
        let numbers = with(alloc, self.side_numbers(side), formula)?;
        self.put(alloc, Key::Side(numbers))
    }

    /// The set without the formula.
    pub fn side_without(
        &mut self,
        alloc: Global,
        side: u32,
        formula: u32,
    ) -> Result<u32, AllocError>
        requires side { IsSideAt self.old side }
        requires formula { IsFormulaAt self.old formula }
        ensures side { IfOk result (IsSideAt self.new) }
        ensures members { (f : Sentence) → IfOk result (λ n. set.has (side_at self.new n) f ≡ (not (eq_by_cmp formula_cmp f (formula_at self.old formula)) && set.has (side_at self.old side) f)) }
        ensures grown { Extends self.old self.new }
    {
        self.known();
        let numbers = without(alloc, self.side_numbers(side), formula)?;
        self.put(alloc, Key::Side(numbers))
    }

    // The numbers of formulas.
    fn import_each(&mut self, alloc: Global, formulas: &[Formula]) -> Result<Vec<u32>, AllocError>
        ensures formulas { IfOk result (λ numbers. each (formula_at self.new) numbers.items ≡ formulas.now) }
        ensures there { IfOk result (λ numbers. All (IsFormulaAt self.new) numbers.items) }
        ensures grown { Extends self.old self.new }
    {
        let mut numbers = Vec::with_capacity(alloc, formulas.len())?;
        for formula in formulas {
            numbers.push(self.import_formula(alloc, formula)?)?;
        }
        Ok(numbers)
    }

    /// The number of a set of formulas.
    pub fn import_side(&mut self, alloc: Global, formulas: &Formulas) -> Result<u32, AllocError>
        ensures side { IfOk result (λ n. HasSide self.new n formulas.now) }
        ensures grown { Extends self.old self.new }
    {
        let numbers = self.import_each(alloc, formulas.as_slice())?;
        self.put_side(alloc, numbers)
    }

    // Other owners of the formulas at the numbers.
    fn copy_formulas(&self, alloc: Global, numbers: &[u32]) -> Result<Vec<Formula>, AllocError>
        requires { AreRisingFormulas self.now numbers.now }
        ensures { IfOk result (λ list. list.items ≡ each (formula_at self.now) numbers.now) }
    {
        let mut list = Vec::with_capacity(alloc, numbers.len())?;
        for number in numbers {
            list.push(self.formula(*number).copy()?)?;
        }
        Ok(list)
    }

    /// A set of well-formed formulas.
    pub fn export_side(&self, alloc: Global, side: u32) -> Result<Formulas, AllocError>
        requires side { IsSideAt self.now side }
        requires formed { list_all is_formed (set.listing (side_at self.now side)) ≡ true }
        ensures { IfOk result (λ formulas. formulas ≡ side_at self.now side) }
    {
        let list = self.copy_formulas(alloc, self.side_numbers(side))?;
        Formulas::from_vec(alloc, list)
    }

    // The images of the formulas at the numbers, whose places they take.
    fn image_each(
        &mut self,
        alloc: Global,
        map: u32,
        numbers: Vec<u32>,
    ) -> Result<Vec<u32>, AllocError>
        requires map { IsMapAt self.old map }
        requires formulas { All (IsFormulaAt self.old) numbers.items }
        ensures images { IfOk result (λ images. each (formula_at self.new) images.items ≡ each (image_of (fin.get (map_at self.old map))) (each (formula_at self.old) numbers.items)) }
        ensures there { IfOk result (λ images. All (IsFormulaAt self.new) images.items) }
        ensures grown { Extends self.old self.new }
    {
        let mut images = numbers;
        for place in 0..images.len() {
            let image = self.image(alloc, map, images[place])?;
            images[place] = image;
        }
        Ok(images)
    }

    /// The image of a set of formulas under a map. Formulas that fall together become one. A set of whose free variables the map changes none
    /// keeps its number, and none of its formulas is looked at.
    pub fn image_of_side(&mut self, alloc: Global, map: u32, side: u32) -> Result<u32, AllocError>
        requires map { IsMapAt self.old map }
        requires side { IsSideAt self.old side }
        ensures side { IfOk result (λ n. HasSide self.new n (image_set (fin.get (map_at self.old map)) (side_at self.old side))) }
        ensures grown { Extends self.old self.new }
    {
        let task = Task::Image(map, side);
        if let Some(number) = self.look_up(task) {
            return Ok(number);
        }
        let vars = self.side_vars(alloc, side)?;
        if self.fixes_all(map, vars) {
            return Ok(side);
        }
        let number = self.image_of_members(alloc, map, side)?;
        self.note(task, number)?;
        Ok(number)
    }

    // Whether no variable is free in the formula. Where its variables are kept, they are none exactly where they are the set of none.
    fn is_closed(&self, formula: u32) -> bool
        requires { IsFormulaAt self.now formula }
        ensures { result ≡ is_closed_at self.now formula }
    {
        self.known();
        match (self.known_vars(formula), self.known_no_variable()) {
            (Some(vars), Some(none)) => vars == none,
            _ => !self.has_free(formula),
        }
    }

    // The place of the first formula from a place on that isn't closed.
    fn skip_closed(&self, numbers: &[u32], start: usize) -> usize
        requires formulas { All (IsFormulaAt self.now) numbers.now }
        requires start { start ≤ length numbers.now }
        ensures forward { start ≤ result }
        ensures within { result ≤ length numbers.now }
        ensures closed { filter (is_closed_at self.now) (take result numbers.now) ≡ filter (is_closed_at self.now) (take start numbers.now) ++ slice_range numbers.now start result }
        ensures others { filter (is_open_at self.now) (take result numbers.now) ≡ filter (is_open_at self.now) (take start numbers.now) }
        ensures open { result < length numbers.now → is_open_at self.now (get_or numbers.now result 0) ≡ true }
    {
        let mut place = start;
        while place < numbers.len() && self.is_closed(numbers[place]) {
            place += 1;
        }
        place
    }

    // The closed formulas of a list and the others, in its order.
    fn closed_and_others(
        &self,
        alloc: Global,
        numbers: &[u32],
    ) -> Result<(Vec<u32>, Vec<u32>), AllocError>
        requires { All (IsFormulaAt self.now) numbers.now }
        ensures closed { IfOk result (λ pair. pair.0.items ≡ filter (is_closed_at self.now) numbers.now) }
        ensures others { IfOk result (λ pair. pair.1.items ≡ filter (is_open_at self.now) numbers.now) }
    {
        let mut closed = Vec::with_capacity(alloc, numbers.len())?;
        let mut others = Vec::with_capacity(alloc, numbers.len())?;
        let mut start = 0;
        while start < numbers.len() {
            let place = self.skip_closed(numbers, start);
            closed.extend_from_slice(&numbers[start..place])?;
            if place < numbers.len() {
                others.push(numbers[place])?;
            }
            start = place + 1;
        }
        Ok((closed, others))
    }

    // The image of a set of formulas under a map, formula by formula. The closed ones keep their numbers, which rise already.
    fn image_of_members(&mut self, alloc: Global, map: u32, side: u32) -> Result<u32, AllocError>
        requires map { IsMapAt self.old map }
        requires side { IsSideAt self.old side }
        ensures side { IfOk result (λ n. HasSide self.new n (image_set (fin.get (map_at self.old map)) (side_at self.old side))) }
        ensures grown { Extends self.old self.new }
    {
        let (closed, others) = self.closed_and_others(alloc, self.side_numbers(side))?;
        let images = self.image_each(alloc, map, others)?;
        let numbers = joined_with(alloc, closed, images)?;
        self.put(alloc, Key::Side(numbers))
    }

    // The variables of a set, and those that are free in a formula.
    #[tactic(auto, using(arena_cells::proofs::Facts::items, crate::proofs::Unions::with_none, crate::proofs::Unions::with_more))]
    fn with_free_vars(&mut self, alloc: Global, vars: u32, formula: u32) -> Result<u32, AllocError>
        requires vars { AreVariablesAt self.old vars }
        requires formula { IsFormulaAt self.old formula }
        ensures union { IfOk result (λ n. HasVariables self.new n (union_of (variables_at self.old vars) (vars_formula (formula_at self.old formula) set.empty))) }
        ensures grown { Extends self.old self.new }
    {
        let more = self.free_vars(alloc, formula)?;
        if self.is_no_variable(more) {
            return Ok(vars);
        }
        self.union_variables(alloc, vars, more)
    }

    // The free variables of the formulas at the numbers.
    fn vars_of_each(&mut self, alloc: Global, numbers: &[u32]) -> Result<u32, AllocError>
        requires { All (IsFormulaAt self.old) numbers.now }
        ensures set { IfOk result (λ n. HasVariables self.new n (set.of_list (var_lists (each (formula_at self.old) numbers.now)))) }
        ensures grown { Extends self.old self.new }
    {
        let mut vars = self.no_variable(alloc)?;
        for number in numbers {
            vars = self.with_free_vars(alloc, vars, *number)?;
        }
        Ok(vars)
    }

    /// The free variables of a set's formulas.
    pub fn side_vars(&mut self, alloc: Global, side: u32) -> Result<u32, AllocError>
        requires { IsSideAt self.old side }
        ensures set { IfOk result (λ n. HasVariables self.new n (vars_side (side_at self.old side))) }
        ensures grown { Extends self.old self.new }
    {
        if let Some(number) = self.known_vars(side) {
            return Ok(number);
        }
        let number = self.vars_of_members(alloc, side)?;
        self.note_vars(side, number)?;
        Ok(number)
    }

    // Another owner of the rising numbers of a set's formulas, which stays while the arena grows.
    fn numbers_of_side(&self, side: u32) -> Result<Numbers, AllocError>
        requires { IsSideAt self.now side }
        ensures rising { IfOk result (AreRisingFormulas self.now) }
        ensures shown { IfOk result (λ numbers. side_at self.now side ≡ formulas_of self.now numbers) }
    {
        match self.key(side) {
            Key::Side(numbers) => numbers.copy(),
            _ => unreachable!(),
        }
    }

    // The free variables of a set's formulas, formula by formula.
    fn vars_of_members(&mut self, alloc: Global, side: u32) -> Result<u32, AllocError>
        requires { IsSideAt self.old side }
        ensures set { IfOk result (λ n. HasVariables self.new n (vars_side (side_at self.old side))) }
        ensures grown { Extends self.old self.new }
    {
        let numbers = self.numbers_of_side(side)?;
        self.vars_of_each(alloc, numbers.as_slice())
    }
}
