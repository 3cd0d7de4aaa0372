//! Sequents.
ghost use Rattle.std.specs.Prelude.{◌≡◌, true, IfOk};
ghost use Rattle.std.specs.FinMap as fin;
ghost use Rattle.std.specs.List.{list_all};
ghost use Rattle.fol.specs.Formed.{is_formed};
ghost use Rattle.finite.specs.Finite as set;
ghost use Rattle.lk_rules.specs.Sequents.{side_of, adds_to, union_sequent, image_sequent, vars_sequent, is_subsequent as subsequent_test, is_free_in_sequent};
ghost use Rattle.arena_cells.specs.Standing.{Extends, HasSide, HasSequent, HasVariables, formula_at, variable_at, side_at, sequent_at, map_at, IsFormulaAt, IsVariableAt, IsSideAt, IsSequentAt, IsMapAt};

use crate::arena::Arena;
use arena_cells::Key;
use lk_rules::{Sequent, Side};
use std::alloc::{AllocError, Global};

impl Arena {
    /// The sides of a sequent.
    #[tactic(auto, using(arena_cells::proofs::Facts::sequents))]
    pub fn sides(&self, sequent: u32) -> (u32, u32)
        requires { IsSequentAt self.now sequent }
        ensures left { HasSide self.now result.0 (sequent_at self.now sequent).left }
        ensures right { HasSide self.now result.1 (sequent_at self.now sequent).right }
    {
        match self.key(sequent) {
            Key::Sequent(left, right) => (*left, *right),
            _ => unreachable!(),
        }
    }

    /// One side of a sequent.
    pub fn side(&self, sequent: u32, side: Side) -> u32
        requires { IsSequentAt self.now sequent }
        ensures { HasSide self.now result (side_of (sequent_at self.now sequent) side) }
    {
        let (left, right) = self.sides(sequent);
        match side {
            Side::Left => left,
            Side::Right => right,
        }
    }

    /// The sequent of two sides.
    pub fn put_sequent(&mut self, alloc: Global, left: u32, right: u32) -> Result<u32, AllocError>
        requires left { IsSideAt self.old left }
        requires right { IsSideAt self.old right }
        ensures sequent { IfOk result (λ n. HasSequent self.new n (record { left = side_at self.old left; right = side_at self.old right })) }
        ensures grown { Extends self.old self.new }
    {
        self.put(alloc, Key::Sequent(left, right))
    }

    /// The number of a sequent.
    #[tactic(auto, using(arena_cells::proofs::Facts::sequents))]
    pub fn import_sequent(&mut self, alloc: Global, sequent: &Sequent) -> Result<u32, AllocError>
        ensures sequent { IfOk result (λ n. HasSequent self.new n sequent.now) }
        ensures grown { Extends self.old self.new }
    {
        let left = self.import_side(alloc, &sequent.left)?;
        let right = self.import_side(alloc, &sequent.right)?;
        self.put_sequent(alloc, left, right)
    }

    /// A sequent of well-formed formulas.
    #[tactic(auto, using(arena_cells::proofs::Facts::sequents))]
    pub fn export_sequent(&self, alloc: Global, sequent: u32) -> Result<Sequent, AllocError>
        requires sequent { IsSequentAt self.now sequent }
        requires left { list_all is_formed (set.listing (sequent_at self.now sequent).left) ≡ true }
        requires right { list_all is_formed (set.listing (sequent_at self.now sequent).right) ≡ true }
        ensures { IfOk result (λ end. end ≡ sequent_at self.now sequent) }
    {
        let (left, right) = self.sides(sequent);
        let left = self.export_side(alloc, left)?;
        let right = self.export_side(alloc, right)?;
        Ok(Sequent { left, right })
    }

    /// Whether the formula stands on that side.
    #[tactic(auto, using(arena_cells::proofs::Facts::sequents))]
    pub fn sequent_has(&self, sequent: u32, side: Side, formula: u32) -> bool
        requires sequent { IsSequentAt self.now sequent }
        requires formula { IsFormulaAt self.now formula }
        ensures { result ≡ set.has (side_of (sequent_at self.now sequent) side) (formula_at self.now formula) }
    {
        self.side_has(self.side(sequent, side), formula)
    }

    /// Whether the first sequent is a subsequent of the second.
    #[tactic(auto, using(arena_cells::proofs::Facts::sequents))]
    pub fn is_subsequent(&self, first: u32, second: u32) -> bool
        requires first { IsSequentAt self.now first }
        requires second { IsSequentAt self.now second }
        ensures { result ≡ subsequent_test (sequent_at self.now first) (sequent_at self.now second) }
    {
        let (left, right) = self.sides(first);
        let (other_left, other_right) = self.sides(second);
        self.is_side_within(left, other_left) && self.is_side_within(right, other_right)
    }

    /// The formulas of both sequents, side by side.
    #[tactic(auto, using(arena_cells::proofs::Facts::sequents))]
    pub fn union_sequents(
        &mut self,
        alloc: Global,
        first: u32,
        second: u32,
    ) -> Result<u32, AllocError>
        requires first { IsSequentAt self.old first }
        requires second { IsSequentAt self.old second }
        ensures union { IfOk result (λ n. HasSequent self.new n (union_sequent (sequent_at self.old first) (sequent_at self.old second))) }
        ensures grown { Extends self.old self.new }
    {
        let (left, right) = self.sides(first);
        let (other_left, other_right) = self.sides(second);
        let left = self.union_sides(alloc, left, other_left)?;
        let right = self.union_sides(alloc, right, other_right)?;
        self.put_sequent(alloc, left, right)
    }

    /// The sequent with the formula on that side too.
    #[tactic(auto, using(arena_cells::proofs::Facts::sequents))]
    pub fn sequent_with(
        &mut self,
        alloc: Global,
        sequent: u32,
        side: Side,
        formula: u32,
    ) -> Result<u32, AllocError>
        requires sequent { IsSequentAt self.old sequent }
        requires formula { IsFormulaAt self.old formula }
        ensures sequent { IfOk result (λ n. HasSequent self.new n (adds_to (sequent_at self.old sequent) side (formula_at self.old formula))) }
        ensures grown { Extends self.old self.new }
    {
        let (left, right) = self.sides(sequent);
        match side {
            Side::Left => {
                let left = self.side_with(alloc, left, formula)?;
                self.put_sequent(alloc, left, right)
            }
            Side::Right => {
                let right = self.side_with(alloc, right, formula)?;
                self.put_sequent(alloc, left, right)
            }
        }
    }

    /// The image of a sequent under a map. Formulas of a side that fall together become one.
    #[tactic(auto, using(arena_cells::proofs::Facts::sequents))]
    pub fn image_of_sequent(
        &mut self,
        alloc: Global,
        map: u32,
        sequent: u32,
    ) -> Result<u32, AllocError>
        requires map { IsMapAt self.old map }
        requires sequent { IsSequentAt self.old sequent }
        ensures sequent { IfOk result (λ n. HasSequent self.new n (image_sequent (fin.get (map_at self.old map)) (sequent_at self.old sequent))) }
        ensures grown { Extends self.old self.new }
    {
        let (left, right) = self.sides(sequent);
        let left = self.image_of_side(alloc, map, left)?;
        let right = self.image_of_side(alloc, map, right)?;
        self.put_sequent(alloc, left, right)
    }

    /// The free variables of a sequent's formulas.
    pub fn sequent_vars(&mut self, alloc: Global, sequent: u32) -> Result<u32, AllocError>
        requires { IsSequentAt self.old sequent }
        ensures set { IfOk result (λ n. HasVariables self.new n (vars_sequent (sequent_at self.old sequent))) }
        ensures grown { Extends self.old self.new }
    {
        if let Some(number) = self.known_vars(sequent) {
            return Ok(number);
        }
        let number = self.vars_of_sides(alloc, sequent)?;
        self.note_vars(sequent, number)?;
        Ok(number)
    }

    // The free variables of both sides.
    #[tactic(auto, using(arena_cells::proofs::Facts::sequents, crate::proofs::SideLaws::vars_of_sequent))]
    fn vars_of_sides(&mut self, alloc: Global, sequent: u32) -> Result<u32, AllocError>
        requires { IsSequentAt self.old sequent }
        ensures set { IfOk result (λ n. HasVariables self.new n (vars_sequent (sequent_at self.old sequent))) }
        ensures grown { Extends self.old self.new }
    {
        let (left, right) = self.sides(sequent);
        let left = self.side_vars(alloc, left)?;
        let right = self.side_vars(alloc, right)?;
        self.union_variables(alloc, left, right)
    }

    /// Whether the variable is free in a formula of the sequent.
    #[tactic(auto, using(lk_rules::proofs::SequentVariables::sequent_var_members, crate::proofs::VariableLaws::places))]
    pub fn occurs_in_sequent(
        &mut self,
        alloc: Global,
        variable: u32,
        sequent: u32,
    ) -> Result<bool, AllocError>
        requires variable { IsVariableAt self.old variable }
        requires sequent { IsSequentAt self.old sequent }
        ensures free { IfOk result (λ free. free ≡ is_free_in_sequent (variable_at self.old variable) (sequent_at self.old sequent)) }
        ensures grown { Extends self.old self.new }
    {
        let vars = self.sequent_vars(alloc, sequent)?;
        Ok(self.has_variable(vars, variable))
    }
}
