//! Instances, images and binding: one walk over what stands at a number, each part once.
ghost use Rattle.std.specs.Prelude.{◌≡◌, ◌<◌, false, IfOk};
ghost use Rattle.std.specs.FinMap as fin;
ghost use Rattle.fol.specs.Syntax.{free};
ghost use Rattle.substitution.specs.Instance.{inst, bind as bound_body};
ghost use Rattle.substitution.specs.Image.{image_term, image as image_of};
ghost use Rattle.arena_cells.specs.Standing.{Stands, Extends, HasTerm, HasFormula, item_at, term_at, variable_at, formula_at, map_at, IsTermAt, IsVariableAt, IsFormulaAt, IsMapAt, IsThere};
ghost use Rattle.arena_cells.specs.Meaning.{meaning, IsKeyAt, AreBelow};
ghost use Rattle.arena.specs.Changes.{binding, changed, operation_at, parts_of, with_parts, change_inside, HasChange, FitsChange, IsWalked};

use crate::arena::Arena;
use crate::task::{Change, Task};
use arena_cells::{Key, Parts};
use std::alloc::{AllocError, Global};

// The numbers of the terms, lists of terms and formulas of which a key's item is made, but for the body of a symbol.
pub(crate) fn walked_parts(key: &Key) -> Parts
    ensures { result ≡ parts_of key.now }
{
    match key {
        Key::App(_, terms) | Key::Atom(_, terms) | Key::Defined(_, _, terms) => Parts::One(*terms),
        Key::Not(body) | Key::All(body) | Key::Ex(body) => Parts::One(*body),
        Key::Cons(first, second)
        | Key::And(first, second)
        | Key::Or(first, second)
        | Key::Imp(first, second) => Parts::Two(*first, *second),
        _ => Parts::Zero,
    }
}

// The key with other such numbers.
fn rekeyed(key: &Key, first: u32, second: u32) -> Result<Key, AllocError>
    ensures { IfOk result (λ rekeyed. rekeyed ≡ with_parts key.now first second) }
{
    Ok(match key {
        Key::App(symbol, _) => Key::App(*symbol, first),
        Key::Cons(..) => Key::Cons(first, second),
        Key::Atom(symbol, _) => Key::Atom(*symbol, first),
        Key::Defined(symbol, body, _) => Key::Defined(*symbol, *body, first),
        Key::Not(_) => Key::Not(first),
        Key::And(..) => Key::And(first, second),
        Key::Or(..) => Key::Or(first, second),
        Key::Imp(..) => Key::Imp(first, second),
        Key::All(_) => Key::All(first),
        Key::Ex(_) => Key::Ex(first),
        other => other.copy()?,
    })
}

// The change inside what a key means, which may be a quantified formula.
fn inside_of(change: Change, key: &Key, of: u32) -> Change
    requires fits { FitsChange of change }
    requires below { AreBelow of key.now }
    ensures { result ≡ change_inside key.now change }
{
    match (key, change) {
        (Key::All(_) | Key::Ex(_), Change::Instance(term, depth)) => {
            Change::Instance(term, depth + 1)
        }
        (Key::All(_) | Key::Ex(_), Change::Bind(variable, depth)) => {
            Change::Bind(variable, depth + 1)
        }
        _ => change,
    }
}

impl Arena {
    // The number of the term that a map has for a variable, or of the variable itself.
    fn image_of_variable(&self, map: u32, variable: u32) -> u32
        requires map { IsMapAt self.now map }
        requires variable { IsVariableAt self.now variable }
        ensures { HasTerm self.now result (image_term (fin.get (map_at self.now map)) (free (variable_at self.now variable))) }
    {
        self.known();
        match self.key(map) {
            Key::Map(variables, terms) => {
                match finite::search(variables.as_slice(), &variable) {
                    Ok(place) => terms.as_slice()[place],
                    Err(_) => variable,
                }
            }
            _ => unreachable!(),
        }
    }

    // A variable, changed.
    fn change_variable(&mut self, alloc: Global, change: Change, of: u32) -> Result<u32, AllocError>
        requires change { HasChange self.old change }
        requires variable { IsVariableAt self.old of }
        ensures stands { IfOk result (λ n. Stands self.new n (changed (operation_at self.old change) (item_at self.old of))) }
        ensures grown { Extends self.old self.new }
    {
        match change {
            Change::Instance(..) => Ok(of),
            Change::Image(map) => Ok(self.image_of_variable(map, of)),
            Change::Bind(variable, depth) => self.bind_variable(alloc, variable, depth, of),
        }
    }

    // The index for a variable, or another variable.
    fn bind_variable(
        &mut self,
        alloc: Global,
        variable: u32,
        depth: u32,
        of: u32,
    ) -> Result<u32, AllocError>
        requires variable { IsVariableAt self.old variable }
        requires of { IsVariableAt self.old of }
        ensures stands { IfOk result (λ n. Stands self.new n (changed (binding (variable_at self.old variable) depth) (item_at self.old of))) }
        ensures grown { Extends self.old self.new }
    {
        self.known();
        if variable == of {
            return self.put(alloc, Key::Bound(depth));
        }
        Ok(of)
    }

    // Whether the change may find something to change: an index, or a free variable.
    #[tactic(auto, using(crate::proofs::Untouched::untouched))]
    fn can_change(&self, change: Change, of: u32) -> bool
        requires { IsThere self.now of }
        ensures { result ≡ false → changed (operation_at self.now change) (item_at self.now of) ≡ item_at self.now of }
    {
        match change {
            Change::Instance(_, depth) => self.dangling(of) > u64::from(depth),
            Change::Image(_) | Change::Bind(..) => self.has_free(of),
        }
    }

    /// What stands at the number, changed. Of what is no term, list of terms or formula it is the same.
    #[cycle(change)]
    pub(crate) fn change(
        &mut self,
        alloc: Global,
        change: Change,
        of: u32,
    ) -> Result<u32, AllocError>
        requires change { HasChange self.old change }
        requires there { IsThere self.old of }
        requires fits { FitsChange of change }
        ensures stands { IfOk result (λ n. Stands self.new n (changed (operation_at self.old change) (item_at self.old of))) }
        ensures grown { Extends self.old self.new }
    {
        if !self.can_change(change, of) {
            return Ok(of);
        }
        let task = Task::Change(change, of);
        if let Some(number) = self.look_up(task) {
            return Ok(number);
        }
        let number = self.change_at(alloc, change, of)?;
        self.note(task, number)?;
        Ok(number)
    }

    // What stands at the number, changed, by its key.
    #[cycle(change)]
    fn change_at(&mut self, alloc: Global, change: Change, of: u32) -> Result<u32, AllocError>
        requires change { HasChange self.old change }
        requires there { IsThere self.old of }
        requires fits { FitsChange of change }
        ensures stands { IfOk result (λ n. Stands self.new n (changed (operation_at self.old change) (item_at self.old of))) }
        ensures grown { Extends self.old self.new }
    {
        let key = self.key(of).copy()?;
        match (&key, change) {
            (Key::Free(_), _) => self.change_variable(alloc, change, of),
            (Key::Bound(index), Change::Instance(term, depth)) if *index == depth => Ok(term),
            (Key::Bound(_), _) => Ok(of),
            _ => self.change_parts(alloc, change, of, &key),
        }
    }

    // What a key means, with its parts changed.
    #[cycle(change)]
    fn change_parts(
        &mut self,
        alloc: Global,
        change: Change,
        of: u32,
        key: &Key,
    ) -> Result<u32, AllocError>
        requires change { HasChange self.old change }
        requires key { IsKeyAt self.old of key.now }
        requires walked { IsWalked key.now }
        requires fits { FitsChange of change }
        ensures stands { IfOk result (λ n. Stands self.new n (changed (operation_at self.old change) (meaning self.old key.now))) }
        ensures grown { Extends self.old self.new }
    {
        let inner = inside_of(change, key, of);
        match walked_parts(key) {
            Parts::Zero => Ok(of),
            Parts::One(part) => {
                let part = self.change(alloc, inner, part)?;
                self.put(alloc, rekeyed(key, part, 0)?)
            }
            Parts::Two(first, second) => {
                let first = self.change(alloc, inner, first)?;
                let second = self.change(alloc, inner, second)?;
                self.put(alloc, rekeyed(key, first, second)?)
            }
        }
    }

    /// The instance of a quantified formula's body, which stands at the number `body`: the term for the variable of the quantifier.
    #[tactic(auto, using(arena_cells::proofs::Facts::items))]
    pub fn instance(&mut self, alloc: Global, body: u32, term: u32) -> Result<u32, AllocError>
        requires body { IsFormulaAt self.old body }
        requires term { IsTermAt self.old term }
        ensures formula { IfOk result (λ n. HasFormula self.new n (inst (formula_at self.old body) (term_at self.old term))) }
        ensures grown { Extends self.old self.new }
    {
        self.change(alloc, Change::Instance(term, 0), body)
    }

    /// The image of a formula under a map. Each part is done once for each map.
    #[tactic(auto, using(arena_cells::proofs::Facts::items))]
    pub fn image(&mut self, alloc: Global, map: u32, formula: u32) -> Result<u32, AllocError>
        requires map { IsMapAt self.old map }
        requires formula { IsFormulaAt self.old formula }
        ensures formula { IfOk result (λ n. HasFormula self.new n (image_of (fin.get (map_at self.old map)) (formula_at self.old formula))) }
        ensures grown { Extends self.old self.new }
    {
        self.change(alloc, Change::Image(map), formula)
    }

    /// The image of a term under a map.
    #[tactic(auto, using(arena_cells::proofs::Facts::items))]
    pub fn image_of_term(&mut self, alloc: Global, map: u32, term: u32) -> Result<u32, AllocError>
        requires map { IsMapAt self.old map }
        requires term { IsTermAt self.old term }
        ensures term { IfOk result (λ n. HasTerm self.new n (image_term (fin.get (map_at self.old map)) (term_at self.old term))) }
        ensures grown { Extends self.old self.new }
    {
        self.change(alloc, Change::Image(map), term)
    }

    /// The body in which the variable is the variable of the quantifier that is put around it.
    #[tactic(auto, using(arena_cells::proofs::Facts::items))]
    pub fn bind(&mut self, alloc: Global, formula: u32, variable: u32) -> Result<u32, AllocError>
        requires formula { IsFormulaAt self.old formula }
        requires variable { IsVariableAt self.old variable }
        ensures body { IfOk result (λ n. HasFormula self.new n (bound_body (formula_at self.old formula) (variable_at self.old variable))) }
        ensures grown { Extends self.old self.new }
    {
        self.change(alloc, Change::Bind(variable, 0), formula)
    }
}
