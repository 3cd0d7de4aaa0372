//! The search by conflicts: propagation with two watched literals, the first unique implication point, scores for atoms and restarts, as in
//! MiniSat (Eén, Sörensson 2003). No proof rests on it: what it brings is derived once more, or looked at, before it is answered.

use crate::analysis::Analysis;
use crate::clauses::Clauses;
use crate::derivations::Derivations;
use crate::literal::Literal;
use crate::order::Order;
use crate::tables::{at, put};
use crate::trail::{Trail, Truth};
use crate::watches::{Watch, Watches};
use std::alloc::{AllocError, Global};

/// So many conflicts end the first restart, times the next number of Luby's sequence.
const RESTART: u64 = 64;

/// So many learned clauses are kept before the first look at which are needed.
const KEPT: usize = 1000;

/// So many more before each later one.
const MORE_KEPT: usize = 100;

/// A learned clause whose literals have so few levels is always kept (Audemard, Simon 2009).
const GLUE: u32 = 2;

/// After so many conflicts the values to choose are changed first, and each later time after so many more.
const REPHASE: u64 = 1000;

/// How a search ended.
#[derive(Clone, Copy, PartialEq, Eq)]
pub(crate) enum Verdict {
    Satisfied,
    Refuted,
}

/// What a watch comes to.
enum Visit {
    /// It stays, with this other literal.
    Stays(Literal),
    /// The clause watches another literal now, or was forgotten.
    Moved,
    /// All literals of the clause are false.
    Conflict,
}

/// The numbers 1 1 2 1 1 2 4 1 1 2 1 1 2 4 8 .., after Luby, Sinclair and Zuckerman (1993).
#[derive(Clone, Copy)]
struct Luby {
    turn: u64,
    value: u64,
}

impl Luby {
    fn next(&mut self) {
        if self.turn & self.turn.wrapping_neg() == self.value {
            self.turn = self.turn.wrapping_add(1);
            self.value = 1;
        } else {
            self.value = self.value.wrapping_mul(2);
        }
    }
}

/// When the values to choose are changed: the number of the next time, and how many conflicts there have been since the last.
#[derive(Clone, Copy)]
struct Rephasing {
    turn: u64,
    conflicts: u64,
}

impl Rephasing {
    // Counts a conflict, and says whether it is time.
    fn is_due(&mut self) -> bool {
        self.conflicts = self.conflicts.saturating_add(1);
        let is_due = self.conflicts >= self.turn.saturating_mul(REPHASE);
        if is_due {
            self.turn = self.turn.saturating_add(1);
            self.conflicts = 0;
        }
        is_due
    }
}

/// A search for a model or for the empty clause.
#[derive(Drop)]
pub(crate) struct Solver {
    alloc: Global,
    clauses: Clauses,
    trail: Trail,
    watches: Watches,
    order: Order,
    derivations: Derivations,
    analysis: Analysis,
    // The clause of one literal, for each atom that has its value at level 0.
    units: Vec<Option<u32>>,
    // For so many true literals there is such a clause.
    settled: usize,
    // The learned clauses that aren't forgotten.
    learned: Vec<u32>,
    limit: usize,
    luby: Luby,
    rephasing: Rephasing,
    conflicts: u64,
    // An input clause that is false from the start.
    fault: Option<u32>,
}

impl Solver {
    /// A search without clauses, for so many atoms, and with room for so many input clauses and so many literals in all.
    pub fn new(
        alloc: Global,
        atoms: usize,
        clauses: usize,
        literals: usize,
    ) -> Result<Solver, AllocError> {
        Ok(Solver {
            alloc,
            clauses: Clauses::new(alloc, clauses, literals)?,
            trail: Trail::new(alloc, atoms)?,
            watches: Watches::new(alloc, atoms)?,
            order: Order::new(alloc, atoms)?,
            derivations: Derivations::new(alloc),
            analysis: Analysis::new(alloc, atoms)?,
            units: vec![in alloc; None; atoms]?,
            settled: 0,
            learned: Vec::new(alloc),
            limit: KEPT,
            luby: Luby { turn: 1, value: 1 },
            rephasing: Rephasing {
                turn: 1,
                conflicts: 0,
            },
            conflicts: 0,
            fault: None,
        })
    }

    /// The clauses, the input clauses first, and the derivations of the others; the last one is that of the empty clause, where the clauses
    /// are refuted.
    pub fn into_parts(self) -> (Clauses, Derivations) {
        (self.clauses, self.derivations)
    }

    /// Whether a literal is true.
    pub fn is_true(&self, literal: Literal) -> bool {
        self.trail.truth(literal) == Truth::True
    }

    /// Adds an input clause before the search.
    pub fn add(&mut self, literals: &[Literal]) -> Result<(), AllocError> {
        let clause = self.clauses.add(literals, 0)?;
        match literals {
            [] => self.fault = Some(clause),
            [only] => match self.trail.truth(*only) {
                Truth::True => {}
                Truth::False => self.fault = Some(clause),
                Truth::Unset => self.trail.assign(*only, Some(clause))?,
            },
            [first, second, ..] => self.watch(clause, *first, *second)?,
        }
        Ok(())
    }

    /// Adds a clause with an atom on both sides, which is never looked at.
    pub fn add_tautology(&mut self) -> Result<(), AllocError> {
        self.clauses.add(&[], 0)?;
        Ok(())
    }

    // Makes a clause watch its first two literals.
    fn watch(&mut self, clause: u32, first: Literal, second: Literal) -> Result<(), AllocError> {
        self.watches.add(first, clause, second)?;
        self.watches.add(second, clause, first)
    }

    /// Searches until the clauses are satisfied or refuted.
    pub fn run(&mut self) -> Result<Verdict, AllocError> {
        if let Some(fault) = self.fault {
            self.refute(fault)?;
            return Ok(Verdict::Refuted);
        }
        for _turn in 0..u64::MAX {
            if let Some(verdict) = self.turn()? {
                return Ok(verdict);
            }
        }
        Err(AllocError)
    }

    // Draws all consequences, and then learns from a conflict or makes a choice.
    fn turn(&mut self) -> Result<Option<Verdict>, AllocError> {
        match self.propagate()? {
            Some(conflict) if self.trail.level() == 0 => {
                self.refute(conflict)?;
                Ok(Some(Verdict::Refuted))
            }
            Some(conflict) => {
                self.trail.note_targets();
                self.learn(conflict)?;
                if self.rephasing.is_due() {
                    self.trail.rephase(self.rephasing.turn % 2 == 0);
                }
                Ok(None)
            }
            None => self.go_on(),
        }
    }

    // Goes on where there is no conflict.
    fn go_on(&mut self) -> Result<Option<Verdict>, AllocError> {
        if self.trail.level() == 0 {
            self.settle()?;
        }
        if self.conflicts >= self.luby.value.saturating_mul(RESTART) {
            self.conflicts = 0;
            self.luby.next();
            self.back_to(0)?;
            return Ok(None);
        }
        if self.learned.len() >= self.limit {
            self.reduce()?;
        }
        self.choose()
    }

    // Chooses a value for an atom, unless each has one.
    fn choose(&mut self) -> Result<Option<Verdict>, AllocError> {
        for _turn in 0..usize::MAX {
            let Some(atom) = self.order.pop() else {
                return Ok(Some(Verdict::Satisfied));
            };
            let literal = Literal::new(atom, !self.trail.phase(atom as usize));
            if self.trail.truth(literal) == Truth::Unset {
                self.trail.open_level()?;
                self.trail.assign(literal, None)?;
                return Ok(None);
            }
        }
        Err(AllocError)
    }

    // Takes the values above a level away.
    fn back_to(&mut self, level: usize) -> Result<(), AllocError> {
        for _turn in 0..usize::MAX {
            let Some(literal) = self.trail.undo_above(level) else {
                break;
            };
            self.order.add(literal.number())?;
        }
        Ok(())
    }

    // Gives values until there are no more consequences, or a clause is false.
    fn propagate(&mut self) -> Result<Option<u32>, AllocError> {
        for _turn in 0..usize::MAX {
            let Some(literal) = self.trail.next_visit() else {
                break;
            };
            if let Some(conflict) = self.falsify(literal.negated())? {
                return Ok(Some(conflict));
            }
        }
        Ok(None)
    }

    // Visits the clauses that watch a literal, which is false.
    fn falsify(&mut self, literal: Literal) -> Result<Option<u32>, AllocError> {
        let mut list = self.watches.take(literal);
        let mut kept = 0;
        let mut conflict = None;
        for i in 0..list.len() {
            let Some(watch) = list.get(i).copied() else {
                break;
            };
            let visit = match conflict {
                Some(_) => Visit::Stays(watch.other),
                None => self.visit(watch, literal)?,
            };
            let other = match visit {
                Visit::Moved => continue,
                Visit::Stays(other) => other,
                Visit::Conflict => {
                    conflict = Some(watch.clause);
                    watch.other
                }
            };
            put(&mut list, kept, Watch { other, ..watch });
            kept = i.min(kept).saturating_add(1);
        }
        list.truncate(kept);
        self.watches.put(literal, list);
        Ok(conflict)
    }

    // Visits one of them.
    fn visit(&mut self, watch: Watch, literal: Literal) -> Result<Visit, AllocError> {
        if self.trail.truth(watch.other) == Truth::True {
            return Ok(Visit::Stays(watch.other));
        }
        let literals = self.clauses.literals(watch.clause);
        let [first, second, ..] = literals else {
            return Ok(Visit::Moved);
        };
        let other = if *first == literal { *second } else { *first };
        if self.trail.truth(other) == Truth::True {
            return Ok(Visit::Stays(other));
        }
        for place in 2..literals.len() {
            let third = literals[place];
            if self.trail.truth(third) != Truth::False {
                self.clauses
                    .put_in_front(watch.clause, (other, third), place, literal);
                self.watches.add(third, watch.clause, other)?;
                return Ok(Visit::Moved);
            }
        }
        if self.trail.truth(other) == Truth::False {
            return Ok(Visit::Conflict);
        }
        self.trail.assign(other, Some(watch.clause))?;
        Ok(Visit::Stays(other))
    }

    // Derives, for each literal that is true at level 0, the clause with it alone.
    fn settle(&mut self) -> Result<(), AllocError> {
        for place in self.settled..self.trail.literals().len() {
            let literal = self.trail.literal(place);
            if let Some(reason) = self.trail.reason_of(literal) {
                self.settle_one(literal, reason)?;
            }
        }
        self.settled = self.trail.literals().len();
        Ok(())
    }

    // The same for one of them, which a clause gave its value.
    fn settle_one(&mut self, literal: Literal, reason: u32) -> Result<(), AllocError> {
        let mut unit = reason;
        if self.clauses.literals(reason).len() > 1 {
            self.resolve_fixed(reason, Some(literal))?;
            self.derivations.end(reason)?;
            unit = self.clauses.add(&[literal], 0)?;
        }
        put(&mut self.units, literal.atom(), Some(unit));
        Ok(())
    }

    // Resolves a clause's literals away that are false at level 0, all but one.
    fn resolve_fixed(&mut self, clause: u32, except: Option<Literal>) -> Result<(), AllocError> {
        for literal in self.clauses.literals(clause) {
            if let Some(unit) = at(&self.units, literal.atom(), None)
                && Some(*literal) != except
            {
                self.derivations.link(*literal, unit)?;
            }
        }
        Ok(())
    }

    // Derives the empty clause from a clause that is false at level 0.
    fn refute(&mut self, conflict: u32) -> Result<(), AllocError> {
        self.settle()?;
        self.resolve_fixed(conflict, None)?;
        self.derivations.end(conflict)
    }

    // Learns a clause from a conflict, and goes back to where it gives a value.
    fn learn(&mut self, conflict: u32) -> Result<(), AllocError> {
        self.analysis.clear();
        let asserted = self.analyze(conflict)?;
        let mut literals = self.shortened(asserted)?;
        let implied = self.implied()?;
        self.resolve_implied(&implied)?;
        for literal in self.analysis.fixed() {
            if let Some(unit) = at(&self.units, literal.atom(), None) {
                self.derivations.link(*literal, unit)?;
            }
        }
        self.derivations.end(conflict)?;
        let level = self.put_highest_second(&mut literals);
        let glue = self.glue_of(&literals);
        let clause = self.clauses.add(&literals, glue)?;
        if let [first, second, ..] = literals.as_slice() {
            self.watch(clause, *first, *second)?;
            self.learned.push(clause)?;
        }
        self.back_to(level)?;
        self.trail.assign(asserted, Some(clause))?;
        self.order.age();
        self.conflicts = self.conflicts.saturating_add(1);
        Ok(())
    }

    // Adds the literals of a clause to the one that is learned.
    fn gather(&mut self, clause: u32) -> Result<(), AllocError> {
        self.clauses.note_use(clause, true);
        for literal in self.clauses.literals(clause) {
            if !self.analysis.is_marked(*literal) {
                self.order.bump(literal.atom());
                let level = self.trail.level_of(*literal);
                self.analysis.add(*literal, level, self.trail.level())?;
            }
        }
        Ok(())
    }

    // Resolves a false clause with reasons until one of its literals is of the last level: the first unique implication point.
    fn analyze(&mut self, conflict: u32) -> Result<Literal, AllocError> {
        self.gather(conflict)?;
        for place in (0..self.trail.literals().len()).rev() {
            let literal = self.trail.literal(place);
            if self.analysis.is_marked(literal) {
                if !self.analysis.resolve() {
                    return Ok(literal.negated());
                }
                if let Some(reason) = self.trail.reason_of(literal) {
                    self.derivations.link(literal.negated(), reason)?;
                    self.gather(reason)?;
                }
            }
        }
        Err(AllocError)
    }

    // Whether a literal is implied by others of the clause: resolution with its reason brings only literals that the clause has, that are of
    // level 0, or that are implied themselves (Sörensson, Biere 2009). It and those are visited then.
    fn is_implied(&mut self, literal: Literal) -> Result<bool, AllocError> {
        let mark = self.analysis.visit_first(literal)?;
        for _turn in 0..usize::MAX {
            let Some(next) = self.analysis.next_visit() else {
                return Ok(true);
            };
            let is_implied = match self.trail.reason_of(next) {
                Some(reason) => self.visit_reason(reason)?,
                None => false,
            };
            if !is_implied {
                self.analysis.forget_visits(mark);
                return Ok(false);
            }
        }
        Ok(false)
    }

    // Visits the other literals of a reason, unless one of them is of a level that the clause doesn't have.
    fn visit_reason(&mut self, reason: u32) -> Result<bool, AllocError> {
        for other in self.clauses.literals(reason) {
            let level = self.trail.level_of(*other);
            if level > 0 && !self.analysis.is_marked(*other) {
                if !self.analysis.is_counted(level) {
                    return Ok(false);
                }
                self.analysis.visit(*other)?;
            }
        }
        Ok(true)
    }

    // The learned clause: the literal that gets a value, and those of lower levels that no others imply.
    fn shortened(&mut self, asserted: Literal) -> Result<Vec<Literal>, AllocError> {
        let mut literals = Vec::new(self.alloc);
        literals.push(asserted)?;
        self.count_lower();
        for i in 0..self.analysis.lower().len() {
            let literal = at(self.analysis.lower(), i, asserted);
            if !self.is_implied(literal)? {
                literals.push(literal)?;
            }
        }
        Ok(literals)
    }

    // The places of the literals that are implied, and of those that come in their place, in rising order.
    fn implied(&self) -> Result<Vec<u32>, AllocError> {
        let mut implied = Vec::new(self.alloc);
        for literal in self.analysis.visited() {
            implied.push(self.trail.assignment(*literal).place)?;
        }
        implied.sort_unstable();
        Ok(implied)
    }

    // Resolves implied literals away, those that became false last first.
    fn resolve_implied(&mut self, implied: &[u32]) -> Result<(), AllocError> {
        for place in implied.iter().rev() {
            let literal = self.trail.literal(*place as usize);
            if let Some(reason) = self.trail.reason_of(literal) {
                self.derivations.link(literal.negated(), reason)?;
                self.gather(reason)?;
            }
        }
        Ok(())
    }

    // Puts one of the other literals of the highest level behind the first, and gives that level.
    fn put_highest_second(&self, literals: &mut [Literal]) -> usize {
        let mut level = 0;
        for i in 1..literals.len() {
            let other = self.trail.level_of(literals[i]);
            if other > level {
                level = other;
                literals.swap(1, i);
            }
        }
        level
    }

    // Counts the levels of the literals of lower levels.
    fn count_lower(&mut self) {
        self.analysis.begin_count();
        for i in 0..self.analysis.lower().len() {
            let literal = at(self.analysis.lower(), i, Literal::new(0, false));
            self.analysis.count(self.trail.level_of(literal));
        }
    }

    // How many levels the literals have.
    fn glue_of(&mut self, literals: &[Literal]) -> u32 {
        self.analysis.begin_count();
        let mut glue: u32 = 0;
        for literal in literals {
            let level = self.trail.level_of(*literal);
            if !self.analysis.is_counted(level) {
                self.analysis.count(level);
                glue = glue.saturating_add(1);
            }
        }
        glue
    }

    // Whether a clause gave a value to one of the two literals that it watches.
    fn is_reason(&self, clause: u32) -> bool {
        self.clauses.literals(clause).iter().take(2).any(|literal| self.is_true(*literal)
            && self.trail.reason_of(*literal) == Some(clause))
    }

    // The learned clauses that are always kept, and the others by whether no conflict has needed them since the last time, and then by how
    // many levels their literals had; the newer first.
    fn split_learned(&mut self) -> Result<(Vec<u32>, Vec<u32>), AllocError> {
        let mut kept = Vec::new(self.alloc);
        let mut others = Vec::new(self.alloc);
        for i in (0..self.learned.len()).rev() {
            let clause = self.learned[i];
            let glue = self.clauses.glue(clause);
            let was_used = self.clauses.note_use(clause, false);
            if glue <= GLUE || self.is_reason(clause) {
                kept.push(clause)?;
            } else {
                others.push((!was_used, glue, clause))?;
            }
        }
        others.sort_by_key(|other| (other.0, other.1))?;
        let others = others.iter().map(|other| other.2).collect(self.alloc)?;
        Ok((kept, others))
    }

    // Forgets half of the learned clauses that aren't always kept.
    fn reduce(&mut self) -> Result<(), AllocError> {
        let (mut kept, others) = self.split_learned()?;
        let half = others.len() / 2;
        for (i, clause) in others.iter().enumerate() {
            if i < half {
                kept.push(*clause)?;
            } else {
                self.clauses.forget(*clause);
            }
        }
        self.learned = kept;
        let least = self.learned.len().saturating_add(KEPT / 2);
        self.limit = self.limit.saturating_add(MORE_KEPT).max(least);
        Ok(())
    }
}
