//! Clauses by number, with their literals in one list.

use crate::literal::Literal;
use crate::tables::{at, narrow, put};
use std::alloc::{AllocError, Global};

/// Where the literals of a clause stand.
#[derive(Clone, Copy)]
struct Span {
    start: u32,
    end: u32,
    // How many levels the literals had when the clause was learned.
    glue: u32,
    // Whether a conflict has needed it since the last look.
    is_used: bool,
}

// Nowhere.
const NOWHERE: Span = Span {
    start: 0,
    end: 0,
    glue: 0,
    is_used: false,
};

/// The clauses of a search: the input clauses, and then those that were derived.
#[derive(Drop)]
pub(crate) struct Clauses {
    literals: Vec<Literal>,
    spans: Vec<Span>,
}

impl Clauses {
    /// No clauses, with room for so many clauses and so many literals in all.
    pub fn new(alloc: Global, clauses: usize, literals: usize) -> Result<Clauses, AllocError> {
        Ok(Clauses {
            literals: Vec::with_capacity(alloc, literals)?,
            spans: Vec::with_capacity(alloc, clauses)?,
        })
    }

    /// Makes room for so many more clauses.
    pub fn reserve(&mut self, clauses: usize) -> Result<(), AllocError> {
        self.spans.reserve_exact(clauses)
    }

    /// How many clauses there are.
    pub fn len(&self) -> usize {
        self.spans.len()
    }

    /// Adds a clause, and gives its number.
    pub fn add(&mut self, literals: &[Literal], glue: u32) -> Result<u32, AllocError> {
        let number = narrow(self.spans.len())?;
        let start = narrow(self.literals.len())?;
        self.literals.extend_from_slice(literals)?;
        self.spans.push(Span {
            start,
            end: narrow(self.literals.len())?,
            glue,
            is_used: true,
        })?;
        Ok(number)
    }

    /// Takes all clauses out but the first so many.
    pub fn truncate(&mut self, clauses: usize) {
        self.spans.truncate(clauses);
        if let Some(last) = self.spans.last() {
            self.literals.truncate(last.end as usize);
        }
    }

    fn span(&self, clause: u32) -> Span {
        at(&self.spans, clause as usize, NOWHERE)
    }

    /// The literals of a clause; none where it was forgotten.
    pub fn literals(&self, clause: u32) -> &[Literal] {
        let span = self.span(clause);
        match self.literals.get(span.start as usize..span.end as usize) {
            Some(literals) => literals,
            None => &[],
        }
    }

    /// Puts two literals in front, and another into the place of the second.
    pub fn put_in_front(
        &mut self,
        clause: u32,
        front: (Literal, Literal),
        place: usize,
        third: Literal,
    ) {
        let start = self.span(clause).start as usize;
        put(&mut self.literals, start, front.0);
        put(&mut self.literals, start.saturating_add(1), front.1);
        put(&mut self.literals, start.saturating_add(place), third);
    }

    /// How many levels the literals had when the clause was learned.
    pub fn glue(&self, clause: u32) -> u32 {
        self.span(clause).glue
    }

    /// Notes whether a conflict has needed the clause, and says whether this was noted before.
    pub fn note_use(&mut self, clause: u32, is_used: bool) -> bool {
        let span = self.span(clause);
        put(&mut self.spans, clause as usize, Span { is_used, ..span });
        span.is_used
    }

    /// Forgets the literals of a clause.
    pub fn forget(&mut self, clause: u32) {
        put(&mut self.spans, clause as usize, NOWHERE);
    }
}
