//! Problems.
ghost use Rattle.std.specs.Prelude.{◌≡◌, IfOk};

use fol::{Formula, Text};
use lk_rules::Sequent;
use std::alloc::{AllocError, Global};
use std::marker::Model;
use std::sync::Arc;

/// How the formula of an entry is written: as any formula, or as a clause.
#[derive(Clone, Copy, PartialEq, Eq)]
pub enum Language {
    Fof,
    Cnf,
}

/// What an entry is in its problem.
#[derive(Clone, Copy, PartialEq, Eq)]
pub enum Role {
    Axiom,
    Hypothesis,
    Definition,
    Assumption,
    Lemma,
    Theorem,
    Corollary,
    Conjecture,
    NegatedConjecture,
    Plain,
}

/// One entry of a problem. The formula is as it was read, so its variables are free.
pub struct Entry {
    pub name: Text,
    pub language: Language,
    pub role: Role,
    pub formula: Formula,
}

impl Drop for Entry {
    fn drop(self) {
        let Entry {
            name,
            language: _,
            role: _,
            formula,
        } = self;
        drop(name);
        drop(formula);
    }
}

/// A list of entries that cannot be changed and is shared by its copies.
#[derive(Drop)]
pub struct Entries {
    list: Arc<Vec<Entry>>,
}

impl Model for Entries {
    ghost use Rattle.std.specs.Prelude.{List};
    ghost use Rattle.tptp_problem.specs.declared.problems.Entry.{Entry};
    ghost use Rattle.std.specs.Coded.{coded_list};
    ghost use Rattle.tptp_problem.specs.contracts.problems.Entry as entry;

    ghost Value = { List Entry };

    ghost coded = { coded_list entry.the_row.coded };

    ghost view = { λ a. a.list.value.items };
}

impl Entries {
    /// The list of these entries, which are moved and not copied.
    pub fn from_vec(alloc: Global, items: Vec<Entry>) -> Result<Entries, AllocError>
        ensures { IfOk result (λ entries. entries ≡ items.items) }
    {
        let list = Arc::new(alloc, items)?;
        Ok(Entries { list })
    }

    /// The entries, in order.
    pub fn as_slice(&self) -> &[Entry]
        ensures { result.now ≡ self.now }
    {
        self.list.as_slice()
    }

    /// The same list, which is shared.
    pub fn copy(&self) -> Result<Entries, AllocError>
        ensures { IfOk result (λ copy. copy ≡ self.now) }
    {
        let list = Arc::try_clone(&self.list)?;
        Ok(Entries { list })
    }
}

/// A problem: its entries in order, and its sequent. The sequent has the universal closures of the entries that are no conjecture on the
/// left, and on the right, where there is a conjecture, the conjunction of the closures of all of them.
pub struct Problem {
    pub entries: Entries,
    pub sequent: Sequent,
}

impl Drop for Problem {
    fn drop(self) {
        let Problem { entries, sequent } = self;
        drop(entries);
        drop(sequent);
    }
}

impl Problem {
    /// The same problem, whose entries and sequent are shared: it costs three counts.
    pub fn copy(&self) -> Result<Problem, AllocError>
        ensures { IfOk result (λ copy. copy ≡ self.now) }
    {
        let entries = self.entries.copy()?;
        let sequent = self.sequent.copy()?;
        Ok(Problem { entries, sequent })
    }
}
