//! The store of a session, and gathering the lines that are read into windows of jobs.
ghost use Rattle.std.specs.Prelude.{◌≡◌, ◌+◌, ◌∷◌, ◌++◌, [], ℕ, List, IfOk, OnOk, Some, map, length, Ok, option_copied, ◌<◌, vec_capacity};
ghost use Rattle.cut_elim.specs.declared.desk.Desk.{Desk};
ghost use Rattle.cut_elim.specs.Desks.{IsDeskPassOf};
ghost use Rattle.session_laws.specs.Answers.{Past, Lookup, name_of, run_read, run_line};
ghost use Rattle.job_lang.specs.FormedOps.{IsFormedOp};
ghost use Rattle.operation_laws.specs.Given.{names_in, base_name as base_of};
ghost use Rattle.session_laws.specs.Jobs.{IsKept};
ghost use Rattle.job_windows.specs.Windows.{needs_at, need_at as need_of_place, need_named, Adds, IsAsked};
ghost use Rattle.job_windows.specs.Means.{AreTasks, AreRunnable, IsStore, IsGathered};

use crate::names::Names;
use crate::reading::{Reading, read};
use crate::seats::{Asks, Seat, Window};
use crate::weights::same_elimination;
use cut_elim::DeskPass;
use held_values::{Held, base_name, name_at};
use job_lang::{Job, Op};
use job_words::Name;
use job_workers::{Need, Task};
use reply_lines::Outcome;
use std::alloc::{AllocError, Global};
use std::mem::forget;
use text_tables::FormulaTexts;

/// The proofs of a session over a desk, which others may work on too: a pass of the desk, the names of jobs, and what each job holds, in their
/// order. It is ended by `close` or `leave`, which give the pass back.
pub struct Store {
    pub pass: DeskPass,
    pub names: Names,
    pub held: Vec<Held>,
}

impl Store {
    /// A store with no name and nothing held, over the desk that the pass is of.
    pub fn new(alloc: Global, pass: DeskPass) -> Store
        ensures { (desk : Desk) → IsDeskPassOf desk pass → IsStore desk result [] }
    {
        Store {
            pass,
            names: Names::new(alloc),
            held: Vec::new(alloc),
        }
    }

    /// Ends the store, and gives its pass back.
    pub fn close(self) -> DeskPass
        ensures { result ≡ self.pass }
    {
        let Store {
            pass,
            names: _names,
            held: _held,
        } = self;
        pass
    }

    /// Ends the store as `close` does, but gives no memory back: for a process that ends next, which the system takes all memory from.
    pub fn leave(self) -> DeskPass
        ensures { result ≡ self.pass }
    {
        let Store { pass, names, held } = self;
        forget(names);
        forget(held);
        pass
    }

    // What stands for the job at a place: what it holds, or its task in the window.
    fn need_at(
        &self,
        alloc: Global,
        window: &Window,
        place: usize,
    ) -> Result<Need<Held>, AllocError>
        ensures { IfOk result (λ need. need ≡ need_of_place (needs_at self.now.held.items window.now.seats.items) (Some place)) }
    {
        if place < self.held.len() {
            return Ok(Need::Value(self.held[place].copy(alloc)?));
        }
        match window.seats.get(place - self.held.len()) {
            Some(seat) => Ok(seat.asks.need()),
            None => Ok(Need::Value(Held::Unknown)),
        }
    }

    // What stands for a name.
    fn need(&self, alloc: Global, window: &Window, name: &str) -> Result<Need<Held>, AllocError>
        ensures { IfOk result (λ need. need ≡ need_named self.now.names (needs_at self.now.held.items window.now.seats.items) name.now) }
    {
        match self.names.place(name) {
            Some(place) => self.need_at(alloc, window, place),
            None => Ok(Need::Value(Held::Unknown)),
        }
    }

    // What an operation is given for the names in it, in the order in which its fields are read.
    fn needs(&self, alloc: Global, window: &Window, op: &Op) -> Result<Vec<Need<Held>>, AllocError>
        ensures { IfOk result (λ needs. needs.items
            ≡ map (λ text. need_named self.now.names (needs_at self.now.held.items window.now.seats.items) (base_of text)) (names_in op.now)) }
    {
        let mut needs = Vec::new(alloc);
        'names: while let Some(name) = name_at(op, needs.len()) {
            needs.push(self.need(alloc, window, base_name(name))?)?;
        }
        Ok(needs)
    }

    // What a job with this name asks for by an operation: a task of the window, if the name is its own.
    fn ask(
        &self,
        alloc: Global,
        window: &mut Window,
        name: &Name,
        op: Op,
    ) -> Result<Asks, AllocError>
        ensures asked { (line : List ℕ) → Some name.now ≡ name_of line
            → ((lookup : Lookup) → run_line lookup line ≡ run_read lookup (name_of line) (Ok op))
            → IfOk result (λ asks. IsAsked self.now.names self.now.held.items window.old.seats.items window.new.tasks.items line asks) }
        ensures seats { window.new.seats ≡ window.old.seats }
        ensures adds { IfOk result (λ asks. Adds window.old.tasks.items window.new.tasks.items asks) }
        ensures runs { (desk : Desk) → AreRunnable desk self.now.held.items window.old.seats.items window.old.tasks.items → IsFormedOp op
            → OnOk result (AreTasks desk window.new.tasks.items) }
    {
        if self.names.is_taken(name.as_str()) {
            return Ok(Asks::Refused(Outcome::NameTaken));
        }
        let place = window.tasks.len() as u64;
        let n = (self.held.len() + window.seats.len()) as u64 + 1;
        let needs = self.needs(alloc, window, &op)?;
        let after = same_elimination(&window.tasks, &op, &needs);
        window.tasks.push(Task {
            n,
            job: op,
            needs,
            after,
        })?;
        Ok(Asks::Run(place))
    }

    // What a line asks for, as a seat of the window.
    fn seat(
        &self,
        alloc: Global,
        texts: &mut FormulaTexts,
        window: &mut Window,
        line: Option<&[u8]>,
    ) -> Result<Seat, AllocError>
        requires kept { (text : List ℕ) × IsKept (option_copied line) text }
        ensures named { (text : List ℕ) → IsKept (option_copied line.entry) text → IfOk result (λ seat. seat.name ≡ name_of text) }
        ensures asked { (text : List ℕ) → IsKept (option_copied line.entry) text
            → IfOk result (λ seat. IsAsked self.now.names self.now.held.items window.old.seats.items window.new.tasks.items text seat.asks) }
        ensures seats { window.new.seats ≡ window.old.seats }
        ensures adds { IfOk result (λ seat. Adds window.old.tasks.items window.new.tasks.items seat.asks) }
        ensures runs { (desk : Desk) → AreRunnable desk self.now.held.items window.old.seats.items window.old.tasks.items
            → OnOk result (AreTasks desk window.new.tasks.items) }
    {
        match read(alloc, texts, line)? {
            Reading::Job(Job { name, op }) => {
                let asks = self.ask(alloc, window, &name, op)?;
                Ok(Seat {
                    name: Some(name),
                    asks,
                })
            }
            Reading::Refused(name, outcome) => Ok(Seat {
                name,
                asks: Asks::Refused(outcome),
            }),
        }
    }

    /// Gathers the job of one more line into the window. A line that is too long is `None`.
    pub fn gather(
        &mut self,
        alloc: Global,
        texts: &mut FormulaTexts,
        window: &mut Window,
        line: Option<&[u8]>,
    ) -> Result<(), AllocError>
        requires kept { (text : List ℕ) × IsKept (option_copied line) text }
        ensures gathered { (desk : Desk) (earlier : List Past) (lines : List (List ℕ)) (text : List ℕ)
            → IsGathered desk self.old window.old earlier lines → IsKept (option_copied line.entry) text
            → OnOk result (IsGathered desk self.new window.new earlier (lines ++ text ∷ [])) }
        ensures seats { OnOk result (length window.new.seats.items ≡ length window.old.seats.items + 1) }
        ensures pass { self.new.pass ≡ self.old.pass }
    {
        let place = self.held.len() + window.seats.len();
        let seat = self.seat(alloc, texts, window, line)?;
        self.names.learn(alloc, seat.name.as_ref(), place)?;
        window.seats.push(seat)?;
        Ok(())
    }

    /// Keeps what a job holds that was due, for later ones, in the room that was made before its window was run.
    pub fn keep(&mut self, held: Held)
        requires room { length self.old.held.items < vec_capacity self.old.held }
        ensures kept { self.new.held.items ≡ self.old.held.items ++ held ∷ [] }
        ensures room { vec_capacity self.new.held ≡ vec_capacity self.old.held }
        ensures same { (self.new.pass ≡ self.old.pass) × (self.new.names ≡ self.old.names) }
    {
        self.held.push_reserved(held);
    }
}
