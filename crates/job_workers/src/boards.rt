//! The board of a window, on which workers take and put tasks.
ghost use Rattle.std.specs.Prelude.{◌≡◌, ◌<◌, ℕ, true, List, [], IfOk, IfSome, IfNone, IsSome, Some, slice_get, length};
ghost use mathlib.Core.List.{IsPrefix};
ghost use Rattle.turn_log.specs.Passes.{seen};
ghost use Rattle.turn_log.specs.Rules.{longer};
ghost use Rattle.job_workers.specs.Events.{is_done};
ghost use Rattle.job_workers.specs.Needs.{AreWindow, AreAnswers, HoldFitting};
ghost use Rattle.job_workers.specs.Machine.{IsIdle};
ghost use Rattle.job_workers.specs.Records.{slot_at};

use crate::runners::Runner;
use crate::slates::Slate;
use crate::tasks::Task;
use crate::tickets::Ticket;
use std::alloc::{AllocError, Global};
use std::sync::Wait;
use turn_log::{Pass, TurnLog};

/// Tasks, and a log of what happens to them. The tasks never change. It can't be dropped: it is ended by `close`.
pub struct BoardOf<J, H, L> {
    tasks: Vec<Task<J, H>>,
    log: L,
}

/// A board for the tasks of a runner.
pub type Board<R> = BoardOf<<R as Runner>::Job, <R as Runner>::Held, TurnLog<Slate<R>>>;

/// The right of one worker to take and put tasks, with the events that it has seen.
pub type BoardPass<R> = Pass<Slate<R>>;

impl<J, H, L> BoardOf<J, H, L> {
    ghost use Rattle.job_workers.specs.Boards.{tasks_of};
    ghost use Rattle.job_workers.specs.Tickets.{place_of};

    /// How many tasks there are.
    pub fn count(&self) -> usize
        ensures { result ≡ length (tasks_of self.now) }
    {
        self.tasks.len()
    }

    /// The task of a ticket.
    pub fn task(&self, ticket: &Ticket<H>) -> &Task<J, H>
        requires { place_of ticket.now < length (tasks_of self.now) }
        ensures { slice_get (tasks_of self.now) (place_of ticket.now) ≡ Some result.now }
    {
        &self.tasks[ticket.place]
    }
}

impl<R: Runner> BoardOf<R::Job, R::Held, TurnLog<Slate<R>>> {
    ghost use Rattle.job_workers.specs.Boards.{tasks_of, runner_of, IsPassOf, TakesFirst, PutsOnce, EndsWith};
    ghost use Rattle.job_workers.specs.Tickets.{place_of, IsFor, Answers, TicketFits};

    /// A board on which every task waits, and its first pass. The slots and the room for two events a task are allocated here.
    pub fn new(
        alloc: Global,
        runner: &R,
        tasks: Vec<Task<R::Job, R::Held>>,
    ) -> Result<(Board<R>, BoardPass<R>), AllocError>
        requires { AreWindow R.arity (R.JobFits (R.home runner.now)) (R.HeldFits (R.home runner.now)) tasks.items }
        ensures tasks { IfOk result (λ made. tasks_of made.0 ≡ tasks.items) }
        ensures home { IfOk result (λ made. R.home (runner_of made.0) ≡ R.home runner.now) }
        ensures pass { IfOk result (λ made. IsPassOf R.sense R.Belongs made.0 made.1) }
        ensures seen { IfOk result (λ made. seen made.1 ≡ []) }
    {
        let slate = Slate::new(alloc, runner, &tasks)?;
        let (log, pass) = TurnLog::new(alloc, slate)?;
        Ok((BoardOf { tasks, log }, pass))
    }

    /// Takes the first waiting task all of whose needs are done, and the task that it follows, with copies of the values that it is given.
    /// `None` where no waiting task is ready at this turn. Without memory for the copies the turn changes nothing.
    pub fn take<W: Wait>(
        &self,
        rt: &W,
        alloc: Global,
        runner: &R,
        pass: &mut BoardPass<R>,
    ) -> Result<Option<Ticket<R::Held>>, AllocError>
        requires pass { IsPassOf R.sense R.Belongs self.now pass.old }
        requires home { R.home runner.now ≡ R.home (runner_of self.now) }
        ensures pass { IsPassOf R.sense R.Belongs self.now pass.new }
        ensures grown { IsPrefix (seen pass.old) (seen pass.new) }
        ensures idle { IfOk result (λ o. IfNone o (IsIdle (tasks_of self.now) (seen pass.new))) }
        ensures first { IfOk result (λ o. IfSome o (λ ticket. TakesFirst (seen pass.old) (seen pass.new) (tasks_of self.now) (place_of ticket))) }
        ensures ticket { IfOk result (λ o. IfSome o (IsFor R.sense (tasks_of self.now) (seen pass.new))) }
        ensures fits { IfOk result (λ o. IfSome o (TicketFits R.arity (R.JobFits (R.home runner.now)) (R.HeldFits (R.home runner.now)) (tasks_of self.now))) }
    {
        let mut turn = self.log.take(rt, pass);
        let taken = turn.value_mut().take_ready(alloc, runner, &self.tasks);
        self.log.give(pass, turn);
        taken
    }

    /// Marks the ticket's task as done, with its reply and the value that it holds. Where it is done already they are dropped.
    pub fn put<W: Wait>(
        &self,
        rt: &W,
        pass: &mut BoardPass<R>,
        ticket: Ticket<R::Held>,
        reply: R::Reply,
        held: R::Held,
    )
        requires pass { IsPassOf R.sense R.Belongs self.now pass.old }
        requires ticket { IsFor R.sense (tasks_of self.now) (seen pass.old) ticket }
        requires answer { Answers R.sense (tasks_of self.now) R.Belongs ticket reply held }
        requires fits { R.HeldFits (R.home (runner_of self.now)) held }
        ensures pass { IsPassOf R.sense R.Belongs self.now pass.new }
        ensures grown { IsPrefix (seen pass.old) (seen pass.new) }
        ensures done { is_done (place_of ticket) (seen pass.new) ≡ true }
        ensures put { PutsOnce (seen pass.old) (seen pass.new) (place_of ticket) reply held }
    {
        let mut turn = self.log.take(rt, pass);
        turn.value_mut().put(ticket, reply, held);
        self.log.give(pass, turn);
    }

    /// A pass that has seen the same, for another worker.
    pub fn split(&self, pass: &mut BoardPass<R>) -> BoardPass<R>
        requires { IsPassOf R.sense R.Belongs self.now pass.old }
        ensures pass { IsPassOf R.sense R.Belongs self.now pass.new }
        ensures other { IsPassOf R.sense R.Belongs self.now result }
        ensures seen { (seen pass.new ≡ seen pass.old) × (seen result ≡ seen pass.old) }
    {
        self.log.split(pass)
    }

    /// Takes the pass of another worker in. Of what the two had seen the one begins the other, and the pass has then seen the longer.
    pub fn join(&self, pass: &mut BoardPass<R>, other: BoardPass<R>)
        requires pass { IsPassOf R.sense R.Belongs self.now pass.old }
        requires other { IsPassOf R.sense R.Belongs self.now other }
        ensures pass { IsPassOf R.sense R.Belongs self.now pass.new }
        ensures seen { seen pass.new ≡ longer (seen pass.old) (seen other) }
        ensures first { IsPrefix (seen pass.old) (seen pass.new) }
        ensures second { IsPrefix (seen other) (seen pass.new) }
    {
        self.log.join(pass, other);
    }

    /// Ends the board: its tasks, and for each of them what was put, in order.
    pub fn close<W: Wait>(
        self,
        rt: &W,
        pass: BoardPass<R>,
    ) -> (Vec<Task<R::Job, R::Held>>, Vec<Option<(R::Reply, R::Held)>>)
        requires { IsPassOf R.sense R.Belongs self pass }
        ensures tasks { result.0.items ≡ tasks_of self }
        ensures length { length result.1.items ≡ length (tasks_of self) }
        ensures last { EndsWith R.sense R.Belongs (tasks_of self) (seen pass) (slot_at result.1.items) }
        ensures answers { AreAnswers R.sense R.Belongs (tasks_of self) (slot_at result.1.items) }
        ensures fits { HoldFitting (R.HeldFits (R.home (runner_of self))) (slot_at result.1.items) }
        ensures done { (place : ℕ) → is_done place (seen pass) ≡ true → IsSome (slot_at result.1.items place) }
    {
        let BoardOf { tasks, log } = self;
        let slots = log.close(rt, pass).into_slots();
        (tasks, slots)
    }
}
