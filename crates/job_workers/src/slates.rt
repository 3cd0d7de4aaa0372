//! What stands behind the turns of a board.
ghost use Rattle.std.specs.Prelude.{◌≡◌, ◌<◌, true, List, [], ◌∷◌, ◌++◌, IfOk, IfSome, OnErr, MatchBool, MatchOption, All, length};
ghost use mathlib.Core.List.{IsPrefix};
ghost use Rattle.job_workers.specs.Events.{is_done, put_of};
ghost use Rattle.job_workers.specs.Needs.{AreWindow, HoldFitting};
ghost use Rattle.job_workers.specs.Machine.{IsIdle, IsFirstReady};
ghost use Rattle.job_workers.specs.declared.events.Event.TheVariants.{Take, Put};

use crate::events::Event;
use crate::given::gather;
use crate::records::Records;
use crate::runners::Runner;
use crate::tasks::Task;
use crate::tickets::Ticket;
use std::alloc::{AllocError, Global};
use std::marker::Model;
use std::snapshot::Snapshot;
use turn_log::Grows;

/// The events of a board with what was put, and for contracts the tasks and the runner that the board was made with.
pub struct Slate<R: Runner> {
    records: Records<R::Reply, R::Held>,
    tasks: Snapshot<Vec<Task<R::Job, R::Held>>>,
    runner: Snapshot<R>,
}

impl<R: Runner> Model for Slate<R> {
    ghost use Rattle.std.specs.Prelude.{◌≡◌, length};
    ghost use Rattle.job_workers.specs.Slates.{SlateView, IsInOrder};

    ghost Value = { SlateView R.Job R.Held R.Reply R };

    ghost view = { λ s. record { tasks = s.tasks.value.items; runner = s.runner.value; events = s.records.events } };

    ghost invariant = { λ s. (s.records.tasks ≡ length s.tasks.value.items) × IsInOrder R.arity (R.JobFits (R.home s.runner.value)) (R.HeldFits (R.home s.runner.value)) R.sense R.Belongs s.tasks.value.items s.records.events };
}

impl<R: Runner> Drop for Slate<R> {
    fn drop(self) {
        let Slate {
            records: _,
            tasks: _,
            runner: _,
        } = self;
    }
}

impl<R: Runner> Grows for Slate<R> {
    ghost use Rattle.std.specs.Prelude.{List};
    ghost use Rattle.job_workers.specs.declared.tasks.Task.{Task};

    type Entry = Event<R::Reply, R::Held>;

    ghost Home = { List (Task R.Job R.Held) × R.Home };

    ghost entries = { λ s. s.events };

    ghost home = { λ s. (s.tasks, R.home s.runner) };

    fn count(&self) -> u64 {
        self.records.count() as u64
    }
}

impl<R: Runner> Slate<R> {
    ghost use Rattle.job_workers.specs.Records.{slot_at};
    ghost use Rattle.job_workers.specs.Tickets.{place_of, IsFor, Answers, TicketFits};
    ghost use Rattle.job_workers.specs.Slates.{IsInOrder};

    // The slate of tasks of which none is taken.
    pub(crate) fn new(
        alloc: Global,
        runner: &R,
        tasks: &Vec<Task<R::Job, R::Held>>,
    ) -> Result<Slate<R>, AllocError>
        requires { AreWindow R.arity (R.JobFits (R.home runner.now)) (R.HeldFits (R.home runner.now)) tasks.now.items }
        ensures { IfOk result (λ made. made ≡ record { tasks = tasks.now.items; runner = runner.now; events = [] }) }
    {
        let records = Records::new(alloc, tasks.len())?;
        Ok(Slate {
            records,
            tasks: Snapshot::of(tasks),
            runner: Snapshot::of(runner),
        })
    }

    // Takes the first waiting task that may begin.
    pub(crate) fn take_ready(
        &mut self,
        alloc: Global,
        runner: &R,
        tasks: &[Task<R::Job, R::Held>],
    ) -> Result<Option<Ticket<R::Held>>, AllocError>
        requires home { R.home runner.now ≡ R.home self.old.runner }
        requires tasks { tasks.now ≡ self.old.tasks }
        ensures same { (self.new.tasks ≡ self.old.tasks) × (self.new.runner ≡ self.old.runner) }
        ensures order { IsInOrder R.arity (R.JobFits (R.home self.new.runner)) (R.HeldFits (R.home self.new.runner)) R.sense R.Belongs self.new.tasks self.new.events }
        ensures grown { IsPrefix self.old.events self.new.events }
        ensures err { OnErr result (self.new ≡ self.old) }
        ensures taken { IfOk result (λ o. MatchOption o ((self.new.events ≡ self.old.events) × IsIdle tasks.now self.old.events) (λ ticket. IsFirstReady tasks.now self.old.events (place_of ticket) × (self.new.events ≡ self.old.events ++ Take (place_of ticket) ∷ []))) }
        ensures ticket { IfOk result (λ o. IfSome o (IsFor R.sense tasks.now self.new.events)) }
        ensures fits { IfOk result (λ o. IfSome o (TicketFits R.arity (R.JobFits (R.home runner.now)) (R.HeldFits (R.home runner.now)) tasks.now)) }
    {
        let Some(place) = self.records.first_ready(tasks) else {
            return Ok(None);
        };
        let given = gather(alloc, runner, self.records.slots(), &tasks[place].needs)?;
        self.records.take(place);
        let has_more = self.records.first_ready(tasks).is_some();
        Ok(Some(Ticket {
            place,
            given,
            has_more,
        }))
    }

    // Marks the ticket's task as done, unless it is.
    pub(crate) fn put(&mut self, ticket: Ticket<R::Held>, reply: R::Reply, held: R::Held)
        requires ticket { IsFor R.sense self.old.tasks self.old.events ticket }
        requires answer { Answers R.sense self.old.tasks R.Belongs ticket reply held }
        requires fits { R.HeldFits (R.home self.old.runner) held }
        ensures same { (self.new.tasks ≡ self.old.tasks) × (self.new.runner ≡ self.old.runner) }
        ensures order { IsInOrder R.arity (R.JobFits (R.home self.new.runner)) (R.HeldFits (R.home self.new.runner)) R.sense R.Belongs self.new.tasks self.new.events }
        ensures grown { IsPrefix self.old.events self.new.events }
        ensures done { is_done (place_of ticket) self.new.events ≡ true }
        ensures put { MatchBool (is_done (place_of ticket) self.old.events) (self.new.events ≡ self.old.events) (self.new.events ≡ self.old.events ++ Put (place_of ticket) reply held ∷ []) }
    {
        let Ticket {
            place,
            given: _,
            has_more: _,
        } = ticket;
        self.records.put(place, reply, held);
    }

    // What was put for each task.
    pub(crate) fn into_slots(self) -> Vec<Option<(R::Reply, R::Held)>>
        ensures order { IsInOrder R.arity (R.JobFits (R.home self.runner)) (R.HeldFits (R.home self.runner)) R.sense R.Belongs self.tasks self.events }
        ensures length { length result.items ≡ length self.tasks }
        ensures puts { slot_at result.items ≡ put_of self.events }
    {
        let Slate {
            records,
            tasks: _,
            runner: _,
        } = self;
        records.into_slots()
    }
}
