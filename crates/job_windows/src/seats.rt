//! The jobs of a window, before and after they are run.
ghost use Rattle.std.specs.Prelude.{◌≡◌, ◌≤◌, ◌∷◌, [], ℕ, List, map, Some, drop, length, slice_get, vec_capacity};
ghost use Rattle.held_values.specs.declared.held.Held.{Held as HeldMeaning};
ghost use Rattle.reply_lines.specs.declared.replies.Outcome.{Outcome as OutcomeMeaning};
ghost use Rattle.job_windows.specs.declared.seats.Seat.{Seat as SeatMeaning};
ghost use Rattle.job_windows.specs.Windows.{need_by, AreInOrder, due_by};

use crate::weights::{WORK_OF_A_WORKER, work_of};
use held_values::Held;
use job_lang::Op;
use job_words::Name;
use job_workers::{Need, Task};
use reply_lines::Outcome;
use std::alloc::Global;
use std::collections::VecDeque;

// To read so many bytes of a line and what they tell of is a unit of work.
const BYTES_OF_A_UNIT: u64 = 16;

/// What the line of a job asks for.
#[derive(Drop)]
pub enum Asks {
    /// Nothing: it is refused before it is run.
    Refused(Outcome),
    /// The task at this place of the window.
    Run(u64),
}

/// A job of a window: its name, where its line has one, and what it asks for.
#[derive(Drop)]
pub struct Seat {
    pub name: Option<Name>,
    pub asks: Asks,
}

/// The jobs that are gathered to be run, in the order of their lines, and the tasks of those that are.
#[derive(Drop)]
pub struct Window {
    pub seats: Vec<Seat>,
    pub tasks: Vec<Task<Op, Held>>,
}

/// What a job is answered: its name, the outcome, and what it holds.
#[derive(Drop)]
pub struct Due {
    pub name: Option<Name>,
    pub outcome: Outcome,
    pub held: Held,
}

impl Asks {
    /// What an operation is given that names the job.
    pub fn need(&self) -> Need<Held>
        ensures { result ≡ need_by self.now }
    {
        match self {
            Asks::Refused(_) => Need::Value(Held::Refused),
            Asks::Run(place) => Need::Task(*place),
        }
    }
}

impl Window {
    /// A window with no job.
    pub fn new(alloc: Global) -> Window
        ensures { (result.seats.items ≡ []) × (result.tasks.items ≡ []) }
    {
        Window {
            seats: Vec::new(alloc),
            tasks: Vec::new(alloc),
        }
    }

    /// How many jobs there are.
    pub fn len(&self) -> usize
        ensures { result ≡ length self.now.seats.items }
    {
        self.seats.len()
    }

    /// How many workers may be worth their threads, where the jobs' lines have so many bytes in all: one, and one more for each 16 KiB and for
    /// as much other work. The threads for a window of a few small proofs would take longer than its jobs.
    pub fn worthwhile_workers(&self, bytes: u64) -> u64 {
        let mut work = bytes / BYTES_OF_A_UNIT;
        for task in &self.tasks {
            work = work.saturating_add(work_of(&self.tasks, task));
        }
        (work / WORK_OF_A_WORKER).saturating_add(1)
    }
}

// What is due for the job of a seat: where it is a task, the first of the answers that are left.
fn due_of(seat: Seat, answers: &mut VecDeque<(Outcome, Held)>) -> Due
    requires { (all : List (OutcomeMeaning × HeldMeaning)) × (k : ℕ) × (seats : List SeatMeaning)
        × AreInOrder k (seat ∷ seats) (length all) × (answers.old.items ≡ drop k all) }
    ensures { (all : List (OutcomeMeaning × HeldMeaning)) (k : ℕ) (seats : List SeatMeaning)
        → AreInOrder k (seat ∷ seats) (length all) → answers.old.items ≡ drop k all
        → (due_by (slice_get all) seat ≡ Some result)
        × ((next : ℕ) × AreInOrder next seats (length all) × (answers.new.items ≡ drop next all)) }
{
    let Seat { name, asks } = seat;
    match asks {
        Asks::Refused(outcome) => Due {
            name,
            outcome,
            held: Held::Refused,
        },
        Asks::Run(_) => {
            let (outcome, held) = answers.pop_front().unwrap();
            Due {
                name,
                outcome,
                held,
            }
        }
    }
}

/// What is due for each job of a window, in order, by the answers of its tasks. The room for it is handed in.
pub fn dues(seats: Vec<Seat>, answers: Vec<(Outcome, Held)>, mut room: Vec<Due>) -> Vec<Due>
    requires ordered { AreInOrder 0 seats.items (length answers.items) }
    requires empty { room.items ≡ [] }
    requires room { length seats.items ≤ vec_capacity room }
    ensures { map (due_by (slice_get answers.items)) seats.items ≡ map Some result.items }
{
    let mut answers = VecDeque::from(answers);
    for seat in seats {
        room.push_reserved(due_of(seat, &mut answers));
    }
    room
}
