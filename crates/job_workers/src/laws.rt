//! The laws of the machine of a board. The function does nothing: its contract is the law.
ghost use Rattle.std.specs.Prelude.{ℕ, List, ◌≤◌};
ghost use Rattle.std.specs.List.{count_by};
ghost use Rattle.job_workers.specs.declared.events.Event.{Event};
ghost use Rattle.job_workers.specs.declared.tasks.Task.{Task};
ghost use Rattle.job_workers.specs.Events.{takes, puts};
ghost use Rattle.job_workers.specs.Machine.{IsRun, IsGood};

use crate::runners::Runner;

/// After each run of the machine the board is good, and each task was taken at most once and done at most once.
pub fn board_laws<R: Runner>()
    ensures good { (tasks : List (Task R.Job R.Held)) (events : List (Event R.Reply R.Held)) → IsRun tasks R.sense R.Belongs events → IsGood tasks R.sense R.Belongs events }
    ensures taken_once { (tasks : List (Task R.Job R.Held)) (events : List (Event R.Reply R.Held)) → IsRun tasks R.sense R.Belongs events → (place : ℕ) → count_by (takes place) events ≤ 1 }
    ensures done_once { (tasks : List (Task R.Job R.Held)) (events : List (Event R.Reply R.Held)) → IsRun tasks R.sense R.Belongs events → (place : ℕ) → count_by (puts place) events ≤ 1 }
{}
