//! What runs the jobs of a window.
ghost use Rattle.std.specs.Prelude.{◌≡◌, ℕ, List, length, map, All, IfOk};
ghost use denote.Param.Send.{IsSync};

use std::alloc::{AllocError, Global};
use std::sync::Wait;
use std::thread::Threads;

/// What runs jobs. A runner has a home, which contracts alone speak of: what its passes, jobs and held values have to fit.
pub trait Runner: Sync {
    /// What is run.
    type Job: Send + Sync + Drop;

    /// What a job leaves for later jobs, beside its reply.
    type Held: Send + Sync + Drop;

    /// What a job answers.
    type Reply: Send + Drop;

    /// The right of one worker to run jobs.
    type Pass: Send + Drop;

    /// What a home is.
    ghost Home: { Type 0 };

    /// The home of a runner.
    ghost home: { Self → Home };

    /// What held values mean. Values that mean the same serve a job alike.
    ghost Sense: { Type 0 };

    /// The meaning of a held value.
    ghost sense: { Self.Held → Sense };

    /// How many values a job is given.
    ghost arity: { Self.Job → ℕ };

    /// Which reply and held value belong to a job and the values given.
    ghost Belongs: { Self.Job → List Sense → Self.Reply → Sense → Type 0 };

    /// The passes that fit a home.
    ghost PassFits: { Home → Self.Pass → Type 0 };

    /// The jobs that fit a home.
    ghost JobFits: { Home → Self.Job → Type 0 };

    /// The held values that fit a home.
    ghost HeldFits: { Home → Self.Held → Type 0 };

    /// Runs a job. What it answers where memory ran out is a reply that belongs to the job too.
    fn run<W: Threads + Wait + Sync>(
        &self,
        rt: &W,
        alloc: Global,
        pass: &mut Self::Pass,
        job: &Self::Job,
        given: &[Self::Held],
    ) -> (Self::Reply, Self::Held)
        requires sync { IsSync W.row }
        requires pass { PassFits (home self.now) pass.old }
        requires job { JobFits (home self.now) job.now }
        requires given { All (HeldFits (home self.now)) given.now }
        requires count { length given.now ≡ arity job.now }
        ensures belongs { Belongs job.now (map sense given.now) result.0 (sense result.1) }
        ensures pass { PassFits (home self.now) pass.new }
        ensures held { HeldFits (home self.now) result.1 };

    /// Another value that means the same.
    fn keep(&self, alloc: Global, held: &Self::Held) -> Result<Self::Held, AllocError>
        requires { HeldFits (home self.now) held.now }
        ensures fits { IfOk result (HeldFits (home self.now)) }
        ensures same { IfOk result (λ kept. sense kept ≡ sense held.now) };

    /// A pass for another worker.
    fn split(&self, pass: &mut Self::Pass) -> Self::Pass
        requires { PassFits (home self.now) pass.old }
        ensures pass { PassFits (home self.now) pass.new }
        ensures other { PassFits (home self.now) result };

    /// Takes the pass of another worker in.
    fn join(&self, pass: &mut Self::Pass, other: Self::Pass)
        requires pass { PassFits (home self.now) pass.old }
        requires other { PassFits (home self.now) other }
        ensures { PassFits (home self.now) pass.new };
}
