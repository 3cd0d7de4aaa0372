//! What a worker passes before it runs a job.

/// Told of each job by the worker that took it, before the job is run: a test can hold one job until another has come.
pub trait Gate: Sync {
    /// Called with the job's number in its session, from 1.
    fn pass(&self, job: u64);

    /// Whether it may hold a job until another one has come, so that these need a worker each.
    fn may_hold(&self) -> bool {
        true
    }
}

/// The gate that holds nothing.
#[derive(Clone, Copy)]
pub struct NoGate;

impl Gate for NoGate {
    fn pass(&self, _job: u64) {}

    fn may_hold(&self) -> bool {
        false
    }
}
