//! The right to run one task.
ghost use Rattle.std.specs.Prelude.{◌≡◌};

/// The right to run the task that was taken, and the values given to its job. It can't be dropped: it is spent by `put`.
pub struct Ticket<H> {
    pub(crate) place: usize,
    pub(crate) given: Vec<H>,
    // Whether another task was ready when this one was taken.
    pub(crate) has_more: bool,
}

impl<H> Ticket<H> {
    ghost use Rattle.job_workers.specs.Tickets.{given_to};

    /// The values given to the job, in the order of the task's needs.
    pub fn given(&self) -> &[H]
        ensures { result.now ≡ given_to self.now }
    {
        &self.given
    }
}
