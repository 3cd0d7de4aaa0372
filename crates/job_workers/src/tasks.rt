//! The tasks of a window.

/// What a job is given in one place: a held value, or what an earlier task of the window will hold.
#[derive(Drop)]
pub enum Need<H> {
    /// The value itself.
    Value(H),
    /// What the task at this place holds once it is done. The first task of a window stands at place 0.
    Task(u64),
}

/// A job of a window, with what it is given.
#[derive(Drop)]
pub struct Task<J, H> {
    /// The job's number in its session, from 1. The gate is told it.
    pub n: u64,
    /// The job.
    pub job: J,
    /// What the job is given, in order.
    pub needs: Vec<Need<H>>,
    /// The place of an earlier task whose work this one finds done, if there is one. It isn't begun before that one is done, so that no two
    /// workers do the same at the same time.
    pub after: Option<u64>,
}
