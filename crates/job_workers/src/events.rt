//! What happens on a board.

/// One turn on a board that changed it. No value of it is made: the events are what contracts see of a board.
pub enum Event<P, H> {
    /// The task at this place was taken by a worker.
    Take(u64),
    /// The task at this place was done, with its reply and the value that it holds.
    Put(u64, P, H),
}
