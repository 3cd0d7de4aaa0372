//! Windows of jobs: lines are gathered as tasks that name earlier ones, to be run by several workers over one desk, and answered in order.
#![tactic(auto)]

mod names;
mod reading;
mod replying;
mod seats;
mod store;
mod weights;

pub use replying::ReplyLine;
pub use seats::{Asks, Due, Seat, Window, dues};
pub use store::Store;
